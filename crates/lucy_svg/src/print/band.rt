// Stairs: how a number goes up and down from instant to instant.
ghost use Rattle.std.specs.Prelude.{OnOk};
ghost use Rattle.lucy_picture.specs.Holding.{Extends};

use crate::print::ink::put_made;
use crate::print::lane::Lanes;
use std::alloc::{AllocError, Global};

/// A band that stairs stand in: its upper edge, its height, and the number that is as high.
#[derive(Clone, Copy)]
pub(crate) struct Band {
    pub top: u64,
    pub height: u64,
    pub most: u64,
}

/// The greatest of numbers, or 0.
pub(crate) fn most_of(numbers: &[u64]) -> u64 {
    let mut most = 0;
    for number in numbers {
        most = most.max(*number);
    }
    most
}

impl Band {
    /// Where it ends below.
    pub(crate) fn bottom(&self) -> u64 {
        self.top.saturating_add(self.height)
    }

    // How high a number stands, in tenths.
    fn height_of(&self, number: u64) -> u64 {
        let whole = number.saturating_mul(self.height).saturating_mul(10);
        let most = self.most.max(1);
        let bottom = self.bottom().saturating_mul(10);
        bottom.saturating_sub(whole / most)
    }

    // Puts a step last, at this distance, to a number, where the last one was another.
    fn put_step(
        &self,
        alloc: Global,
        x: u64,
        last: u64,
        number: u64,
        out: &mut Vec<u8>,
    ) -> Result<(), AllocError>
        ensures { OnOk result (Extends out.old.items out.new.items) }
    {
        if number == last {
            return Ok(());
        }
        let y = self.height_of(number);
        let whole = y / 10;
        let tenths = y % 10;
        put_made(out, format!(in alloc; "H{x}V{whole}.{tenths}"))
    }

    // Puts the steps last.
    fn put_steps(
        &self,
        alloc: Global,
        lanes: &Lanes,
        numbers: &[u64],
        out: &mut Vec<u8>,
    ) -> Result<(), AllocError>
        ensures { OnOk result (Extends out.old.items out.new.items) }
    {
        let mut last = 0;
        'each: for (i, number) in numbers.iter().enumerate() {
            self.put_step(alloc, lanes.end(i as u64), last, *number, out)?;
            last = *number;
        }
        Ok(())
    }

    // Puts the ends of stairs last, behind the last instant, on the ground where it is said.
    fn put_end(
        &self,
        alloc: Global,
        lanes: &Lanes,
        closed: bool,
        out: &mut Vec<u8>,
    ) -> Result<(), AllocError>
        ensures { OnOk result (Extends out.old.items out.new.items) }
    {
        let end = lanes.width();
        if closed {
            let ground = self.bottom();
            return put_made(out, format!(in alloc; "H{end}V{ground}H0z\"/>"));
        }
        put_made(out, format!(in alloc; "H{end}\"/>"))
    }

    /// Puts the stairs of numbers last, of this class, which begin on the ground and where it is said end there.
    pub(crate) fn put_stairs(
        &self,
        alloc: Global,
        lanes: &Lanes,
        class: &str,
        numbers: &[u64],
        closed: bool,
        out: &mut Vec<u8>,
    ) -> Result<(), AllocError>
        ensures { OnOk result (Extends out.old.items out.new.items) }
    {
        let ground = self.bottom();
        put_made(
            out,
            format!(in alloc; "<path class=\"{class}\" d=\"M0 {ground}"),
        )?;
        self.put_steps(alloc, lanes, numbers, out)?;
        self.put_end(alloc, lanes, closed, out)
    }
}
