// The instants at which a word has its ones, and how many it has had, by its marks.
ghost use Rattle.std.specs.Prelude.{ℕ, ◌≡◌, ◌+◌, ◌<◌, ◌^◌, ◌∷◌, ◌++◌, [], IfOk, OnOk, if◌then◌else◌};
ghost use Rattle.lucy_word.specs.Bits.{Bits, one_if};
ghost use Rattle.lucy_picture.specs.Charts.{marks_of};
ghost use Rattle.lucy_svg.specs.Flows.{counts_of};
ghost use Rattle.lucy_svg.specs.Ones.{AreOnes};

use std::alloc::{AllocError, Global};

// One more number.
fn push(numbers: &mut Vec<u64>, number: u64) -> Result<(), AllocError>
    ensures { OnOk result (numbers.new.items ≡ numbers.old.items ++ number ∷ []) }
{
    numbers.push(number)?;
    Ok(())
}

// One more instant, where a mark stands there.
fn push_if(instants: &mut Vec<u64>, mark: bool, instant: u64) -> Result<(), AllocError>
    ensures { OnOk result (instants.new.items ≡ instants.old.items ++ (if mark then instant ∷ [] else [])) }
{
    if mark {
        push(instants, instant)
    } else {
        Ok(())
    }
}

// One more, where there is a mark.
fn counted(count: u64, mark: bool) -> u64
    requires { count < 2 ^ 63 }
    ensures { result ≡ count + one_if mark }
{
    if mark { count + 1 } else { count }
}

/// The instants, from 1 on, at which there are marks, in order.
pub(crate) fn ones(alloc: Global, marks: &[bool]) -> Result<Vec<u64>, AllocError>
    ensures { (w : Bits) (shown : ℕ) → marks.now ≡ marks_of w shown → IfOk result (λ v. AreOnes w shown v.items) }
{
    let mut instants = Vec::new(alloc);
    'each: for i in 0..marks.len() {
        let mark = marks[i];
        push_if(&mut instants, mark, i as u64 + 1)?;
    }
    Ok(instants)
}

/// How many marks there are up to each instant, that of the instant included.
pub(crate) fn counts(alloc: Global, marks: &[bool]) -> Result<Vec<u64>, AllocError>
    ensures { (w : Bits) (shown : ℕ) → marks.now ≡ marks_of w shown → IfOk result (λ v. v.items ≡ counts_of w shown) }
{
    let mut counts = Vec::new(alloc);
    let mut count = 0;
    'each: for i in 0..marks.len() {
        let mark = marks[i];
        count = counted(count, mark);
        push(&mut counts, count)?;
    }
    Ok(counts)
}
