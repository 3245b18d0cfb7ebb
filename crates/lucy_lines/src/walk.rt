// The values of an output one instant after another.
ghost use Rattle.std.specs.Prelude.{◌≡◌, drop, slice_get};
ghost use Rattle.lucy_lines.specs.Walks.{next_value, IsStepped};

use crate::OutputSpec;
use lucy_host::DataType;
use lucy_word::Walk;
use std::marker::Model;

// An output that is walked along, seen as what is left of its word and how many items of its list are behind.
#[derive(Drop)]
pub(crate) struct OutputWalk<'a> {
    output: &'a OutputSpec,
    bits: Walk<'a>,
    place: usize,
}

impl<'a> Model for OutputWalk<'a> {
    ghost use Rattle.lucy_lines.specs.Walks.{WalkState};

    ghost Value = { WalkState };

    ghost view = { λ w. record { output = w.output.now; bits = w.bits; place = w.place } };
}

impl<'a> OutputWalk<'a> {
    // From the first instant and the first item on.
    pub(crate) fn new(output: &'a OutputSpec) -> OutputWalk<'a>
        ensures { result ≡ record { output = output.now; bits = output.now.word; place = 0 } }
    {
        OutputWalk {
            output,
            bits: output.word.walk(),
            place: 0,
        }
    }

    // The next list begins.
    pub(crate) fn begin_list(&mut self)
        ensures { self.new ≡ record self.old { place = 0 } }
    {
        self.place = 0;
    }

    // The bytes of the output's name.
    pub(crate) fn name(&self) -> &[u8]
        ensures { result.now ≡ self.now.output.name }
    {
        self.output.name.bytes()
    }

    // The type of the output's values.
    pub(crate) fn holds(&self) -> DataType
        ensures { result ≡ self.now.output.holds }
    {
        self.output.holds
    }

    // The next item of the list, which is left behind.
    fn item(&mut self, items: &[i64]) -> Option<i64>
        ensures value { result ≡ slice_get items.now self.old.place }
        ensures rest { drop self.new.place items.now ≡ drop 1 (drop self.old.place items.now) }
        ensures same { self.new ≡ record self.old { place = self.new.place } }
    {
        let item = items.get(self.place)?;
        self.place += 1;
        Some(*item)
    }

    // The value at the next instant, which is left behind.
    pub(crate) fn step(&mut self, items: &[i64]) -> Option<i64>
        ensures value { result ≡ next_value self.old items.now }
        ensures rest { IsStepped items.now self.old self.new }
    {
        if self.bits.step() {
            self.item(items)
        } else {
            None
        }
    }
}
