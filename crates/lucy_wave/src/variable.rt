// What a variable shows.
ghost use Rattle.std.specs.Prelude.{◌≡◌, ◌≤◌};
ghost use Rattle.lucy_word.specs.Bits.{bit_at, one_if};
ghost use Rattle.lucy_picture.specs.Charts.{waiting};
ghost use Rattle.lucy_wave.specs.Waves.{last_item};
ghost use Rattle.lucy_wave.specs.Dumps.{is_changed};
ghost use Rattle.lucy_wave.specs.Seen.{seen};

use lucy_word::Word;

/// A variable of a dump.
#[derive(Clone, Copy)]
pub(crate) enum Variable<'a> {
    /// Whether the stream of a name has an item, by its word.
    There(&'a [u8], &'a Word),
    /// The item of the stream of a name that came last, by its word and its items; 0 before the first.
    Last(&'a [u8], &'a Word, &'a [i64]),
    /// How many items wait in the buffer of a number, from 1, by the words that it is written and read on.
    Waiting(u64, &'a Word, &'a Word),
}

// Whether a stream has an item at an instant, as a number.
fn there_at(word: &Word, instant: u64) -> u64
    requires { 1 ≤ instant }
    ensures { result ≡ one_if (bit_at word.now instant) }
{
    if word.bit(instant) { 1 } else { 0 }
}

// The last of so many items, and 0 where there is none.
fn last_item(items: &[i64], count: u64) -> i64
    ensures { result ≡ last_item items.now count }
{
    match count.checked_sub(1) {
        None => 0,
        Some(place) => match items.get(place as usize) {
            None => 0,
            Some(item) => *item,
        },
    }
}

// How many items wait at an instant.
fn waiting_at(write: &Word, read: &Word, instant: u64) -> u64
    ensures { result ≡ waiting write.now read.now instant }
{
    write.ones(instant).saturating_sub(read.ones(instant))
}

impl<'a> Variable<'a> {
    /// Whether it has 64 bits, and not one.
    pub(crate) fn is_wide(&self) -> bool
        ensures { result ≡ (seen self.now).is_wide }
    {
        match self {
            Variable::There(..) => false,
            _ => true,
        }
    }

    /// Its value at a step.
    pub(crate) fn value(&self, step: u64) -> u64
        requires { 1 ≤ step }
        ensures { result ≡ (seen self.now).value step }
    {
        match self {
            Variable::There(_, word) => there_at(word, step),
            Variable::Last(_, word, items) => last_item(items, word.ones(step)).cast_unsigned(),
            Variable::Waiting(_, write, read) => waiting_at(write, read, step),
        }
    }

    /// Whether its value at a step is another than a step before; at the first step it counts as changed.
    pub(crate) fn is_changed(&self, step: u64) -> bool
        requires { 1 ≤ step }
        ensures { result ≡ is_changed (seen self.now).value step }
    {
        step == 1 || self.value(step) != self.value(step - 1)
    }
}
