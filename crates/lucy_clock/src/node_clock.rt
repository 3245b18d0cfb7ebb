// The clocks of a node.
ghost use Rattle.std.specs.Prelude.{◌≡◌};

use crate::signature::Words;
use std::marker::Model;

/// Numbers of 64 bits in order. Contracts see their list.
#[derive(Drop)]
pub struct Numbers64 {
    list: Vec<u64>,
}

impl Model for Numbers64 {
    ghost use Rattle.std.specs.Prelude.{List, ℕ};

    ghost Value = { List ℕ };

    ghost view = { λ numbers. numbers.list.items };
}

impl Numbers64 {
    /// These numbers.
    pub fn new(list: Vec<u64>) -> Numbers64
        ensures { result ≡ list.items }
    {
        Numbers64 { list }
    }

    /// The numbers.
    pub fn list(&self) -> &[u64]
        ensures { result.now ≡ self.now }
    {
        &self.list
    }
}

/// The clocks of a node: the word of each clock by its number, the base first, and the sizes of the buffers in items, by the
/// numbers of the buffers from 1.
#[derive(Drop)]
pub struct NodeClock {
    pub words: Words,
    pub sizes: Numbers64,
}
