// Lists that contracts see as lists.
ghost use Rattle.std.specs.Prelude.{◌≡◌};

use crate::entry::{CallSite, PlaceEntry};
use std::marker::Model;

/// Numbers in order. Contracts see their list.
#[derive(Drop)]
pub struct Numbers {
    list: Vec<u32>,
}

impl Model for Numbers {
    ghost use Rattle.std.specs.Prelude.{List, ℕ};

    ghost Value = { List ℕ };

    ghost view = { λ numbers. numbers.list.items };
}

impl Numbers {
    /// These numbers.
    pub fn new(list: Vec<u32>) -> Numbers
        ensures { result ≡ list.items }
    {
        Numbers { list }
    }

    /// The numbers.
    pub fn list(&self) -> &[u32]
        ensures { result.now ≡ self.now }
    {
        &self.list
    }
}

/// The written bounds of the buffers of a node in order of their numbers, the first of which is 1, in items: None, where none
/// is written. Contracts see their list.
#[derive(Drop)]
pub struct Bounds {
    list: Vec<Option<u64>>,
}

impl Model for Bounds {
    ghost use Rattle.std.specs.Prelude.{List, Option, ℕ};

    ghost Value = { List (Option ℕ) };

    ghost view = { λ bounds. bounds.list.items };
}

impl Bounds {
    /// These bounds.
    pub fn new(list: Vec<Option<u64>>) -> Bounds
        ensures { result ≡ list.items }
    {
        Bounds { list }
    }

    /// The bounds.
    pub fn list(&self) -> &[Option<u64>]
        ensures { result.now ≡ self.now }
    {
        &self.list
    }
}

/// The places of a node in order of their numbers, the first of which is 1. Contracts see their list.
#[derive(Drop)]
pub struct Places {
    list: Vec<PlaceEntry>,
}

impl Model for Places {
    ghost use Rattle.std.specs.Prelude.{List};
    ghost use Rattle.lucy_place.specs.declared.entry.PlaceEntry.{PlaceEntry};

    ghost Value = { List PlaceEntry };

    ghost view = { λ places. places.list.items };
}

impl Places {
    /// These places.
    pub fn new(list: Vec<PlaceEntry>) -> Places
        ensures { result ≡ list.items }
    {
        Places { list }
    }

    /// The places.
    pub fn list(&self) -> &[PlaceEntry]
        ensures { result.now ≡ self.now }
    {
        &self.list
    }
}

/// The calls of a node in order of their numbers, the first of which is 1. Contracts see their list.
#[derive(Drop)]
pub struct Calls {
    list: Vec<CallSite>,
}

impl Model for Calls {
    ghost use Rattle.std.specs.Prelude.{List};
    ghost use Rattle.lucy_place.specs.declared.entry.CallSite.{CallSite};

    ghost Value = { List CallSite };

    ghost view = { λ calls. calls.list.items };
}

impl Calls {
    /// These calls.
    pub fn new(list: Vec<CallSite>) -> Calls
        ensures { result ≡ list.items }
    {
        Calls { list }
    }

    /// The calls.
    pub fn list(&self) -> &[CallSite]
        ensures { result.now ≡ self.now }
    {
        &self.list
    }
}
