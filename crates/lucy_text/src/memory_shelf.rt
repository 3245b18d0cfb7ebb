ghost use Rattle.std.specs.Prelude.{◌≡◌, ◌≢◌, ◌≤◌, ◌↔◌, Some, None, length, Contains, IfOk, IsSome};
ghost use Rattle.lucy_text.specs.Outside.{one_more};
ghost use Rattle.lucy_text.specs.Shelf.{IsLonger, CountsFaults};
ghost use Rattle.lucy_text.specs.MemoryShelf.{NamedList, held, ShelfState, shelf_after, shelf_after_fault};

use crate::calls::Calls;
use crate::files::NamedFiles;
use crate::{Shelf, ShelfError};
use std::alloc::Global;
use std::marker::Model;

/// Files in memory, of which the first of a name is held. All fetches are counted. Those whose
/// numbers, from 1, are in `fails` fail where the name is held. The number of fetches stands still
/// at the greatest u64.
#[derive(Drop)]
pub struct MemShelf {
    files: NamedFiles,
    calls: Calls,
}

impl Model for MemShelf {
    ghost Value = { ShelfState };

    ghost view = { λ s. record {
      files = s.files;
      fails = s.calls.fails.items;
      calls = s.calls.made;
      faults = s.calls.faults;
    } };
}

impl MemShelf {
    /// A shelf from which nothing was fetched yet. The files are names and their bytes.
    pub fn new(files: Vec<(String, Vec<u8>)>, fails: Vec<u64>) -> MemShelf
        ensures { result
            ≡ record { files = files.items; fails = fails.items; calls = 0; faults = 0 } }
    {
        MemShelf {
            files: NamedFiles::new(files),
            calls: Calls::new(fails),
        }
    }
}

impl Shelf for MemShelf {
    ghost seen = { λ s. record { files = Some (held s.files); faults = s.faults; fetches = Some s.calls } };

    fn fetch(&mut self, alloc: Global, name: &str, limit: u64) -> Result<Vec<u8>, ShelfError>
        ensures fails { (result ≡ Err ShelfError.Failed)
            ↔ (Contains self.old.fails (one_more self.old.calls) × IsSome (held self.old.files name.now)) }
        ensures ok { IfOk result (λ bytes. held self.old.files name.now ≡ Some bytes.items) }
        ensures within { IfOk result (λ bytes. length bytes.items ≤ limit) }
        ensures missing { (result ≡ Err ShelfError.Missing) ↔ (held self.old.files name.now ≡ None) }
        ensures too_long { (result ≡ Err ShelfError.TooLong)
            ↔ (IsLonger (held self.old.files name.now) limit × (result ≢ Err ShelfError.Failed)) }
        ensures failed { result ≡ Err ShelfError.Failed → self.new ≡ shelf_after_fault self.old }
        ensures not_failed { result ≢ Err ShelfError.Failed → self.new ≡ shelf_after self.old }
        ensures never_falls { self.old.faults ≤ self.new.faults }
        ensures cause { CountsFaults self.old.faults self.new.faults result }
    {
        if self.calls.next_fails() && self.files.find(name).is_some() {
            self.calls.fault();
            return Err(ShelfError::Failed);
        }
        self.files.copy(alloc, name, limit)
    }
}

/// Files in memory, of which the first of a name is held. No fetch fails.
#[derive(Drop)]
pub struct SteadyShelf {
    files: NamedFiles,
}

impl Model for SteadyShelf {
    ghost Value = { NamedList };

    ghost view = { λ s. s.files };
}

impl SteadyShelf {
    /// A shelf of these files, which are names and their bytes.
    pub fn new(files: Vec<(String, Vec<u8>)>) -> SteadyShelf
        ensures { result ≡ files.items }
    {
        SteadyShelf {
            files: NamedFiles::new(files),
        }
    }
}

impl Shelf for SteadyShelf {
    ghost seen = { λ s. record { files = Some (held s); faults = 0; fetches = None } };

    fn fetch(&mut self, alloc: Global, name: &str, limit: u64) -> Result<Vec<u8>, ShelfError>
        ensures ok { IfOk result (λ bytes. held self.old name.now ≡ Some bytes.items) }
        ensures within { IfOk result (λ bytes. length bytes.items ≤ limit) }
        ensures missing { (result ≡ Err ShelfError.Missing) ↔ (held self.old name.now ≡ None) }
        ensures too_long { (result ≡ Err ShelfError.TooLong) ↔ IsLonger (held self.old name.now) limit }
        ensures never_fails { result ≢ Err ShelfError.Failed }
        ensures same { self.new ≡ self.old }
    {
        self.files.copy(alloc, name, limit)
    }
}
