ghost use Rattle.std.specs.Prelude.{◌≡◌, ◌≢◌, ◌≤◌, ◌↔◌, length, IfOk};
ghost use Rattle.std.specs.Option.{option_map};
ghost use Rattle.lucy_text.specs.Shelf.{IsLonger};
ghost use Rattle.lucy_text.specs.MemoryShelf.{NamedList, held};

use crate::ShelfError;
use std::alloc::Global;
use std::marker::Model;

/// Files in memory. The first of a name hides the later ones.
#[derive(Drop)]
pub(crate) struct NamedFiles {
    list: Vec<(String, Vec<u8>)>,
}

impl Model for NamedFiles {
    ghost Value = { NamedList };

    ghost view = { λ f. f.list.items };
}

impl NamedFiles {
    pub(crate) fn new(list: Vec<(String, Vec<u8>)>) -> NamedFiles
        ensures { result ≡ list.items }
    {
        NamedFiles { list }
    }

    /// The bytes of the file of the name.
    pub(crate) fn find(&self, name: &str) -> Option<&[u8]>
        ensures { option_map (λ bytes. bytes.now) result ≡ held self.now name.now }
    {
        let file = self.list.iter().find(|file| file.0.as_str() == name)?;
        Some(&file.1)
    }

    /// A copy of those bytes, where there are no more than the limit.
    pub(crate) fn copy(&self, alloc: Global, name: &str, limit: u64) -> Result<Vec<u8>, ShelfError>
        ensures ok { IfOk result (λ bytes. held self.now name.now ≡ Some bytes.items) }
        ensures within { IfOk result (λ bytes. length bytes.items ≤ limit) }
        ensures missing { (result ≡ Err ShelfError.Missing) ↔ (held self.now name.now ≡ None) }
        ensures too_long { (result ≡ Err ShelfError.TooLong) ↔ IsLonger (held self.now name.now) limit }
        ensures never_fails { result ≢ Err ShelfError.Failed }
    {
        let Some(bytes) = self.find(name) else {
            return Err(ShelfError::Missing);
        };
        if bytes.len() as u64 > limit {
            return Err(ShelfError::TooLong);
        }
        Ok(bytes.to_vec(alloc)?)
    }
}
