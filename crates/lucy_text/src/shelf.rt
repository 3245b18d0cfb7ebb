ghost use Rattle.std.specs.Prelude.{◌≡◌, ◌≢◌, ◌≤◌, ◌↔◌, length, IfSome, IfOk};
ghost use Rattle.std.specs.Option.{option_map};
ghost use Rattle.lucy_text.specs.Outside.{one_more};
ghost use Rattle.lucy_text.specs.Shelf.{SeenShelf, IsHeld, Lacks, IsLonger, IsCut, CountsFaults};

use std::alloc::{AllocError, Global};

/// Why a shelf gave no file.
#[derive(Clone, Copy)]
pub enum ShelfError {
    /// The fetch failed, and the shelf counted a fault. A shelf that doesn't tell its files answers
    /// so where it finds no file of the name too.
    Failed,
    /// The shelf tells its files, and none has the name. That is no fault.
    Missing,
    /// The file has more bytes than the limit.
    TooLong,
    /// Memory ran out, which says nothing of the file.
    OutOfMemory,
}

impl From<AllocError> for ShelfError {
    ghost use Rattle.lucy_text.specs.declared.shelf.ShelfError.TheVariants.{OutOfMemory};

    ghost from_gives = { λ _ e. e ≡ OutOfMemory };

    fn from(_: AllocError) -> Self {
        ShelfError::OutOfMemory
    }
}

/// Where files are kept by their names.
pub trait Shelf {
    /// What contracts see of the shelf. A count at the greatest u64 stays there.
    ghost seen: { Self → SeenShelf };

    /// All bytes of the file of the name, of which there are at most `limit`. A shelf that doesn't
    /// tell its files has taken `limit` + 1 bytes where it answers `TooLong`.
    fn fetch(&mut self, alloc: Global, name: &str, limit: u64) -> Result<Vec<u8>, ShelfError>
        ensures files { (seen self.new).files ≡ (seen self.old).files }
        ensures ok { IfOk result (λ bytes. IsHeld (seen self.old).files name.now bytes.items) }
        ensures within { IfOk result (λ bytes. length bytes.items ≤ limit) }
        ensures missing { (result ≡ Err ShelfError.Missing)
            ↔ (Lacks (seen self.old).files name.now × (result ≢ Err ShelfError.OutOfMemory)) }
        ensures too_long { IfSome (seen self.old).files (λ held. (result ≡ Err ShelfError.TooLong)
            ↔ (IsLonger (held name.now) limit × ¬ IsCut result)) }
        ensures counted { (seen self.new).fetches ≡ option_map one_more (seen self.old).fetches }
        ensures never_falls { (seen self.old).faults ≤ (seen self.new).faults }
        ensures cause { CountsFaults (seen self.old).faults (seen self.new).faults result };
}
