// The text of a file.
ghost use Rattle.std.specs.Prelude.{◌≤◌};
ghost use Rattle.lucy_word.specs.Limits.{limit_number};
ghost use Rattle.lucy_app.specs.World.{bytes_of, Fetched};

use lucy_text::{Shelf, ShelfError};
use lucy_word::Limit;
use std::alloc::Global;

/// What one fetch of the file gives, of at most as many bytes as the limit allows.
pub fn fetch<S: Shelf>(
    alloc: Global,
    shelf: &mut S,
    file: &str,
    limit: Limit,
) -> Result<Vec<u8>, ShelfError>
    ensures fetched { Fetched (record { file = file.now; most = limit_number limit }) (S.seen shelf.old) (S.seen shelf.new) (bytes_of result) }
    ensures count { (S.seen shelf.old).faults ≤ (S.seen shelf.new).faults }
{
    shelf.fetch(alloc, file, limit.number())
}
