ghost use Rattle.std.specs.Prelude.{◌≡◌, ◌≢◌, ◌↔◌, ◌≤◌, ◌+◌, None, length, IfOk, IfSome};
ghost use Rattle.lucy_text.specs.RealShelf.{fetch_faults, IsReadOf, TakesWithin, IsFetchOf};
ghost use Rattle.lucy_text.specs.Shelf.{IsHeld, Lacks, CountsFaults};

use crate::{Shelf, ShelfError};
use std::alloc::Global;
use std::fs::{File, Files};
use std::io::{self, ErrorKind, Read};

/// The files of the file system, by their paths. It tells no files.
#[derive(Drop)]
pub struct RealShelf<'a, R> {
    system: &'a R,
    faults: u64,
}

impl<'a, R: Files> RealShelf<'a, R> {
    /// A shelf from which nothing was fetched yet.
    pub fn new(system: &'a R) -> RealShelf<'a, R>
        ensures { fetch_faults result ≡ 0 }
    {
        RealShelf { system, faults: 0 }
    }
}

// All bytes that the reader gives, or nothing where there are more than the limit, of which it takes one.
fn read_within<R: Read>(reader: &mut R, alloc: Global, limit: u64) -> io::Result<Option<Vec<u8>>>
    ensures within { IfOk result (λ read. IfSome read (λ bytes. length bytes.items ≤ limit)) }
    ensures all { IfOk result (IsReadOf (R.remaining reader.old) limit) }
    ensures took { TakesWithin (limit + 1) (R.remaining reader.old) (R.remaining reader.new) }
{
    let mut bytes = Vec::new(alloc);
    let mut buffer = [0u8; 4_096];
    while bytes.len() as u64 <= limit {
        let room = (limit - bytes.len() as u64).min(4_095) as usize + 1;
        let n = reader.read(&mut buffer[..room])?;
        if n == 0 {
            return Ok(Some(bytes));
        }
        bytes.extend_from_slice(&buffer[..n])?;
    }
    Ok(None)
}

fn read_file<R: Files>(
    files: &R,
    alloc: Global,
    name: &str,
    limit: u64,
) -> io::Result<Option<Vec<u8>>>
    ensures within { IfOk result (λ read. IfSome read (λ bytes. length bytes.items ≤ limit)) }
    ensures all { IfOk result (λ read. (file : R.File) × IsReadOf (R.File.remaining file) limit read) }
{
    let mut file = File::open(files, name)?;
    read_within(&mut file, alloc, limit)
}

impl<'a, R: Files> Shelf for RealShelf<'a, R> {
    ghost use Rattle.lucy_text.specs.RealShelf.{fetch_faults};

    ghost seen = { λ s. record { files = None; faults = fetch_faults s; fetches = None } };

    /// The bytes of the file at the path, of which at most `limit` + 1 are taken. Any error of the file
    /// system but want of memory is a fault, an interrupted call too, and also that there is no such file.
    fn fetch(&mut self, alloc: Global, name: &str, limit: u64) -> Result<Vec<u8>, ShelfError>
        ensures read { IsFetchOf (λ read. (file : R.File) × IsReadOf (R.File.remaining file) limit read) result }
        ensures within { IfOk result (λ bytes. length bytes.items ≤ limit) }
        ensures ok { IfOk result (λ bytes. IsHeld None name.now bytes.items) }
        ensures missing { (result ≡ Err ShelfError.Missing) ↔ (Lacks None name.now × (result ≢ Err ShelfError.OutOfMemory)) }
        ensures never_falls { fetch_faults self.old ≤ fetch_faults self.new }
        ensures cause { CountsFaults (fetch_faults self.old) (fetch_faults self.new) result }
    {
        match read_file(self.system, alloc, name, limit) {
            Ok(Some(bytes)) => Ok(bytes),
            Ok(None) => Err(ShelfError::TooLong),
            Err(error) if error.kind() == ErrorKind::OutOfMemory => Err(ShelfError::OutOfMemory),
            Err(_) => {
                self.faults = self.faults.saturating_add(1);
                Err(ShelfError::Failed)
            }
        }
    }
}
