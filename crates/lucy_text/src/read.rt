// All bytes of a source, up to a limit.
ghost use Rattle.std.specs.Prelude.{◌+◌, ◌<◌, ◌≤◌, ◌≡◌, ◌^◌, ℕ, List};
ghost use Rattle.lucy_text.specs.Sources.{ReadStop, Read, IsGathered};

use crate::Source;
use std::alloc::{AllocError, Global};

/// Why there are no bytes.
#[derive(Clone, Copy)]
pub enum ReadError {
    /// A read failed.
    Failed,
    /// Memory ran out.
    OutOfMemory,
}

impl From<AllocError> for ReadError {
    ghost use Rattle.lucy_text.specs.declared.read.ReadError.TheVariants.{OutOfMemory};

    ghost from_gives = { λ _ e. e ≡ OutOfMemory };

    fn from(_: AllocError) -> Self {
        ReadError::OutOfMemory
    }
}

impl From<crate::Failed> for ReadError {
    ghost use Rattle.lucy_text.specs.declared.read.ReadError.TheVariants.{Failed};

    ghost from_gives = { λ _ e. e ≡ Failed };

    fn from(_: crate::Failed) -> Self {
        ReadError::Failed
    }
}

/// The bytes up to the source's end, or `limit` of them and one more.
pub fn read_up_to<I: Source>(
    alloc: Global,
    input: &mut I,
    limit: usize,
) -> Result<Vec<u8>, ReadError>
    requires { limit < 2 ^ 32 }
    ensures read { (taken : List ℕ) × (stop : ReadStop) × Read limit (I.seen input.old) (I.seen input.new)
        taken stop × IsGathered limit taken stop result }
    ensures count { (I.seen input.old).faults ≤ (I.seen input.new).faults }
{
    let mut bytes = Vec::new(alloc);
    let mut buffer = [0u8; 4_096];
    while bytes.len() <= limit {
        let room = buffer.len().min(limit + 1 - bytes.len());
        let n = input.read(&mut buffer[..room])?;
        if n == 0 {
            return Ok(bytes);
        }
        bytes.extend_from_slice(&buffer[..n])?;
    }
    Ok(bytes)
}
