// What commands work on: a record for each command that has more than the name of its file.
ghost use Rattle.std.specs.Prelude.{◌≡◌, IfSome};
ghost use Rattle.lucy_command.specs.Named as spec;
ghost use Rattle.lucy_command.specs.Named.{IsBlock};

/// What `clocks` works on.
#[derive(Clone, Copy)]
pub struct ClocksWords<'a> {
    /// The name of its file.
    pub file: &'a str,
    /// The scale of clocks that are found, from 1 to 64.
    pub scale: u64,
    /// Their lead, from 1 to 64.
    pub lead: u64,
}

/// What `kahn` works on: likewise.
#[derive(Clone, Copy)]
pub struct KahnWords<'a> {
    pub file: &'a str,
    pub scale: u64,
    pub lead: u64,
    /// The instants where they are given, up to 1,048,576.
    pub instants: Option<u64>,
}

/// What `run` works on: likewise.
#[derive(Clone, Copy)]
pub struct RunWords<'a> {
    pub file: &'a str,
    pub scale: u64,
    pub lead: u64,
    pub instants: Option<u64>,
    /// The number of workers, from 1 to 64.
    pub workers: u32,
    /// The instants of a block where they are given, from 1 to 1,048,576.
    pub block: Option<u64>,
}

/// What `make` works on.
#[derive(Clone, Copy)]
pub struct MakeWords {
    /// The number of stages, from 1 to 256.
    pub stages: u64,
    /// Like those of `run`.
    pub workers: u32,
    pub block: Option<u64>,
}

/// What `tighten` works on: likewise.
#[derive(Clone, Copy)]
pub struct TightenWords<'a> {
    pub file: &'a str,
    /// The name of a node.
    pub node: &'a str,
    /// The number of one of its buffers, up to 9,999,999; it counts from 1, so that none has number 0.
    pub buffer: u32,
    pub scale: u64,
    pub lead: u64,
}

/// What `replay` works on: likewise.
#[derive(Clone, Copy)]
pub struct ReplayWords<'a> {
    pub file: &'a str,
    /// The name of the file of its log.
    pub log: &'a str,
    pub scale: u64,
    pub lead: u64,
    /// The instants where they are given, up to 1,048,576.
    pub instants: Option<u64>,
}

/// What `trace` works on: likewise.
#[derive(Clone, Copy)]
pub struct TraceWords<'a> {
    pub file: &'a str,
    pub scale: u64,
    pub lead: u64,
    /// The instants where they are given, up to 1,048,576.
    pub instants: Option<u64>,
    /// The number of workers, from 1 to 64.
    pub workers: u32,
}

/// The instants of a block where none are given.
const BLOCK: u64 = 4_096;

/// The instants of a block: those that are given, or else 4,096.
pub fn block_or_default(given: Option<u64>) -> u64
    ensures is { result ≡ spec.block_or_default given }
    ensures within { IfSome given IsBlock → IsBlock result }
{
    match given {
        Some(given) => given,
        None => BLOCK,
    }
}
