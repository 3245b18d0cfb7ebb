// How a run goes.

/// How a run goes: how far, by how many workers, and in what blocks. No byte of its output depends on the workers or the block.
#[derive(Clone, Copy)]
pub struct Pace {
    /// The most instants that are run, up to 1,048,576, or as many as the input allows where none are given.
    pub instants: Option<u64>,
    /// The number of workers, from 1 to 64.
    pub workers: u32,
    /// The instants of a block, from 1 to 1,048,576.
    pub block: u64,
}
