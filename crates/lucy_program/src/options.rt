/// How a program's clocks are found.
#[derive(Clone, Copy)]
pub struct Options {
    /// How many times longer than necessary the period of inferred clocks is, from 1 to 64.
    pub scale: u64,
    /// How many periods inferred clocks may take until they are regular, from 1 to 64.
    pub lead: u64,
    /// Whether each node must be written; else the clocks of the others are inferred.
    pub written_only: bool,
}
