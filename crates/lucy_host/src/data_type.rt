/// The type of a stream's values.
#[derive(Clone, Copy, Debug, PartialEq, Eq)]
pub enum DataType {
    /// Numbers of 64 bits in two's complement, which wrap.
    Int,
    /// Truths, carried as the numbers 1 for true and 0 for false.
    Bool,
}
