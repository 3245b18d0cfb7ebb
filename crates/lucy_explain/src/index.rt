// Indices of lists.

/// An index as a number of 32 bits, or the greatest of these.
pub(crate) fn narrow(index: usize) -> u32 {
    u32::try_from(index).unwrap_or(u32::MAX)
}
