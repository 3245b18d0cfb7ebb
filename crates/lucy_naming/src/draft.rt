// The places of a node's right sides, as they are numbered.
use lucy_place::{CallSite, PlaceEntry};

/// The places of right sides so far, how many of them are buffers, and the calls.
#[derive(Drop)]
pub(crate) struct Draft {
    pub places: Vec<PlaceEntry>,
    pub buffers: u32,
    pub calls: Vec<CallSite>,
}
