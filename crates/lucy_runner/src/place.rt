/// Where the part of an actor is: the seat of its worker, and its number among that worker's parts. Both count from 0.
#[derive(Clone, Copy)]
pub(crate) struct Place {
    pub seat: u32,
    pub part: u32,
}

/// Where the two ends of a ring are: its place in the gives of its giver, and in the takes of its taker. Both count from 0.
#[derive(Clone, Copy)]
pub(crate) struct Ends {
    pub giver: u32,
    pub taker: u32,
}
