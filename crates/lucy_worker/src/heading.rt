// The directions of passes.
ghost use Rattle.std.specs.Prelude.{◌≡◌, ◌⊎◌, ◌/◌, ◌<◌, ◌≤◌, true, not};

/// The direction of the next pass over a list of actors, and what it is chosen by.
#[derive(Clone, Copy)]
pub struct Heading {
    /// Whether it goes from the last to the first.
    pub back: bool,
    /// How many passes are made before one is tried in the other direction.
    pub untried: u64,
    /// How many moves the pass before made, 0 before the first.
    pub before: u64,
}

// So many passes are made before one is tried in the other direction.
const UNTRIED: u64 = 15;

impl Heading {
    /// That of the first pass: back, where an order goes along the items' way. Where they don't go round a loop, each actor then moves what
    /// the others gave in the pass before, so that no move waits for another.
    pub fn first() -> Heading
        ensures { result.back ≡ true }
    {
        Heading {
            back: true,
            untried: UNTRIED,
            before: 0,
        }
    }

    /// After a pass of so many moves it turns where that was less than half of the pass before, or where one is tried.
    pub fn after(self, moves: u64) -> Heading
        ensures turned { (self.untried ≡ 0) ⊎ (moves < self.before / 2) → result.back ≡ not self.back }
        ensures kept { 0 < self.untried → self.before / 2 ≤ moves → result.back ≡ self.back }
        ensures before { result.before ≡ moves }
    {
        let tries = self.untried == 0;
        let turns = tries || moves < self.before / 2;
        Heading {
            back: if turns { !self.back } else { self.back },
            untried: if tries { UNTRIED } else { self.untried - 1 },
            before: moves,
        }
    }
}
