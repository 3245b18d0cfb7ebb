// Where the ones of a word stand.
ghost use Rattle.std.specs.Prelude.{◌↔◌, ◌≤◌, ◌^◌, ℕ, IfSome, IsNone};
ghost use Rattle.lucy_word.specs.Index.{IsIndex};

use crate::Word;

impl Word {
    /// The instant at which the word has its one of this number, both counted from 1; 0 for number 0. Whole periods are
    /// jumped over.
    ///
    /// `None` comes where that instant is no 64-bit number.
    pub fn index(&self, number: u64) -> Option<u64>
        ensures some { IfSome result (IsIndex self.now number) }
        ensures none { IsNone result ↔ ((place : ℕ) × IsIndex self.now number place × (2 ^ 64 ≤ place)) }
    {
        let (len, turn) = self.lengths();
        let before = self.ones(len);
        if number <= before {
            return Some(self.prefix.index(number) as u64);
        }
        let (ones, _) = self.rate();
        let past = number - before - 1;
        let part = self.period.index(past % ones + 1) as u64;
        (past / ones).checked_mul(turn)?.checked_add(len + part)
    }
}
