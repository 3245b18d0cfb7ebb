ghost use Rattle.std.specs.Prelude.{◌≡◌, ◌++◌, ◌∷◌, [], IfOk, OnErr};
ghost use Rattle.lucy_solve.specs.System.{IsProper, IsSystem};

use std::alloc::{AllocError, Global};
use std::marker::Model;

/// The inequality `left <= right + most` between two variables, which are counted from 0.
#[derive(Clone, Copy, Debug, PartialEq, Eq)]
pub struct Diff {
    pub left: u32,
    pub right: u32,
    /// From -2^40 to 2^40.
    pub most: i64,
}

/// Inequalities between a number of variables, in the order in which they were pushed. Positions in it are counted
/// from 0. Variable 0 is the origin, whose value is 0.
#[derive(Drop)]
pub struct Diffs {
    count: u32,
    list: Vec<Diff>,
}

impl Model for Diffs {
    ghost use Rattle.lucy_solve.specs.System.{DifferenceSystem, IsSystem};

    ghost Value = { DifferenceSystem };

    ghost view = { λ d. record { count = d.count; list = d.list.items } };

    ghost invariant = { λ d. IsSystem (record { count = d.count; list = d.list.items }) };
}

impl Diffs {
    /// No inequality yet between `count` variables, the origin among them. No memory is taken.
    pub fn new(alloc: Global, count: u32) -> Diffs
        ensures { result ≡ record { count = count; list = [] } }
    {
        Diffs {
            count,
            list: Vec::new(alloc),
        }
    }

    /// One more inequality, at the end.
    pub fn push(&mut self, alloc: Global, diff: Diff) -> Result<(), AllocError>
        requires { IsProper self.old.count diff }
        ensures pushed { IfOk result (λ _. self.new ≡ record { count = self.old.count; list = self.old.list ++ diff ∷ [] }) }
        ensures refused { OnErr result (self.new ≡ self.old) }
    {
        self.list.push(diff)?;
        Ok(())
    }

    /// How many variables there are, the origin among them.
    pub fn count(&self) -> u32
        ensures count { result ≡ self.now.count }
        ensures proper { IsSystem self.now }
    {
        self.count
    }

    /// The inequalities by position.
    pub fn list(&self) -> &[Diff]
        ensures list { result.now ≡ self.now.list }
        ensures proper { IsSystem self.now }
    {
        &self.list
    }
}
