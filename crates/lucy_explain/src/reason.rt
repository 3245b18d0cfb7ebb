// Why a position of a clock is as late as it is.
ghost use Rattle.std.specs.Prelude.{◌≡◌, IfOk, IfSome};
ghost use Rattle.lucy_shape.specs.Fitting.{IsShapeFor};
ghost use Rattle.lucy_shape.specs.Inequalities.{system_of};
ghost use Rattle.lucy_explain.specs.Chains.{IsReasonFor, ReasonLaw};

use crate::chain::chain_to;
use lucy_need::Needs;
use lucy_shape::{RateFault, Shape, shape_laws, spread};
use lucy_solve::{Diffs, Outcome, solve};
use std::alloc::{AllocError, Global};

/// Why a position of a clock is as late as it is: of the inequalities of a node those that lead from the beginning to the position. No
/// clocks of the shape have it earlier.
#[derive(Drop)]
pub struct Reason {
    pub diffs: Diffs,
    /// The variable of the position.
    pub variable: u32,
    /// The instant at which it stands in the earliest clocks, from 1.
    pub instant: i64,
    /// Positions of the inequalities, from 0, each of which begins where the one before it ends.
    pub chain: Vec<u32>,
}

/// Inequalities, and the least numbers that solve them.
#[derive(Drop)]
struct Solution {
    diffs: Diffs,
    values: Vec<i64>,
}

// The inequalities of needs in a shape, where they have a solution.
fn solved(alloc: Global, needs: &Needs, shape: &Shape) -> Result<Option<Solution>, AllocError>
    requires { IsShapeFor needs.now shape.now }
    ensures { IfOk result (λ found. IfSome found (λ s. s.diffs ≡ system_of needs.now shape.now)) }
{
    let diffs = match spread(alloc, needs, shape) {
        Ok(diffs) => diffs,
        Err(RateFault::OutOfMemory) => return Err(AllocError),
        Err(RateFault::Limit(_) | RateFault::Unequal(_)) => return Ok(None),
    };
    match solve(alloc, &diffs)? {
        Outcome::Earliest(values) => Ok(Some(Solution { diffs, values })),
        Outcome::Cycle(_) => Ok(None),
    }
}

/// Why the position of a variable is as late as it is, in a shape of needs that have clocks of it: the inequalities, one after the other,
/// that lead to it from the beginning. None is found where there are no clocks of the shape, or no such variable.
pub fn reason_for(
    alloc: Global,
    needs: &Needs,
    shape: &Shape,
    variable: u32,
) -> Result<Option<Reason>, AllocError>
    requires { IsShapeFor needs.now shape.now }
    ensures variable { IfOk result (λ found. IfSome found (λ r. r.variable ≡ variable)) }
    ensures reason { IfOk result (λ found. IfSome found (IsReasonFor needs.now shape.now)) }
{
    let Some(found) = solved(alloc, needs, shape)? else {
        return Ok(None);
    };
    let Solution { diffs, values } = found;
    if variable as usize >= values.len() {
        return Ok(None);
    }
    let instant = values[variable as usize];
    match chain_to(alloc, &diffs, &values, variable)? {
        Some(chain) => Ok(Some(Reason {
            diffs,
            variable,
            instant,
            chain,
        })),
        None => Ok(None),
    }
}

/// No clocks of a shape that meet the needs have the position of a reason for these earlier.
pub fn reasons_are_least()
    ensures { ReasonLaw }
{
    shape_laws();
}
