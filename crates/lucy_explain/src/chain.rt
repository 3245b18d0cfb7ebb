// A chain of inequalities that says why a variable is as late as it is.
ghost use Rattle.std.specs.Prelude.{◌≡◌, ◌<◌, true, length, IfOk, IfSome, ◌-ℤ◌};
ghost use Rattle.lucy_solve.specs.System.{diff_at, value};
ghost use Rattle.lucy_explain.specs.Chains.{IsChain, ChainSumLaw, LeastLaw};

use crate::index::narrow;
use lucy_solve::{Diff, Diffs};
use std::alloc::{AllocError, Global};

// No inequality.
const NONE: u32 = u32::MAX;

// The number at a place, or none.
fn at(list: &[u32], place: usize) -> u32 {
    list.get(place).copied().unwrap_or(NONE)
}

// Puts a number at a place, where there is this one.
fn put(list: &mut [u32], place: usize, number: u32) {
    if place < list.len() {
        list[place] = number;
    }
}

/// The inequalities by their left variables: the last from each, and for each the one before it from the same.
#[derive(Drop)]
struct Leaving {
    last: Vec<u32>,
    before: Vec<u32>,
}

// Those of a table.
fn leaving_of(alloc: Global, diffs: &Diffs) -> Result<Leaving, AllocError> {
    let list = diffs.list();
    let mut last = vec![in alloc; NONE; diffs.count() as usize]?;
    let mut before = vec![in alloc; NONE; list.len()]?;
    for (i, diff) in list.iter().enumerate() {
        put(&mut before, i, at(&last, diff.left as usize));
        put(&mut last, diff.left as usize, narrow(i));
    }
    Ok(Leaving { last, before })
}

// Whether the values meet an inequality with nothing to spare.
fn is_tight(values: &[i64], diff: Diff) -> bool {
    let (Some(left), Some(right)) = (
        values.get(diff.left as usize),
        values.get(diff.right as usize),
    ) else {
        return false;
    };
    right.checked_add(diff.most) == Some(*left)
}

// Reaches from a variable those behind inequalities that are tight. Each keeps the inequality by which it is reached.
fn reach(
    diffs: &Diffs,
    values: &[i64],
    leaving: &Leaving,
    variable: u32,
    parents: &mut [u32],
    reached: &mut Vec<u32>,
) -> Result<(), AllocError> {
    let list = diffs.list();
    let mut next = at(&leaving.last, variable as usize);
    for _ in 0..list.len() {
        let Some(diff) = list.get(next as usize) else {
            return Ok(());
        };
        if diff.right != 0 && at(parents, diff.right as usize) == NONE && is_tight(values, *diff) {
            put(parents, diff.right as usize, next);
            reached.push(diff.right)?;
        }
        next = at(&leaving.before, next as usize);
    }
    Ok(())
}

// Reaches all variables that can be reached from the origin, those first to which fewer inequalities lead.
fn reach_all(
    alloc: Global,
    diffs: &Diffs,
    values: &[i64],
    leaving: &Leaving,
    parents: &mut [u32],
) -> Result<(), AllocError> {
    let mut reached = vec![in alloc; 0u32; 1]?;
    for i in 0..diffs.count() as usize {
        let Some(variable) = reached.get(i).copied() else {
            return Ok(());
        };
        reach(diffs, values, leaving, variable, parents, &mut reached)?;
    }
    Ok(())
}

// Puts for each variable that is reached from the origin the inequality by which it is, where none stood.
fn put_parents(
    alloc: Global,
    diffs: &Diffs,
    values: &[i64],
    parents: &mut [u32],
) -> Result<(), AllocError> {
    let leaving = leaving_of(alloc, diffs)?;
    reach_all(alloc, diffs, values, &leaving, parents)
}

// For each variable that is reached from the origin the inequality by which it is, those first that fewer lead to.
fn parents_of(alloc: Global, diffs: &Diffs, values: &[i64]) -> Result<Vec<u32>, AllocError> {
    let mut parents = vec![in alloc; NONE; diffs.count() as usize]?;
    put_parents(alloc, diffs, values, &mut parents)?;
    Ok(parents)
}

// The inequalities by which a variable is reached, from the origin on.
fn path_of(
    alloc: Global,
    diffs: &Diffs,
    parents: &[u32],
    variable: u32,
) -> Result<Vec<u32>, AllocError> {
    let list = diffs.list();
    let mut path = Vec::new(alloc);
    let mut variable = variable;
    for _ in 0..parents.len() {
        let parent = at(parents, variable as usize);
        let Some(diff) = list.get(parent as usize) else {
            path.reverse();
            return Ok(path);
        };
        path.push(parent)?;
        variable = diff.left;
    }
    path.reverse();
    Ok(path)
}

/// Where a chain ends: at which variable, and how much later than the origin.
#[derive(Clone, Copy)]
struct End {
    variable: u32,
    later: i64,
}

// The end with the inequality at a position more, where this one goes on from the end.
fn step(list: &[Diff], end: End, position: u32) -> Option<End>
    ensures there { IfSome result (λ next. position < length list.now) }
    ensures starts { IfSome result (λ next. (diff_at list.now position).left ≡ end.variable) }
    ensures ends { IfSome result (λ next. next.variable ≡ (diff_at list.now position).right) }
    ensures later { IfSome result (λ next. next.later ≡ end.later -ℤ (diff_at list.now position).most) }
{
    let place = position as usize;
    if place >= list.len() {
        return None;
    }
    let diff = list[place];
    if diff.left != end.variable {
        return None;
    }
    let later = end.later.checked_sub(diff.most)?;
    Some(End {
        variable: diff.right,
        later,
    })
}

// Whether one end is the other.
fn is_end(end: End, wanted: End) -> bool
    ensures variable { result ≡ true → end.variable ≡ wanted.variable }
    ensures later { result ≡ true → end.later ≡ wanted.later }
{
    end.variable == wanted.variable && end.later == wanted.later
}

// Whether inequalities lead from the origin to a variable, and by them it is so much later.
fn confirms(list: &[Diff], chain: &[u32], wanted: End) -> bool
    ensures { result ≡ true → IsChain list.now 0 chain.now wanted.variable wanted.later }
{
    let mut end = End {
        variable: 0,
        later: 0,
    };
    'each: for position in chain {
        let Some(next) = step(list, end, *position) else {
            return false;
        };
        end = next;
    }
    is_end(end, wanted)
}

/// Inequalities that lead, one after the other, from the origin to a variable, and by which it has no less than its value, where the
/// values are the least that solve all of them: each of these is met with nothing to spare, and no fewer of them lead there. None are
/// found where the values are others.
pub fn chain_to(
    alloc: Global,
    diffs: &Diffs,
    values: &[i64],
    variable: u32,
) -> Result<Option<Vec<u32>>, AllocError>
    ensures { IfOk result (λ chain. IfSome chain (λ c. IsChain diffs.now.list 0 c.items variable (value values.now variable))) }
{
    if variable as usize >= values.len() {
        return Ok(None);
    }
    let wanted = End {
        variable,
        later: values[variable as usize],
    };
    let parents = parents_of(alloc, diffs, values)?;
    let chain = path_of(alloc, diffs, &parents, variable)?;
    let list = diffs.list();
    if confirms(list, &chain, wanted) {
        Ok(Some(chain))
    } else {
        Ok(None)
    }
}

/// The constants of a chain sum to its end, and no numbers that solve the inequalities have less there.
pub fn chains_are_least()
    ensures sum { ChainSumLaw }
    ensures least { LeastLaw }
{}
