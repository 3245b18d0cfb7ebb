// The lists of places with one operand or none.
ghost use Rattle.std.specs.Prelude.{◌≡◌, ◌<◌, ◌^◌, ◌∷◌, length, replicate, IfOk, IfErr};
ghost use Rattle.lucy_stream.specs.Lists as spec;
ghost use Rattle.lucy_kahn.specs.Outcomes.{IsWholeList, Overflows};

use crate::error::KahnError;
use crate::grow::put;
use lucy_word::Word;
use std::alloc::Global;

/// The same list.
pub(crate) fn copied(alloc: Global, list: &[i64]) -> Result<Vec<i64>, KahnError>
    ensures ok { IfOk result (λ made. IsWholeList list.now made.items) }
    ensures limit { IfErr result (Overflows list.now) }
{
    let mut made = Vec::new(alloc);
    for item in list {
        put(&mut made, *item)?;
    }
    Ok(made)
}

/// So many copies of a literal.
pub(crate) fn repeated(alloc: Global, copies: u64, literal: i64) -> Result<Vec<i64>, KahnError>
    ensures ok { IfOk result (λ made. IsWholeList (replicate copies literal) made.items) }
    ensures limit { IfErr result (Overflows (replicate copies literal)) }
{
    let mut made = Vec::new(alloc);
    for copy in 0..copies {
        put(&mut made, literal)?;
    }
    Ok(made)
}

/// A literal, and then the items of a list.
pub(crate) fn delayed(alloc: Global, first: i64, list: &[i64]) -> Result<Vec<i64>, KahnError>
    ensures ok { IfOk result (λ made. IsWholeList (first ∷ list.now) made.items) }
    ensures limit { IfErr result (Overflows (first ∷ list.now)) }
{
    let mut made = Vec::new(alloc);
    put(&mut made, first)?;
    for item in list {
        put(&mut made, *item)?;
    }
    Ok(made)
}

/// The items whose number, counted from 1, has a one in the word.
pub(crate) fn kept(alloc: Global, word: &Word, list: &[i64]) -> Result<Vec<i64>, KahnError>
    ensures ok { IfOk result (λ made. IsWholeList (spec.kept word.now list.now) made.items) }
    ensures limit { IfErr result (Overflows (spec.kept word.now list.now)) }
{
    let mut made = Vec::new(alloc);
    for (i, item) in list.iter().enumerate() {
        if word.bit(i as u64 + 1) {
            put(&mut made, *item)?;
        }
    }
    Ok(made)
}
