// The list of a merge.
ghost use Rattle.std.specs.Prelude.{◌≡◌, ◌+◌, ◌<◌, ◌^◌, length, slice_get, IfOk, IfErr};
ghost use Rattle.lucy_stream.specs.Merges as spec;
ghost use Rattle.lucy_kahn.specs.Outcomes.{most_items, IsWholeList, Overflows};

use crate::error::KahnError;
use crate::grow::put;
use lucy_word::Word;
use std::alloc::Global;

// The item after so many others, where it is there.
fn there(list: &[i64], k: usize) -> Option<i64>
    ensures { result ≡ slice_get list.now k }
{
    list.get(k).copied()
}

// Item k of the merge, counted from 1, where it is there: at a one of the word the item of the first list that has the
// one's number, else the item of the second that has the zero's number.
fn item(word: &Word, k: u64, a: &[i64], b: &[i64]) -> Option<i64>
    requires { 0 < k }
    ensures { result ≡ spec.merge_item word.now a.now b.now k }
{
    let ones = word.ones(k);
    if word.bit(k) {
        there(a, ones as usize - 1)
    } else {
        there(b, (k - ones) as usize - 1)
    }
}

/// The merge of two lists by the word: the items in turn, as far as they are there.
pub(crate) fn merged(
    alloc: Global,
    word: &Word,
    a: &[i64],
    b: &[i64],
) -> Result<Vec<i64>, KahnError>
    requires first { length a.now < 2 ^ 32 }
    requires second { length b.now < 2 ^ 32 }
    ensures ok { IfOk result (λ made. IsWholeList (spec.merged word.now a.now b.now) made.items) }
    ensures limit { IfErr result (Overflows (spec.merged word.now a.now b.now)) }
{
    let mut made = Vec::new(alloc);
    for passed in 0..a.len() + b.len() {
        let Some(next) = item(word, passed as u64 + 1, a, b) else {
            return Ok(made);
        };
        put(&mut made, next)?;
    }
    Ok(made)
}
