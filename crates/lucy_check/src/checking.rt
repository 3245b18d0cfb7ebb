// The needs in order, until one is refused.
ghost use Rattle.std.specs.Prelude.{ℕ, List, ◌≡◌, ◌⊎◌, ◌++◌, length, option_to_list, OnOk, IfOk, IfErr, MatchResult};
ghost use Rattle.lucy_word.specs.Shortest.{Same};
ghost use Rattle.lucy_word.specs.Always.{always};
ghost use Rattle.lucy_need.specs.Meeting.{assigned, AreProperNeeds, MeetsAll};
ghost use Rattle.lucy_check.specs.Passing.{OrNoMemory, PassesAll, AllWithinLimits, IsFirstRefusal, IsBeyond};
ghost use Rattle.lucy_check.specs.declared.fault.CheckFault.{CheckFault as Fault};
ghost use Rattle.lucy_check.specs.declared.fault.CheckFault.TheVariants as fault;

use crate::fault::CheckFault;
use crate::need::check_need;
use lucy_need::Needs;
use lucy_word::Word;
use std::alloc::Global;

// Puts a size behind others, where there is one.
fn put(sizes: &mut Vec<u64>, size: Option<u64>) -> Result<(), CheckFault>
    ensures ok { OnOk result (sizes.new.items ≡ sizes.old.items ++ option_to_list size) }
    ensures refused { IfErr result (λ e. e ≡ fault.OutOfMemory) }
{
    match size {
        Some(size) => Ok(sizes.push(size)?),
        None => Ok(()),
    }
}

/// Checks that the words, one for each clock and (1) for the base, meet all needs: the sizes of the buffers in items, one for
/// each `Adapt` in order. Else the refusal of the first need that isn't met or passes a limit. Words that meet all needs are
/// refused for a limit or for want of memory alone, and within the limits for want of memory alone.
pub fn check(alloc: Global, needs: &Needs, words: &[Word]) -> Result<Vec<u64>, CheckFault>
    requires needs { AreProperNeeds needs.now }
    requires words { length words.now ≡ needs.now.clocks }
    requires base { Same (assigned words.now 0) always }
    ensures sizes { IfOk result (λ sizes. PassesAll (assigned words.now) needs.now.list sizes.items) }
    ensures met { IfOk result (λ sizes. MeetsAll (assigned words.now) needs.now.list) }
    ensures within { IfOk result (λ sizes. AllWithinLimits (assigned words.now) needs.now.list) }
    ensures refused { IfErr result (OrNoMemory (IsFirstRefusal (assigned words.now) needs.now.list)) }
    ensures passed { (sizes : List ℕ) → PassesAll (assigned words.now) needs.now.list sizes → MatchResult result (λ v. v.items ≡ sizes) (λ e. e ≡ fault.OutOfMemory) }
    ensures only { (e : Fault) → IsFirstRefusal (assigned words.now) needs.now.list e → MatchResult result (λ v. ⊥) (λ f. (f ≡ fault.OutOfMemory) ⊎ (f ≡ e)) }
    ensures accepted { MeetsAll (assigned words.now) needs.now.list → AllWithinLimits (assigned words.now) needs.now.list → IfErr result (λ e. e ≡ fault.OutOfMemory) }
    ensures unmet { MeetsAll (assigned words.now) needs.now.list → IfErr result IsBeyond }
{
    let list = needs.list.list();
    let mut sizes = Vec::new(alloc);
    let mut kept = None;
    'each: for (i, need) in list.iter().enumerate() {
        let (size, next) = check_need(alloc, i as u32, need, words, kept)?;
        kept = next;
        put(&mut sizes, size)?;
    }
    Ok(sizes)
}
