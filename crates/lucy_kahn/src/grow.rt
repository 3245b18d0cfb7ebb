// Lists of an iterate, which grow to a limit.
ghost use Rattle.std.specs.Prelude.{◌≡◌, ◌<◌, ◌≤◌, ◌⊎◌, ◌∷◌, ◌++◌, [], length, IfOk, IfErr};
ghost use Rattle.lucy_word.specs.declared.limit.Limit.TheVariants as limit;
ghost use Rattle.lucy_kahn.specs.declared.error.KahnError.TheVariants as error;
ghost use Rattle.lucy_kahn.specs.Outcomes.{most_items};

use crate::error::KahnError;
use lucy_word::Limit;

/// One more item, unless the list is as long as it may be.
pub(crate) fn put(list: &mut Vec<i64>, item: i64) -> Result<(), KahnError>
    ensures ok { IfOk result (λ _. (list.new.items ≡ list.old.items ++ item ∷ []) × (length list.old.items < most_items)) }
    ensures limit { IfErr result (λ e. (e ≡ error.OutOfMemory) ⊎ ((e ≡ error.Limit limit.KahnItems) × (most_items ≤ length list.old.items))) }
{
    if list.len() as u64 >= Limit::KahnItems.number() {
        return Err(KahnError::Limit(Limit::KahnItems));
    }
    list.push(item)?;
    Ok(())
}
