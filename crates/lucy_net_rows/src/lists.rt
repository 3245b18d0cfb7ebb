// Lists that grow.
ghost use Rattle.std.specs.Prelude.{◌≡◌, [], ◌∷◌, ◌++◌, OnOk};

use std::alloc::AllocError;

/// One entry more.
pub(crate) fn push<T: Drop>(list: &mut Vec<T>, next: T) -> Result<(), AllocError>
    ensures { OnOk result (list.new.items ≡ list.old.items ++ next ∷ []) }
{
    Ok(list.push(next)?)
}
