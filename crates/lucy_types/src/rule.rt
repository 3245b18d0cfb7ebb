// Rules, and putting them.
ghost use Rattle.std.specs.Prelude.{◌≡◌, ◌++◌, OnOk};

use lucy_host::DataType;
use std::alloc::AllocError;

/// What a rule says of places of a node: that one is of a type, or that two are of one type.
#[derive(Clone, Copy)]
pub(crate) enum Rule {
    Is(u32, DataType),
    Alike(u32, u32),
}

/// Puts rules behind others.
pub(crate) fn put_rules(rules: &mut Vec<Rule>, more: &[Rule]) -> Result<(), AllocError>
    ensures { OnOk result (rules.new.items ≡ rules.old.items ++ more.now) }
{
    rules.extend_from_slice(more)
}
