// What words ask for.
ghost use Rattle.std.specs.Prelude.{◌≡◌, [], IfOk, IfErr, IfSome, IfNone, map, string_bytes};
ghost use Rattle.clap.specs.Faults.{fault_of};
ghost use Rattle.clap.specs.Kinds.{HasKind};
ghost use Rattle.lucy_asking.specs.declared.ask.Ask.{Ask as Asked};
ghost use Rattle.lucy_asking.specs.CommandLine.{line};
ghost use Rattle.lucy_asking.specs.Asks.{Asks, IsWithin};

use clap::Error;
use lucy_asking::Ask;
use std::alloc::Global;

/// Pins `lucy_asking::read`.
pub fn read(alloc: Global, words: &[String]) -> Result<Option<Ask<'_>>, Error>
    ensures taken { IfOk result (λ asked. fault_of line (map string_bytes words.now) ≡ []) }
    ensures asks { IfOk result (λ asked. IfSome asked (Asks (map string_bytes words.now))) }
    ensures within { IfOk result (λ asked. IfSome asked IsWithin) }
    ensures none { IfOk result (λ asked. IfNone asked ((a : Asked) → Asks (map string_bytes words.now) a → ⊥)) }
    ensures refused { IfErr result (HasKind (fault_of line (map string_bytes words.now))) }
{
    lucy_asking::read(alloc, words)
}
