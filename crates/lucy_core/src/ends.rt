// Where a net's items come from and where they go.
ghost use Rattle.std.specs.Prelude.{ℕ, ◌≡◌, ◌<◌, length, slice_index_or};
ghost use Rattle.lucy_net.specs.declared.kind.ActorKind.TheVariants.{Output};
ghost use Rattle.lucy_net.specs.States.{ReadsInput};
ghost use Rattle.lucy_core.specs.Inside.{no_held, put_out};

use crate::tray::Tray;
use lucy_host::Inputs;
use lucy_net::ActorKind;

/// The list that an actor of this kind gives, an empty one where it is no input.
pub(crate) fn input_for<'a>(inputs: &'a Inputs, kind: &ActorKind) -> &'a [i64]
    ensures { ReadsInput kind.now inputs.now result.now }
{
    match kind {
        ActorKind::Input(input) => inputs.get(*input),
        _ => &[],
    }
}

/// Puts an item that an actor of this kind took into its tray, where it is an output.
pub(crate) fn put_out(kind: &ActorKind, trays: &mut Vec<Tray>, value: i64)
    requires there { (n : ℕ) → kind.now ≡ Output n → n < length trays.old.items }
    requires room { (n : ℕ) → kind.now ≡ Output n → length (slice_index_or trays.old.items n no_held).items < (slice_index_or trays.old.items n no_held).room }
    ensures { trays.new.items ≡ put_out kind.now trays.old.items value }
{
    if let ActorKind::Output(output) = kind {
        trays[*output as usize].push(value);
    }
}
