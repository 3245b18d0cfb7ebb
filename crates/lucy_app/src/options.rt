// How the clocks of a program are found.
ghost use Rattle.std.specs.Prelude.{◌≡◌};
ghost use Rattle.lucy_program.specs.Inferring.{AreOptions};
ghost use Rattle.lucy_command.specs.Named.{IsScale};
ghost use Rattle.lucy_app.specs.Commands.{written_options, inferring_options};

use lucy_program::Options;

/// Each node has to be written.
pub(crate) fn written() -> Options
    ensures is { result ≡ written_options }
    ensures within { AreOptions result }
{
    Options {
        scale: 1,
        lead: 1,
        written_only: true,
    }
}

/// The clocks of nodes that aren't written are inferred, with this scale and this lead, each from 1 to 64.
pub fn inferring(scale: u64, lead: u64) -> Options
    requires scale { IsScale scale }
    requires lead { IsScale lead }
    ensures is { result ≡ inferring_options scale lead }
    ensures within { AreOptions result }
{
    Options {
        scale,
        lead,
        written_only: false,
    }
}
