// The command `why`: why a buffer is as full as it is.
ghost use Rattle.std.specs.Prelude.{List, Ok, Some, IfErr};
ghost use Rattle.std.specs.Option.{option_map};
ghost use Rattle.lucy_host.specs.Operators.{Operator};
ghost use Rattle.lucy_program.specs.Accepting.{IsAccepted};
ghost use Rattle.lucy_program.specs.Inferring.{AreOptions};
ghost use Rattle.lucy_asking.specs.declared.ask.Picture.TheVariants as picture;
ghost use Rattle.lucy_asking.specs.Asks.{AreFactors};
ghost use Rattle.lucy_views.specs.Owes.{OwesWhy, OwesPicture};
ghost use Rattle.lucy_views.specs.Failures.{ComesOut, Tellable, unread};

use crate::failure::Failure;
use crate::missing::Missing;
use crate::program::{accepted, node_asked, options};
use lucy_asking::WhyWords;
use lucy_explain::why;
use lucy_host::Ops;
use lucy_program::{Accepted, Options};
use std::alloc::Global;

// What is told of the buffer of a node.
fn buffer_text(
    alloc: Global,
    text: &[u8],
    accepted: &Accepted,
    options: &Options,
    name: &str,
    buffer: u32,
) -> Result<Vec<u8>, Failure>
    requires options { AreOptions options.now }
    requires accepted { (ops : List Operator) × IsAccepted ops options.now text.now accepted.now }
    ensures outcome { ComesOut (OwesWhy (Some (name.now, buffer)) accepted.now) result }
    ensures told { IfErr result Tellable }
{
    let Some(node) = node_asked(&accepted.placed, Some(name)) else {
        return Err(Failure::Lacks(Missing::Buffer));
    };
    match why(alloc, text, accepted, options, node, buffer)? {
        Some(filling) => Ok(filling.text),
        None => Err(Failure::Lacks(Missing::Buffer)),
    }
}

// What is told of the buffer that the words name.
fn filled(
    alloc: Global,
    text: &[u8],
    accepted: &Accepted,
    options: &Options,
    named: Option<(&str, u32)>,
) -> Result<Vec<u8>, Failure>
    requires options { AreOptions options.now }
    requires accepted { (ops : List Operator) × IsAccepted ops options.now text.now accepted.now }
    ensures outcome { ComesOut (OwesWhy (option_map (λ b. (b.0.now, b.1)) named.entry) accepted.now) result }
    ensures told { IfErr result Tellable }
{
    match named {
        Some((name, buffer)) => buffer_text(alloc, text, accepted, options, name, buffer),
        None => Err(Failure::Lacks(Missing::Buffer)),
    }
}

/// What `why` prints of a text, or why it prints nothing.
pub(crate) fn whys(
    alloc: Global,
    words: WhyWords<'_>,
    ops: &Ops,
    text: &[u8],
) -> Result<Vec<u8>, Failure>
    requires { AreFactors words.program }
    ensures outcome { ComesOut (OwesPicture (picture.Why words.entry) (unread ops.now (Ok text.now))) result }
    ensures told { IfErr result Tellable }
{
    let options = options(words.program);
    match accepted(alloc, words.program, ops, text) {
        Ok(accepted) => filled(alloc, text, &accepted, &options, words.buffer),
        Err(failure) => Err(failure),
    }
}
