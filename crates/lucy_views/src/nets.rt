// The command `net`: what feeds what in a node of a program.
ghost use Rattle.std.specs.Prelude.{List, ℕ, Ok, IfErr};
ghost use Rattle.std.specs.Option.{option_map};
ghost use Rattle.lucy_tree.specs.View.{program_tree};
ghost use Rattle.lucy_grammar.specs.Texts.{HasTree};
ghost use Rattle.lucy_host.specs.Operators.{Operator};
ghost use Rattle.lucy_program.specs.declared.options.Options.{Options as Choices};
ghost use Rattle.lucy_program.specs.Accepting.{IsAccepted};
ghost use Rattle.lucy_asking.specs.declared.ask.Picture.TheVariants as picture;
ghost use Rattle.lucy_asking.specs.Asks.{AreFactors};
ghost use Rattle.lucy_views.specs.Owes.{OwesDrawing, OwesPicture};
ghost use Rattle.lucy_views.specs.Failures.{ComesOut, Tellable, unread};

use crate::failure::Failure;
use crate::missing::Missing;
use crate::program::{accepted, node_asked};
use lucy_asking::NetWords;
use lucy_graphviz::put_net;
use lucy_host::Ops;
use lucy_program::Accepted;
use lucy_syntax::parse;
use lucy_tree::Program;
use std::alloc::Global;

// What is printed of a program with this tree.
fn netted(
    alloc: Global,
    program: &Program,
    accepted: &Accepted,
    words: NetWords<'_>,
) -> Result<Vec<u8>, Failure>
    requires { (ops : List Operator) × (o : Choices) × (text : List ℕ) × IsAccepted ops o text accepted.now }
    ensures outcome { ComesOut (OwesDrawing words.entry.flat (option_map (λ s. s.now) words.entry.node) (program_tree program.now) accepted.now) result }
    ensures told { IfErr result Tellable }
{
    let Some(node) = node_asked(&accepted.placed, words.node) else {
        return Err(Failure::Lacks(Missing::Node));
    };
    let mut out = Vec::new(alloc);
    put_net(alloc, program, accepted, Some(node), words.flat, &mut out)?;
    Ok(out)
}

// What is printed of a text with this tree.
fn netted_by(
    alloc: Global,
    words: NetWords<'_>,
    ops: &Ops,
    text: &[u8],
    program: &Program,
) -> Result<Vec<u8>, Failure>
    requires factors { AreFactors words.program }
    requires tree { HasTree text.now (program_tree program.now) }
    ensures outcome { ComesOut (OwesPicture (picture.Net words.entry) (unread ops.now (Ok text.now))) result }
    ensures told { IfErr result Tellable }
{
    match accepted(alloc, words.program, ops, text) {
        Ok(accepted) => netted(alloc, program, &accepted, words),
        Err(failure) => Err(failure),
    }
}

/// What `net` prints of a text, or why it prints nothing.
pub(crate) fn nets(
    alloc: Global,
    words: NetWords<'_>,
    ops: &Ops,
    text: &[u8],
) -> Result<Vec<u8>, Failure>
    requires { AreFactors words.program }
    ensures outcome { ComesOut (OwesPicture (picture.Net words.entry) (unread ops.now (Ok text.now))) result }
    ensures told { IfErr result Tellable }
{
    match parse(alloc, text) {
        Ok(program) => netted_by(alloc, words, ops, text, &program),
        Err(error) => Err(Failure::from(error)),
    }
}
