// Pages of a program.
ghost use Rattle.std.specs.Prelude.{List, ℕ, IfOk};
ghost use Rattle.lucy_host.specs.Operators.{Operator};
ghost use Rattle.lucy_program.specs.declared.options.Options.{Options as Choices};
ghost use Rattle.lucy_program.specs.Accepting.{IsAccepted};
ghost use Rattle.lucy_program.specs.Report.{report};
ghost use Rattle.lucy_page.specs.Pages.{IsPage, IsRefusedPage};

use lucy_program::Accepted;
use lucy_tree::{Program, Span};
use std::alloc::{AllocError, Global};

/// Pins `lucy_page::page`.
pub fn page(
    alloc: Global,
    name: &str,
    text: &[u8],
    program: &Program,
    accepted: &Accepted,
    instants: Option<u64>,
) -> Result<Vec<u8>, AllocError>
    requires { (ops : List Operator) × (o : Choices) × (t : List ℕ) × IsAccepted ops o t accepted.now }
    ensures { IfOk result (λ v. IsPage accepted.now.placed.nodes text.now (report accepted.now.placed.nodes accepted.now.typed accepted.now.clocks.items) v.items) }
{
    lucy_page::page(alloc, name, text, program, accepted, instants)
}

/// Pins `lucy_page::refused_page`.
pub fn refused_page(
    alloc: Global,
    name: &str,
    text: &[u8],
    told: &[u8],
    spans: &[Span],
) -> Result<Vec<u8>, AllocError>
    ensures { IfOk result (λ v. IsRefusedPage told.now text.now v.items) }
{
    lucy_page::refused_page(alloc, name, text, told, spans)
}
