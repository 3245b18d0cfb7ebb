// The command `page`: all pictures of a program on one page, or why it is refused.
ghost use Rattle.std.specs.Prelude.{◌≡◌, List, ℕ, Ok, IfSome, MatchResult};
ghost use Rattle.lucy_host.specs.Operators.{Operator};
ghost use Rattle.lucy_program.specs.declared.options.Options.{Options as Choices};
ghost use Rattle.lucy_program.specs.Accepting.{IsAccepted};
ghost use Rattle.lucy_program.specs.Report.{report};
ghost use Rattle.lucy_page.specs.Pages.{IsPage};
ghost use Rattle.lucy_app.specs.Answers.{printed};
ghost use Rattle.lucy_asking.specs.declared.ask.Picture.TheVariants as picture;
ghost use Rattle.lucy_asking.specs.Asks.{AreFactors};
ghost use Rattle.lucy_views.specs.Meets.{options_of};
ghost use Rattle.lucy_views.specs.Owes.{Explains, OwesAcceptedPage, OwesRefusedPage, OwesPicture};
ghost use Rattle.lucy_views.specs.Failures.{page_with, shown_refusal, IsOutcome, IsTold, Tellable, unread};

use crate::explains::explained;
use crate::failure::Failure;
use crate::program::accepted;
use crate::shown::Shown;
use lucy_asking::PageWords;
use lucy_explain::Explained;
use lucy_front::Refusal;
use lucy_host::Ops;
use lucy_page::{page, refused_page};
use lucy_program::Accepted;
use lucy_syntax::parse;
use lucy_tree::Program;
use std::alloc::{AllocError, Global};

// A page, and the refusal that is told behind it, if there is one.
fn with_page(print: Vec<u8>, refusal: Option<Refusal>) -> Result<Shown, Failure>
    ensures { result ≡ page_with print refusal }
{
    match refusal {
        Some(refusal) => Ok(Shown {
            print,
            refusal: Some(refusal),
        }),
        None => Err(Failure::OutOfMemory),
    }
}

// A page and the refusal that is told behind it; without one the text wasn't accepted for want of memory alone.
fn refusal_with(
    print: Result<Vec<u8>, AllocError>,
    refusal: Option<Refusal>,
) -> Result<Shown, Failure>
    ensures { result ≡ shown_refusal print refusal }
{
    match print {
        Ok(print) => with_page(print, refusal),
        Err(_) => Err(Failure::OutOfMemory),
    }
}

// The page of a text of which this is told.
fn page_of(
    alloc: Global,
    words: PageWords<'_>,
    ops: &Ops,
    text: &[u8],
    explained: Explained,
) -> Result<Shown, Failure>
    requires { Explains ops.now (options_of words.program) text.now explained.refusal explained.text.items }
    ensures outcome { IsOutcome (OwesRefusedPage ops.now (options_of words.entry.program) text.now) result }
    ensures told { MatchResult result IsTold Tellable }
{
    let file = words.program.file;
    let print = refused_page(alloc, file, text, &explained.text, &explained.spans);
    refusal_with(print, explained.refusal)
}

// The page of a text that wasn't accepted.
fn refused(alloc: Global, words: PageWords<'_>, ops: &Ops, text: &[u8]) -> Result<Shown, Failure>
    requires { AreFactors words.program }
    ensures outcome { IsOutcome (OwesRefusedPage ops.now (options_of words.entry.program) text.now) result }
    ensures told { MatchResult result IsTold Tellable }
{
    match explained(alloc, words.program, ops, text) {
        Ok(explained) => page_of(alloc, words, ops, text, explained),
        Err(failure) => Err(failure),
    }
}

// The page of an accepted program, if there is memory for that.
fn page_by(
    alloc: Global,
    words: PageWords<'_>,
    text: &[u8],
    program: &Program,
    accepted: &Accepted,
) -> Option<Vec<u8>>
    requires { (ops : List Operator) × (o : Choices) × (t : List ℕ) × IsAccepted ops o t accepted.now }
    ensures { IfSome result (λ v. IsPage accepted.now.placed.nodes text.now
        (report accepted.now.placed.nodes accepted.now.typed accepted.now.clocks.items) v.items) }
{
    let file = words.program.file;
    match page(alloc, file, text, program, accepted, words.instants) {
        Ok(print) => Some(print),
        Err(_) => None,
    }
}

// The page of a program with this tree that is accepted, if it is and there is memory for that.
fn drawn_by(
    alloc: Global,
    words: PageWords<'_>,
    ops: &Ops,
    text: &[u8],
    program: &Program,
) -> Option<Vec<u8>>
    requires { AreFactors words.program }
    ensures { IfSome result (λ v. OwesAcceptedPage ops.now (options_of words.entry.program) text.now (printed v.items)) }
{
    match accepted(alloc, words.program, ops, text) {
        Ok(accepted) => page_by(alloc, words, text, program, &accepted),
        Err(_) => None,
    }
}

// The page of a program that is accepted, if it is and there is memory for that.
fn drawn(alloc: Global, words: PageWords<'_>, ops: &Ops, text: &[u8]) -> Option<Vec<u8>>
    requires { AreFactors words.program }
    ensures { IfSome result (λ v. OwesAcceptedPage ops.now (options_of words.entry.program) text.now (printed v.items)) }
{
    match parse(alloc, text) {
        Ok(program) => drawn_by(alloc, words, ops, text, &program),
        Err(_) => None,
    }
}

/// What `page` prints of a text, or why it prints nothing. A refusal has a page, and is told besides.
pub(crate) fn pages(
    alloc: Global,
    words: PageWords<'_>,
    ops: &Ops,
    text: &[u8],
) -> Result<Shown, Failure>
    requires { AreFactors words.program }
    ensures outcome { IsOutcome (OwesPicture (picture.Page words.entry) (unread ops.now (Ok text.now))) result }
    ensures told { MatchResult result IsTold Tellable }
{
    match drawn(alloc, words, ops, text) {
        Some(print) => Ok(Shown {
            print,
            refusal: None,
        }),
        None => refused(alloc, words, ops, text),
    }
}
