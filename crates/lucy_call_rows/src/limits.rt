// Words at the limits of their bits and of their comparison, which no text passes by these calls alone.
ghost use Rattle.std.specs.Prelude.{◌≡◌, IfSome};
ghost use Rattle.lucy_need.specs.Meeting.{AreProperNeeds};

use lucy_check::{CheckFault, check};
use lucy_need::{Need, NeedList, Needs, Term, always};
use lucy_word::{Word, WordError, on};
use std::alloc::Global;
use std::io;

// The word whose period is a one and so many zeros.
fn one_in(alloc: Global, zeros: u32) -> Option<Word> {
    let mut period = vec![in alloc; false; zeros as usize + 1].ok()?;
    period[0] = true;
    Word::from_bits(alloc, &[], &period).ok()
}

// Prints what the word of a one and so many zeros is, on another of so many.
fn show_on(rt: &(impl Print + AllocGlobal), zeros: u32, others: u32) -> io::Result<()> {
    print!(rt; "a one and {zeros} zeros on a one and {others}: ")?;
    let (Some(a), Some(b)) = (one_in(rt.alloc(), zeros), one_in(rt.alloc(), others)) else {
        return println!(rt; "no memory");
    };
    match on(rt.alloc(), &a, &b) {
        Ok(word) => {
            let (prefix, period) = word.lengths();
            let (ones, _) = word.rate();
            println!(rt; "prefix {prefix}, period {period}, ones {ones}")
        }
        Err(WordError::TooLong) => println!(rt; "too long"),
        Err(_) => println!(rt; "no memory"),
    }
}

// That what comes at the instants of a one in so many may wait in a buffer which is read at those of another.
fn waits(alloc: Global, zeros: u32, others: u32) -> Option<Needs>
    ensures proper { IfSome result AreProperNeeds }
    ensures clocks { IfSome result (λ needs. needs.clocks ≡ 1) }
{
    let (Some(a), Some(b)) = (one_in(alloc, zeros), one_in(alloc, others)) else {
        return None;
    };
    let first = Term { clock: 0, word: a };
    let second = Term { clock: 0, word: b };
    let list = vec![in alloc; Need::Adapt(first, second)].ok()?;
    Some(Needs {
        clocks: 1,
        list: NeedList::new(list),
    })
}

fn print_fault(rt: &impl Print, fault: CheckFault) -> io::Result<()> {
    match fault {
        CheckFault::Differs { need, instant } => println!(rt; "need {need} differs at {instant}"),
        CheckFault::Rates { need } => println!(rt; "need {need} has unequal rates"),
        CheckFault::Late { need, instant } => println!(rt; "need {need} is late at {instant}"),
        CheckFault::Limit { need, limit } => println!(rt; "need {need} passes {}", limit.name()),
        CheckFault::OutOfMemory => println!(rt; "no memory"),
    }
}

// Prints what is said of a buffer between the two on the base.
fn show_check(rt: &(impl Print + AllocGlobal), zeros: u32, others: u32) -> io::Result<()> {
    print!(rt; "a buffer between a one and {zeros} zeros and a one and {others}: ")?;
    let Some(needs) = waits(rt.alloc(), zeros, others) else {
        return println!(rt; "no memory");
    };
    let Ok(base) = always(rt.alloc()) else {
        return println!(rt; "no memory");
    };
    match check(rt.alloc(), &needs, &[base]) {
        Ok(sizes) => println!(rt; "met, {} sizes", sizes.len()),
        Err(fault) => print_fault(rt, fault),
    }
}

// By hand: a word with one one in a period of 1,024 bits, on such a word, has one in 1,024 times 1,024 bits, which are 1,048,576 and as
// many as a word may have. 1,025 times 1,024 are more. 4,096 and 4,095 have the common period 16,773,120, within the limit of what is
// compared, and 4,097 and 4,096 have 16,781,312, past it; the rates of both pairs are unequal.
/// Prints the rows.
pub(crate) fn show(rt: &(impl Print + AllocGlobal)) -> io::Result<()> {
    show_on(rt, 1_023, 1_023)?;
    show_on(rt, 1_024, 1_023)?;
    show_on(rt, 1_023, 1_024)?;
    show_check(rt, 4_095, 4_094)?;
    show_check(rt, 4_096, 4_095)
}
