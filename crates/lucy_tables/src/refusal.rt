// Why words are refused for their tables.
ghost use Rattle.std.specs.Prelude.{◌≡◌, ◌≢◌, ◌⊎◌, ◌≤◌, IfOk};
ghost use Rattle.lucy_front.specs.Refusals.{memory_line};
ghost use Rattle.lucy_app.specs.Ends.{Tells};
ghost use Rattle.lucy_tables.specs.Refusals.{number_line};
ghost use Rattle.lucy_tables.specs.Seen.{loading_answer};
ghost use Rattle.lucy_tables.specs.declared.refusal.Refusal.TheVariants.{OutOfMemory as Memory};

use lucy_app::{explain, tell};
use lucy_front::refusal_text;
use lucy_text::Sink;
use lucy_word::Limit;
use std::alloc::{AllocError, Global};

/// Why words are refused for their tables, or for the files of these.
#[derive(Clone, Copy)]
pub(crate) enum Refusal<'a> {
    /// A `--table` lacks a word, or a name is none or is there already.
    Words,
    /// A fetch failed, or no file has the name.
    ReadFault,
    /// In the table of the name stands a field that is no number, at this offset from 0.
    BadNumber { name: &'a str, place: u64 },
    /// A limit is passed.
    Limit(Limit),
    /// Memory ran out.
    OutOfMemory,
}

// The line of a field that is no number.
fn number_line(alloc: Global, name: &str, place: u64) -> Result<Vec<u8>, AllocError>
    ensures { IfOk result (λ v. v.items ≡ number_line name.now place) }
{
    Ok(format!(in alloc; "lucy: table {name}: bad number at {place}\n")?.into_bytes())
}

/// Says why the words are refused, or where there is no memory for that, that it ran out.
pub(crate) fn refuse<E: Sink>(alloc: Global, err: &mut E, refusal: Refusal<'_>) -> u8
    ensures told { let answer = loading_answer refusal.entry in
        Tells answer.status answer.err (E.seen err.old) (E.seen err.new) result
        ⊎ Tells 7 memory_line (E.seen err.old) (E.seen err.new) result }
    ensures fails { result ≢ 0 }
    ensures count { (E.seen err.old).faults ≤ (E.seen err.new).faults }
{
    match refusal {
        Refusal::Words => tell(err, b"lucy: words\n", 2),
        Refusal::ReadFault => tell(err, b"lucy: read fault\n", 4),
        Refusal::BadNumber { name, place } => explain(err, number_line(alloc, name, place), 3),
        Refusal::Limit(limit) => {
            explain(
                err,
                refusal_text(alloc, &lucy_front::Refusal::Limit(limit)),
                6,
            )
        }
        Refusal::OutOfMemory => tell(err, b"lucy: out of memory\n", 7),
    }
}

impl From<AllocError> for Refusal<'_> {
    ghost from_gives = { λ _ e. e ≡ Memory };

    fn from(_: AllocError) -> Self {
        Refusal::OutOfMemory
    }
}
