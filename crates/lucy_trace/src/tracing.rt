// The lines of a trace.
ghost use Rattle.std.specs.Prelude.{◌≡◌, ◌++◌, ◌∷◌, [], true, false, IfOk, OnOk, decimal};
ghost use Rattle.lucy_trace.specs.Traces.{round_line, TracesAreLogs};

use itoa::Buffer;
use std::alloc::{AllocError, Global};

// Puts an actor behind the others, and a space between.
fn put(line: &mut Vec<u8>, actor: u32, first: bool) -> Result<(), AllocError>
    ensures first { OnOk result (first ≡ true → line.new.items ≡ line.old.items ++ decimal actor) }
    ensures later { OnOk result (first ≡ false → line.new.items ≡ line.old.items ++ 32 ∷ decimal actor) }
{
    if !first {
        line.push(b' ')?;
    }
    line.extend_from_slice(Buffer::new().format(actor).as_bytes())
}

// Ends a line.
fn end(line: &mut Vec<u8>) -> Result<(), AllocError>
    ensures { OnOk result (line.new.items ≡ line.old.items ++ 10 ∷ []) }
{
    line.push(b'\n')?;
    Ok(())
}

/// The line of a round with these events: the numbers of their actors, parted by single spaces, and a line feed.
pub fn line_of(alloc: Global, picks: &[u32]) -> Result<Vec<u8>, AllocError>
    ensures { IfOk result (λ line. line.items ≡ round_line picks.now) }
{
    let mut line = Vec::new(alloc);
    for (place, actor) in picks.iter().enumerate() {
        put(&mut line, *actor, place == 0)?;
    }
    end(&mut line)?;
    Ok(line)
}

/// The lines of rounds are a log of their events, in order.
pub fn traces_are_logs()
    ensures { TracesAreLogs }
{}
