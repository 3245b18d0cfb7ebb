// What main is fed.
ghost use Rattle.std.specs.Prelude.{◌≡◌, ◌<◌, ◌≤◌, ◌^◌, [], length, IfOk};
ghost use Rattle.lucy_run.specs.Feeds.{IsMainFeed};
ghost use Rattle.lucy_run.specs.Calls.{ReadsAndEnds};

use lucy_host::Inputs;
use lucy_lines::{Feed, InputSpec, read_feed};
use lucy_text::Source;
use std::alloc::{AllocError, Global};

/// The items of main's inputs. Where it has none the source is left alone.
pub fn main_feed<I: Source>(
    alloc: Global,
    inputs: Vec<InputSpec>,
    source: &mut I,
) -> Result<Feed, AllocError>
    requires { length inputs.items < 2 ^ 32 }
    ensures fed { ReadsAndEnds inputs.items (I.seen source.old) (I.seen source.new) (λ taken stop. IsMainFeed inputs.items taken stop result) }
    ensures lists { IfOk result (λ feed. length feed.items ≡ length inputs.items) }
    ensures unread { inputs.items ≡ [] → source.new ≡ source.old }
    ensures count { (I.seen source.old).faults ≤ (I.seen source.new).faults }
{
    if inputs.is_empty() {
        return Ok(Feed {
            items: Inputs::new(alloc),
            stop: None,
        });
    }
    read_feed(alloc, inputs, source)
}
