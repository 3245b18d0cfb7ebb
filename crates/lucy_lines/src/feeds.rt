// The items of an input, stream by stream.
ghost use Rattle.std.specs.Prelude.{◌<◌, ◌≤◌, ◌≡◌, ◌^◌, ℕ, List, [], length, IfOk};
ghost use Rattle.lucy_lines.specs.Fronts.{most_bytes};
ghost use Rattle.lucy_text.specs.Sources.{ReadStop, Read};
ghost use Rattle.lucy_lines.specs.Feeding.{values_by_stream, IsFeed, IsAsked};

use crate::feed_reader::FeedReader;
use crate::input::InputSpec;
use crate::reader::TextFault;
use lucy_host::Inputs;
use lucy_text::Source;
use std::alloc::{AllocError, Global};

/// The items of an input, and why they stop before the input's end.
#[derive(Drop)]
pub struct Feed {
    /// The values of each stream's items, in their order: one list for each of the input's streams, by number from 0. A truth
    /// is 1 or 0.
    pub items: Inputs,
    /// The refused line, or the read that failed. None where the input was read to its end.
    pub stop: Option<TextFault>,
}

/// So many lists, fewer than 2^32, without an item.
pub fn empty_lists(alloc: Global, streams: usize) -> Result<Inputs, AllocError>
    requires { streams < 2 ^ 32 }
    ensures { IfOk result (λ lists. lists ≡ values_by_stream streams []) }
{
    let mut lists = Inputs::new(alloc);
    for _ in 0..streams {
        lists.add_list(alloc)?;
    }
    Ok(lists)
}

/// Reads the items of an input up to its end, a refused line or a read that fails, 64 KiB at a time. There must be fewer than
/// 2^32 streams. Where memory runs out, the bytes taken by then are lost.
pub fn read_feed<I: Source>(
    alloc: Global,
    inputs: Vec<InputSpec>,
    source: &mut I,
) -> Result<Feed, AllocError>
    requires { length inputs.items < 2 ^ 32 }
    ensures fed { (taken : List ℕ) × (stop : ReadStop) × Read most_bytes (I.seen source.old) (I.seen source.new)
        taken stop × IsAsked inputs.items taken × IsFeed inputs.items taken stop result }
    ensures lists { IfOk result (λ feed. length feed.items ≡ length inputs.items) }
    ensures count { (I.seen source.old).faults ≤ (I.seen source.new).faults }
{
    let mut reader = FeedReader::new(alloc, inputs)?;
    reader.read_on(alloc, source)?;
    Ok(reader.into_feed())
}
