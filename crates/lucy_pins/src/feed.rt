// Whole inputs, read in one piece or in several.
ghost use Rattle.std.specs.Prelude.{◌<◌, ◌≤◌, ◌≡◌, ◌^◌, ℕ, List, length, IfOk, [], ◌⊎◌, true, OnOk, OnErr, Ok};
ghost use Rattle.lucy_lines.specs.Fronts.{most_bytes};
ghost use Rattle.lucy_text.specs.Sources.{ReadStop, Read};
ghost use Rattle.lucy_lines.specs.Feeding.{IsFeed, IsAsked, values_by_stream, OneFeed};
ghost use Rattle.lucy_text.specs.Outside.{SeenSource};
ghost use Rattle.lucy_lines.specs.Resuming.{HasRead, AreFresh, AreMet, IsShort, ReadsWhile, GivesUp, ReadsMore, PassesMore};

use lucy_lines::{Feed, FeedReader, InputSpec};
use lucy_text::Source;
use std::alloc::{AllocError, Global};

/// Pins `lucy_lines::read_feed`.
pub fn read_feed<I: Source>(
    alloc: Global,
    inputs: Vec<InputSpec>,
    source: &mut I,
) -> Result<Feed, AllocError>
    requires { length inputs.items < 2 ^ 32 }
    ensures fed { (taken : List ℕ) × (stop : ReadStop) × Read most_bytes (I.seen source.old) (I.seen source.new)
        taken stop × IsAsked inputs.items taken × IsFeed inputs.items taken stop result }
    ensures lists { IfOk result (λ feed. length feed.items ≡ length inputs.items) }
    ensures count { (I.seen source.old).faults ≤ (I.seen source.new).faults }
{
    lucy_lines::read_feed(alloc, inputs, source)
}

/// Pins `lucy_lines::FeedReader::new`.
pub fn reader(alloc: Global, inputs: Vec<InputSpec>) -> Result<FeedReader, AllocError>
    requires { length inputs.items < 2 ^ 32 }
    ensures begun { IfOk result (λ r. (source : SeenSource) → HasRead inputs.items source source r [] []) }
    ensures fresh { IfOk result (λ r. AreFresh inputs.items r []) }
    ensures inputs { IfOk result (λ r. r.reader.inputs ≡ inputs.items) }
{
    FeedReader::new(alloc, inputs)
}

/// Pins `lucy_lines::FeedReader::read_to`.
pub fn read_to<I: Source>(
    reader: &mut FeedReader,
    alloc: Global,
    wanted: &[u64],
    source: &mut I,
) -> Result<(), AllocError>
    requires { length wanted.now ≡ length reader.old.reader.inputs }
    ensures reads { OnOk result (ReadsWhile (IsShort wanted.now) (I.seen source.old) (I.seen source.new) reader.old reader.new) }
    ensures gives_up { OnErr result (GivesUp (I.seen source.old) (I.seen source.new) reader.old) }
    ensures enough { OnOk result ((reader.new.reader.ended ≡ true) ⊎ AreMet wanted.now reader.new.counts) }
    ensures unread { (reader.old.reader.ended ≡ true) ⊎ AreMet wanted.now reader.old.counts → (result ≡ Ok tt) × (source.new ≡ source.old) × (reader.new ≡ reader.old) }
    ensures risen { AreMet reader.old.counts reader.new.counts }
    ensures inputs { reader.new.reader.inputs ≡ reader.old.reader.inputs }
    ensures count { (I.seen source.old).faults ≤ (I.seen source.new).faults }
{
    reader.read_to(alloc, wanted, source)
}

/// Pins `lucy_lines::FeedReader::read_on`.
pub fn read_on<I: Source>(
    reader: &mut FeedReader,
    alloc: Global,
    source: &mut I,
) -> Result<(), AllocError>
    ensures reads { OnOk result (ReadsMore (I.seen source.old) (I.seen source.new) reader.old reader.new) }
    ensures gives_up { OnErr result (GivesUp (I.seen source.old) (I.seen source.new) reader.old) }
    ensures stopped { OnOk result (reader.new.reader.ended ≡ true) }
    ensures unread { reader.old.reader.ended ≡ true → (result ≡ Ok tt) × (source.new ≡ source.old) × (reader.new ≡ reader.old) }
    ensures risen { AreMet reader.old.counts reader.new.counts }
    ensures inputs { reader.new.reader.inputs ≡ reader.old.reader.inputs }
    ensures count { (I.seen source.old).faults ≤ (I.seen source.new).faults }
{
    reader.read_on(alloc, source)
}

/// Pins `lucy_lines::FeedReader::pass_rest`.
pub fn pass_rest<I: Source>(reader: &mut FeedReader, source: &mut I)
    ensures reads { PassesMore (I.seen source.old) (I.seen source.new) reader.old reader.new }
    ensures stopped { reader.new.reader.ended ≡ true }
    ensures fresh { reader.new.fresh ≡ reader.old.fresh }
    ensures unread { reader.old.reader.ended ≡ true → (source.new ≡ source.old) × (reader.new ≡ reader.old) }
    ensures risen { AreMet reader.old.counts reader.new.counts }
    ensures inputs { reader.new.reader.inputs ≡ reader.old.reader.inputs }
    ensures count { (I.seen source.old).faults ≤ (I.seen source.new).faults }
{
    reader.pass_rest(source);
}

/// Pins `lucy_lines::FeedReader::carry_away`.
pub fn carry_away(reader: &mut FeedReader, alloc: Global) -> Result<(), AllocError>
    ensures ok { IfOk result (λ _. reader.new ≡ record reader.old { fresh = values_by_stream (length reader.old.reader.inputs) [] }) }
    ensures refused { OnErr result (reader.new ≡ reader.old) }
{
    reader.carry_away(alloc)
}

/// Pins `lucy_lines::FeedReader::into_feed`.
pub fn into_feed(reader: FeedReader) -> Feed
    ensures { result ≡ record { items = reader.fresh; stop = reader.fault } }
{
    reader.into_feed()
}

/// Pins `lucy_lines::one_feed`.
pub fn one_feed()
    ensures { OneFeed }
{
    lucy_lines::one_feed();
}
