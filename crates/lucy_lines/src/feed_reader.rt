// A reading of an input that is resumed.
ghost use Rattle.std.specs.Prelude.{◌≡◌, ◌+◌, ◌<◌, ◌≤◌, ◌^◌, ◌⊎◌, ◌++◌, ◌∷◌, ℕ, List, [], Bool, true, false, length, slice_index_or, IfOk, OnOk, OnErr, IfSome, MatchOption, Ok, IsTrue};
ghost use Rattle.std.specs.Int.{w64};
ghost use mir.Val.{SFits as FitsSigned};
ghost use Rattle.lucy_lines.specs.declared.input.InputSpec.{InputSpec as Spec};
ghost use Rattle.lucy_lines.specs.Fronts.{most_bytes};
ghost use Rattle.lucy_lines.specs.Cuts.{ItemOf, Stop as Halt};
ghost use Rattle.lucy_text.specs.Outside.{SeenSource};
ghost use Rattle.lucy_text.specs.Sources.{ReadStop};
ghost use Rattle.lucy_lines.specs.Feeding.{values_by_stream};
ghost use Rattle.lucy_lines.specs.Resuming.{AreCounts, AreMet, AsksWhile, IsOpen, IsShort, IsStopped, HasRead, AreFresh, ReadsWhile, ReadsMore, PassesMore, GivesUp};

use crate::feeds::{Feed, empty_lists};
use crate::input::InputSpec;
use crate::reader::{InputReader, Line, TextFault};
use lucy_host::Inputs;
use lucy_text::Source;
use std::alloc::{AllocError, Global};
use std::marker::Model;

/// Reads an input in pieces: up to as many items of each stream as are wanted, and on from there when asked again. What was
/// read is told of any state in which the source was seen first, so that reading in pieces is reading in one.
///
/// Memory that grows with the input holds only the items that were not carried away.
#[derive(Drop)]
pub struct FeedReader {
    reader: InputReader,
    fresh: Inputs,
    // of each stream, how many values came in all
    counts: Vec<u64>,
    fault: Option<TextFault>,
}

impl Model for FeedReader {
    ghost use Rattle.std.specs.Prelude.{◌≡◌, ◌<◌, ◌^◌, false, length};
    ghost use Rattle.lucy_lines.specs.Going.{CanCount};
    ghost use Rattle.lucy_lines.specs.Resuming.{FeedState};

    ghost Value = { FeedState };

    ghost view = { λ r. record { reader = r.reader; fresh = r.fresh; counts = r.counts.items; fault = r.fault } };

    ghost invariant = { λ r. (length r.reader.inputs < 2 ^ 32) × (length r.counts.items ≡ length r.reader.inputs) × (length r.fresh ≡ length r.reader.inputs)
        × (r.reader.ended ≡ false → CanCount r.reader r.counts.items r.fault) };
}

// So many counts of 0.
fn no_counts(alloc: Global, streams: usize) -> Result<Vec<u64>, AllocError>
    ensures many { IfOk result (λ counts. length counts.items ≡ streams) }
    ensures none { IfOk result (λ counts. (i : ℕ) → slice_index_or counts.items i 0 ≡ 0) }
{
    let mut counts = Vec::with_capacity(alloc, streams)?;
    for _ in 0..streams {
        counts.push(0)?;
    }
    Ok(counts)
}

impl FeedReader {
    /// A reader that has read nothing, of fewer than 2^32 inputs.
    pub fn new(alloc: Global, inputs: Vec<InputSpec>) -> Result<FeedReader, AllocError>
        requires { length inputs.items < 2 ^ 32 }
        ensures begun { IfOk result (λ r. (source : SeenSource) → HasRead inputs.items source source r [] []) }
        ensures fresh { IfOk result (λ r. AreFresh inputs.items r []) }
        ensures inputs { IfOk result (λ r. r.reader.inputs ≡ inputs.items) }
    {
        let fresh = empty_lists(alloc, inputs.len())?;
        let counts = no_counts(alloc, inputs.len())?;
        let reader = InputReader::new(alloc, inputs)?;
        Ok(FeedReader {
            reader,
            fresh,
            counts,
            fault: None,
        })
    }

    /// The values that were not carried away, in their order: a list for each stream, by number from 0. A truth is 1 or 0.
    pub fn fresh(&self) -> &Inputs
        ensures { result.now ≡ self.now.fresh }
    {
        &self.fresh
    }

    /// How many values of each stream came in all, also of those that were carried away.
    pub fn counts(&self) -> &[u64]
        ensures { result.now ≡ self.now.counts }
    {
        &self.counts
    }

    /// Whether reading stopped: at the end, at a refused line or at a read that failed.
    pub fn stopped(&self) -> bool
        ensures { result ≡ self.now.reader.ended }
    {
        self.reader.ended()
    }

    /// The refused line, or the read that failed, at which reading stopped. None where it stopped at the end, or hasn't stopped.
    pub fn fault(&self) -> Option<TextFault>
        ensures { result ≡ self.now.fault }
    {
        self.fault
    }

    // Reads a line: the stream and the value of its item, which is counted, or None where reading stops.
    fn next_item<I: Source>(&mut self, source: &mut I) -> Option<(u32, i64)>
        requires { self.old.reader.ended ≡ false }
        ensures item { IfSome result (λ i. (inputs : List Spec) (first : SeenSource) (items : List ItemOf) (taken : List ℕ) → IsOpen inputs first
            (I.seen source.old) self.old.reader self.old.counts items taken → (bytes : List ℕ) × IsOpen inputs first
            (I.seen source.new) self.new.reader self.new.counts (items ++ record { stream = i.0; value = i.1 } ∷ []) (taken ++ bytes)
            × AsksWhile (λ xs. xs ≡ items) inputs taken bytes) }
        ensures stop { MatchOption result ((inputs : List Spec) (first : SeenSource) (items : List ItemOf) (taken : List ℕ) → IsOpen inputs first
            (I.seen source.old) self.old.reader self.old.counts items taken →
            (bytes : List ℕ) × (stop : ReadStop) × (halt : Halt) × IsStopped inputs first
            (I.seen source.new) self.new.reader self.new.counts self.new.fault items (taken ++ bytes) stop halt
            × AsksWhile (λ xs. xs ≡ items) inputs taken bytes) (λ i. Unit {0}) }
        ensures known { IfSome result (λ i. i.0 < length self.old.reader.inputs) }
        ensures fits { IfSome result (λ i. FitsSigned w64 i.1) }
        ensures progress { MatchOption result (self.new.reader.ended ≡ true) (λ i. (self.new.reader.ended ≡ false) × (self.old.reader.held.used < self.new.reader.held.used) × (self.new.reader.held.used ≤ most_bytes + 1)) }
        ensures fresh { self.new.fresh ≡ self.old.fresh }
        ensures risen { AreMet self.old.counts self.new.counts }
        ensures inputs { self.new.reader.inputs ≡ self.old.reader.inputs }
        ensures count { (I.seen source.old).faults ≤ (I.seen source.new).faults }
    {
        match self.reader.next_line(source) {
            Ok(Line::Item { stream, value }) => {
                self.counts[stream as usize] += 1;
                Some((stream, value))
            }
            Ok(Line::End) => None,
            Err(fault) => {
                self.fault = Some(fault);
                None
            }
        }
    }

    // Reads a line and keeps its item, if it has one.
    fn keep_item<I: Source>(&mut self, alloc: Global, source: &mut I) -> Result<(), AllocError>
        requires { self.old.reader.ended ≡ false }
        ensures reads { OnOk result (ReadsWhile (λ inputs items. AreCounts inputs self.old.counts items) (I.seen source.old) (I.seen source.new) self.old self.new) }
        ensures gives_up { OnErr result (GivesUp (I.seen source.old) (I.seen source.new) self.old) }
        ensures progress { OnOk result ((self.new.reader.ended ≡ true) ⊎ ((self.new.reader.ended ≡ false) × (self.old.reader.held.used < self.new.reader.held.used) × (self.new.reader.held.used ≤ most_bytes + 1))) }
        ensures risen { AreMet self.old.counts self.new.counts }
        ensures inputs { self.new.reader.inputs ≡ self.old.reader.inputs }
        ensures count { (I.seen source.old).faults ≤ (I.seen source.new).faults }
    {
        match self.next_item(source) {
            Some((stream, value)) => self.fresh.push(alloc, stream, value),
            None => Ok(()),
        }
    }

    // Whether reading goes on and a stream has fewer values than these.
    fn lacks(&self, stream: usize, least: u64) -> bool
        requires { stream < length self.now.reader.inputs }
        ensures lacks { result ≡ true → (self.now.reader.ended ≡ false) × (slice_index_or self.now.counts stream 0 < least) }
        ensures has { result ≡ false → (self.now.reader.ended ≡ true) ⊎ (least ≤ slice_index_or self.now.counts stream 0) }
    {
        !self.reader.ended() && self.counts[stream] < least
    }

    // Reads on until a stream has so many values in all, or reading stops.
    fn read_until<I: Source>(
        &mut self,
        alloc: Global,
        stream: usize,
        least: u64,
        source: &mut I,
    ) -> Result<(), AllocError>
        requires { stream < length self.old.reader.inputs }
        ensures reads { OnOk result (ReadsWhile (λ inputs items. length (slice_index_or (values_by_stream (length inputs) items) stream []) < least) (I.seen source.old) (I.seen source.new) self.old self.new) }
        ensures gives_up { OnErr result (GivesUp (I.seen source.old) (I.seen source.new) self.old) }
        ensures enough { OnOk result ((self.new.reader.ended ≡ true) ⊎ (least ≤ slice_index_or self.new.counts stream 0)) }
        ensures unread { (self.old.reader.ended ≡ true) ⊎ (least ≤ slice_index_or self.old.counts stream 0) → (result ≡ Ok tt) × (source.new ≡ source.old) × (self.new ≡ self.old) }
        ensures risen { AreMet self.old.counts self.new.counts }
        ensures inputs { self.new.reader.inputs ≡ self.old.reader.inputs }
        ensures count { (I.seen source.old).faults ≤ (I.seen source.new).faults }
    {
        'lines: while self.lacks(stream, least) {
            self.keep_item(alloc, source)?;
        }
        Ok(())
    }

    /// Reads lines until each stream has, in all, as many values as are wanted of it, or until reading stops; no byte is asked for
    /// when that is so. There is a number for each stream. Where memory runs out, the item that was read last is lost, and the
    /// reader is of no use any more.
    pub fn read_to<I: Source>(
        &mut self,
        alloc: Global,
        wanted: &[u64],
        source: &mut I,
    ) -> Result<(), AllocError>
        requires { length wanted.now ≡ length self.old.reader.inputs }
        ensures reads { OnOk result (ReadsWhile (IsShort wanted.now) (I.seen source.old) (I.seen source.new) self.old self.new) }
        ensures gives_up { OnErr result (GivesUp (I.seen source.old) (I.seen source.new) self.old) }
        ensures enough { OnOk result ((self.new.reader.ended ≡ true) ⊎ AreMet wanted.now self.new.counts) }
        ensures unread { (self.old.reader.ended ≡ true) ⊎ AreMet wanted.now self.old.counts → (result ≡ Ok tt) × (source.new ≡ source.old) × (self.new ≡ self.old) }
        ensures risen { AreMet self.old.counts self.new.counts }
        ensures inputs { self.new.reader.inputs ≡ self.old.reader.inputs }
        ensures count { (I.seen source.old).faults ≤ (I.seen source.new).faults }
    {
        for (stream, least) in wanted.iter().enumerate() {
            self.read_until(alloc, stream, *least, source)?;
        }
        Ok(())
    }

    /// Reads on until reading stops, and keeps all values. Where memory runs out, it is as with `read_to`.
    pub fn read_on<I: Source>(&mut self, alloc: Global, source: &mut I) -> Result<(), AllocError>
        ensures reads { OnOk result (ReadsMore (I.seen source.old) (I.seen source.new) self.old self.new) }
        ensures gives_up { OnErr result (GivesUp (I.seen source.old) (I.seen source.new) self.old) }
        ensures stopped { OnOk result (self.new.reader.ended ≡ true) }
        ensures unread { self.old.reader.ended ≡ true → (result ≡ Ok tt) × (source.new ≡ source.old) × (self.new ≡ self.old) }
        ensures risen { AreMet self.old.counts self.new.counts }
        ensures inputs { self.new.reader.inputs ≡ self.old.reader.inputs }
        ensures count { (I.seen source.old).faults ≤ (I.seen source.new).faults }
    {
        'lines: while !self.stopped() {
            self.keep_item(alloc, source)?;
        }
        Ok(())
    }

    /// Reads on until reading stops, and counts the values that come without keeping any. It takes no memory.
    pub fn pass_rest<I: Source>(&mut self, source: &mut I)
        ensures reads { PassesMore (I.seen source.old) (I.seen source.new) self.old self.new }
        ensures stopped { self.new.reader.ended ≡ true }
        ensures fresh { self.new.fresh ≡ self.old.fresh }
        ensures unread { self.old.reader.ended ≡ true → (source.new ≡ source.old) × (self.new ≡ self.old) }
        ensures risen { AreMet self.old.counts self.new.counts }
        ensures inputs { self.new.reader.inputs ≡ self.old.reader.inputs }
        ensures count { (I.seen source.old).faults ≤ (I.seen source.new).faults }
    {
        'lines: while !self.stopped() {
            let _ = self.next_item(source);
        }
    }

    /// The values count as carried away: each stream's list is empty then, and the counts stay. A refusal changes nothing.
    pub fn carry_away(&mut self, alloc: Global) -> Result<(), AllocError>
        ensures ok { IfOk result (λ _. self.new ≡ record self.old { fresh = values_by_stream (length self.old.reader.inputs) [] }) }
        ensures refused { OnErr result (self.new ≡ self.old) }
    {
        self.fresh = empty_lists(alloc, self.counts.len())?;
        Ok(())
    }

    /// The values that were not carried away, and the fault at which reading stopped.
    pub fn into_feed(self) -> Feed
        ensures { result ≡ record { items = self.fresh; stop = self.fault } }
    {
        Feed {
            items: self.fresh,
            stop: self.fault,
        }
    }
}
