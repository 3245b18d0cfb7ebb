// The flat net of a program.
ghost use Rattle.std.specs.Prelude.{[], ◌≡◌, ◌⊎◌, ◌+◌, ◌<◌, ◌≤◌, ◌^◌, Some, length, OnOk, IfOk, IfErr, MatchResult};
ghost use Rattle.lucy_word.specs.declared.limit.Limit.{Limit as Which};
ghost use Rattle.lucy_word.specs.declared.limit.Limit.TheVariants as lim;
ghost use Rattle.lucy_net.specs.declared.net.Net.{Net as Flat};
ghost use Rattle.lucy_word.specs.Limits.{limit_number};
ghost use Rattle.lucy_place.specs.Proper.{AreProper};
ghost use Rattle.lucy_flat.specs.declared.error.FlatError.TheVariants as err;
ghost use Rattle.lucy_flat.specs.Counts.{HasSmallNet, last_of, outputs_of};
ghost use Rattle.lucy_flat.specs.Clocked.{AreClocked};
ghost use Rattle.lucy_flat.specs.Drafts.{CanBeFlattened, AreDrafts, AreKept, IsInstanceKept, AreDraftsKept, RefusesDrafts};
ghost use Rattle.lucy_flat.specs.Refusals.{IsClockTooLong, NetWordIsTooLong, IsFlatNet, RefusesFlat, net_bits};

use crate::assemble::assemble;
use crate::draft::Draft;
use crate::error::FlatError;
use crate::extent::passed;
use crate::instance::{Program, put_instance};
use crate::kept::{Kept, keep};
use crate::words::bits;
use lucy_clock::NodeClock;
use lucy_kahn::sizes;
use lucy_need::always;
use lucy_net::{ActorKind, Net, net_words_are_stored};
use lucy_place::Placed;
use lucy_word::{Limit, words_are_stored};
use std::alloc::Global;

// Puts the drafts of the outputs. The base of main is (1), so a result has there the word that its place has in the node.
fn put_outputs(
    alloc: Global,
    program: Program<'_>,
    main: u32,
    kept: &mut Kept,
) -> Result<(), FlatError>
    requires some { 0 < length program.placed.now.nodes }
    requires main { main ≡ last_of program.placed.now.nodes }
    requires program { CanBeFlattened program.placed.now.nodes program.clocks.now program.sizes.now }
    requires put { IsInstanceKept program.placed.now.nodes program.clocks.now [] (last_of program.placed.now.nodes) [] kept.old }
    requires few { outputs_of program.placed.now.nodes < 2 ^ 32 }
    ensures ok { OnOk result (AreDraftsKept program.entry.placed.now.nodes program.entry.clocks.now kept.new) }
    ensures refused { IfErr result (λ e. e ≡ err.OutOfMemory) }
{
    let results = program.placed.node(main).results.list();
    let words = program.clocks[main as usize].words.list();
    'each: for i in 0..results.len() {
        let place = results[i];
        let word = &words[place as usize];
        words_are_stored(word);
        let word = word.copy(alloc)?;
        let mut reads = Vec::new(alloc);
        reads.push(place - 1)?;
        let next = Draft {
            kind: ActorKind::Output(i as u32),
            word,
            reads,
            size: 0,
            gives: Vec::new(alloc),
        };
        keep(kept, next)?;
    }
    Ok(())
}

// How many bits the words of a net have together.
fn all_bits(net: &Net) -> u64
    requires actors { length net.now.actors < 2 ^ 32 }
    requires rings { length net.now.rings < 2 ^ 32 }
    ensures { result ≡ net_bits net.now }
{
    let mut all = 0u64;
    let actors = net.actors.list();
    'actors: for actor in actors {
        all += bits(&actor.firing);
    }
    let rings = net.rings.list();
    'rings: for ring in rings {
        all += bits(&ring.write) + bits(&ring.read);
    }
    all
}

// Puts the drafts of a program.
fn put_all(alloc: Global, program: Program<'_>, main: u32, kept: &mut Kept) -> Result<(), FlatError>
    requires some { 0 < length program.placed.now.nodes }
    requires main { main ≡ last_of program.placed.now.nodes }
    requires program { CanBeFlattened program.placed.now.nodes program.clocks.now program.sizes.now }
    requires small { HasSmallNet program.placed.now.nodes program.clocks.now }
    requires none { AreKept [] kept.old }
    ensures ok { OnOk result (AreDraftsKept program.entry.placed.now.nodes program.entry.clocks.now kept.new) }
    ensures fits { OnOk result (IsClockTooLong program.entry.placed.now.nodes program.entry.clocks.now → ⊥) }
    ensures refused { IfErr result (λ e. (e ≡ err.OutOfMemory) ⊎ ((e ≡ err.Limit lim.Word) × NetWordIsTooLong program.entry.placed.now.nodes program.entry.clocks.now)) }
{
    let base = always(alloc)?;
    match put_instance(alloc, program, main, &base, None, 0, kept) {
        Ok(()) => {
            drop(base);
            put_outputs(alloc, program, main, kept)
        }
        Err(error) => {
            drop(base);
            Err(error)
        }
    }
}

// The drafts of a program. No more of their words are kept than are allowed.
fn drafts(alloc: Global, program: Program<'_>, main: u32) -> Result<Vec<Draft>, FlatError>
    requires some { 0 < length program.placed.now.nodes }
    requires main { main ≡ last_of program.placed.now.nodes }
    requires program { CanBeFlattened program.placed.now.nodes program.clocks.now program.sizes.now }
    requires small { HasSmallNet program.placed.now.nodes program.clocks.now }
    ensures ok { IfOk result (λ v. AreDrafts program.entry.placed.now.nodes program.entry.clocks.now v.items) }
    ensures small { IfOk result (λ v. HasSmallNet program.entry.placed.now.nodes program.entry.clocks.now) }
    ensures fits { IfOk result (λ v. IsClockTooLong program.entry.placed.now.nodes program.entry.clocks.now → ⊥) }
    ensures refused { IfErr result (RefusesDrafts program.entry.placed.now.nodes program.entry.clocks.now) }
{
    let mut kept = Kept {
        drafts: Vec::new(alloc),
        bits: 0,
    };
    put_all(alloc, program, main, &mut kept)?;
    let Kept { drafts, bits } = kept;
    if bits > Limit::Bits.number() {
        return Err(FlatError::Limit(Limit::Bits));
    }
    Ok(drafts)
}

// The flat net of a program, or why it has none.
fn made(alloc: Global, placed: &Placed, clocks: &[NodeClock]) -> Result<Net, FlatError>
    requires { AreClocked placed.now.nodes clocks.now }
    ensures proper { AreProper placed.now.nodes }
    ensures ok { IfOk result (IsFlatNet placed.now.nodes clocks.now) }
    ensures bits { IfOk result (λ net. net_bits net ≤ limit_number lim.Bits) }
    ensures refused { IfErr result (RefusesFlat placed.now.nodes clocks.now) }
{
    let main = placed.nodes() - 1;
    let sizes = sizes(placed);
    if let Some(limit) = passed(placed, clocks, &sizes) {
        return Err(FlatError::Limit(limit));
    }
    let program = Program {
        placed,
        clocks,
        sizes: &sizes,
    };
    let net = assemble(alloc, drafts(alloc, program, main)?)?;
    net_words_are_stored(&net);
    if all_bits(&net) > Limit::Bits.number() {
        return Err(FlatError::Limit(Limit::Bits));
    }
    Ok(net)
}

/// The flat net of a program, whose nodes have words that keep their clock rules, and the sizes of their buffers. A limit
/// comes where it is passed, in the order `Actors`, `Rings`, `Slots`, `Word`, `Bits`.
pub fn flatten(alloc: Global, placed: &Placed, clocks: &[NodeClock]) -> Result<Net, FlatError>
    requires { AreClocked placed.now.nodes clocks.now }
    ensures ok { IfOk result (IsFlatNet placed.now.nodes clocks.now) }
    ensures bits { IfOk result (λ net. net_bits net ≤ limit_number lim.Bits) }
    ensures refused { IfErr result (RefusesFlat placed.now.nodes clocks.now) }
    ensures accepted { (net : Flat) → IsFlatNet placed.now.nodes clocks.now net → net_bits net ≤ limit_number lim.Bits → MatchResult result (λ got. got ≡ net) (λ e. e ≡ err.OutOfMemory) }
    ensures limit { (l : Which) → RefusesFlat placed.now.nodes clocks.now (err.Limit l) → MatchResult result (λ net. ⊥) (λ e. (e ≡ err.OutOfMemory) ⊎ (e ≡ err.Limit l)) }
{
    made(alloc, placed, clocks)
}
