// The variables of main.
ghost use Rattle.std.specs.Prelude.{List, ◌≡◌, ◌≤◌, ◌<◌, ◌+◌, ◌-◌, ◌^◌, ◌∷◌, ◌++◌, [], length, slice_get, OnOk, IfOk, IfSome};
ghost use Rattle.std.specs.List.{AllByRecursion};
ghost use Rattle.lucy_place.specs.declared.placed.PlacedNode.{PlacedNode as Node};
ghost use Rattle.lucy_place.specs.Proper.{IsProperNode};
ghost use Rattle.lucy_need.specs.Meeting.{assigned};
ghost use Rattle.lucy_clock.specs.Clocks.{clocks_of};
ghost use Rattle.lucy_flat.specs.Clocked.{AreClocked};
ghost use Rattle.lucy_flat.specs.Instances.{words_in};
ghost use Rattle.lucy_wave.specs.Waves as spec;
ghost use Rattle.lucy_wave.specs.Waves.{Fit, FitInside, written_name, is_outer, is_among, inner_of};
ghost use Rattle.lucy_wave.specs.Seen.{seen, all_seen, IsWithin};

use crate::variable::Variable;
use lucy_clock::NodeClock;
use lucy_host::Inputs;
use lucy_lines::OutputSpec;
use lucy_place::{Placed, PlacedNode};
use lucy_program::first_operand;
use lucy_tree::Name;
use lucy_word::Word;
use std::alloc::{AllocError, Global};

// One more variable.
fn push<'a>(variables: &mut Vec<Variable<'a>>, variable: Variable<'a>) -> Result<(), AllocError>
    ensures { OnOk result (all_seen variables.new.items ≡ all_seen variables.old.items ++ seen variable.entry ∷ []) }
{
    variables.push(variable)?;
    Ok(())
}

// What is shown of a stream with its items.
fn put_stream<'a>(
    name: &'a [u8],
    word: &'a Word,
    items: &'a [i64],
    variables: &mut Vec<Variable<'a>>,
) -> Result<(), AllocError>
    ensures { OnOk result (all_seen variables.new.items ≡ all_seen variables.old.items ++ spec.stream name.now word.now items.now) }
{
    push(variables, Variable::There(name, word))?;
    push(variables, Variable::Last(name, word, items))
}

// The items are numbers of 64 bits, one after another.
fn are_numbers(items: &[i64])
    ensures { Fit items.now }
{
    'each: for item in items {
        // For the proof: a number that is read fits its type.
        let _number = *item;
    }
}

// The results, with their streams.
fn put_results<'a>(
    outputs: &'a [OutputSpec],
    streams: &'a Inputs,
    variables: &mut Vec<Variable<'a>>,
) -> Result<(), AllocError>
    requires lists { length outputs.now ≡ length streams.now }
    requires few { length outputs.now < 2 ^ 32 }
    ensures shown { OnOk result (all_seen variables.new.items ≡ all_seen variables.old.items ++ spec.results outputs.now streams.now) }
    ensures fit { OnOk result (AllByRecursion Fit streams.now) }
{
    'each: for (i, output) in outputs.iter().enumerate() {
        let items = streams.list(i as u32);
        are_numbers(items);
        put_stream(output.name.bytes(), &output.word, items, variables)?;
    }
    Ok(())
}

/// The words of main's clocks.
pub(crate) fn main_words<'a>(placed: &Placed, clocks: &'a [NodeClock]) -> &'a [Word]
    requires { AreClocked placed.now.nodes clocks.now }
    ensures { result.now ≡ words_in (slice_get clocks.now (length placed.now.nodes - 1)) }
{
    let main = placed.nodes() - 1;
    clocks[main as usize].words.list()
}

/// The word of a clock.
pub(crate) fn word_of(words: &[Word], clock: u32) -> &Word
    requires { clock < length words.now }
    ensures { result.now ≡ assigned words.now clock }
{
    &words[clock as usize]
}

// The bytes of a name, where there is one.
fn bytes_of(name: &Option<Name>) -> &[u8]
    ensures { result.now ≡ spec.bytes_of name.now }
{
    match name {
        None => &[],
        Some(name) => name.text.bytes(),
    }
}

// The written name of a place.
fn written_name(node: &PlacedNode, place: u32) -> &[u8]
    requires low { 1 ≤ place }
    requires high { place ≤ length node.now.places }
    ensures { result.now ≡ written_name node.now place }
{
    bytes_of(&node.places.list()[place as usize - 1].name)
}

// Whether a number is among these.
fn is_among(number: u32, numbers: &[u32]) -> bool
    ensures { result ≡ is_among number numbers.now }
{
    'each: for n in numbers {
        if *n == number {
            return true;
        }
    }
    false
}

// An input with its items, where it isn't a result too.
fn put_input<'a>(
    node: &'a PlacedNode,
    word: &'a Word,
    place: u32,
    items: &'a [i64],
    variables: &mut Vec<Variable<'a>>,
) -> Result<(), AllocError>
    requires low { 1 ≤ place }
    requires high { place ≤ length node.now.places }
    ensures { OnOk result (all_seen variables.new.items ≡ all_seen variables.old.items ++ spec.input node.now word.now place items.now) }
{
    if is_among(place, node.results.list()) {
        return Ok(());
    }
    put_stream(written_name(node, place), word, items, variables)
}

// The inputs that aren't results too, with their items.
fn put_inputs<'a>(
    node: &'a PlacedNode,
    words: &'a [Word],
    lists: &'a Inputs,
    variables: &mut Vec<Variable<'a>>,
) -> Result<(), AllocError>
    requires lists { length lists.now ≡ node.now.params }
    requires places { node.now.params ≤ length node.now.places }
    requires words { length node.now.places < length words.now }
    ensures { OnOk result (all_seen variables.new.items ≡ all_seen variables.old.items ++ spec.inputs node.now (assigned words.now) 1 lists.now) }
{
    'each: for i in 0..node.params {
        let place = i + 1;
        put_input(node, word_of(words, place), place, lists.list(i), variables)?;
    }
    Ok(())
}

// Whether a place is an input or a result.
fn is_outer(node: &PlacedNode, place: u32) -> bool
    ensures { result ≡ is_outer node.now place }
{
    place <= node.params || is_among(place, node.results.list())
}

// One more number.
fn add(numbers: &mut Vec<u32>, number: u32) -> Result<(), AllocError>
    ensures { OnOk result (numbers.new.items ≡ numbers.old.items ++ number ∷ []) }
{
    numbers.push(number)?;
    Ok(())
}

// The place, where it has a name and is neither an input nor a result.
fn add_inner(
    node: &PlacedNode,
    name: &Option<Name>,
    place: u32,
    places: &mut Vec<u32>,
) -> Result<(), AllocError>
    ensures { OnOk result (places.new.items ≡ places.old.items ++ spec.inner_place node.now place name.now) }
{
    match name {
        None => Ok(()),
        Some(_) => {
            if is_outer(node, place) {
                return Ok(());
            }
            add(places, place)
        }
    }
}

/// The places of main's inner streams, in order.
pub(crate) fn inner_places(alloc: Global, node: &PlacedNode) -> Result<Vec<u32>, AllocError>
    requires few { length node.now.places < 2 ^ 32 - 1 }
    ensures places { IfOk result (λ v. v.items ≡ inner_of node.now) }
    ensures few { IfOk result (λ v. length v.items ≤ length node.now.places) }
{
    let mut places = Vec::new(alloc);
    'each: for (i, entry) in node.places.list().iter().enumerate() {
        add_inner(node, &entry.name, i as u32 + 1, &mut places)?;
    }
    Ok(places)
}

// The bits of inner streams.
fn put_bits<'a>(
    node: &'a PlacedNode,
    words: &'a [Word],
    places: &[u32],
    variables: &mut Vec<Variable<'a>>,
) -> Result<(), AllocError>
    requires within { AllByRecursion (IsWithin (length node.now.places) (length words.now)) places.now }
    ensures { OnOk result (all_seen variables.new.items ≡ all_seen variables.old.items ++ spec.there_bits node.now (assigned words.now) places.now) }
{
    'each: for place in places {
        let there = Variable::There(written_name(node, *place), word_of(words, *place));
        push(variables, there)?;
    }
    Ok(())
}

// Inner streams with their items.
fn put_streams<'a>(
    node: &'a PlacedNode,
    words: &'a [Word],
    places: &[u32],
    lists: &'a Inputs,
    variables: &mut Vec<Variable<'a>>,
) -> Result<(), AllocError>
    requires within { AllByRecursion (IsWithin (length node.now.places) (length words.now)) places.now }
    requires lists { length places.now ≡ length lists.now }
    requires few { length places.now < 2 ^ 32 }
    ensures shown { OnOk result (all_seen variables.new.items ≡ all_seen variables.old.items ++ spec.with_items node.now (assigned words.now) places.now lists.now) }
    ensures fit { OnOk result (AllByRecursion Fit lists.now) }
{
    'each: for (i, place) in places.iter().enumerate() {
        let items = lists.list(i as u32);
        are_numbers(items);
        let name = written_name(node, *place);
        put_stream(name, word_of(words, *place), items, variables)?;
    }
    Ok(())
}

// The inner streams, with their items where these are known.
fn put_inner<'a>(
    node: &'a PlacedNode,
    words: &'a [Word],
    places: &[u32],
    inside: &'a Option<Inputs>,
    variables: &mut Vec<Variable<'a>>,
) -> Result<(), AllocError>
    requires within { AllByRecursion (IsWithin (length node.now.places) (length words.now)) places.now }
    requires inner { places.now ≡ inner_of node.now }
    requires lists { IfSome inside.now (λ lists. length places.now ≡ length lists) }
    requires few { length places.now < 2 ^ 32 }
    ensures shown { OnOk result (all_seen variables.new.items ≡ all_seen variables.old.items ++ spec.inner node.now (assigned words.now) inside.now) }
    ensures fit { OnOk result (FitInside inside.now) }
{
    match inside {
        None => put_bits(node, words, places, variables),
        Some(lists) => put_streams(node, words, places, lists, variables),
    }
}

// The buffers.
fn put_buffers<'a>(
    node: &'a PlacedNode,
    words: &'a [Word],
    variables: &mut Vec<Variable<'a>>,
) -> Result<(), AllocError>
    requires proper { (above : List Node) × IsProperNode above node.now }
    requires words { length words.now ≡ clocks_of node.now }
    ensures { OnOk result (all_seen variables.new.items ≡ all_seen variables.old.items ++ spec.buffers node.now (assigned words.now) 1 node.now.buffers) }
{
    'each: for (i, place) in node.buffers.list().iter().enumerate() {
        let operand = first_operand(node, *place).unwrap_or(0);
        let write = word_of(words, operand);
        let read = word_of(words, *place);
        push(variables, Variable::Waiting(i as u64 + 1, write, read))?;
    }
    Ok(())
}

/// The variables of main: its results with their streams, its other inputs with their items, its inner streams and its buffers.
pub(crate) fn variables<'a>(
    alloc: Global,
    node: &'a PlacedNode,
    words: &'a [Word],
    outputs: &'a [OutputSpec],
    lists: &'a Inputs,
    streams: &'a Inputs,
    inside: &'a Option<Inputs>,
) -> Result<Vec<Variable<'a>>, AllocError>
    requires proper { (above : List Node) × IsProperNode above node.now }
    requires words { length words.now ≡ clocks_of node.now }
    requires lists { length lists.now ≡ node.now.params }
    requires streams { length outputs.now ≡ length streams.now }
    requires inside { IfSome inside.now (λ lists. length (inner_of node.now) ≡ length lists) }
    requires few { length outputs.now < 2 ^ 32 }
    ensures shown { IfOk result (λ v. all_seen v.items ≡ spec.variables node.now (assigned words.now) outputs.now lists.now streams.now inside.now) }
    ensures fit { IfOk result (λ _. AllByRecursion Fit streams.now) }
    ensures fit_inside { IfOk result (λ _. FitInside inside.now) }
{
    let places = inner_places(alloc, node)?;
    let mut variables = Vec::new(alloc);
    put_results(outputs, streams, &mut variables)?;
    put_inputs(node, words, lists, &mut variables)?;
    put_inner(node, words, &places, inside, &mut variables)?;
    put_buffers(node, words, &mut variables)?;
    Ok(variables)
}
