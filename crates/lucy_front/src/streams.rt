// The inputs and outputs of main.
ghost use Rattle.std.specs.Prelude.{◌≡◌, ◌<◌, ◌≤◌, ◌-◌, length, map, IfOk};
ghost use Rattle.std.specs.List.{AllByRecursion};
ghost use Rattle.lucy_place.specs.Proper.{ArePlaces};
ghost use Rattle.lucy_types.specs.Programs.{IsTyped};
ghost use Rattle.lucy_types.specs.Tables.{table_at};
ghost use Rattle.lucy_program.specs.declared.options.Options.{Options as Choices};
ghost use Rattle.lucy_program.specs.Clocked.{AreClocksOf};
ghost use Rattle.lucy_program.specs.Scheduled as spec;

use crate::clocking::push;
use lucy_clock::NodeClock;
use lucy_lines::{InputSpec, OutputSpec};
use lucy_place::{Placed, PlacedNode};
use lucy_program::{param_places, place_name};
use lucy_types::Typed;
use lucy_word::Word;
use std::alloc::{AllocError, Global};

// The input that a place of main is.
fn input_at(
    alloc: Global,
    main: &PlacedNode,
    typed: &Typed,
    place: u32,
) -> Result<InputSpec, AllocError>
    requires main { 0 < length typed.now }
    requires first { 1 ≤ place }
    requires last { place ≤ length (table_at typed.now (length typed.now - 1)) }
    ensures { IfOk result (λ i. i ≡ spec.main_input main.now (table_at typed.now (length typed.now - 1)) place) }
{
    Ok(InputSpec {
        name: place_name(alloc, main, place)?,
        holds: typed.main_holds(place),
    })
}

// The output that a place of main with these words is.
fn output_at(
    alloc: Global,
    main: &PlacedNode,
    typed: &Typed,
    words: &[Word],
    place: u32,
) -> Result<OutputSpec, AllocError>
    requires main { 0 < length typed.now }
    requires first { 1 ≤ place }
    requires last { place ≤ length (table_at typed.now (length typed.now - 1)) }
    requires word { place < length words.now }
    ensures { IfOk result (λ o. o ≡ spec.main_output main.now (table_at typed.now (length typed.now - 1)) words.now place) }
{
    Ok(OutputSpec {
        name: place_name(alloc, main, place)?,
        holds: typed.main_holds(place),
        word: words[place as usize].copy(alloc)?,
    })
}

// The inputs that these places of main are.
fn inputs_at(
    alloc: Global,
    main: &PlacedNode,
    typed: &Typed,
    places: &[u32],
) -> Result<Vec<InputSpec>, AllocError>
    requires main { 0 < length typed.now }
    requires all { length (table_at typed.now (length typed.now - 1)) ≡ length main.now.places }
    requires there { ArePlaces main.now places.now }
    ensures { IfOk result (λ v. v.items ≡ map (spec.main_input main.now (table_at typed.now (length typed.now - 1))) places.now) }
{
    let mut inputs = Vec::new(alloc);
    'each: for place in places {
        push(&mut inputs, input_at(alloc, main, typed, *place)?)?;
    }
    Ok(inputs)
}

// The outputs that these places of main are.
fn outputs_at(
    alloc: Global,
    main: &PlacedNode,
    typed: &Typed,
    words: &[Word],
    places: &[u32],
) -> Result<Vec<OutputSpec>, AllocError>
    requires main { 0 < length typed.now }
    requires all { length (table_at typed.now (length typed.now - 1)) ≡ length main.now.places }
    requires words { length main.now.places < length words.now }
    requires there { ArePlaces main.now places.now }
    ensures { IfOk result (λ v. v.items ≡ map (spec.main_output main.now (table_at typed.now (length typed.now - 1)) words.now) places.now) }
{
    let mut outputs = Vec::new(alloc);
    'each: for place in places {
        push(&mut outputs, output_at(alloc, main, typed, words, *place)?)?;
    }
    Ok(outputs)
}

/// The inputs of a program: one for each parameter of main, in order.
pub(crate) fn inputs(
    alloc: Global,
    placed: &Placed,
    typed: &Typed,
) -> Result<Vec<InputSpec>, AllocError>
    requires { IsTyped placed.now.nodes typed.now }
    ensures { IfOk result (λ v. v.items ≡ spec.main_inputs placed.now.nodes typed.now) }
{
    let main = placed.node(placed.nodes() - 1);
    let places = param_places(alloc, main.params)?;
    inputs_at(alloc, main, typed, &places)
}

/// Its outputs: one for each result of main, in order.
pub(crate) fn outputs(
    alloc: Global,
    placed: &Placed,
    typed: &Typed,
    clocks: &[NodeClock],
) -> Result<Vec<OutputSpec>, AllocError>
    requires typed { IsTyped placed.now.nodes typed.now }
    requires clocks { (o : Choices) × AreClocksOf o placed.now.nodes clocks.now }
    ensures { IfOk result (λ v. v.items ≡ spec.main_outputs placed.now.nodes typed.now clocks.now) }
{
    let last = placed.nodes() - 1;
    let main = placed.node(last);
    let words = clocks[last as usize].words.list();
    outputs_at(alloc, main, typed, words, main.results.list())
}
