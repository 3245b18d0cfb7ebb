// That names read off the tree of a program are good where lucy_naming tells no fault, that what a run owes is what `run` prints, and that a written
// program that stands for something is refused for limits alone, and stands for that alone where it is accepted.
ghost use Rattle.lucy_right.specs.Chosen.{ChosenAreOne};
ghost use Rattle.lucy_right.specs.Earliest.{FoundAreEarliest};
ghost use Rattle.lucy_right.specs.Laws.{FaultlessAreWellNamed, WellNamedHaveNoFault};
ghost use Rattle.lucy_right.specs.Owed.{AcceptedStand, CutsAreRuns, OwedAreRuns};
ghost use Rattle.lucy_right.specs.Refused.{WrittenPassLimits};
ghost use Rattle.lucy_right.specs.Accepted.{AcceptedAreWritten, WrittenStandForOne};

use lucy_clock::{needs_are_the_rules, written_nodes_have_one};
use lucy_flat::flat_nets_are_causal_as_programs;
use lucy_grammar::texts_have_one_answer;
use lucy_kahn::programs_grow;
use lucy_naming::nodes_are_one;
use lucy_program::accepted_programs_are_clocked;
use lucy_rates::one_shape;
use lucy_results::streams_are_whole;

/// A program is well named exactly where `place` finds no fault of a name in it, but for the limit on places.
pub fn names_are_good()
    ensures faultless { FaultlessAreWellNamed }
    ensures well { WellNamedHaveNoFault }
{}

/// The program that an accepted text is stands for its places, their types and its clocks.
pub fn accepted_programs_stand()
    ensures { AcceptedStand }
{
    accepted_programs_are_clocked();
    flat_nets_are_causal_as_programs();
}

/// What a run owes of an accepted program is what `run` prints of it and of the first lines of its input.
pub fn owed_outputs_are_runs()
    ensures cuts { CutsAreRuns }
    ensures owed { OwedAreRuns }
{
    accepted_programs_stand();
    found_clocks_are_earliest();
    accepted_programs_are_clocked();
    programs_grow();
    streams_are_whole();
}

/// A program that stands for something, all of whose clocks are written, is refused for limits or for want of memory alone.
pub fn written_programs_pass()
    ensures { WrittenPassLimits }
{
    texts_have_one_answer();
    needs_are_the_rules();
    written_nodes_have_one();
    flat_nets_are_causal_as_programs();
}

/// The clocks of an accepted program's nodes that aren't written are the earliest of the shape of their needs.
pub fn found_clocks_are_earliest()
    ensures { FoundAreEarliest }
{}

/// A program that stands for something, all of whose clocks are written, stands for what it is accepted as, and for nothing else.
pub fn written_programs_stand_for_one()
    ensures { WrittenStandForOne }
{
    texts_have_one_answer();
    written_nodes_have_one();
    accepted_programs_stand();
}

/// What is accepted where all nodes have to be written has all of its clocks written.
pub fn accepted_nodes_are_written()
    ensures { AcceptedAreWritten }
{}

/// A program with proper nodes stands for one thing whose clocks are chosen so.
pub fn chosen_clocks_are_one()
    ensures { ChosenAreOne }
{
    one_shape();
    written_nodes_have_one();
    nodes_are_one();
}
