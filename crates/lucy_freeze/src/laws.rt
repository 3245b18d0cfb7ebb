// What holds of every program with its clocks written out. The body is empty: the contract is laws.
ghost use Rattle.lucy_freeze.specs.Meaning.{FrozenProgramsMeanTheSame, FrozenProgramsAreWritten};

/// A program with its clocks written out has the output streams of the program, from whatever inputs, operators and instants, and each of its
/// nodes is written.
pub fn frozen_programs_mean_the_same()
    ensures streams { FrozenProgramsMeanTheSame }
    ensures written { FrozenProgramsAreWritten }
{}
