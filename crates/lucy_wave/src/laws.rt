// Laws of the dumps of runs, on functions that call the laws of feeds, horizons and streams alone.
ghost use Rattle.lucy_wave.specs.Laws.{WavesAreReadBack, OneWave, OneReading, OneCount, NamesAreDistinct};

use lucy_kahn::one_horizon;
use lucy_lines::one_feed;
use lucy_program::accepted_programs_are_clocked;
use lucy_results::streams_are_whole;
use lucy_token::texts_have_one_cut;

/// The dump that is owed of an accepted program says, read back, the output lines that `run` owes of the same input, and both end alike.
pub fn waves_are_read_back()
    ensures { WavesAreReadBack }
{
    accepted_programs_are_clocked();
    one_feed();
    one_horizon();
    streams_are_whole();
    texts_have_one_cut();
}

/// The bytes taken, and how reading stopped, owe one dump, with one ending.
pub fn one_wave()
    ensures { OneWave }
{
    one_feed();
    one_horizon();
}

/// A variable of a dump has one value at a step.
pub fn one_reading()
    ensures { OneReading }
{}

/// A dump says the output lines of one count of instants.
pub fn one_count()
    ensures { OneCount }
{}

/// No two variables in the dump of an accepted program have one name.
pub fn names_are_distinct()
    ensures { NamesAreDistinct }
{
    accepted_programs_are_clocked();
    texts_have_one_cut();
}
