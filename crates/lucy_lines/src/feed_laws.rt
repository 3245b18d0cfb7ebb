// Laws of feeds, on functions that call the laws of cuts at most.
ghost use Rattle.lucy_lines.specs.Feeding.{OneFeed};
ghost use Rattle.lucy_lines.specs.Resuming.{ValuesInTurn};

use crate::cut_laws::one_cut;

/// The bytes taken, and how reading stopped, have one feed.
pub fn one_feed()
    ensures { OneFeed }
{
    one_cut();
}

/// The values of a stream among items are those among the first ones, and then those among the others.
pub fn values_in_turn()
    ensures { ValuesInTurn }
{}
