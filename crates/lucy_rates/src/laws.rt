// What walks and rates say. Each body is empty: the contract is a law.
ghost use Rattle.lucy_rates.specs.Forests.{BalanceLaw};
ghost use Rattle.lucy_rates.specs.Trees.{TreeRateLaw, OneWalkLaw};
ghost use Rattle.lucy_rates.specs.Walks.{UnmetLaw};

/// Where all needs are balanced, each walk multiplies the rate of its first clock to that of its last.
pub fn walks_balance()
    ensures { BalanceLaw }
{}

/// An unequal walk shows that no words of the clocks at all meet the needs.
pub fn walk_is_unmet()
    ensures { UnmetLaw }
{}

/// Each clock has a rate by its tree, in lowest terms, and no other, however large its numbers are.
pub fn tree_rates()
    ensures { TreeRateLaw }
{}

/// The walk of the first need that isn't balanced is one, since two clocks are joined by one simple way along a tree.
pub fn one_unequal_walk()
    ensures { OneWalkLaw }
{}
