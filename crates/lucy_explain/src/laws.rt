// What holds of lines and of the inequalities that they stand for. The body is empty: the contract is laws.
ghost use Rattle.lucy_explain.specs.Folds.{FollowsLaw, SumLaw};

/// A folded line follows from the inequalities that it stands for, and the lines have the same sum as all of these.
pub fn lines_follow()
    ensures follows { FollowsLaw }
    ensures sum { SumLaw }
{}
