// What shapes, inequalities and positions have to do with each other. The bodies of laws are empty.
ghost use Rattle.std.specs.Prelude.{ℕ, ◌≡◌, length};
ghost use Rattle.lucy_need.specs.declared.need.Needs.{Needs};
ghost use Rattle.lucy_shape.specs.declared.shape.Shape.{Shape};
ghost use Rattle.lucy_shape.specs.Laws.{MeetingLaw, FittingLaw, PositionsLaw, EarlierLaw, WordsLaw, WrittenLaw, PlaceLaw, FoldLaw, InstancesLaw, NeedLaw, RowLaw, WordLaw, ClockLaw};
ghost use Rattle.lucy_shape.specs.Sized.{sized_inequalities, SizedLaw};

/// An assignment that fits a shape meets the needs exactly where its positions solve the inequalities. Numbers that meet the
/// bounds, the neighbours and the periods are the positions of one that fits, each has positions, and of two of them the one
/// whose positions are no later has no later ones. The words that are written from such numbers are one with these positions.
pub fn shape_laws()
    ensures meeting { MeetingLaw }
    ensures fitting { FittingLaw }
    ensures positions { PositionsLaw }
    ensures earlier { EarlierLaw }
    ensures words { WordsLaw }
    ensures written { WrittenLaw }
{}

/// Where the ones of a word stand, which of them decide about a need, and what an inequality between two of them says.
pub fn index_laws()
    ensures place { PlaceLaw }
    ensures fold { FoldLaw }
    ensures instances { InstancesLaw }
    ensures need { NeedLaw }
    ensures row { RowLaw }
    ensures word { WordLaw }
    ensures clock { ClockLaw }
{}

/// An assignment that fits a shape meets the needs with no more than so many items waiting in one buffer exactly where its
/// positions solve the inequalities of that size, of which there are as many for every size.
pub fn size_laws()
    ensures sized { SizedLaw }
    ensures count { (needs : Needs) (shape : Shape) (from to size other : ℕ) → length (sized_inequalities needs shape from to size) ≡ length (sized_inequalities needs shape from to other) }
{}
