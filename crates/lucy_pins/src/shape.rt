// The inequalities of a shape, and the words of their solutions.
ghost use Rattle.std.specs.Prelude.{ℤ, List, ◌≡◌, ◌⊎◌, ◌<◌, ◌↔◌, length, Err, IfOk, IfErr, ◌≤◌, ℕ};
ghost use Rattle.std.specs.List.{Contains};
ghost use Rattle.lucy_need.specs.Meeting.{Assignment, MeetsAll, alone, assigned};
ghost use Rattle.lucy_solve.specs.System.{IsGrounded, Solves, most_inequalities};
ghost use Rattle.lucy_word.specs.declared.limit.Limit.TheVariants as limit;
ghost use Rattle.lucy_shape.specs.declared.shape.RateFault.TheVariants as fault;
ghost use Rattle.lucy_shape.specs.Fitting.{IsFitting, IsShapeFor, ArePositions, IsLaidOut};
ghost use Rattle.lucy_shape.specs.Inequalities.{inequalities, system_of, SolvesShape};
ghost use Rattle.lucy_word.specs.Bits.{most_bits};
ghost use Rattle.lucy_need.specs.declared.need.Need.TheVariants.{Adapt};
ghost use Rattle.lucy_shape.specs.Sized.{sized_inequalities, sized_system, MeetsWithin, SizedLaw};
ghost use Rattle.lucy_word.specs.Stored.{IsStored};
ghost use Rattle.lucy_shape.specs.Writing.{AreAnswered, AreRefused};
ghost use Rattle.lucy_shape.specs.Laws.{MeetingLaw, FittingLaw, PositionsLaw, EarlierLaw, WordsLaw, WrittenLaw, PlaceLaw, FoldLaw, InstancesLaw, NeedLaw, RowLaw, WordLaw, ClockLaw};
ghost use Rattle.lucy_need.specs.declared.need.Needs.{Needs};
ghost use Rattle.lucy_shape.specs.declared.shape.Shape.{Shape};

use lucy_need::Needs;
use lucy_shape::{RateFault, Shape};
use lucy_solve::Diffs;
use lucy_word::Word;
use std::alloc::Global;

/// Pins `lucy_shape::spread`.
pub fn spread(alloc: Global, needs: &Needs, shape: &Shape) -> Result<Diffs, RateFault>
    requires { IsShapeFor needs.now shape.now }
    ensures list { IfOk result (λ diffs. diffs ≡ system_of needs.now shape.now) }
    ensures ready { IfOk result IsGrounded }
    ensures limit { most_inequalities < length (inequalities needs.now shape.now) → result ≡ Err (fault.Limit limit.Inequalities) }
    ensures refused { IfErr result (λ e. (e ≡ fault.OutOfMemory) ⊎ ((e ≡ fault.Limit limit.Inequalities) × (most_inequalities < length (inequalities needs.now shape.now)))) }
    ensures exact { IfOk result (λ diffs. (w : Assignment) (xs : List ℤ) → IsFitting shape.now w → ArePositions shape.now w xs → (MeetsAll w needs.now.list ↔ Solves diffs xs)) }
    ensures fitting { IfOk result (λ diffs. (xs : List ℤ) → Solves diffs xs → (w : Assignment) × IsFitting shape.now w × ArePositions shape.now w xs × MeetsAll w needs.now.list) }
    ensures solved { IfOk result (λ diffs. (xs : List ℤ) → Solves diffs xs → SolvesShape shape.now xs) }
{
    lucy_shape::spread(alloc, needs, shape)
}

/// Pins `lucy_shape::spread_sized`.
pub fn spread_sized(
    alloc: Global,
    needs: &Needs,
    shape: &Shape,
    from: u32,
    to: u32,
    size: u64,
) -> Result<Diffs, RateFault>
    requires shape { IsShapeFor needs.now shape.now }
    requires buffer { Contains needs.now.list (Adapt (alone from) (alone to)) }
    requires size { size ≤ most_bits }
    ensures list { IfOk result (λ diffs. diffs ≡ sized_system needs.now shape.now from to size) }
    ensures ready { IfOk result IsGrounded }
    ensures limit { most_inequalities < length (sized_inequalities needs.now shape.now from to size) → result ≡ Err (fault.Limit limit.Inequalities) }
    ensures refused { IfErr result (λ e. (e ≡ fault.OutOfMemory) ⊎ ((e ≡ fault.Limit limit.Inequalities) × (most_inequalities < length (sized_inequalities needs.now shape.now from to size)))) }
    ensures exact { IfOk result (λ diffs. (w : Assignment) (xs : List ℤ) → IsFitting shape.now w → ArePositions shape.now w xs → (MeetsWithin needs.now from to size w ↔ Solves diffs xs)) }
    ensures fitting { IfOk result (λ diffs. (xs : List ℤ) → Solves diffs xs → (w : Assignment) × IsFitting shape.now w × ArePositions shape.now w xs × MeetsWithin needs.now from to size w) }
    ensures solved { IfOk result (λ diffs. (xs : List ℤ) → Solves diffs xs → SolvesShape shape.now xs) }
{
    lucy_shape::spread_sized(alloc, needs, shape, from, to, size)
}

/// Pins `lucy_shape::words_of`.
pub fn words_of(alloc: Global, shape: &Shape, positions: &[i64]) -> Result<Vec<Word>, RateFault>
    requires laid { IsLaidOut shape.now }
    requires solves { SolvesShape shape.now positions.now }
    ensures words { IfOk result (λ words. AreAnswered shape.now positions.now words.items) }
    ensures stored { IfOk result (λ words. (c : ℕ) → c < length words.items → IsStored (assigned words.items c)) }
    ensures refused { IfErr result (AreRefused shape.now positions.now) }
    ensures fitting { IfOk result (λ words. IsFitting shape.now (assigned words.items)) }
    ensures positions { IfOk result (λ words. ArePositions shape.now (assigned words.items) positions.now) }
{
    lucy_shape::words_of(alloc, shape, positions)
}

/// Pins `lucy_shape::shape_laws`.
pub fn shape_laws()
    ensures meeting { MeetingLaw }
    ensures fitting { FittingLaw }
    ensures positions { PositionsLaw }
    ensures earlier { EarlierLaw }
    ensures words { WordsLaw }
    ensures written { WrittenLaw }
{
    lucy_shape::shape_laws();
}

/// Pins `lucy_shape::index_laws`.
pub fn index_laws()
    ensures place { PlaceLaw }
    ensures fold { FoldLaw }
    ensures instances { InstancesLaw }
    ensures need { NeedLaw }
    ensures row { RowLaw }
    ensures word { WordLaw }
    ensures clock { ClockLaw }
{
    lucy_shape::index_laws();
}

/// Pins `lucy_shape::size_laws`.
pub fn size_laws()
    ensures sized { SizedLaw }
    ensures count { (needs : Needs) (shape : Shape) (from to size other : ℕ) → length (sized_inequalities needs shape from to size) ≡ length (sized_inequalities needs shape from to other) }
{
    lucy_shape::size_laws();
}
