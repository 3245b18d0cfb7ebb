// The sizes of the buffers of a node at words of its clocks.
ghost use Rattle.std.specs.Prelude.{ℕ, List, ◌≡◌, ◌<◌, ◌∷◌, ◌++◌, [], Some, length, slice_get, IfOk, OnOk};
ghost use Rattle.lucy_word.specs.Adaptable.{IsAdaptable, IsSize};
ghost use Rattle.lucy_place.specs.declared.entry.PlaceKind.TheVariants.{Buffer};
ghost use Rattle.lucy_place.specs.Standing.{at_one, Stands};
ghost use Rattle.lucy_need.specs.Meeting.{assigned};
ghost use Rattle.lucy_clock.specs.NodeClocks.{AreSizes};
ghost use Rattle.lucy_tight.specs.Measured.{AreAdaptable};

use lucy_check::{Verdict, adapt};
use lucy_clock::{NodeClock, Numbers64, Words};
use lucy_place::PlacedNode;
use lucy_program::first_operand;
use lucy_word::Word;
use std::alloc::{AllocError, Global};

// One more size.
fn push(sizes: &mut Vec<u64>, next: u64) -> Result<(), AllocError>
    ensures { OnOk result (sizes.new.items ≡ sizes.old.items ++ next ∷ []) }
{
    sizes.push(next)?;
    Ok(())
}

// The size of the buffer at a place.
fn size_at(node: &PlacedNode, words: &[Word], place: u32) -> u64
    requires buffer { (k : ℕ) × (e : ℕ) × Stands node.now place (Buffer k e) }
    requires words { AreAdaptable node.now words.now }
    ensures { (k e : ℕ) → Stands node.now place (Buffer k e) → IsSize (assigned words.now e) (assigned words.now place) result }
{
    let from = first_operand(node, place).unwrap_or(0);
    match adapt(&words[from as usize], &words[place as usize]) {
        Verdict::Adaptable(size) => size,
        Verdict::Rates => unreachable!(),
        Verdict::Late(_) => unreachable!(),
    }
}

// The sizes of the buffers.
fn sizes_at(alloc: Global, node: &PlacedNode, words: &[Word]) -> Result<Vec<u64>, AllocError>
    requires numbered { (k p : ℕ) → at_one node.now.buffers k ≡ Some p → (e : ℕ) × Stands node.now p (Buffer k e) }
    requires words { AreAdaptable node.now words.now }
    ensures { IfOk result (λ v. AreSizes node.now (record { words = words.now; sizes = v.items })) }
{
    let mut sizes = Vec::new(alloc);
    'each: for place in node.buffers.list() {
        push(&mut sizes, size_at(node, words, *place))?;
    }
    Ok(sizes)
}

/// Words by which a node is well clocked, with the sizes of its buffers.
pub(crate) fn clocks_at(
    alloc: Global,
    node: &PlacedNode,
    words: Vec<Word>,
) -> Result<NodeClock, AllocError>
    requires numbered { (k p : ℕ) → at_one node.now.buffers k ≡ Some p → (e : ℕ) × Stands node.now p (Buffer k e) }
    requires words { AreAdaptable node.now words.items }
    ensures words { IfOk result (λ c. c.words ≡ words.items) }
    ensures sizes { IfOk result (AreSizes node.now) }
{
    let sizes = sizes_at(alloc, node, &words)?;
    Ok(NodeClock {
        words: Words::new(words),
        sizes: Numbers64::new(sizes),
    })
}
