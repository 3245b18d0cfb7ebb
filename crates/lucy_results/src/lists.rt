// Lists that are put behind one another or copied, and how long lists are.
ghost use Rattle.std.specs.Prelude.{◌≡◌, ◌≤◌, ◌-◌, ◌<◌, ◌^◌, ◌∷◌, ◌++◌, [], ℕ, length, take, IfOk, OnOk, slice_index};
ghost use Rattle.lucy_word.specs.Bits.{ones_to};
ghost use Rattle.lucy_stream.specs.Items.{list_at};

use lucy_host::Inputs;
use lucy_word::Word;
use std::alloc::{AllocError, Global};

/// One more list, under the next number.
pub(crate) fn add(
    alloc: Global,
    lists: &mut Inputs,
    number: u32,
    list: &[i64],
) -> Result<(), AllocError>
    requires next { number ≡ length lists.old }
    requires room { number < 2 ^ 32 - 1 }
    ensures { OnOk result (lists.new ≡ lists.old ++ list.now ∷ []) }
{
    lists.add_list(alloc)?;
    'each: for item in list {
        lists.push(alloc, number, *item)?;
    }
    Ok(())
}

/// One more list, of the first items of this one: as many as the word has ones in so many instants.
pub(crate) fn add_front(
    alloc: Global,
    lists: &mut Inputs,
    number: u32,
    list: &[i64],
    word: &Word,
    instants: u64,
) -> Result<(), AllocError>
    requires next { number ≡ length lists.old }
    requires room { number < 2 ^ 32 - 1 }
    ensures { OnOk result (lists.new ≡ lists.old ++ take (ones_to word.now instants) list.now ∷ []) }
{
    let count = word.ones(instants).min(list.len() as u64);
    add(alloc, lists, number, &list[..count as usize])
}

/// The same lists, of which there are so many, in other memory.
pub fn copy_lists(alloc: Global, lists: &Inputs, count: usize) -> Result<Inputs, AllocError>
    requires lists { length lists.now ≡ count }
    requires few { count < 2 ^ 32 - 1 }
    ensures { IfOk result (λ copies. copies ≡ lists.now) }
{
    let mut copies = Inputs::new(alloc);
    'each: for i in 0..count {
        let number = i as u32;
        add(alloc, &mut copies, number, lists.list(number))?;
    }
    Ok(copies)
}

/// How many items each of so many lists has.
pub fn lengths(alloc: Global, lists: &Inputs, count: usize) -> Result<Vec<u64>, AllocError>
    requires lists { length lists.now ≡ count }
    requires few { count < 2 ^ 32 }
    ensures count { IfOk result (λ lengths. length lengths.items ≡ count) }
    ensures each { IfOk result (λ lengths. (i : ℕ) → slice_index lengths.items i ≡ length (list_at lists.now i)) }
{
    let mut lengths = Vec::new(alloc);
    'each: for i in 0..count {
        lengths.push(lists.list(i as u32).len() as u64)?;
    }
    Ok(lengths)
}
