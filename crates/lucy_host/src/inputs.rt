ghost use Rattle.std.specs.Prelude.{◌≡◌, ◌<◌, ◌-◌, ◌^◌, [], ◌∷◌, ◌++◌, IfOk, OnErr, Some, length, slice_get, slice_index_or, slice_set};

use std::alloc::{AllocError, Global};
use std::marker::Model;

/// Lists of numbers, by number from 0, as the values of a program's inputs or results. Contracts see the lists.
#[derive(Drop)]
pub struct Inputs {
    lists: Vec<Vec<i64>>,
}

impl Model for Inputs {
    ghost use Rattle.std.specs.Prelude.{List, ℤ};
    ghost use Rattle.lucy_host.specs.Lists.{lists_of};

    ghost Value = { List (List ℤ) };

    ghost view = { λ inputs. lists_of inputs.lists.items };
}

impl Inputs {
    /// No list yet. No memory is taken.
    pub fn new(alloc: Global) -> Inputs
        ensures { result ≡ [] }
    {
        Inputs {
            lists: Vec::new(alloc),
        }
    }

    /// One more list, which is empty, with the next number. There must be fewer than 2^32 - 1.
    pub fn add_list(&mut self, alloc: Global) -> Result<(), AllocError>
        requires { length self.old < 2 ^ 32 - 1 }
        ensures ok { IfOk result (λ _. self.new ≡ self.old ++ [] ∷ []) }
        ensures refused { OnErr result (self.new ≡ self.old) }
    {
        self.lists.push(Vec::new(alloc))?;
        Ok(())
    }

    /// One more number at the end of the list of this number, which is there.
    pub fn push(&mut self, alloc: Global, list: u32, value: i64) -> Result<(), AllocError>
        requires { list < length self.old }
        ensures ok { IfOk result (λ _. self.new ≡ slice_set self.old list (slice_index_or self.old list [] ++ value ∷ [])) }
        ensures refused { OnErr result (self.new ≡ self.old) }
    {
        let numbers = &mut self.lists[list as usize];
        numbers.push(value)?;
        Ok(())
    }

    /// The list of this number, which is there.
    pub fn list(&self, list: u32) -> &[i64]
        requires { list < length self.now }
        ensures { slice_get self.now list ≡ Some result.now }
    {
        &self.lists[list as usize]
    }
    /// The list of this number, an empty one where there is none.
    pub fn get(&self, list: u32) -> &[i64]
        ensures { result.now ≡ slice_index_or self.now list [] }
    {
        match self.lists.get(list as usize) {
            Some(numbers) => numbers.as_slice(),
            None => &[],
        }
    }
}
