// The lists of an instance.
ghost use Rattle.std.specs.Prelude.{◌≡◌, ◌≤◌, ◌<◌, ◌-◌, ◌∷◌, ◌++◌, [], length, slice_get, OnOk, IfErr, Some};
ghost use Rattle.lucy_kahn.specs.declared.error.KahnError.TheVariants as error;

use crate::error::KahnError;
use std::alloc::Global;
use std::marker::Model;

/// The lists of the places of an instance, in order of the places' numbers, which count from 1. Contracts see the lists.
#[derive(Drop)]
pub(crate) struct Lists {
    lists: Vec<Vec<i64>>,
}

impl Model for Lists {
    ghost use Rattle.std.specs.Prelude.{List, ℤ};
    ghost use Rattle.lucy_host.specs.Lists.{lists_of};

    ghost Value = { List (List ℤ) };

    ghost view = { λ lists. lists_of lists.lists.items };
}

impl Lists {
    /// No list yet.
    pub fn new(alloc: Global) -> Lists
        ensures { result ≡ [] }
    {
        Lists {
            lists: Vec::new(alloc),
        }
    }

    /// The list of the next place.
    pub fn put(&mut self, list: Vec<i64>) -> Result<(), KahnError>
        ensures ok { OnOk result (self.new ≡ self.old ++ list.items ∷ []) }
        ensures refused { IfErr result (λ e. e ≡ error.OutOfMemory) }
    {
        self.lists.push(list)?;
        Ok(())
    }

    /// The list of a place.
    pub fn at(&self, place: u32) -> &[i64]
        requires low { 1 ≤ place }
        requires high { place ≤ length self.now }
        ensures { slice_get self.now (place - 1) ≡ Some result.now }
    {
        &self.lists[place as usize - 1]
    }
}

/// The lists of an instance.
pub(crate) fn lists_at<'a>(all: &'a [Lists], instance: usize) -> &'a Lists
    requires { instance < length all.now }
    ensures { slice_get all.now instance ≡ Some result.now }
{
    &all[instance]
}
