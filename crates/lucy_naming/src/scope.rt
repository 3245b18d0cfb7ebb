// Names in the order in which they were first seen.
ghost use Rattle.std.specs.Prelude.{◌≡◌, ◌≤◌, ◌++◌, ◌∷◌, [], length, IfOk, if◌then◌else◌, not, is_some};
ghost use Rattle.lucy_naming.specs.Texts.{place_in, find_in, is_in};

use crate::hash::NameHash;
use indexmap::IndexSet;
use std::alloc::{AllocError, Global};
use std::marker::Model;

/// Names in the order in which they were first seen. Contracts see the list of their bytes.
#[derive(Drop)]
pub(crate) struct Scope<'a> {
    names: IndexSet<&'a [u8], NameHash>,
}

impl<'a> Model for Scope<'a> {
    ghost use Rattle.std.specs.Prelude.{List, ℕ, map};

    ghost Value = { List (List ℕ) };

    ghost view = { λ scope. map (λ name. name.now) scope.names.keys };
}

impl<'a> Scope<'a> {
    /// No names, and how they will be hashed.
    pub fn new(alloc: Global, hash: NameHash) -> Scope<'a>
        ensures { result ≡ [] }
    {
        Scope {
            names: IndexSet::with_hasher(alloc, hash),
        }
    }

    /// Puts the name last, and answers true; or answers false, where it is there already.
    pub fn add(&mut self, name: &'a [u8]) -> Result<bool, AllocError>
        ensures new { IfOk result (λ new. new ≡ not (is_in self.old name.now)) }
        ensures names { IfOk result (λ new. self.new ≡ (if is_in self.old name.now then self.old else self.old ++ name.now ∷ [])) }
    {
        let (_, new) = self.names.insert_full(name)?;
        Ok(new)
    }

    /// How many names stand before this one, where it is there.
    pub fn find(&self, name: &[u8]) -> Option<usize>
        ensures found { result ≡ find_in self.now name.now }
        ensures there { is_some result ≡ is_in self.now name.now }
    {
        self.names.get_index_of(name)
    }

    /// How many names stand before this one: all where it isn't there.
    pub fn place(&self, name: &[u8]) -> usize
        ensures place { result ≡ place_in self.now name.now }
        ensures within { result ≤ length self.now }
    {
        match self.find(name) {
            Some(place) => place,
            None => self.len(),
        }
    }

    /// How many names there are.
    pub fn len(&self) -> usize
        ensures { result ≡ length self.now }
    {
        self.names.len()
    }
}
