ghost use Rattle.std.specs.Prelude.{◌≡◌, ◌<◌, ◌↔◌, [], ◌∷◌, ◌++◌, Contains, IfOk, IfSome, OnErr, Some, None, length, position, slice_get};
ghost use Rattle.std.specs.Str.{bytes_eq};
ghost use Rattle.lucy_host.specs.HostValue.{hosted_value};
ghost use Rattle.lucy_host.specs.Entries.{operator_of};
ghost use Rattle.lucy_host.specs.Operators.{most_operators, kinds_of, names_of, operator_number};

use crate::{HostKind, OpsError, host_value};
use std::alloc::{AllocError, Global};
use std::marker::Model;

/// An operator that a host lends.
#[derive(Drop)]
pub(crate) struct Entry {
    name: Vec<u8>,
    kind: HostKind,
}

impl Entry {
    fn copy(&self, alloc: Global) -> Result<Entry, AllocError>
        ensures { IfOk result (λ entry. operator_of entry ≡ operator_of self.now) }
    {
        Ok(Entry {
            name: self.name.to_vec(alloc)?,
            kind: self.kind.copy(alloc)?,
        })
    }
}

// How many entries stand before the first of the name, where there is one.
fn place_of(entries: &[Entry], name: &[u8]) -> Option<usize>
    ensures { result ≡ position (λ entry. bytes_eq name.now entry.name.items) entries.now }
{
    entries
        .iter()
        .position(|entry| name == entry.name.as_slice())
}

/// The operators that a host lends, by number from 0. There are at most 65,536, and no two have one name. Contracts see the
/// list of their names and kinds.
#[derive(Drop)]
pub struct Ops {
    list: Vec<Entry>,
}

impl Model for Ops {
    ghost use Rattle.std.specs.Prelude.{List, length, ◌≤◌};
    ghost use Rattle.lucy_host.specs.Operators.{most_operators, Operator};

    ghost Value = { List Operator };

    ghost use Rattle.lucy_host.specs.Entries.{operators_of};

    ghost view = { λ ops. operators_of ops.list.items };

    ghost invariant = { λ ops. length ops.list.items ≤ most_operators };
}

impl Ops {
    /// No operator yet. No memory is taken.
    pub fn new(alloc: Global) -> Ops
        ensures { result ≡ [] }
    {
        Ops {
            list: Vec::new(alloc),
        }
    }

    /// One more operator, with the next number. There must be fewer than 65,536.
    pub fn add(&mut self, alloc: Global, name: &str, kind: HostKind) -> Result<(), OpsError>
        requires { length self.old < most_operators }
        ensures ok { IfOk result (λ _. self.new ≡ self.old ++ record { name = name.now; kind = kind } ∷ []) }
        ensures twice { (result ≡ Err OpsError.Twice) ↔ Contains (names_of self.old) name.now }
        ensures refused { OnErr result (self.new ≡ self.old) }
    {
        if self.find(name.as_bytes()).is_some() {
            return Err(OpsError::Twice);
        }
        let name = name.as_bytes().to_vec(alloc)?;
        self.list.push(Entry { name, kind })?;
        Ok(())
    }

    /// The number of the operator of the name.
    pub fn find(&self, name: &[u8]) -> Option<u32>
        ensures is { result ≡ operator_number self.now name.now }
        ensures none { (result ≡ None) ↔ ¬ Contains (names_of self.now) name.now }
        ensures named { IfSome result (λ op. slice_get (names_of self.now) op ≡ Some name.now) }
        ensures below { IfSome result (λ op. op < length self.now) }
    {
        match place_of(&self.list, name) {
            Some(place) => Some(place as u32),
            None => None,
        }
    }

    /// How many operators there are.
    pub fn count(&self) -> u32
        ensures { result ≡ length self.now }
    {
        self.list.len() as u32
    }

    /// The kind of the operator of this number, which is below the count.
    pub fn kind(&self, op: u32) -> &HostKind
        requires { op < length self.now }
        ensures { slice_get (kinds_of self.now) op ≡ Some result.now }
    {
        &self.list[op as usize].kind
    }

    /// What the operator of this number, which is below the count, makes of `a` and `b`: what a host's closure answers.
    pub fn value(&self, op: u32, a: i64, b: i64) -> i64
        requires { op < length self.now }
        ensures { result ≡ hosted_value (kinds_of self.now) op a b }
    {
        host_value(self.kind(op), a, b)
    }

    /// The same operators in other memory.
    pub fn copy(&self, alloc: Global) -> Result<Ops, AllocError>
        ensures { IfOk result (λ ops. ops ≡ self.now) }
    {
        let mut list = Vec::new(alloc);
        for entry in &self.list {
            list.push(entry.copy(alloc)?)?;
        }
        Ok(Ops { list })
    }
}
