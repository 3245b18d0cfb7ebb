ghost use Rattle.std.specs.Prelude.{◌≡◌, IfOk};
ghost use Rattle.lucy_host.specs.HostValue.{looked_up};

use std::alloc::{AllocError, Global};
use std::marker::Model;

/// A list of numbers in which an operator looks up its first operand. Contracts see the list.
#[derive(Drop)]
pub struct Table {
    list: Vec<i64>,
}

impl Model for Table {
    ghost use Rattle.std.specs.Prelude.{List, ℤ};

    ghost Value = { List ℤ };

    ghost view = { λ table. table.list.items };
}

impl Table {
    /// The table of this list.
    pub fn new(list: Vec<i64>) -> Table
        ensures { result ≡ list.items }
    {
        Table { list }
    }

    /// Its list.
    pub fn list(&self) -> &[i64]
        ensures { result.now ≡ self.now }
    {
        &self.list
    }

    /// The same table in other memory.
    pub fn copy(&self, alloc: Global) -> Result<Table, AllocError>
        ensures { IfOk result (λ table. table ≡ self.now) }
    {
        Ok(Table {
            list: self.list.to_vec(alloc)?,
        })
    }

    /// Item `a`, counted from 0, or `b` where there is none.
    pub(crate) fn look_up(&self, a: i64, b: i64) -> i64
        ensures { result ≡ looked_up self.now a b }
    {
        match usize::try_from(a) {
            Ok(place) => self.list.get(place).copied().unwrap_or(b),
            Err(_) => b,
        }
    }
}
