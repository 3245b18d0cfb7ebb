// The items of a buffer.
ghost use Rattle.std.specs.Prelude.{◌≡◌, ◌∷◌, ◌++◌, [], IfOk, OnOk};
ghost use Rattle.lucy_svg.specs.Ones.{joined};

use std::alloc::{AllocError, Global};
use std::marker::Model;

/// An item of a buffer: the instants, from 1, at which it is written and read.
#[derive(Clone, Copy)]
pub struct Join {
    pub written: u64,
    pub read: u64,
}

/// Items of a buffer in order. Contracts see their list.
#[derive(Drop)]
pub struct Joins {
    list: Vec<Join>,
}

impl Model for Joins {
    ghost use Rattle.std.specs.Prelude.{List};
    ghost use Rattle.lucy_svg.specs.declared.join.Join.{Join};

    ghost Value = { List Join };

    ghost view = { λ joins. joins.list.items };
}

// One more item.
fn push(joins: &mut Vec<Join>, join: Join) -> Result<(), AllocError>
    ensures { OnOk result (joins.new.items ≡ joins.old.items ++ join ∷ []) }
{
    joins.push(join)?;
    Ok(())
}

// The items that are written at some instants and read at others, as far as both go.
fn zipped(alloc: Global, written: &[u64], read: &[u64]) -> Result<Vec<Join>, AllocError>
    ensures { IfOk result (λ v. v.items ≡ joined written.now read.now) }
{
    let mut joins = Vec::new(alloc);
    let both = written.len().min(read.len());
    'each: for i in 0..both {
        let join = Join {
            written: written[i],
            read: read[i],
        };
        push(&mut joins, join)?;
    }
    Ok(joins)
}

impl Joins {
    /// The items that are written at these instants and read at those, in order, as far as both go.
    pub(crate) fn new(alloc: Global, written: &[u64], read: &[u64]) -> Result<Joins, AllocError>
        ensures { IfOk result (λ joins. joins ≡ joined written.now read.now) }
    {
        let list = zipped(alloc, written, read)?;
        Ok(Joins { list })
    }

    /// The items.
    pub fn list(&self) -> &[Join]
        ensures { result.now ≡ self.now }
    {
        &self.list
    }
}
