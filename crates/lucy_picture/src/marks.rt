// Where items are.
ghost use Rattle.std.specs.Prelude.{◌≡◌, ◌∷◌, ◌++◌, [], IfOk, OnOk};
ghost use Rattle.lucy_picture.specs.Charts.{marks_of};

use lucy_word::Word;
use std::alloc::{AllocError, Global};
use std::marker::Model;

/// A mark for each instant from 1 on: whether an item is there. Contracts see their list.
#[derive(Drop)]
pub struct Marks {
    list: Vec<bool>,
}

impl Model for Marks {
    ghost use Rattle.std.specs.Prelude.{List, Bool};

    ghost Value = { List Bool };

    ghost view = { λ marks. marks.list.items };
}

// One more mark.
fn push(marks: &mut Vec<bool>, mark: bool) -> Result<(), AllocError>
    ensures { OnOk result (marks.new.items ≡ marks.old.items ++ mark ∷ []) }
{
    marks.push(mark)?;
    Ok(())
}

// The bits of a word at the first instants.
fn bits(alloc: Global, word: &Word, shown: u64) -> Result<Vec<bool>, AllocError>
    ensures { IfOk result (λ v. v.items ≡ marks_of word.now shown) }
{
    let mut marks = Vec::new(alloc);
    'each: for i in 0..shown {
        push(&mut marks, word.bit(i + 1))?;
    }
    Ok(marks)
}

impl Marks {
    /// The marks of a word at so many instants.
    pub fn new(alloc: Global, word: &Word, shown: u64) -> Result<Marks, AllocError>
        ensures { IfOk result (λ marks. marks ≡ marks_of word.now shown) }
    {
        let list = bits(alloc, word, shown)?;
        Ok(Marks { list })
    }

    /// The marks.
    pub fn list(&self) -> &[bool]
        ensures { result.now ≡ self.now }
    {
        &self.list
    }
}
