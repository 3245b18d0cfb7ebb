ghost use Rattle.std.specs.Prelude.{◌≡◌};

use crate::span::Name;
use lucy_host::DataType;
use lucy_word::Word;
use std::marker::Model;

/// A parameter, or a name that a definition defines: with its type and the word of its clock where they are written.
#[derive(Drop)]
pub struct Decl {
    pub name: Name,
    pub holds: Option<DataType>,
    pub word: Option<Word>,
}

/// Declarations in the order of the text. Contracts see their list.
#[derive(Drop)]
pub struct Decls {
    list: Vec<Decl>,
}

impl Model for Decls {
    ghost use Rattle.std.specs.Prelude.{List};
    ghost use Rattle.lucy_tree.specs.declared.decl.Decl.{Decl};

    ghost Value = { List Decl };

    ghost view = { λ decls. decls.list.items };
}

impl Decls {
    /// These declarations.
    pub fn new(list: Vec<Decl>) -> Decls
        ensures { result ≡ list.items }
    {
        Decls { list }
    }

    /// The declarations.
    pub fn list(&self) -> &[Decl]
        ensures { result.now ≡ self.now }
    {
        &self.list
    }
}
