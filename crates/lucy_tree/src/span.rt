ghost use Rattle.std.specs.Prelude.{◌≡◌};

use lucy_text::Text;
use std::marker::Model;

/// A range of bytes of the program text: from the offset `from`, counted from 0, up to but not with `to`.
#[derive(Clone, Copy, Debug, PartialEq, Eq)]
pub struct Span {
    pub from: u32,
    pub to: u32,
}

/// A name, and where it stands.
#[derive(Drop)]
pub struct Name {
    pub text: Text,
    pub span: Span,
}

/// Names in the order of the text. Contracts see their list.
#[derive(Drop)]
pub struct Names {
    list: Vec<Name>,
}

impl Model for Names {
    ghost use Rattle.std.specs.Prelude.{List};
    ghost use Rattle.lucy_tree.specs.declared.span.Name.{Name};

    ghost Value = { List Name };

    ghost view = { λ names. names.list.items };
}

impl Names {
    /// These names.
    pub fn new(list: Vec<Name>) -> Names
        ensures { result ≡ list.items }
    {
        Names { list }
    }

    /// The names.
    pub fn list(&self) -> &[Name]
        ensures { result.now ≡ self.now }
    {
        &self.list
    }
}
