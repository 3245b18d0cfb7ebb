// What words ask for that isn't there.
ghost use Rattle.std.specs.Prelude.{◌≡◌};
ghost use Rattle.lucy_views.specs.Owes.{missing_line};

/// What words ask for that isn't there.
#[derive(Clone, Copy)]
pub enum Missing {
    /// A command.
    Command,
    /// A node of the name.
    Node,
    /// A buffer of the node.
    Buffer,
    /// A place of the node.
    Place,
    /// An offset of the text.
    Offset,
    /// What `where` looks for.
    At,
    /// A program with its clocks written out that is the same.
    Frozen,
    /// The instants of a program without inputs that is run.
    Instants,
}

impl Missing {
    /// The line that says so.
    pub(crate) fn line(self) -> &'static [u8]
        ensures { result.now ≡ missing_line self }
    {
        match self {
            Missing::Command => b"lucy_view: no such command\n",
            Missing::Node => b"lucy_view: no such node\n",
            Missing::Buffer => b"lucy_view: no such buffer\n",
            Missing::Place => b"lucy_view: the node has no such place\n",
            Missing::Offset => b"lucy_view: the text ends before this offset\n",
            Missing::At => b"lucy_view: AT is an offset, or # and the number of a place\n",
            Missing::Frozen => {
                b"lucy_view: the program with its clocks written out would be another one\n"
            }
            Missing::Instants => b"lucy: words: main has no inputs, give --instants\n",
        }
    }
}
