// What `clap` is told of each command, as tables.
ghost use Rattle.std.specs.Prelude.{◌≡◌};
ghost use Rattle.clap.specs.Simple.{new_shape};
ghost use Rattle.lucy_asking.specs.CommandLine as spec;
ghost use Rattle.lucy_asking.specs.Saying.{taking_more};

use crate::name::Name;

/// How an operand or an option is written.
#[derive(Clone, Copy)]
pub(crate) enum Takes<'a> {
    /// An operand, which may be missing.
    Operand,
    /// An operand that has to stand there.
    Required,
    /// A word that stands alone.
    Flag,
    /// An option with a number, of this name in the help, between these.
    Number(&'a str, u32, u32),
}

/// An operand or an option: its name, how it is written, and what the help says of it.
#[derive(Clone, Copy)]
pub(crate) struct Told<'a> {
    pub name: &'a str,
    pub takes: Takes<'a>,
    pub help: &'a str,
}

// The file that each command works on.
const FILE: Told<'static> = Told {
    name: "FILE",
    takes: Takes::Required,
    help: "a program",
};

// How the clocks of a program are found.
const SCALE: Told<'static> = Told {
    name: "scale",
    takes: Takes::Number("K", 1, 64),
    help: "as that of `lucy clocks`",
};

const LEAD: Told<'static> = Told {
    name: "lead",
    takes: Takes::Number("D", 1, 64),
    help: "as that of `lucy clocks`",
};

// How many instants are shown.
const INSTANTS: Told<'static> = Told {
    name: "instants",
    takes: Takes::Number("N", 1, 65_536),
    help: "how many instants; else the prefix and two periods, at most 200",
};

static TIME: [Told<'static>; 6] = [
    FILE,
    SCALE,
    LEAD,
    Told {
        name: "NODE",
        takes: Takes::Operand,
        help: "a node of the program; else all of them, or with --svg the last one",
    },
    INSTANTS,
    Told {
        name: "svg",
        takes: Takes::Flag,
        help: "draws it as SVG",
    },
];

static NET: [Told<'static>; 5] = [
    FILE,
    SCALE,
    LEAD,
    Told {
        name: "NODE",
        takes: Takes::Operand,
        help: "a node of the program; else the last one",
    },
    Told {
        name: "flat",
        takes: Takes::Flag,
        help: "shows the whole program with its calls written out",
    },
];

static WAVE: [Told<'static>; 6] = [
    FILE,
    SCALE,
    LEAD,
    Told {
        name: "instants",
        takes: Takes::Number("N", 0, 1_048_576),
        help: "as that of `lucy run`",
    },
    Told {
        name: "workers",
        takes: Takes::Number("W", 1, 64),
        help: "as that of `lucy run`; changes nothing",
    },
    Told {
        name: "block",
        takes: Takes::Number("B", 1, 1_048_576),
        help: "as that of `lucy run`; changes nothing",
    },
];

static WHERE: [Told<'static>; 3] = [
    FILE,
    Told {
        name: "AT",
        takes: Takes::Required,
        help: "an offset in bytes from 0, or #N, as a refusal tells them",
    },
    Told {
        name: "NODE",
        takes: Takes::Operand,
        help: "the node of the place #N; else the last one",
    },
];

static PAGE: [Told<'static>; 4] = [FILE, SCALE, LEAD, INSTANTS];

static WHY: [Told<'static>; 4] = [
    FILE,
    SCALE,
    LEAD,
    Told {
        name: "BUFFER",
        takes: Takes::Required,
        help: "a node and the number of its buffer, as f.1",
    },
];

// Of `explain` and `freeze`.
static PROGRAM: [Told<'static>; 3] = [FILE, SCALE, LEAD];

/// What a command takes.
pub(crate) fn taken_by<'a>(name: Name) -> &'a [Told<'a>]
    ensures { taking_more (new_shape (spec.command_shape name).name) result.now ≡ spec.command_shape name }
{
    match name {
        Name::Time => &TIME,
        Name::Net => &NET,
        Name::Wave => &WAVE,
        Name::Where => &WHERE,
        Name::Page => &PAGE,
        Name::Explain => &PROGRAM,
        Name::Why => &WHY,
        Name::Freeze => &PROGRAM,
    }
}

/// How a command's name is spelled.
pub(crate) fn spelled<'a>(name: Name) -> &'a str
    ensures { result.now ≡ (spec.command_shape name).name }
{
    match name {
        Name::Time => "time",
        Name::Net => "net",
        Name::Wave => "wave",
        Name::Where => "where",
        Name::Page => "page",
        Name::Explain => "explain",
        Name::Why => "why",
        Name::Freeze => "freeze",
    }
}

/// What the help says of a command.
pub(crate) fn about<'a>(name: Name) -> &'a str {
    match name {
        Name::Time => {
            "Shows when the streams of a node have items, and how many wait in its buffers"
        }
        Name::Net => "Shows what feeds what in a node, for Graphviz",
        Name::Wave => "Runs a program on its input, and shows the run as a value change dump",
        Name::Where => {
            "Shows the line and the column of an offset, or of a place and what stands there"
        }
        Name::Page => {
            "Shows the report, the chronograms, the buffers and the nets of a program on a page of HTML"
        }
        Name::Explain => "Says why a program is refused, and what helps",
        Name::Why => "Says why a buffer is as full as it is, and how long items wait in it",
        Name::Freeze => "Shows the program with every clock written out",
    }
}
