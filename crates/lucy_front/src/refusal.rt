// Why a program text is refused.
ghost use Rattle.std.specs.Prelude.{◌≡◌};
ghost use Rattle.lucy_front.specs.declared.refusal.Refusal.TheVariants.{OutOfMemory as NoMemory};
ghost use Rattle.lucy_front.specs.Unscheduled.{flat_refusal};
ghost use Rattle.lucy_front.specs.Refusing.{syntax_refusal, names_refusal};

use crate::fault::NodeFault;
use lucy_flat::FlatError;
use lucy_naming::NameError;
use lucy_net::{Item, Net};
use lucy_place::Placed;
use lucy_syntax::SyntaxError;
use lucy_text::Text;
use lucy_word::Limit;
use std::alloc::AllocError;

/// Why a program text is refused. Nodes count from 0.
#[derive(Drop)]
pub enum Refusal {
    /// The text is no program, for another cause than a limit.
    Syntax(SyntaxError),
    /// A name is not good.
    Names(NameError),
    /// A node has no types, as this path of its places shows.
    Types {
        placed: Placed,
        node: u32,
        path: Vec<u32>,
    },
    /// A node has no clocks, and those above it have.
    Node {
        placed: Placed,
        node: u32,
        fault: NodeFault,
    },
    /// Items of the flat net depend on each other: each on the next one, and the last one on the first, which is of the least
    /// actor. They are of this instant, which counts from 1, and no item of an earlier one reaches itself. There is a name for
    /// each item, in the order of the items: that of its actor.
    Cause {
        net: Net,
        names: Vec<Text>,
        instant: u64,
        items: Vec<Item>,
    },
    /// A limit is passed.
    Limit(Limit),
    /// Memory ran out, which says nothing of the text.
    OutOfMemory,
}

impl From<SyntaxError> for Refusal {
    ghost from_gives = { λ error e. e ≡ syntax_refusal error };

    fn from(error: SyntaxError) -> Self {
        match error {
            SyntaxError::TooLarge(limit) => Refusal::Limit(limit),
            SyntaxError::OutOfMemory => Refusal::OutOfMemory,
            SyntaxError::Unexpected(place) => Refusal::Syntax(SyntaxError::Unexpected(place)),
            SyntaxError::BadNumber(place) => Refusal::Syntax(SyntaxError::BadNumber(place)),
            SyntaxError::BadWord(place) => Refusal::Syntax(SyntaxError::BadWord(place)),
        }
    }
}

impl From<NameError> for Refusal {
    ghost from_gives = { λ error e. e ≡ names_refusal error };

    fn from(error: NameError) -> Self {
        match error {
            NameError::TooMany(limit) => Refusal::Limit(limit),
            NameError::OutOfMemory => Refusal::OutOfMemory,
            NameError::Unknown(span) => Refusal::Names(NameError::Unknown(span)),
            NameError::Twice(span) => Refusal::Names(NameError::Twice(span)),
            NameError::NoResult(span) => Refusal::Names(NameError::NoResult(span)),
            NameError::Arity(span) => Refusal::Names(NameError::Arity(span)),
            NameError::LaterNode(span) => Refusal::Names(NameError::LaterNode(span)),
        }
    }
}

impl From<FlatError> for Refusal {
    ghost from_gives = { λ error e. e ≡ flat_refusal error };

    fn from(error: FlatError) -> Self {
        match error {
            FlatError::Limit(limit) => Refusal::Limit(limit),
            FlatError::OutOfMemory => Refusal::OutOfMemory,
        }
    }
}

impl From<AllocError> for Refusal {
    ghost from_gives = { λ _ e. e ≡ NoMemory };

    fn from(_: AllocError) -> Self {
        Refusal::OutOfMemory
    }
}
