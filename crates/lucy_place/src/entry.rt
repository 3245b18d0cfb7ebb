// What is known of a place, and of a call.
ghost use Rattle.std.specs.Prelude.{◌≡◌, ◌∷◌, [], slice_get};
ghost use Rattle.lucy_place.specs.Reads.{operands_of};

use crate::lists::Numbers;
use lucy_host::{DataType, Op};
use lucy_tree::{Lit, Name};
use lucy_word::Word;

// The operand of a number, where there is this one.
fn only(place: u32, operand: usize) -> Option<u32>
    ensures { result ≡ slice_get (place ∷ []) operand }
{
    if operand == 0 { Some(place) } else { None }
}

// The operand of a number, where there are these two.
fn one_of(first: u32, second: u32, operand: usize) -> Option<u32>
    ensures { result ≡ slice_get (first ∷ second ∷ []) operand }
{
    match operand {
        0 => Some(first),
        1 => Some(second),
        _ => None,
    }
}

/// A place of a node: with its name where it has one, and its type and the word of its clock where they are written.
#[derive(Drop)]
pub struct PlaceEntry {
    pub name: Option<Name>,
    pub holds: Option<DataType>,
    pub word: Option<Word>,
    pub kind: PlaceKind,
}

/// What a place is, with the places that it reads. Places, buffers and calls of a node count from 1, nodes, operators of
/// the host and results of a call from 0.
#[derive(Drop)]
pub enum PlaceKind {
    /// A parameter.
    Param,
    /// A defined name, with the place of its right side.
    Defined(u32),
    /// A literal.
    Lit(Lit),
    /// An operator with its operands.
    Op(Op, Numbers),
    /// An operator of the host with its two operands.
    Host(u32, u32, u32),
    /// The items of the operand at which the word has a one. For `whenot` it is the complement of the word in the text.
    When(u32, Word),
    /// Where the word has a one an item of the first place, and where it has a zero one of the second.
    Merge(Word, u32, u32),
    /// The literal, and then the items of the operand.
    Fby(Lit, u32),
    /// A buffer's number and its operand.
    Buffer(u32, u32),
    /// A call's number and the result's.
    Result(u32, u32),
}

impl PlaceKind {
    /// The place that a place of this kind reads as its operand of a number, which counts from 0. None behind the last
    /// operand. A result of a call has no operands: its call has arguments.
    pub fn operand(&self, operand: usize) -> Option<u32>
        ensures { result ≡ slice_get (operands_of self.now) operand }
    {
        match self {
            PlaceKind::Param => None,
            PlaceKind::Defined(right) => only(*right, operand),
            PlaceKind::Lit(_) => None,
            PlaceKind::Op(_, args) => args.list().get(operand).copied(),
            PlaceKind::Host(_, first, second) => one_of(*first, *second, operand),
            PlaceKind::When(place, _) => only(*place, operand),
            PlaceKind::Merge(_, one, zero) => one_of(*one, *zero, operand),
            PlaceKind::Fby(_, place) => only(*place, operand),
            PlaceKind::Buffer(_, place) => only(*place, operand),
            PlaceKind::Result(_, _) => None,
        }
    }
}

/// A call: the node that is called, the word of the call's base clock where it is written, the place of its first result,
/// behind which those of its other results stand in order, and the arguments' places.
#[derive(Drop)]
pub struct CallSite {
    pub node: u32,
    pub at: Option<Word>,
    pub first: u32,
    pub args: Numbers,
}
