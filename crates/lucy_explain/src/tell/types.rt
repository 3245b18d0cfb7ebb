// A clash of types: both rules at the ends of the path.
use crate::index::narrow;
use crate::tell::page::Page;
use crate::tell::place::{Scene, put_clock, put_places};
use lucy_host::{DataType, Op};
use lucy_place::PlaceKind;
use lucy_tree::Lit;

// What an operator's operands hold, where it says so of this one, which counts from 0.
fn operand_holds(op: Op, operand: usize) -> Option<DataType> {
    match op {
        Op::Add | Op::Sub | Op::Mul | Op::Div | Op::Rem => Some(DataType::Int),
        Op::Lt | Op::Le | Op::Gt | Op::Ge => Some(DataType::Int),
        Op::And | Op::Or | Op::Not => Some(DataType::Bool),
        Op::If if operand == 0 => Some(DataType::Bool),
        Op::If | Op::Eq | Op::Ne => None,
    }
}

// What an operator gives, where it says so.
fn gives(op: Op) -> Option<DataType> {
    match op {
        Op::Add | Op::Sub | Op::Mul | Op::Div | Op::Rem => Some(DataType::Int),
        Op::If => None,
        _ => Some(DataType::Bool),
    }
}

// Whether a place is of a type by what stands there.
fn is_of(scene: Scene<'_>, place: u32, holds: DataType) -> Option<&'static str> {
    let entry = scene.entry(place)?;
    if entry.holds == Some(holds) {
        return Some("its type is written");
    }
    let own = match &entry.kind {
        PlaceKind::Lit(Lit::Int(_)) => Some(DataType::Int),
        PlaceKind::Lit(Lit::Bool(_)) => Some(DataType::Bool),
        PlaceKind::Fby(Lit::Int(_), _) => Some(DataType::Int),
        PlaceKind::Fby(Lit::Bool(_), _) => Some(DataType::Bool),
        PlaceKind::Host(_, _, _) => Some(DataType::Int),
        PlaceKind::Op(op, _) => gives(*op),
        _ => None,
    };
    if own != Some(holds) {
        return None;
    }
    match &entry.kind {
        PlaceKind::Lit(_) => Some("it is a literal"),
        PlaceKind::Fby(_, _) => Some("its first item is a literal"),
        PlaceKind::Host(_, _, _) => Some("operators of the host give numbers"),
        _ => Some("its operator gives one"),
    }
}

// Whether a place is of a type because this one reads it.
fn is_read_as(scene: Scene<'_>, reader: u32, place: u32, holds: DataType) -> bool {
    let Some(entry) = scene.entry(reader) else {
        return false;
    };
    match &entry.kind {
        PlaceKind::Op(op, operands) => {
            for (number, operand) in operands.list().iter().enumerate() {
                if *operand == place && operand_holds(*op, number) == Some(holds) {
                    return true;
                }
            }
            false
        }
        PlaceKind::Host(_, first, second) => {
            holds == DataType::Int && (*first == place || *second == place)
        }
        PlaceKind::Fby(Lit::Int(_), operand) => { holds == DataType::Int && *operand == place }
        PlaceKind::Fby(Lit::Bool(_), operand) => { holds == DataType::Bool && *operand == place }
        _ => false,
    }
}

// The first place that reads one as this type.
fn reader_of(scene: Scene<'_>, place: u32, holds: DataType) -> Option<u32> {
    for index in 0..scene.node.places.list().len() {
        let reader = narrow(index).saturating_add(1);
        if is_read_as(scene, reader, place, holds) {
            return Some(reader);
        }
    }
    None
}

// Puts why a place is of a type last.
fn put_end(page: &mut Page<'_>, scene: Scene<'_>, place: u32, holds: DataType) {
    page.put(b"  ");
    put_clock(page, scene, place);
    page.say(match holds {
        DataType::Int => " is a number: ",
        DataType::Bool => " is a truth: ",
    });
    page.name(place);
    if let Some(why) = is_of(scene, place, holds) {
        page.say(why);
        return page.put(b"\n");
    }
    if let Some(reader) = reader_of(scene, place, holds) {
        put_clock(page, scene, reader);
        page.name(reader);
        return page.put(b" takes it as one\n");
    }
    page.put(b"a call takes or gives it as one\n")
}

// Puts the steps of the path between its ends last.
fn put_steps(page: &mut Page<'_>, scene: Scene<'_>, path: &[u32]) {
    for i in 1..path.len() {
        page.put(b"  ");
        put_clock(page, scene, path[i - 1]);
        page.put(b" and ");
        put_clock(page, scene, path[i]);
        page.put(b" are of one type\n");
        page.name(path[i]);
    }
}

/// Puts a clash of types in a node last: the rules at both ends of the path, the path, where its places stand, and what helps.
pub(crate) fn put_clash(page: &mut Page<'_>, scene: Scene<'_>, path: &[u32]) {
    let (Some(first), Some(last)) = (path.first(), path.last()) else {
        return;
    };
    put_end(page, scene, *first, DataType::Int);
    put_steps(page, scene, path);
    put_end(page, scene, *last, DataType::Bool);
    put_places(page, scene);
    page.helps("`if c then 1 else 0` makes a number of a truth, `n != 0` a truth of a number")
}
