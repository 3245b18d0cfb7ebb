// The texts of refusals.
ghost use Rattle.std.specs.Prelude.{◌≡◌, ◌<◌, ◌++◌, IfOk, OnOk, codes, flat_map, length};
ghost use Rattle.std.specs.Fmt.{decimal};
ghost use Rattle.lucy_front.specs.declared.fault.NodeFault.TheVariants.{NotWritten};
ghost use Rattle.lucy_program.specs.Names.{place_names};
ghost use Rattle.lucy_front.specs.Refusals as spec;

use crate::evidence::{unclocked_lines, unequal_lines};
use crate::fault::NodeFault;
use crate::refusal::Refusal;
use crate::terms::need_text;
use lucy_check::CheckFault;
use lucy_naming::NameError;
use lucy_need::Need;
use lucy_net::Item;
use lucy_place::PlacedNode;
use lucy_program::{bytes, number, place_names};
use lucy_syntax::SyntaxError;
use lucy_text::Text;
use lucy_tree::Span;
use lucy_word::Limit;
use std::alloc::{AllocError, Global};

// The line where a limit is passed.
fn limit_line(alloc: Global, limit: Limit) -> Result<Vec<u8>, AllocError>
    ensures { IfOk result (λ v. v.items ≡ spec.limit_line limit) }
{
    Ok(format!(in alloc; "lucy: limit {} {}\n", limit.name(), limit.number())?.into_bytes())
}

// The line where memory ran out.
fn memory_line(alloc: Global) -> Result<Vec<u8>, AllocError>
    ensures { IfOk result (λ v. v.items ≡ spec.memory_line) }
{
    Ok(b"lucy: out of memory\n".to_vec(alloc)?)
}

// The line of a syntax.
fn syntax_line(alloc: Global, error: SyntaxError) -> Result<Vec<u8>, AllocError>
    ensures { IfOk result (λ v. v.items ≡ spec.syntax_line error) }
{
    let line = match error {
        SyntaxError::Unexpected(at) => format!(in alloc; "lucy: syntax: unexpected at {at}\n"),
        SyntaxError::BadNumber(at) => format!(in alloc; "lucy: syntax: bad number at {at}\n"),
        SyntaxError::BadWord(at) => format!(in alloc; "lucy: syntax: bad word at {at}\n"),
        SyntaxError::TooLarge(limit) => return limit_line(alloc, limit),
        SyntaxError::OutOfMemory => return memory_line(alloc),
    };
    Ok(line?.into_bytes())
}

// The line of a name.
fn name_line(alloc: Global, error: NameError) -> Result<Vec<u8>, AllocError>
    ensures { IfOk result (λ v. v.items ≡ spec.name_fault_line error) }
{
    let line = match error {
        NameError::Unknown(span) => format!(in alloc; "lucy: names: unknown at {}\n", span.from),
        NameError::Twice(span) => format!(in alloc; "lucy: names: twice at {}\n", span.from),
        NameError::NoResult(span) => format!(in alloc; "lucy: names: no result at {}\n", span.from),
        NameError::Arity(span) => format!(in alloc; "lucy: names: arity at {}\n", span.from),
        NameError::LaterNode(span) => {
            format!(in alloc; "lucy: names: later node at {}\n", span.from)
        }
        NameError::TooMany(limit) => return limit_line(alloc, limit),
        NameError::OutOfMemory => return memory_line(alloc),
    };
    Ok(line?.into_bytes())
}

// Puts places last, each on a line of its own.
fn place_lines(places: &[Text], lines: &mut Vec<u8>) -> Result<(), AllocError>
    ensures { OnOk result (lines.new.items ≡ lines.old.items ++ flat_map (λ name. codes "  " ++ (name ++ codes "\n")) places.now) }
{
    'each: for place in places {
        bytes(b"  ", lines)?;
        bytes(place.bytes(), lines)?;
        bytes(b"\n", lines)?;
    }
    Ok(())
}

// The lines of a clash of types in a node.
fn path_lines(alloc: Global, node: &PlacedNode, path: &[u32]) -> Result<Vec<u8>, AllocError>
    ensures { IfOk result (λ v. v.items ≡ codes "lucy: types: node "
        ++ (node.now.name.text ++ (codes ": int against bool\n" ++ flat_map (λ name. codes "  " ++ (name ++ codes "\n")) (place_names node.now path.now)))) }
{
    let mut lines = Vec::new(alloc);
    bytes(b"lucy: types: node ", &mut lines)?;
    bytes(node.name.text.bytes(), &mut lines)?;
    bytes(b": int against bool\n", &mut lines)?;
    place_lines(&place_names(alloc, node, path)?, &mut lines)?;
    Ok(lines)
}

// The line where a node isn't written.
fn unwritten_line(alloc: Global, node: &PlacedNode, span: Span) -> Result<Vec<u8>, AllocError>
    ensures { IfOk result (λ v. v.items ≡ spec.fault_lines node.now (NotWritten span)) }
{
    let mut line = Vec::new(alloc);
    bytes(b"lucy: check: node ", &mut line)?;
    bytes(node.name.text.bytes(), &mut line)?;
    bytes(b": not written at ", &mut line)?;
    number(alloc, u64::from(span.from), &mut line)?;
    bytes(b"\n", &mut line)?;
    Ok(line)
}

// The line where a need of a node isn't met, with what is wrong at its end.
fn need_line(
    alloc: Global,
    node: &PlacedNode,
    need: &Need,
    end: &[u8],
) -> Result<Vec<u8>, AllocError>
    ensures { IfOk result (λ v. v.items ≡ spec.need_line node.now end.now need.now) }
{
    let mut line = Vec::new(alloc);
    bytes(b"lucy: check: node ", &mut line)?;
    bytes(node.name.text.bytes(), &mut line)?;
    bytes(b": ", &mut line)?;
    need_text(alloc, node, need, &mut line)?;
    bytes(end, &mut line)?;
    Ok(line)
}

// The line where the words of a node don't meet its needs.
fn check_line(
    alloc: Global,
    node: &PlacedNode,
    needs: &[Need],
    fault: CheckFault,
) -> Result<Vec<u8>, AllocError>
    requires { spec.NamesNeed needs.now fault }
    ensures { IfOk result (λ v. v.items ≡ spec.check_line node.now needs.now fault) }
{
    match fault {
        CheckFault::Differs { need, instant } => {
            let end = format!(in alloc; ": differ at {instant}\n")?;
            need_line(alloc, node, &needs[need as usize], end.as_bytes())
        }
        CheckFault::Rates { need } => {
            need_line(alloc, node, &needs[need as usize], b": unequal rates\n")
        }
        CheckFault::Late { need, instant } => {
            let end = format!(in alloc; ": late at {instant}\n")?;
            need_line(alloc, node, &needs[need as usize], end.as_bytes())
        }
        CheckFault::Limit { limit, .. } => limit_line(alloc, limit),
        CheckFault::OutOfMemory => memory_line(alloc),
    }
}

// The lines of a fault of a node.
fn fault_lines(alloc: Global, node: &PlacedNode, fault: &NodeFault) -> Result<Vec<u8>, AllocError>
    requires { spec.IsShown fault.now }
    ensures { IfOk result (λ v. v.items ≡ spec.fault_lines node.now fault.now) }
{
    match fault {
        NodeFault::NotWritten(span) => unwritten_line(alloc, node, *span),
        NodeFault::Rates { needs, walk } => unequal_lines(alloc, node, needs.list.list(), walk),
        NodeFault::Clocks {
            needs,
            shape,
            diffs,
            cycle,
        } => unclocked_lines(alloc, node, needs.clocks, shape, diffs, cycle),
        NodeFault::Check { needs, fault } => check_line(alloc, node, needs.list.list(), *fault),
    }
}

// Puts items last, each on a line of its own.
fn item_lines(
    alloc: Global,
    names: &[Text],
    items: &[Item],
    lines: &mut Vec<u8>,
) -> Result<(), AllocError>
    ensures { OnOk result (lines.new.items ≡ lines.old.items ++ spec.item_lines names.now items.now) }
{
    'each: for (name, item) in names.iter().zip(items) {
        bytes(b"  ", lines)?;
        bytes(name.bytes(), lines)?;
        bytes(b"[", lines)?;
        number(alloc, item.number, lines)?;
        bytes(b"]\n", lines)?;
    }
    Ok(())
}

// The lines of items that depend on each other.
fn cause_lines(
    alloc: Global,
    instant: u64,
    names: &[Text],
    items: &[Item],
) -> Result<Vec<u8>, AllocError>
    ensures { IfOk result (λ v. v.items ≡ codes "lucy: causality: instant "
        ++ (decimal instant ++ (codes "\n" ++ spec.item_lines names.now items.now))) }
{
    let mut lines = Vec::new(alloc);
    bytes(b"lucy: causality: instant ", &mut lines)?;
    number(alloc, instant, &mut lines)?;
    bytes(b"\n", &mut lines)?;
    item_lines(alloc, names, items, &mut lines)?;
    Ok(lines)
}

/// The text of a refusal that `accept` gives: its line on the fault sink, for a clash of types with the places of its path, for
/// rates that don't agree with the needs of the walk, for clocks that there are none of with the inequalities of the cycle, and
/// for a cycle of causality with its items, each on a line of its own.
pub fn refusal_text(alloc: Global, refusal: &Refusal) -> Result<Vec<u8>, AllocError>
    requires { spec.IsTellable refusal.now }
    ensures { IfOk result (λ v. v.items ≡ spec.refusal_text refusal.now) }
{
    match refusal {
        Refusal::Syntax(error) => syntax_line(alloc, *error),
        Refusal::Names(error) => name_line(alloc, *error),
        Refusal::Types { placed, node, path } => path_lines(alloc, placed.node(*node), path),
        Refusal::Node {
            placed,
            node,
            fault,
        } => fault_lines(alloc, placed.node(*node), fault),
        Refusal::Cause {
            names,
            instant,
            items,
            ..
        } => cause_lines(alloc, *instant, names, items),
        Refusal::Limit(limit) => limit_line(alloc, *limit),
        Refusal::OutOfMemory => memory_line(alloc),
    }
}
