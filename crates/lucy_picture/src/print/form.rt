// What stands at a place of a node, as text: by its operands, each by its name, else as `#` and its number.
ghost use Rattle.std.specs.Prelude.{◌≡◌, ◌∷◌, ◌++◌, [], OnOk, codes};
ghost use Rattle.std.specs.Fmt.{decimal};
ghost use Rattle.std.specs.Option.{option_map};
ghost use Rattle.lucy_tree.specs.View.{tree_of};
ghost use Rattle.lucy_grammar.specs.Print.{literal_text};
ghost use Rattle.lucy_place.specs.Standing.{at_one, bound_of};
ghost use Rattle.lucy_program.specs.Names.{of_one, name_at, place_name, place_names, listed};
ghost use Rattle.lucy_picture.specs.Kinds as spec;

use crate::print::pieces::{put, put_bits, put_both, put_made};
use lucy_host::Op;
use lucy_place::{CallSite, PlaceEntry, PlaceKind, PlacedNode};
use lucy_token::sign_of;
use lucy_tree::{Expr, Lit, Name};
use lucy_word::Word;
use std::alloc::{AllocError, Global};

/// The name of a place, where it has one.
pub(crate) fn name_at(node: &PlacedNode, place: u32) -> Option<&Name>
    ensures { option_map (λ name. name.now) result ≡ name_at node.now place }
{
    let entry = node.places.list().get(place.checked_sub(1)? as usize)?;
    entry.name.as_ref()
}

/// Puts a place last: its name, else `#` and its number.
pub fn put_place(
    alloc: Global,
    node: &PlacedNode,
    place: u32,
    out: &mut Vec<u8>,
) -> Result<(), AllocError>
    ensures { OnOk result (out.new.items ≡ out.old.items ++ place_name node.now place) }
{
    match name_at(node, place) {
        Some(name) => put(out, name.text.bytes()),
        None => put_made(out, format!(in alloc; "#{place}")),
    }
}

// Puts places last, parted by `, `.
fn put_listed(
    alloc: Global,
    node: &PlacedNode,
    places: &[u32],
    out: &mut Vec<u8>,
) -> Result<(), AllocError>
    ensures { OnOk result (out.new.items ≡ out.old.items ++ listed (place_names node.now places.now)) }
{
    let Some((first, more)) = places.split_first() else {
        return Ok(());
    };
    put_place(alloc, node, *first, out)?;
    'more: for place in more {
        put(out, b", ")?;
        put_place(alloc, node, *place, out)?;
    }
    Ok(())
}

// Puts places last in parentheses.
fn put_in_parens(
    alloc: Global,
    node: &PlacedNode,
    places: &[u32],
    out: &mut Vec<u8>,
) -> Result<(), AllocError>
    ensures { OnOk result (out.new.items ≡ out.old.items ++ spec.in_parens node.now places.now) }
{
    put(out, b" (")?;
    put_listed(alloc, node, places, out)?;
    put(out, b")")
}

// Puts a literal last.
fn put_literal(alloc: Global, literal: Lit, out: &mut Vec<u8>) -> Result<(), AllocError>
    ensures { OnOk result (out.new.items ≡ out.old.items ++ literal_text literal) }
{
    match literal {
        Lit::Int(number) => put(out, format!(in alloc; "{number}")?.as_bytes()),
        Lit::Bool(true) => put(out, b"true"),
        Lit::Bool(false) => put(out, b"false"),
    }
}

// Puts a place last behind a text.
fn put_behind(
    alloc: Global,
    node: &PlacedNode,
    text: &[u8],
    place: u32,
    out: &mut Vec<u8>,
) -> Result<(), AllocError>
    ensures { OnOk result (out.new.items ≡ out.old.items ++ (text.now ++ place_name node.now place)) }
{
    put(out, text)?;
    put_place(alloc, node, place, out)
}

// Puts a sign last between two operands.
fn put_between(
    alloc: Global,
    node: &PlacedNode,
    sign: &[u8],
    operands: (u32, u32),
    out: &mut Vec<u8>,
) -> Result<(), AllocError>
    ensures { OnOk result (out.new.items ≡ out.old.items ++ (place_name node.now operands.0 ++ (codes " " ++ (sign.now ++ (codes " " ++ place_name node.now operands.1))))) }
{
    let (first, second) = operands;
    put_place(alloc, node, first, out)?;
    put_both(out, b" ", sign)?;
    put_behind(alloc, node, b" ", second, out)
}

// Puts an operator last, with its operands.
fn put_operator(
    alloc: Global,
    node: &PlacedNode,
    op: Op,
    operands: &[u32],
    out: &mut Vec<u8>,
) -> Result<(), AllocError>
    ensures { OnOk result (out.new.items ≡ out.old.items ++ spec.operator_text node.now op operands.now) }
{
    let sign = sign_of(op).as_bytes();
    match operands {
        [] => put(out, sign),
        [only] => {
            put(out, sign)?;
            put_behind(alloc, node, b" ", *only, out)
        }
        [first, second] => put_between(alloc, node, sign, (*first, *second), out),
        [condition, one, zero, ..] => {
            put(out, sign)?;
            put_behind(alloc, node, b" ", *condition, out)?;
            put_behind(alloc, node, b" then ", *one, out)?;
            put_behind(alloc, node, b" else ", *zero, out)
        }
    }
}

// The written word of a `whenot`.
fn whenot_word(form: Option<&Expr>) -> Option<&Word>
    ensures { option_map (λ w. w.now) result ≡ spec.whenot_word (option_map (λ e. tree_of e.now) form.entry) }
{
    match form? {
        Expr::Lit { .. } => None,
        Expr::Var { .. } => None,
        Expr::Op { .. } => None,
        Expr::Host { .. } => None,
        Expr::When { flip, word, .. } => { if *flip { Some(word) } else { None } }
        Expr::Merge { .. } => None,
        Expr::Fby { .. } => None,
        Expr::Buffer { .. } => None,
        Expr::Call { .. } => None,
    }
}

// The written name of an operator of the host.
fn host_name(form: Option<&Expr>) -> &[u8]
    ensures { result.now ≡ spec.host_name (option_map (λ e. tree_of e.now) form.entry) }
{
    let Some(form) = form else {
        return b"";
    };
    match form {
        Expr::Lit { .. } => b"",
        Expr::Var { .. } => b"",
        Expr::Op { .. } => b"",
        Expr::Host { name, .. } => name.text.bytes(),
        Expr::When { .. } => b"",
        Expr::Merge { .. } => b"",
        Expr::Fby { .. } => b"",
        Expr::Buffer { .. } => b"",
        Expr::Call { .. } => b"",
    }
}

// The name of the node that is called.
fn called_name(form: Option<&Expr>) -> &[u8]
    ensures { result.now ≡ spec.called_name (option_map (λ e. tree_of e.now) form.entry) }
{
    let Some(form) = form else {
        return b"";
    };
    match form {
        Expr::Lit { .. } => b"",
        Expr::Var { .. } => b"",
        Expr::Op { .. } => b"",
        Expr::Host { .. } => b"",
        Expr::When { .. } => b"",
        Expr::Merge { .. } => b"",
        Expr::Fby { .. } => b"",
        Expr::Buffer { .. } => b"",
        Expr::Call { node, .. } => node.text.bytes(),
    }
}

// Puts a sampling last, with the word that is written.
fn put_sampling(
    alloc: Global,
    word: &Word,
    written: Option<&Word>,
    out: &mut Vec<u8>,
) -> Result<(), AllocError>
    ensures { OnOk result (out.new.items ≡ out.old.items ++ spec.sampling_text word.now (option_map (λ w. w.now) written.entry)) }
{
    match written {
        None => {
            put(out, b" when ")?;
            put_bits(alloc, word, out)
        }
        Some(written) => {
            put(out, b" whenot ")?;
            put_bits(alloc, written, out)
        }
    }
}

// Puts a merge last.
fn put_merge(
    alloc: Global,
    node: &PlacedNode,
    word: &Word,
    one: u32,
    zero: u32,
    out: &mut Vec<u8>,
) -> Result<(), AllocError>
    ensures { OnOk result (out.new.items ≡ out.old.items ++ spec.kind_text node.now (PlaceKind.Merge word.now one zero) None) }
{
    put(out, b"merge ")?;
    put_bits(alloc, word, out)?;
    put_behind(alloc, node, b" ", one, out)?;
    put_behind(alloc, node, b" ", zero, out)
}

/// The bound of the buffer of a number, where one is written.
pub(crate) fn bound_of(node: &PlacedNode, buffer: u64) -> Option<u64>
    ensures { result ≡ bound_of node.now buffer }
{
    *node.bounds.list().get(buffer.checked_sub(1)? as usize)?
}

// Puts the bound of a buffer last.
fn put_bound(alloc: Global, most: u64, out: &mut Vec<u8>) -> Result<(), AllocError>
    ensures { OnOk result (out.new.items ≡ out.old.items ++ (codes "buffer " ++ (decimal most ++ codes " ("))) }
{
    put_made(out, format!(in alloc; "buffer {most} ("))
}

// Puts a buffer last, with its bound where one is written.
fn put_buffer(
    alloc: Global,
    node: &PlacedNode,
    most: Option<u64>,
    operand: u32,
    out: &mut Vec<u8>,
) -> Result<(), AllocError>
    ensures { OnOk result (out.new.items ≡ out.old.items ++ spec.buffer_text most (place_name node.now operand)) }
{
    match most {
        None => put_behind(alloc, node, b"buffer ", operand, out),
        Some(most) => {
            put_bound(alloc, most, out)?;
            put_place(alloc, node, operand, out)?;
            put(out, b")")
        }
    }
}

// Puts which result of its call a result is last, from 0, where it is not the first.
fn put_nth(alloc: Global, nth: u32, out: &mut Vec<u8>) -> Result<(), AllocError>
    ensures { OnOk result (out.new.items ≡ out.old.items ++ spec.nth_text nth) }
{
    if nth == 0 {
        return Ok(());
    }
    let number = u64::from(nth) + 1;
    put_made(out, format!(in alloc; "result {number} of "))
}

// The call of a number.
fn site_of(node: &PlacedNode, call: u32) -> Option<&CallSite>
    ensures { option_map (λ site. site.now) result ≡ at_one node.now.calls call }
{
    node.calls.list().get(call.checked_sub(1)? as usize)
}

// Puts the word of a call's base last, where it is written.
fn put_base(alloc: Global, base: &Option<Word>, out: &mut Vec<u8>) -> Result<(), AllocError>
    ensures { OnOk result (out.new.items ≡ out.old.items ++ spec.at_text base.now) }
{
    let Some(base) = base else {
        return Ok(());
    };
    put(out, b" at ")?;
    put_bits(alloc, base, out)
}

// Puts a result of a call last, by the number of the call and its own.
fn put_result(
    alloc: Global,
    node: &PlacedNode,
    call: u32,
    nth: u32,
    name: &[u8],
    out: &mut Vec<u8>,
) -> Result<(), AllocError>
    ensures { OnOk result (out.new.items ≡ out.old.items ++ (spec.nth_text nth ++ of_one (spec.call_text node.now name.now) (at_one node.now.calls call))) }
{
    put_nth(alloc, nth, out)?;
    let Some(site) = site_of(node, call) else {
        return Ok(());
    };
    put(out, name)?;
    put_base(alloc, &site.at, out)?;
    put_in_parens(alloc, node, site.args.list(), out)
}

// Puts an operator of the host last.
fn put_host(
    alloc: Global,
    node: &PlacedNode,
    places: &[u32],
    name: &[u8],
    out: &mut Vec<u8>,
) -> Result<(), AllocError>
    ensures { OnOk result (out.new.items ≡ out.old.items ++ (codes "host " ++ (name.now ++ spec.in_parens node.now places.now))) }
{
    put_both(out, b"host ", name)?;
    put_in_parens(alloc, node, places, out)
}

// Puts a literal last, and the place behind it.
fn put_fby(
    alloc: Global,
    node: &PlacedNode,
    first: Lit,
    operand: u32,
    out: &mut Vec<u8>,
) -> Result<(), AllocError>
    ensures { OnOk result (out.new.items ≡ out.old.items ++ (literal_text first ++ (codes " fby " ++ place_name node.now operand))) }
{
    put_literal(alloc, first, out)?;
    put_behind(alloc, node, b" fby ", operand, out)
}

// Puts what stands at a place last.
fn put_what(
    alloc: Global,
    node: &PlacedNode,
    kind: &PlaceKind,
    form: Option<&Expr>,
    out: &mut Vec<u8>,
) -> Result<(), AllocError>
    ensures { OnOk result (out.new.items ≡ out.old.items ++ spec.kind_text node.now kind.now (option_map (λ e. tree_of e.now) form.entry)) }
{
    match kind {
        PlaceKind::Param => Ok(()),
        PlaceKind::Defined(right) => put_place(alloc, node, *right, out),
        PlaceKind::Lit(literal) => put_literal(alloc, *literal, out),
        PlaceKind::Op(op, operands) => put_operator(alloc, node, *op, operands.list(), out),
        PlaceKind::Host(_, first, second) => {
            put_host(alloc, node, &[*first, *second], host_name(form), out)
        }
        PlaceKind::When(operand, word) => {
            put_place(alloc, node, *operand, out)?;
            put_sampling(alloc, word, whenot_word(form), out)
        }
        PlaceKind::Merge(word, one, zero) => put_merge(alloc, node, word, *one, *zero, out),
        PlaceKind::Fby(first, operand) => put_fby(alloc, node, *first, *operand, out),
        PlaceKind::Buffer(number, operand) => {
            let most = bound_of(node, u64::from(*number));
            put_buffer(alloc, node, most, *operand, out)
        }
        PlaceKind::Result(call, nth) => {
            put_result(alloc, node, *call, *nth, called_name(form), out)
        }
    }
}

/// Puts what stands at a place last, which is this form where it is none of the streams: nothing for a parameter, and for a defined name
/// the place of its right side.
pub fn put_kind(
    alloc: Global,
    node: &PlacedNode,
    kind: &PlaceKind,
    form: Option<&Expr>,
    out: &mut Vec<u8>,
) -> Result<(), AllocError>
    ensures { OnOk result (out.new.items ≡ out.old.items ++ spec.kind_text node.now kind.now (option_map (λ e. tree_of e.now) form.entry)) }
{
    Ok(put_what(alloc, node, kind, form, out)?)
}

// What stands between a name and what it is defined as.
fn equals_text(kind: &PlaceKind) -> &'static str
    ensures { result.now ≡ spec.equals_text kind.now }
{
    match kind {
        PlaceKind::Param => "",
        PlaceKind::Defined(_) => " = ",
        PlaceKind::Lit(_) => "",
        PlaceKind::Op(_, _) => "",
        PlaceKind::Host(_, _, _) => "",
        PlaceKind::When(_, _) => "",
        PlaceKind::Merge(_, _, _) => "",
        PlaceKind::Fby(_, _) => "",
        PlaceKind::Buffer(_, _) => "",
        PlaceKind::Result(_, _) => "",
    }
}

// Puts the name of a place last, where it has one.
fn put_own_name(entry: &PlaceEntry, out: &mut Vec<u8>) -> Result<(), AllocError>
    ensures { OnOk result (out.new.items ≡ out.old.items ++ of_one (λ x. x.text ++ spec.equals_text entry.now.kind) entry.now.name) }
{
    let Some(name) = &entry.name else {
        return Ok(());
    };
    put_both(out, name.text.bytes(), equals_text(&entry.kind).as_bytes())
}

// Puts the number of a place last.
fn put_number(alloc: Global, place: u32, out: &mut Vec<u8>) -> Result<(), AllocError>
    ensures { OnOk result (out.new.items ≡ out.old.items ++ (codes "#" ++ (decimal place ++ codes " of "))) }
{
    put_made(out, format!(in alloc; "#{place} of "))
}

// Puts the number of a place last, and its node.
fn put_number_of(
    alloc: Global,
    node: &PlacedNode,
    place: u32,
    out: &mut Vec<u8>,
) -> Result<(), AllocError>
    ensures { OnOk result (out.new.items ≡ out.old.items ++ (codes "#" ++ (decimal place ++ (codes " of " ++ (node.now.name.text ++ codes ": "))))) }
{
    put_number(alloc, place, out)?;
    put_both(out, node.name.text.bytes(), b": ")
}

/// Puts the first line of a place last: its number and its node, its name where it has one, and what stands there.
pub fn put_entry(
    alloc: Global,
    node: &PlacedNode,
    place: u32,
    entry: &PlaceEntry,
    form: Option<&Expr>,
    out: &mut Vec<u8>,
) -> Result<(), AllocError>
    ensures { OnOk result (out.new.items ≡ out.old.items ++ spec.entry_text node.now place entry.now (option_map (λ e. tree_of e.now) form.entry)) }
{
    put_number_of(alloc, node, place, out)?;
    put_own_name(entry, out)?;
    put_what(alloc, node, &entry.kind, form, out)?;
    Ok(put(out, b"\n")?)
}
