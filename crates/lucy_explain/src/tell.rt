// Printing: refusals as text. It is safe, and the rows test it.
ghost use Rattle.std.specs.Prelude.{◌<◌, length};
ghost use Rattle.lucy_front.specs.Refusals.{IsTellable, IsShown};

mod check;
mod cycle;
mod filling;
mod items;
mod limits;
mod loops;
mod naming;
mod page;
mod place;
mod rates;
mod row;
mod sizes;
mod syntax;
mod types;

use check::{put_check, put_unwritten};
use cycle::{Evidence, put_cycle};
pub(crate) use filling::filled;
use items::put_items;
use limits::put_limit;
use lucy_front::{NodeFault, Refusal};
use lucy_host::Ops;
use lucy_naming::{NameError, place};
use lucy_net::Item;
use lucy_place::Placed;
use lucy_syntax::{SyntaxError, parse};
use lucy_text::Text;
use lucy_tree::{Program, Span};
use naming::put_name;
use page::Page;
use place::Scene;
use rates::put_rates;
use std::alloc::{AllocError, Global};
use syntax::put_syntax;
use types::put_clash;

/// The tree of a text, where it has one.
pub(crate) fn tree_of(alloc: Global, text: &[u8]) -> Result<Option<Program>, AllocError> {
    match parse(alloc, text) {
        Ok(program) => Ok(Some(program)),
        Err(SyntaxError::OutOfMemory) => Err(AllocError),
        Err(_) => Ok(None),
    }
}

/// A node with its tree.
pub(crate) fn scene_of<'a>(placed: &'a Placed, program: &'a Option<Program>, node: u32) -> Scene<'a>
    requires { node < length placed.now.nodes }
{
    let tree = match program {
        Some(program) => program.nodes.list().get(node as usize),
        None => None,
    };
    Scene {
        node: placed.node(node),
        tree,
    }
}

// Puts what is told of the fault of a node last.
fn put_fault(page: &mut Page<'_>, scene: Scene<'_>, fault: &NodeFault) -> Result<(), AllocError>
    requires { IsShown fault.now }
{
    match fault {
        NodeFault::NotWritten(span) => put_unwritten(page, scene.tree, *span),
        NodeFault::Rates { needs, walk } => put_rates(page, scene, needs.list.list(), walk),
        NodeFault::Clocks {
            needs,
            shape,
            diffs,
            cycle,
        } => {
            let about = Evidence {
                scene,
                needs,
                shape,
                diffs,
            };
            return put_cycle(page, about, cycle);
        }
        NodeFault::Check { needs, fault } => put_check(page, scene, needs, *fault),
    }
    Ok(())
}

// Puts what is told of a cycle of causality last.
fn put_cause(page: &mut Page<'_>, ops: &Ops, names: &[Text], items: &[Item]) {
    match parse(page.alloc, page.text) {
        Ok(program) => match place(page.alloc, &program, ops) {
            Ok(placed) => put_items(page, &program, &placed, names, items),
            Err(_) => page.full = true,
        },
        Err(_) => page.full = true,
    }
}

// Puts what is told of a name last.
fn put_naming(page: &mut Page<'_>, ops: &Ops, program: &Option<Program>, error: NameError) {
    if let Some(program) = program {
        put_name(page, program, ops, error);
    }
}

// Puts what is told of a refusal behind its first line last.
fn put_refusal(
    page: &mut Page<'_>,
    ops: &Ops,
    program: &Option<Program>,
    refusal: &Refusal,
) -> Result<(), AllocError>
    requires { IsTellable refusal.now }
{
    match refusal {
        Refusal::Syntax(error) => put_syntax(page, *error),
        Refusal::Names(error) => put_naming(page, ops, program, *error),
        Refusal::Types { placed, node, path } => {
            put_clash(page, scene_of(placed, program, *node), path)
        }
        Refusal::Node {
            placed,
            node,
            fault,
        } => return put_fault(page, scene_of(placed, program, *node), fault),
        Refusal::Cause { names, items, .. } => put_cause(page, ops, names, items),
        Refusal::Limit(limit) => put_limit(page, *limit),
        Refusal::OutOfMemory => {}
    }
    Ok(())
}

/// What is told of a refusal of a text behind its first line, and the spans of which is told.
pub(crate) fn told(
    alloc: Global,
    text: &[u8],
    ops: &Ops,
    refusal: &Refusal,
) -> Result<(Vec<u8>, Vec<Span>), AllocError>
    requires { IsTellable refusal.now }
{
    let program = tree_of(alloc, text)?;
    let mut page = Page::new(alloc, text);
    put_refusal(&mut page, ops, &program, refusal)?;
    page.told()
}
