// The iterates of the plain interpreter.
ghost use Rattle.std.specs.Prelude.{◌≡◌, ◌≤◌, ◌<◌, ◌^◌, ◌-◌, length, IfSome};
ghost use Rattle.lucy_host.specs.Host.{Serves, lent};
ghost use Rattle.lucy_place.specs.Proper.{HaveOperators};

use crate::outputs::main_node;
use crate::page::Page;
use crate::ready::one_input;
use crate::row::Row;
use lucy_host::{Host, Inputs, Ops};
use lucy_kahn::{KahnError, kahn, places_of};
use lucy_naming::place;
use lucy_place::Placed;
use lucy_syntax::parse;
use std::alloc::Global;

// More results than any row has.
const MOST_LISTS: u32 = 64;

// The places of a program. None, where it has none, or memory ran out.
fn placed_text(alloc: Global, ops: &Ops, text: &str) -> Option<Placed>
    ensures { IfSome result (λ placed. HaveOperators (length ops.now) placed.nodes) }
{
    match parse(alloc, text.as_bytes()) {
        Ok(program) => place(alloc, &program, ops).ok(),
        Err(_) => None,
    }
}

// Shows how many places a program has, and the lists of main's results in its iterates after these turns.
fn show_iterates<F: Fn(u32, i64, i64) -> i64 + Sync>(
    page: &mut Page,
    alloc: Global,
    host: &Host<F>,
    placed: &Placed,
    turns: &[u32],
    inputs: &Inputs,
)
    requires serves { Serves F.pre F.post host.now }
    requires known { HaveOperators (length (lent host.now)) placed.now.nodes }
    requires one { length inputs.now ≡ 1 }
{
    page.put(format_args!("places {}\n", places_of(placed)));
    let main = main_node(placed);
    if main.params != 1 {
        return page.put("other inputs\n");
    }
    for turn in turns {
        match kahn(alloc, placed, host, u64::from(*turn), inputs) {
            Ok(lists) => {
                for i in 0..MOST_LISTS {
                    if (i as usize) < main.results.list().len() {
                        page.put(format_args!("turns {turn}, result {i}"));
                        page.put_list(lists.get(i));
                    }
                }
            }
            Err(KahnError::Limit(limit)) => page.put(format_args!(
                "turns {turn}: limit {} {}\n",
                limit.name(),
                limit.number()
            )),
            Err(KahnError::OutOfMemory) => page.put("no memory\n"),
        }
    }
}

/// Shows the iterates of a row.
pub(crate) fn show<F: Fn(u32, i64, i64) -> i64 + Sync>(
    page: &mut Page,
    alloc: Global,
    host: &Host<F>,
    row: &Row,
)
    requires { Serves F.pre F.post host.now }
{
    let inputs = one_input(alloc, &row.items);
    let placed = placed_text(alloc, host.ops(), row.text.as_str());
    match (&placed, &inputs) {
        (Some(placed), Ok(inputs)) => {
            show_iterates(page, alloc, host, placed, &row.numbers, inputs);
        }
        _ => page.put("no places\n"),
    };
}
