// The rules of a node's calls.
ghost use Rattle.std.specs.Prelude.{◌≡◌, ◌+◌, ◌-◌, ◌++◌, ◌≤◌, ◌<◌, ◌^◌, length, IfOk, OnOk};
ghost use Rattle.lucy_types.specs.Ports.{AreHeads, counted, port_rule, joined_rules};

use crate::rule::Rule;
use crate::signature::Signature;
use crate::ty::Ty;
use lucy_host::DataType;
use std::alloc::{AllocError, Global};

// The places of a call's arguments, and then those of so many results from the first on.
fn call_places(
    alloc: Global,
    args: &[u32],
    first: u32,
    results: usize,
) -> Result<Vec<u32>, AllocError>
    requires { first + results < 2 ^ 32 }
    ensures { IfOk result (λ v. v.items ≡ args.now ++ counted first results) }
{
    let mut list = Vec::from_slice(alloc, args)?;
    'results: for i in 0..results {
        list.push(first + i as u32)?;
    }
    Ok(list)
}

// What a port of a type says of its place, where the head of its class has another.
fn port_rule(ty: Ty, place: u32, head: u32) -> Rule
    ensures { result ≡ port_rule ty place head }
{
    match ty {
        Ty::Int => Rule::Is(place, DataType::Int),
        Ty::Bool => Rule::Is(place, DataType::Bool),
        Ty::Open(_) => Rule::Alike(place, head),
    }
}

// Puts the rules of ports with these places.
fn put_ports(
    rules: &mut Vec<Rule>,
    ports: &[Ty],
    heads: &[usize],
    places: &[u32],
) -> Result<(), AllocError>
    requires heads { AreHeads ports.now heads.now }
    requires places { length places.now ≡ length ports.now }
    ensures { OnOk result (rules.new.items ≡ rules.old.items ++ joined_rules places.now ports.now heads.now places.now) }
{
    'each: for (i, place) in places.iter().enumerate() {
        let head = places[heads[i]];
        rules.push(port_rule(ports[i], *place, head))?;
    }
    Ok(())
}

/// Puts the rules of a call behind others: by the callee's signature, the places of the arguments and that of the first
/// result.
pub(crate) fn put_call(
    alloc: Global,
    rules: &mut Vec<Rule>,
    signature: &Signature,
    args: &[u32],
    first: u32,
) -> Result<(), AllocError>
    requires heads { AreHeads signature.now.ports.items signature.now.heads.items }
    requires args { length args.now ≤ length signature.now.ports.items }
    requires few { first + (length signature.now.ports.items - length args.now) < 2 ^ 32 }
    ensures { OnOk result (rules.new.items ≡ rules.old.items ++ (let places = args.now ++ counted first (length signature.now.ports.items - length args.now) in joined_rules places signature.now.ports.items signature.now.heads.items places)) }
{
    let results = signature.ports.len() - args.len();
    let places = call_places(alloc, args, first, results)?;
    put_ports(rules, &signature.ports, &signature.heads, &places)
}
