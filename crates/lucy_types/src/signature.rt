// What the callers of a node need of its types.
ghost use Rattle.std.specs.Prelude.{◌≡◌, ◌+◌, ◌++◌, ◌≤◌, ◌<◌, ◌^◌, length, IfOk};
ghost use Rattle.lucy_types.specs.Ports.{port_types, ArePlacesOf, HaveClasses, HasSeat, IsSeated, AreHeads};

use crate::ty::Ty;
use std::alloc::{AllocError, Global};

/// The types of a node's places, those of its ports, its parameters and then its results, and for each port the first one of
/// its open class, or itself. Ports count from 0.
#[derive(Drop)]
pub(crate) struct Signature {
    pub tys: Vec<Ty>,
    pub ports: Vec<Ty>,
    pub heads: Vec<usize>,
}

// The types of so many first places and of the results.
fn ports(alloc: Global, tys: &[Ty], params: u32, results: &[u32]) -> Result<Vec<Ty>, AllocError>
    requires params { params ≤ length tys.now }
    requires results { ArePlacesOf (length tys.now) results.now }
    ensures { IfOk result (λ v. v.items ≡ port_types params results.now tys.now) }
{
    let mut list = Vec::from_slice(alloc, &tys[..params as usize])?;
    'results: for place in results {
        list.push(tys[*place as usize - 1])?;
    }
    Ok(list)
}

// Takes a port of a type to its seat: the first port of its class stands there with one added, and is the port's head. A port
// of no class is its own.
fn seat(seats: &mut Vec<usize>, ty: Ty, port: usize) -> usize
    requires class { HasSeat ty seats.old.items }
    requires few { port + 1 < 2 ^ 64 }
    ensures { IsSeated ty port seats.old.items seats.new.items result }
{
    match ty {
        Ty::Int => port,
        Ty::Bool => port,
        Ty::Open(class) => {
            let at = seats[class as usize];
            if at == 0 {
                seats[class as usize] = port + 1;
                port
            } else {
                at - 1
            }
        }
    }
}

// The first port of each port's class. Classes are at most `most`.
fn heads(alloc: Global, ports: &[Ty], most: usize) -> Result<Vec<usize>, AllocError>
    requires most { most < 2 ^ 32 }
    requires classes { HaveClasses most ports.now }
    ensures { IfOk result (λ v. AreHeads ports.now v.items) }
{
    let mut seats = vec![in alloc; 0usize; most + 1]?;
    let mut list = Vec::new(alloc);
    'each: for (i, ty) in ports.iter().enumerate() {
        let head = seat(&mut seats, *ty, i);
        list.push(head)?;
    }
    Ok(list)
}

/// The signature of a node with so many parameters, these results and these types of its places.
pub(crate) fn signature_of(
    alloc: Global,
    tys: Vec<Ty>,
    params: u32,
    results: &[u32],
) -> Result<Signature, AllocError>
    requires few { length tys.items < 2 ^ 32 }
    requires params { params ≤ length tys.items }
    requires results { ArePlacesOf (length tys.items) results.now }
    requires classes { HaveClasses (length tys.items) tys.items }
    ensures tys { IfOk result (λ s. s.tys.items ≡ tys.items) }
    ensures ports { IfOk result (λ s. s.ports.items ≡ port_types params results.now tys.items) }
    ensures heads { IfOk result (λ s. AreHeads s.ports.items s.heads.items) }
{
    let ports = ports(alloc, &tys, params, results)?;
    let heads = heads(alloc, &ports, tys.len())?;
    Ok(Signature { tys, ports, heads })
}
