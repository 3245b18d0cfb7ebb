// The instances of a program: main, and one for each call that an instance makes.
ghost use Rattle.std.specs.Prelude.{◌≡◌, ◌≤◌, ◌<◌, ◌∷◌, ◌++◌, [], ℕ, List, length, slice_get, OnOk, IfOk, IfErr, Some};
ghost use Rattle.lucy_place.specs.Standing.{most_places};
ghost use Rattle.lucy_kahn.specs.declared.error.KahnError.TheVariants as error;
ghost use Rattle.lucy_kahn.specs.Instances.{made, AreInstances, AreAll};

use crate::error::KahnError;
use lucy_place::{CallSite, Placed};
use std::alloc::Global;

/// The call that makes an instance: the number of the instance that calls, and that of the call there, which counts from 1.
#[derive(Clone, Copy)]
pub(crate) struct Caller {
    pub instance: usize,
    pub call: u32,
}

/// An instance of a node. Main has no caller.
#[derive(Clone, Copy)]
pub(crate) struct Instance {
    pub node: u32,
    pub caller: Option<Caller>,
}

/// The instances of a program, main first, and for each the number of the first that its calls make. Those of its other calls
/// follow in order.
#[derive(Drop)]
pub(crate) struct Instances {
    pub list: Vec<Instance>,
    pub inner: Vec<usize>,
}

// The instances that the calls of an instance make.
fn put_calls(list: &mut Vec<Instance>, instance: usize, calls: &[CallSite]) -> Result<(), KahnError>
    requires few { length calls.now ≤ most_places }
    ensures ok { OnOk result (list.new.items ≡ list.old.items ++ made instance 1 calls.now) }
    ensures refused { IfErr result (λ e. e ≡ error.OutOfMemory) }
{
    'each: for (i, site) in calls.iter().enumerate() {
        let caller = Some(Caller {
            instance,
            call: i as u32 + 1,
        });
        list.push(Instance {
            node: site.node,
            caller,
        })?;
    }
    Ok(())
}

/// The instances of a program.
pub(crate) fn all_instances(alloc: Global, placed: &Placed) -> Result<Instances, KahnError>
    ensures ok { IfOk result (λ all. AreAll placed.now.nodes all.list.items all.inner.items) }
    ensures refused { IfErr result (λ e. e ≡ error.OutOfMemory) }
{
    let nodes = placed.nodes();
    let mut list = Vec::new(alloc);
    let mut inner = Vec::new(alloc);
    list.push(Instance {
        node: nodes - 1,
        caller: None,
    })?;
    'each: while inner.len() < list.len() {
        let instance = inner.len();
        let node = placed.node(list[instance].node);
        inner.push(list.len())?;
        put_calls(&mut list, instance, node.calls.list())?;
    }
    Ok(Instances { list, inner })
}
