// Where names stand.
ghost use Rattle.std.specs.Prelude.{◌≡◌, map};
ghost use Rattle.lucy_tree.specs.View.{node_tree};
ghost use Rattle.lucy_naming.specs.Streams.{node_names};

use crate::scope::Scope;
use lucy_host::Ops;
use lucy_tree::Node;

/// Where names stand: the operators of the host, the nodes of the program, those above a node, and the names of these and of the node's streams.
#[derive(Drop)]
pub(crate) struct Names<'n, 'p> {
    pub ops: &'n Ops,
    pub all: &'n [Node],
    pub above: &'n [Node],
    pub nodes: &'n Scope<'p>,
    pub streams: &'n Scope<'p>,
    ghost named: { nodes.now ≡ node_names (map node_tree above.now) },
}
