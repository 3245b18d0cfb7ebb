// How names are hashed.
ghost use Rattle.std.specs.Prelude.{◌≡◌};

use lucy_tree::{Decl, Node};
use std::hash::{BuildHasher, DefaultHasher, Hasher};

/// Hashes a name behind all names that a program declares: whoever changes one of them, to have names collide, changes the hash of all.
#[derive(Clone, Copy)]
pub(crate) struct NameHash {
    behind: DefaultHasher,
}

impl NameHash {
    /// Behind the names of these nodes, of their parameters and of what they define.
    pub(crate) fn of(nodes: &[Node]) -> NameHash {
        let mut hash = NameHash {
            behind: DefaultHasher::new(),
        };
        for node in nodes {
            hash.pass(node.name.text.bytes());
            hash.pass_all(node.params.list());
            for def in node.defs.list() {
                hash.pass_all(def.left.list());
            }
        }
        hash
    }

    // Behind one more name; a blank stands in none.
    fn pass(&mut self, name: &[u8]) {
        self.behind.write(name);
        self.behind.write(b" ");
    }

    fn pass_all(&mut self, decls: &[Decl]) {
        for decl in decls {
            self.pass(decl.name.text.bytes());
        }
    }
}

impl BuildHasher for NameHash {
    type Hasher = DefaultHasher;

    ghost build_hasher = { λ h. h.behind };

    fn build_hasher(&self) -> DefaultHasher {
        self.behind
    }
}
