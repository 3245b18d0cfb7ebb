ghost use Rattle.std.specs.Prelude.{◌≡◌};

use crate::decl::Decls;
use crate::expr::Expr;
use crate::span::{Name, Names};
use std::marker::Model;

/// A definition: one name by an expression, or several by a call.
#[derive(Drop)]
pub struct Def {
    pub left: Decls,
    pub right: Expr,
}

/// Definitions in the order of the text. Contracts see their list.
#[derive(Drop)]
pub struct Defs {
    list: Vec<Def>,
}

impl Model for Defs {
    ghost use Rattle.std.specs.Prelude.{List};
    ghost use Rattle.lucy_tree.specs.declared.program.Def.{Def};
    ghost use Rattle.std.specs.Coded.{codes};
    ghost use Rattle.lucy_tree.specs.contracts.expr.Expr as expr;

    ghost Value = { List Def };

    ghost coded = { Prim.hlevel (codes, expr.the_row.coded) };

    ghost view = { λ defs. defs.list.items };
}

impl Defs {
    /// These definitions.
    pub fn new(list: Vec<Def>) -> Defs
        ensures { result ≡ list.items }
    {
        Defs { list }
    }

    /// The definitions.
    pub fn list(&self) -> &[Def]
        ensures { result.now ≡ self.now }
    {
        &self.list
    }
}

/// A node.
#[derive(Drop)]
pub struct Node {
    pub name: Name,
    pub params: Decls,
    pub results: Names,
    pub defs: Defs,
}

/// Nodes in the order of the text. Contracts see their list.
#[derive(Drop)]
pub struct Nodes {
    list: Vec<Node>,
}

impl Model for Nodes {
    ghost use Rattle.std.specs.Prelude.{List};
    ghost use Rattle.lucy_tree.specs.declared.program.Node.{Node};
    ghost use Rattle.std.specs.Coded.{codes};
    ghost use Rattle.lucy_tree.specs.contracts.expr.Expr as expr;

    ghost Value = { List Node };

    ghost coded = { Prim.hlevel (codes, expr.the_row.coded) };

    ghost view = { λ nodes. nodes.list.items };
}

impl Nodes {
    /// These nodes.
    pub fn new(list: Vec<Node>) -> Nodes
        ensures { result ≡ list.items }
    {
        Nodes { list }
    }

    /// The nodes.
    pub fn list(&self) -> &[Node]
        ensures { result.now ≡ self.now }
    {
        &self.list
    }
}

/// A program: its nodes, of which the last is the main one.
#[derive(Drop)]
pub struct Program {
    pub nodes: Nodes,
}
