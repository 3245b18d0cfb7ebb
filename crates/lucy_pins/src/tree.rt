// The lists of a tree.
ghost use Rattle.std.specs.Prelude.{◌≡◌};
ghost use Rattle.lucy_tree.specs.View.{expr_list};

use lucy_tree::{Expr, Exprs};

/// Pins `lucy_tree::Exprs::new`.
pub fn exprs(list: Vec<Expr>) -> Exprs
    ensures { expr_list result ≡ list.items }
{
    Exprs::new(list)
}

/// Pins `lucy_tree::Exprs::list`.
pub fn list_of_exprs(exprs: &Exprs) -> &[Expr]
    ensures { result.now ≡ expr_list exprs.now }
{
    exprs.list()
}
