// Where places begin in the text.
ghost use Rattle.std.specs.Prelude.{◌≡◌};
ghost use Rattle.std.specs.Option.{option_map};
ghost use Rattle.lucy_tree.specs.View.{tree_of};
ghost use Rattle.lucy_picture.specs.Offsets as offsets;

use lucy_place::PlaceEntry;
use lucy_tree::{Expr, Span};

/// The span of a form: of its operator, its literal or its name, and for `when` and `whenot` that of the operand.
#[cycle(spans)]
pub fn span_of(expr: &Expr) -> Span
    ensures { result ≡ offsets.span_of (tree_of expr.now) }
{
    match expr {
        Expr::Lit { span, .. } => *span,
        Expr::Var { name } => name.span,
        Expr::Op { span, .. } => *span,
        Expr::Host { name, .. } => name.span,
        Expr::When { operand, .. } => span_of(operand),
        Expr::Merge { span, .. } => *span,
        Expr::Fby { span, .. } => *span,
        Expr::Buffer { span, .. } => *span,
        Expr::Call { node, .. } => node.span,
    }
}

/// Where a place begins in the text, in bytes from 0: a stream with its name where it is declared, any other place with its form.
pub fn offset_of(entry: &PlaceEntry, form: Option<&Expr>) -> u32
    ensures { result ≡ offsets.offset_of entry.now (option_map (λ e. tree_of e.now) form.entry) }
{
    match (&entry.name, form) {
        (Some(name), _) => name.span.from,
        (None, Some(form)) => span_of(form).from,
        (None, None) => 0,
    }
}
