// Expressions on a pile. One is made of those on top and put there in their place, so that who reads expressions owns none.
ghost use Rattle.std.specs.Prelude.{◌≡◌, ◌≤◌, ◌<◌, ◌+◌, ◌∷◌, ◌++◌, [], IfOk, IfSome, OnOk, length, take, drop};
ghost use Rattle.lucy_tree.specs.Tree as tree;
ghost use Rattle.lucy_tree.specs.Tree.{trees_of};
ghost use Rattle.lucy_tree.specs.View.{tree_of, expr_list};
ghost use Rattle.lucy_token.specs.Tokens.{kind_of};
ghost use Rattle.lucy_token.specs.declared.token.Kind.TheVariants as kind;
ghost use Rattle.lucy_grammar.specs.Meanings as meaning;
ghost use Rattle.lucy_grammar.specs.Meanings.{token_name, token_word};
ghost use Rattle.lucy_syntax.specs.Piles.{trees, base_word, Lies, Makes, Grouped, Wrapped, Joined};

use crate::refusal::Read;
use lucy_host::Op;
use lucy_text::Text;
use lucy_token::{Token, What};
use lucy_tree::{Expr, Exprs, Lit, Name, Span};
use lucy_word::Word;
use std::alloc::{AllocError, Global};

/// The name that a token is.
pub(crate) fn name_of(alloc: Global, t: &Token) -> Result<Name, AllocError>
    ensures { IfOk result (λ name. name ≡ token_name t.now) }
{
    let text = match &t.what {
        What::Name(bytes) => Text::new(alloc, bytes.bytes())?,
        _ => Text::new(alloc, &[])?,
    };
    Ok(Name { text, span: t.span })
}

/// The word that a token is.
pub(crate) fn word_of(alloc: Global, t: &Token) -> Result<Word, AllocError>
    requires { kind_of t.now.what ≡ kind.Word }
    ensures { IfOk result (λ word. word ≡ token_word t.now.what) }
{
    let What::Word(word) = &t.what else {
        unreachable!()
    };
    word.word(alloc)
}

// The word that a token is, if there is one.
fn base_of(alloc: Global, base: Option<&Token>) -> Result<Option<Word>, AllocError>
    requires { IfSome base (λ t. kind_of t.now.what ≡ kind.Word) }
    ensures { IfOk result (λ at. at ≡ base_word base.entry) }
{
    match base {
        Some(t) => Ok(Some(word_of(alloc, t)?)),
        None => Ok(None),
    }
}

/// One more expression, with what follows it.
fn put<'a, 't>(expr: Expr, pile: &mut Vec<Expr>, rest: &'a [Token<'t>]) -> Read<'a, 't>
    ensures { Makes (Lies pile.old.items (tree_of expr ∷ []) pile.new.items) rest.now result }
{
    push(pile, expr)?;
    Ok(rest)
}

// The expression on top, in a box.
fn boxed(alloc: Global, pile: &mut Vec<Expr>) -> Result<Box<Expr>, AllocError>
    requires { 0 < length pile.old.items }
    ensures top { IfOk result (λ e. Lies pile.new.items (tree_of e.value ∷ []) pile.old.items) }
    ensures fewer { length pile.new.items + 1 ≡ length pile.old.items }
{
    let Some(top) = pile.pop() else {
        unreachable!()
    };
    Ok(Box::new(alloc, top)?)
}

// The expressions from this place on.
fn operands(pile: &mut Vec<Expr>, from: usize) -> Result<Exprs, AllocError>
    requires { from ≤ length pile.old.items }
    ensures { IfOk result (λ args. (expr_list args ≡ drop from pile.old.items) × (pile.new.items ≡ take from pile.old.items)) }
{
    Ok(Exprs::new(pile.split_off(from)?))
}

/// A literal alone.
pub(crate) fn literal<'a, 't>(
    lit: Lit,
    span: Span,
    pile: &mut Vec<Expr>,
    rest: &'a [Token<'t>],
) -> Read<'a, 't>
    ensures { Makes (Lies pile.old.items (tree.literal lit span ∷ []) pile.new.items) rest.now result }
{
    put(Expr::Lit { lit, span }, pile, rest)
}

/// A name alone.
pub(crate) fn variable<'a, 't>(
    alloc: Global,
    name: &Token,
    pile: &mut Vec<Expr>,
    rest: &'a [Token<'t>],
) -> Read<'a, 't>
    ensures { Makes (Lies pile.old.items (tree.variable (token_name name.now) ∷ []) pile.new.items) rest.now result }
{
    let name = name_of(alloc, name)?;
    put(Expr::Var { name }, pile, rest)
}

/// An operator with its operands, so many.
pub(crate) fn operator<'a, 't>(
    op: Op,
    span: Span,
    count: usize,
    pile: &mut Vec<Expr>,
    rest: &'a [Token<'t>],
) -> Read<'a, 't>
    ensures { Makes (Grouped (λ es. length es ≡ count) (λ es. tree.operator op (trees_of es) span) pile.old.items pile.new.items) rest.now result }
{
    let from = pile.len().saturating_sub(count);
    let args = operands(pile, from)?;
    put(Expr::Op { op, args, span }, pile, rest)
}

/// `host name (one, two)`
pub(crate) fn hosted<'a, 't>(
    alloc: Global,
    name: &Token,
    pile: &mut Vec<Expr>,
    rest: &'a [Token<'t>],
) -> Read<'a, 't>
    ensures { Makes (Joined (λ one two. tree.host (token_name name.now) (meaning.two one two)) pile.old.items pile.new.items) rest.now result }
{
    let from = pile.len().saturating_sub(2);
    let name = name_of(alloc, name)?;
    let args = operands(pile, from)?;
    put(Expr::Host { name, args }, pile, rest)
}

/// `operand when word`, or with `flip` `operand whenot word`
pub(crate) fn sampled<'a, 't>(
    alloc: Global,
    flip: bool,
    word: Word,
    pile: &mut Vec<Expr>,
    rest: &'a [Token<'t>],
) -> Read<'a, 't>
    requires { 0 < length pile.old.items }
    ensures { Makes (Wrapped (λ e. tree.sampled flip e word) pile.old.items pile.new.items) rest.now result }
{
    let operand = boxed(alloc, pile)?;
    put(
        Expr::When {
            flip,
            operand,
            word,
        },
        pile,
        rest,
    )
}

/// `merge word one zero`
pub(crate) fn merged<'a, 't>(
    alloc: Global,
    word: &Token,
    span: Span,
    pile: &mut Vec<Expr>,
    rest: &'a [Token<'t>],
) -> Read<'a, 't>
    requires word { kind_of word.now.what ≡ kind.Word }
    requires both { 2 ≤ length pile.old.items }
    ensures { Makes (Joined (λ one zero. tree.merged (token_word word.now.what) one zero span) pile.old.items pile.new.items) rest.now result }
{
    let zero = boxed(alloc, pile)?;
    let one = boxed(alloc, pile)?;
    let word = word_of(alloc, word)?;
    put(
        Expr::Merge {
            word,
            one,
            zero,
            span,
        },
        pile,
        rest,
    )
}

/// `first fby operand`
pub(crate) fn followed<'a, 't>(
    alloc: Global,
    first: Lit,
    span: Span,
    pile: &mut Vec<Expr>,
    rest: &'a [Token<'t>],
) -> Read<'a, 't>
    requires { 0 < length pile.old.items }
    ensures { Makes (Wrapped (λ e. tree.followed first e span) pile.old.items pile.new.items) rest.now result }
{
    let operand = boxed(alloc, pile)?;
    put(
        Expr::Fby {
            first,
            operand,
            span,
        },
        pile,
        rest,
    )
}

/// `buffer operand`, or with a written bound `buffer most (operand)`
pub(crate) fn buffered<'a, 't>(
    alloc: Global,
    most: Option<u64>,
    span: Span,
    pile: &mut Vec<Expr>,
    rest: &'a [Token<'t>],
) -> Read<'a, 't>
    requires { 0 < length pile.old.items }
    ensures { Makes (Wrapped (λ e. tree.buffered most e span) pile.old.items pile.new.items) rest.now result }
{
    let operand = boxed(alloc, pile)?;
    put(
        Expr::Buffer {
            most,
            operand,
            span,
        },
        pile,
        rest,
    )
}

/// `name at word (args)`, where the arguments are the expressions from this place on.
pub(crate) fn called<'a, 't>(
    alloc: Global,
    name: &Token,
    base: Option<&Token>,
    from: usize,
    pile: &mut Vec<Expr>,
    rest: &'a [Token<'t>],
) -> Read<'a, 't>
    requires base { IfSome base (λ t. kind_of t.now.what ≡ kind.Word) }
    requires within { from ≤ length pile.old.items }
    ensures { Makes (Grouped (λ es. length es + from ≡ length pile.old.items) (λ es. tree.call (token_name name.now) (base_word base.entry) (trees_of es)) pile.old.items pile.new.items) rest.now result }
{
    let args = operands(pile, from)?;
    let at = base_of(alloc, base)?;
    let node = name_of(alloc, name)?;
    put(Expr::Call { node, at, args }, pile, rest)
}

/// The only expression of a pile.
pub(crate) fn only(pile: Vec<Expr>) -> Expr
    requires { length pile.items ≡ 1 }
    ensures { trees pile.items ≡ tree_of result ∷ [] }
{
    let mut pile = pile;
    let Some(e) = pile.pop() else { unreachable!() };
    e
}

/// A list of one entry.
pub(crate) fn one<T: Drop>(alloc: Global, entry: T) -> Result<Vec<T>, AllocError>
    ensures { IfOk result (λ list. list.items ≡ entry ∷ []) }
{
    let mut list = Vec::new(alloc);
    push(&mut list, entry)?;
    Ok(list)
}

/// One more entry of a list.
pub(crate) fn push<T: Drop>(list: &mut Vec<T>, next: T) -> Result<(), AllocError>
    ensures { OnOk result (list.new.items ≡ list.old.items ++ next ∷ []) }
{
    list.push(next)?;
    Ok(())
}
