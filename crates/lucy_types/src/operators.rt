// The rules of operators.
ghost use Rattle.std.specs.Prelude.{◌≡◌, ◌∷◌, ◌++◌, [], length, OnOk};
ghost use Rattle.lucy_host.specs.Arity.{arity};
ghost use Rattle.lucy_host.specs.declared.op.Op.TheVariants as op;
ghost use Rattle.lucy_types.specs.Rules.{all_are, op_rules};
ghost use Rattle.lucy_types.specs.declared.rule.Rule.TheVariants as rule;

use crate::rule::{Rule, put_rules};
use lucy_host::{DataType, Op};
use std::alloc::AllocError;

// Puts that the operands are of one type and the operator's place of another.
fn put_uniform(
    rules: &mut Vec<Rule>,
    of: DataType,
    args: &[u32],
    place: u32,
    gives: DataType,
) -> Result<(), AllocError>
    ensures { OnOk result (rules.new.items ≡ rules.old.items ++ (all_are of args.now ++ rule.Is place gives ∷ [])) }
{
    'each: for arg in args {
        rules.push(Rule::Is(*arg, of))?;
    }
    rules.push(Rule::Is(place, gives))?;
    Ok(())
}

// Puts that the two operands are alike and that the operator's place is bool.
fn put_equal(rules: &mut Vec<Rule>, args: &[u32], place: u32) -> Result<(), AllocError>
    requires { length args.now ≡ 2 }
    ensures { OnOk result (rules.new.items ≡ rules.old.items ++ op_rules op.Eq place args.now) }
{
    put_rules(
        rules,
        &[
            Rule::Alike(args[0], args[1]),
            Rule::Is(place, DataType::Bool),
        ],
    )
}

// Puts that the first operand is bool and that the other two and the operator's place are alike.
fn put_choice(rules: &mut Vec<Rule>, args: &[u32], place: u32) -> Result<(), AllocError>
    requires { length args.now ≡ 3 }
    ensures { OnOk result (rules.new.items ≡ rules.old.items ++ op_rules op.If place args.now) }
{
    put_rules(
        rules,
        &[
            Rule::Is(args[0], DataType::Bool),
            Rule::Alike(args[1], args[2]),
            Rule::Alike(place, args[1]),
            Rule::Alike(place, args[2]),
        ],
    )
}

/// Puts the rules of an operator at a place behind others.
pub(crate) fn put_op(
    rules: &mut Vec<Rule>,
    op: Op,
    place: u32,
    args: &[u32],
) -> Result<(), AllocError>
    requires { length args.now ≡ arity op }
    ensures { OnOk result (rules.new.items ≡ rules.old.items ++ op_rules op place args.now) }
{
    match op {
        Op::Add | Op::Sub | Op::Mul | Op::Div | Op::Rem => {
            put_uniform(rules, DataType::Int, args, place, DataType::Int)
        }
        Op::Eq | Op::Ne => put_equal(rules, args, place),
        Op::Lt | Op::Le | Op::Gt | Op::Ge => {
            put_uniform(rules, DataType::Int, args, place, DataType::Bool)
        }
        Op::And | Op::Or | Op::Not => {
            put_uniform(rules, DataType::Bool, args, place, DataType::Bool)
        }
        Op::If => put_choice(rules, args, place),
    }
}
