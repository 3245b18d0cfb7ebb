ghost use Rattle.std.specs.Prelude.{◌≡◌};
ghost use Rattle.lucy_host.specs.OpValue.{is_true, quotient, remainder, op_value};

/// The operators of the language. All but `Not` and `If` have two operands.
#[derive(Clone, Copy, PartialEq, Eq)]
pub enum Op {
    /// The sum `a + b`, wrapped to 64 bits.
    Add,
    /// The difference `a - b`, wrapped to 64 bits.
    Sub,
    /// The product `a * b`, wrapped to 64 bits.
    Mul,
    /// The quotient `a / b`, rounded towards zero.
    Div,
    /// The remainder `a % b`, which is 0 or has the sign of `a`.
    Rem,
    /// Whether `a` and `b` are the same number.
    Eq,
    /// Whether they are not.
    Ne,
    /// Whether `a < b`.
    Lt,
    /// Whether `a <= b`.
    Le,
    /// Whether `a > b`.
    Gt,
    /// Whether `a >= b`.
    Ge,
    /// Whether `a` and `b` are both true.
    And,
    /// Whether one of them is true, or both.
    Or,
    /// Whether its one operand is false.
    Not,
    /// `if a then b else c`.
    If,
}

fn is_true(a: i64) -> bool
    ensures { result ≡ is_true a }
{
    a != 0
}

fn quotient(a: i64, b: i64) -> i64
    ensures { result ≡ quotient a b }
{
    if b == 0 { 0 } else { a.wrapping_div(b) }
}

fn remainder(a: i64, b: i64) -> i64
    ensures { result ≡ remainder a b }
{
    if b == 0 { a } else { a.wrapping_rem(b) }
}

/// What the operator makes of its operands `a`, `b` and `c`, in the order of the text. Those that it lacks are ignored.
///
/// Every number but 0 is true as an operand, and 1 and 0 are the truths that come out. A number divided by 0 is 0 with
/// the number itself as remainder; the least number divided by -1 is itself, with remainder 0.
#[tactic(auto, using(std::proofs::lemmas::Int::wraps), unfolding(crate::specs::OpValue::op_value))]
pub fn op_value(op: Op, a: i64, b: i64, c: i64) -> i64
    ensures { result ≡ op_value op a b c }
{
    match op {
        Op::Add => a.wrapping_add(b),
        Op::Sub => a.wrapping_sub(b),
        Op::Mul => a.wrapping_mul(b),
        Op::Div => quotient(a, b),
        Op::Rem => remainder(a, b),
        Op::Eq => i64::from(a == b),
        Op::Ne => i64::from(a != b),
        Op::Lt => i64::from(a < b),
        Op::Le => i64::from(a <= b),
        Op::Gt => i64::from(a > b),
        Op::Ge => i64::from(a >= b),
        Op::And => i64::from(is_true(a) && is_true(b)),
        Op::Or => i64::from(is_true(a) || is_true(b)),
        Op::Not => i64::from(!is_true(a)),
        Op::If => if is_true(a) { b } else { c },
    }
}
