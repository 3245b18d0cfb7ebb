ghost use Rattle.std.specs.Prelude.{◌≡◌, ◌<◌, length};
ghost use Rattle.lucy_host.specs.HostValue.{hosted_value};
ghost use Rattle.lucy_host.specs.Operators.{kinds_of};
ghost use Rattle.lucy_host.specs.Host.{Answers, Serves, lent};

use crate::Ops;

/// Operators, and a closure that answers the value of each: its first argument is the operator's number.
///
/// What a closure answers can't be said in the type, so `new` tells it of the host that it gives, as `Serves`, and a call
/// that takes a host requires it.
#[derive(Drop)]
pub struct Host<F> {
    ops: Ops,
    closure: F,
}

impl<F: Fn(u32, i64, i64) -> i64 + Sync> Host<F> {
    /// A host of these operators. The closure may be called with the number of each of them and any two numbers, and
    /// answers the value of the operator's kind.
    pub fn new(ops: Ops, closure: F) -> Host<F>
        requires { Answers (F.pre closure) (F.post closure) ops }
        ensures serves { Serves F.pre F.post result }
        ensures ops { lent result ≡ ops }
    {
        Host { ops, closure }
    }

    /// The operators.
    pub fn ops(&self) -> &Ops
        ensures { result.now ≡ lent self.now }
    {
        &self.ops
    }

    /// The value that the operator of this number, which is below the count, has at `a` and `b`.
    #[tactic(auto, using(crate::proofs::Answering::answer_is))]
    pub fn call(&self, op: u32, a: i64, b: i64) -> i64
        requires serves { Serves F.pre F.post self.now }
        requires known { op < length (lent self.now) }
        ensures { result ≡ hosted_value (kinds_of (lent self.now)) op a b }
    {
        (self.closure)(op, a, b)
    }
}
