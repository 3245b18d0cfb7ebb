// The lengths of a schedule: when all words of a net come again together.
ghost use Rattle.std.specs.Prelude.{ℕ, ◌≡◌, ◌+◌, ◌<◌, ◌≤◌, max, length, IfSome, IfNone};
ghost use Rattle.lucy_word.specs.Multiple.{IsLcm};
ghost use Rattle.lucy_net.specs.Words.{net_words};
ghost use Rattle.lucy_net.specs.Lengths.{AreLengths};
ghost use Rattle.lucy_net.specs.Passing.{AreTooMany};
ghost use Rattle.lucy_word.specs.Limits.{limit_number};

use crate::net::Net;
use lucy_word::{Limit, Word, lcm};

/// The greatest prefix length of words, and the least common multiple of their period lengths.
#[derive(Clone, Copy)]
pub(crate) struct Lengths {
    pub prefix: u64,
    pub period: u64,
}

// The lengths with one word more, if they are not too many already.
fn with_word(so_far: Lengths, word: &Word) -> Option<Lengths>
    requires some { 0 < so_far.period }
    requires short { so_far.prefix + so_far.period ≤ limit_number Limit.Schedule }
    ensures prefix { IfSome result (λ l. l.prefix ≡ max so_far.prefix (length word.now.prefix)) }
    ensures period { IfSome result (λ l. IsLcm so_far.period (length word.now.period) l.period) }
    ensures short { IfSome result (λ l. l.prefix + l.period ≤ limit_number Limit.Schedule) }
    ensures nonempty { 0 < length word.now.period }
    ensures none { IfNone result ((m : ℕ) × IsLcm so_far.period (length word.now.period) m × (limit_number Limit.Schedule < max so_far.prefix (length word.now.prefix) + m)) }
{
    let (prefix, period) = word.lengths();
    let prefix = so_far.prefix.max(prefix);
    let period = lcm(so_far.period, period);
    if prefix + period <= Limit::Schedule.number() {
        Some(Lengths { prefix, period })
    } else {
        None
    }
}

/// The lengths of all firing, write and read words, if a schedule may have so many instants.
pub(crate) fn lengths_of(net: &Net) -> Option<Lengths>
    ensures some { IfSome result (λ l. AreLengths (net_words net.now) l.prefix l.period) }
    ensures short { IfSome result (λ l. l.prefix + l.period ≤ limit_number Limit.Schedule) }
    ensures none { IfNone result (AreTooMany net.now) }
{
    let mut lengths = Lengths {
        prefix: 0,
        period: 1,
    };
    'actors: for actor in net.actors.list() {
        lengths = with_word(lengths, &actor.firing)?;
    }
    'rings: for ring in net.rings.list() {
        let written = with_word(lengths, &ring.write)?;
        lengths = with_word(written, &ring.read)?;
    }
    Some(lengths)
}
