// Rates that don't agree: the product along the walk.
use crate::tell::page::Page;
use crate::tell::place::{Scene, is_always, put_clock, put_need, put_places};
use lucy_need::{Need, Term};
use lucy_place::PlaceKind;
use lucy_word::gcd;

/// For so many items of one clock come so many of another.
#[derive(Clone, Copy)]
struct Rate {
    of: u64,
    per: u64,
}

// The greatest number that is told.
const MOST: u64 = 1_000_000_000;

impl Rate {
    // In lowest terms.
    fn reduced(self) -> Rate {
        let shared = gcd(self.of, self.per).max(1);
        Rate {
            of: self.of / shared,
            per: self.per / shared,
        }
    }

    // After one more need; none where the numbers grow beyond telling.
    fn times(self, next: Rate) -> Option<Rate> {
        let product = Rate {
            of: self.of.checked_mul(next.of)?,
            per: self.per.checked_mul(next.per)?,
        }
        .reduced();
        if product.of > MOST || product.per > MOST {
            return None;
        }
        Some(product)
    }
}

// How many ones the second of two terms has for those of the first.
fn over(first: &Term, second: &Term) -> Rate {
    let (ones, length) = first.word.rate();
    let (other_ones, other_length) = second.word.rate();
    Rate {
        of: ones.saturating_mul(other_length),
        per: length.saturating_mul(other_ones),
    }
}

// The clock to which a need leads from another one, and by which rate.
fn step(need: &Need, from: u32) -> (u32, Rate) {
    let (first, second) = match need {
        Need::Equal(first, second) | Need::Adapt(first, second) => (first, second),
    };
    if first.clock == from {
        (second.clock, over(first, second))
    } else {
        (first.clock, over(second, first))
    }
}

// The clock at which a walk begins.
fn begin_of(needs: &[Need], walk: &[u32]) -> u32 {
    let Some(number) = walk.first() else {
        return 0;
    };
    match needs.get(*number as usize) {
        Some(Need::Equal(first, _) | Need::Adapt(first, _)) => first.clock,
        None => 0,
    }
}

// Puts how many items of a clock there are for those of another.
fn put_rate(page: &mut Page<'_>, scene: Scene<'_>, rate: Option<Rate>, clock: u32, start: u32) {
    let Some(rate) = rate else {
        return page.put(b"more items than are told");
    };
    page.number(rate.of);
    page.put(b" of ");
    put_clock(page, scene, clock);
    page.put(b" for ");
    page.number(rate.per);
    page.put(b" of ");
    put_clock(page, scene, start)
}

// Puts the needs of a walk last, each with the product up to it.
fn put_walk(page: &mut Page<'_>, scene: Scene<'_>, needs: &[Need], walk: &[u32]) {
    let start = begin_of(needs, walk);
    let mut at = start;
    let mut rate = Some(Rate { of: 1, per: 1 });
    page.name(start);
    for number in walk {
        let Some(need) = needs.get(*number as usize) else {
            return;
        };
        let (next, by) = step(need, at);
        at = next;
        rate = match rate {
            Some(rate) => rate.times(by),
            None => None,
        };
        page.name(at);
        page.put(b"  ");
        put_need(page, scene, need);
        page.put(b": ");
        put_rate(page, scene, rate, at, start);
        page.put(b"\n");
    }
}

// Whether the need samples: one of its terms is on a word.
fn samples(need: &Need) -> bool {
    match need {
        Need::Equal(first, second) | Need::Adapt(first, second) => {
            !is_always(&first.word) || !is_always(&second.word)
        }
    }
}

// Puts the clocks last that a need samples, where it does.
fn put_sampled(page: &mut Page<'_>, scene: Scene<'_>, need: &Need, begun: bool) -> bool {
    if !samples(need) {
        return begun;
    }
    page.say(if begun {
        ", or "
    } else {
        "what helps: another word in "
    });
    page.put(b"`");
    put_need(page, scene, need);
    page.put(b"`");
    true
}

// Whether the clock is that of a `merge`.
fn merges(scene: Scene<'_>, clock: u32) -> bool {
    match scene.entry(clock) {
        Some(entry) => match &entry.kind {
            PlaceKind::Merge(_, _, _) => true,
            _ => false,
        },
        None => false,
    }
}

// Puts what a walk samples last, as what helps against it, and answers whether it goes through a buffer.
fn put_words(page: &mut Page<'_>, scene: Scene<'_>, needs: &[Need], walk: &[u32]) -> bool {
    let mut begun = false;
    let mut buffered = false;
    for number in walk {
        if let Some(need) = needs.get(*number as usize) {
            begun = put_sampled(page, scene, need, begun);
            if let Need::Adapt(_, _) = need {
                buffered = true;
            }
        }
    }
    if begun {
        page.put(b"\n");
    }
    buffered
}

// Whether one of the clocks that are named is that of a `merge`.
fn has_merge(page: &Page<'_>, scene: Scene<'_>) -> bool {
    for clock in &page.clocks {
        if merges(scene, *clock) {
            return true;
        }
    }
    false
}

// Puts what helps against a walk last.
fn put_helps(page: &mut Page<'_>, scene: Scene<'_>, needs: &[Need], walk: &[u32]) {
    if put_words(page, scene, needs, walk) {
        page.helps(
            "as many items into a buffer as out of it: a buffer lets items wait, and changes no rate",
        );
    }
    if has_merge(page, scene) {
        page.helps(
            "an operand of `merge` comes at the ones of the word, or at its zeros: `when` and `whenot` make it so",
        );
    }
}

/// Puts a walk along needs last that multiplies a rate by another number than 1: the product along it, where its clocks stand, and what
/// helps.
pub(crate) fn put_rates(page: &mut Page<'_>, scene: Scene<'_>, needs: &[Need], walk: &[u32]) {
    put_walk(page, scene, needs, walk);
    page.say("  so a clock would have another rate than its own\n");
    put_places(page, scene);
    put_helps(page, scene, needs, walk);
}
