ghost use Rattle.std.specs.Prelude.{◌≡◌, ◌+◌, ◌≤◌, ◌<◌, ◌++◌, [], length, drop, vec_len, vec_capacity};
ghost use Rattle.rtrb.specs.Ring.{sent, received, known_items, consumer_capacity, SameConsumer};
ghost use Rattle.lucy_word.specs.Limits.{limit_number};
ghost use Rattle.lucy_word.specs.declared.limit.Limit.TheVariants as limit;

use rtrb::{Consumer, Producer};

// The end that takes, with all that it counts.
#[derive(Drop)]
pub(crate) struct TakerEnd {
    // Carries the items.
    pub(crate) items: Consumer<i64>,
    // Sends one number back for each item taken.
    pub(crate) numbers: Producer<u8>,
    // What was held at the last meeting, and how many of these were taken since.
    pub(crate) side: Vec<i64>,
    place: usize,
    // How many items were popped, and how many numbers pushed, since the last meeting.
    popped: u64,
    returned: u64,
    ghost bounds: { (1 ≤ consumer_capacity items) × (consumer_capacity items ≤ limit_number limit.Slots) },
    ghost past: { (popped ≤ length (received items)) × (returned ≤ length (sent numbers)) },
    ghost stored: { (place ≤ vec_len side) × (vec_len side ≤ consumer_capacity items) × (consumer_capacity items ≤ vec_capacity side) },
    ghost in_turn: { place < vec_len side → popped ≡ 0 },
    ghost few: { returned ≤ place + popped },
    // what is seen in the ring is taken at once, or held from the meeting on
    ghost still: { place ≡ 0 → popped ≡ 0 → known_items items ≡ [] },
}

impl TakerEnd {
    ghost use Rattle.std.specs.Prelude.{◌≡◌, ◌⊎◌, ◌+◌, ◌-◌, ◌<◌, ◌≤◌, [], ◌∷◌, ◌++◌, length, take, drop, vec_len, vec_capacity, IfSome, IfNone, IsSome, IsTrue};
    ghost use mathlib.Core.List.{IsPrefix};
    ghost use Rattle.rtrb.specs.Ring.{sent, received, known_items, consumer_capacity, IsPair, SameProducer, SameConsumer};
    ghost use Rattle.lucy_word.specs.Limits.{limit_number};
    ghost use Rattle.lucy_word.specs.declared.limit.Limit.TheVariants as limit;
    ghost use Rattle.lucy_ring.specs.Ring.{taken, held, known, return_slots, popped_before, ring_of_taker, taker_view};
    ghost use Rattle.lucy_ring.specs.Views.{most_between};

    pub(crate) fn new(items: Consumer<i64>, numbers: Producer<u8>, side: Vec<i64>) -> TakerEnd
        requires capacity { (1 ≤ consumer_capacity items) × (consumer_capacity items ≤ limit_number limit.Slots) }
        requires side { (side.items ≡ []) × (vec_capacity side ≡ consumer_capacity items) }
        requires none { known_items items ≡ [] }
        ensures parts { (result.items ≡ items) × (result.numbers ≡ numbers) × (result.side ≡ side) }
        ensures counts { (result.place ≡ 0) × (result.popped ≡ 0) × (result.returned ≡ 0) }
    {
        TakerEnd {
            items,
            numbers,
            side,
            place: 0,
            popped: 0,
            returned: 0,
        }
    }

    #[inline(always)]
    pub(crate) fn take(&mut self) -> Option<i64>
        requires few { length (taken self.old) < most_between }
        ensures ring { ring_of_taker self.new ≡ ring_of_taker self.old }
        ensures held { held self.new ≡ held self.old }
        ensures taken { IfSome result (λ x. taken self.new ≡ taken self.old ++ x ∷ []) }
        ensures oldest { IfSome result (λ x. IsPrefix (known self.old) (x ∷ known self.new)) }
        ensures sent_back { IfSome result (λ _. (self.new.returned ≡ self.old.returned + 1) ⊎ (return_slots self.new ≡ 0)) }
        ensures unchanged { IfNone result (taker_view self.new ≡ taker_view self.old) }
        ensures succeeds { 0 < length (known self.old) → IsSome result }
    {
        let item = if self.place < self.side.len() {
            self.take_held()
        } else {
            self.pop()?
        };
        self.send_back();
        Some(item)
    }

    #[inline(always)]
    fn take_held(&mut self) -> i64
        requires some { self.old.place < vec_len self.old.side }
        ensures ring { ring_of_taker self.new ≡ ring_of_taker self.old }
        ensures held { held self.new ≡ held self.old }
        ensures taken { taken self.new ≡ taken self.old ++ result ∷ [] }
        ensures known { known self.old ≡ result ∷ known self.new }
        ensures numbers { self.new.returned ≡ self.old.returned }
        ensures owed { self.new.returned < self.new.place + self.new.popped }
    {
        let item = self.side[self.place];
        self.place += 1;
        item
    }

    // Takes from `items`, once nothing is left of what was held.
    #[inline(always)]
    #[tactic(auto, using(crate::proofs::Lengths::taken_length))]
    fn pop(&mut self) -> Option<i64>
        requires in_turn { self.old.place ≡ vec_len self.old.side }
        requires few { length (taken self.old) < most_between }
        ensures ring { ring_of_taker self.new ≡ ring_of_taker self.old }
        ensures held { held self.new ≡ held self.old }
        ensures taken { IfSome result (λ x. taken self.new ≡ taken self.old ++ x ∷ []) }
        ensures oldest { IfSome result (λ x. IsPrefix (known self.old) (x ∷ known self.new)) }
        ensures unchanged { IfNone result (taker_view self.new ≡ taker_view self.old) }
        ensures succeeds { 0 < length (known self.old) → IsSome result }
        ensures numbers { IfSome result (λ _. self.new.returned ≡ self.old.returned) }
        ensures owed { IfSome result (λ _. self.new.returned < self.new.place + self.new.popped) }
    {
        match self.items.pop() {
            Ok(item) => {
                self.popped += 1;
                Some(item)
            }
            Err(_) => None,
        }
    }

    // Sends one number back for the item that was just taken. Where it can't be sent it is dropped, and the giver learns of
    // the slot at the next meeting.
    #[inline(always)]
    #[tactic(auto, using(crate::proofs::Lengths::taken_length))]
    fn send_back(&mut self)
        requires owed { self.old.returned < self.old.place + self.old.popped }
        requires few { length (taken self.old) ≤ most_between }
        ensures ring { ring_of_taker self.new ≡ ring_of_taker self.old }
        ensures held { held self.new ≡ held self.old }
        ensures taken { taken self.new ≡ taken self.old }
        ensures known { known self.new ≡ known self.old }
        ensures sent_back { (self.new.returned ≡ self.old.returned + 1) ⊎ (return_slots self.new ≡ 0) }
    {
        if self.numbers.push(0).is_ok() {
            self.returned += 1;
        }
    }

    // Whether nothing was taken since the last meeting.
    pub(crate) fn is_still(&self) -> bool
        ensures { IsTrue result → (self.now.place ≡ 0) × (self.now.popped ≡ 0) }
    {
        self.place == 0 && self.popped == 0
    }

    // Holds from now on what is left of what it held, then all that is in the ring, then `more`.
    pub(crate) fn gather(&mut self, items: &mut Producer<i64>, more: &[i64])
        requires pair { IsPair items.old self.old.items }
        requires room { vec_len self.old.side + (length (sent items.old) - popped_before self.old) + length more.now ≤ consumer_capacity self.old.items + self.old.place + self.old.popped }
        ensures items { SameConsumer self.old.items self.new.items × SameProducer items.old items.new }
        ensures sent { (sent items.new ≡ sent items.old) × (received self.new.items ≡ sent items.new) }
        ensures numbers { self.new.numbers ≡ self.old.numbers }
        ensures none { known_items self.new.items ≡ [] }
        ensures counts { (self.new.place ≡ 0) × (self.new.popped ≡ 0) × (self.new.returned ≡ 0) }
        ensures held { self.new.side.items ≡ drop self.old.place self.old.side.items ++ drop (length (received self.old.items)) (sent items.old) ++ more.now }
        ensures seen { length (received self.old.items) ≤ length (sent items.old) }
        ensures front { take (length (received self.old.items)) (sent items.old) ≡ received self.old.items }
    {
        let count = self.items.slots_beside(items);
        cut_front(&mut self.side, self.place);
        self.place = 0;
        pour(&mut self.items, count, &mut self.side);
        append(&mut self.side, more);
        self.popped = 0;
        self.returned = 0;
    }
}

fn cut_front(side: &mut Vec<i64>, place: usize)
    requires { place ≤ vec_len side.old }
    ensures items { side.new.items ≡ drop place side.old.items }
    ensures len { vec_len side.new + place ≡ vec_len side.old }
    ensures capacity { vec_capacity side.new ≡ vec_capacity side.old }
{
    let rest = side.len() - place;
    side.rotate_left(place);
    side.truncate(rest);
}

fn append(side: &mut Vec<i64>, more: &[i64])
    requires { vec_len side.old + length more.now ≤ vec_capacity side.old }
    ensures items { side.new.items ≡ side.old.items ++ more.now }
    ensures len { vec_len side.new ≡ vec_len side.old + length more.now }
    ensures capacity { vec_capacity side.old ≤ vec_capacity side.new }
{
    match side.extend_from_slice(more) {
        Ok(()) => (),
        Err(_) => unreachable!(),
    }
}

fn pour(items: &mut Consumer<i64>, count: usize, side: &mut Vec<i64>)
    requires known { length (known_items items.old) ≡ count }
    requires room { vec_len side.old + count ≤ vec_capacity side.old }
    ensures ring { SameConsumer items.old items.new }
    ensures all { (received items.new ≡ received items.old ++ known_items items.old) × (known_items items.new ≡ []) }
    ensures side { (side.new.items ≡ side.old.items ++ known_items items.old) × (vec_len side.new ≡ vec_len side.old + count) }
    ensures capacity { vec_capacity side.old ≤ vec_capacity side.new }
{
    for _ in 0..count {
        let item = items.pop_known();
        match side.push(item) {
            Ok(()) => (),
            Err(_) => unreachable!(),
        }
    }
}
