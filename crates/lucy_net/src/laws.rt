// What is known of every proper net. The bodies are empty: the contracts are laws.
ghost use Rattle.std.specs.Prelude.{ℕ, ◌≡◌, ◌↔◌, ◌+◌, ◌*◌, ◌≤◌, List, ℤ, All, length, slice_get, Some};
ghost use Rattle.lucy_word.specs.Bits.{ones_to};
ghost use Rattle.lucy_word.specs.Stored.{IsStored};
ghost use Rattle.lucy_stream.specs.Needs.{StreamItem, ReachesItself, IsCausal};
ghost use Rattle.lucy_stream.specs.Systems.{RingOp, IsWired, given, taken};
ghost use Rattle.lucy_stream.specs.Runs.{IsWhole, IsWithin};
ghost use Rattle.lucy_stream.specs.Plans.{IsPlugged, IsRunnable, places_of};
ghost use Rattle.lucy_stream.specs.Instants.{IsInstant};
ghost use Rattle.lucy_stream.specs.Totals.{OnlyFirst};
ghost use Rattle.lucy_net.specs.declared.net.Actor.{Actor};
ghost use Rattle.lucy_net.specs.declared.net.RingSpec.{RingSpec};
ghost use Rattle.lucy_net.specs.declared.net.Net.{Net};
ghost use Rattle.lucy_net.specs.declared.state.ActorState.{ActorState};
ghost use Rattle.lucy_net.specs.Plans.{plan, actor_ops, net_system, done_by};
ghost use Rattle.lucy_net.specs.Proper.{IsProper, IsSupplied};
ghost use Rattle.lucy_net.specs.States.{IsUsable, IsActorState, IsNext};
ghost use Rattle.lucy_net.specs.Causal.{net_places, items_by};
ghost use Rattle.lucy_net.specs.Orders.{IsOrder, IsSound};
ghost use Rattle.lucy_net.specs.Words.{net_words};
ghost use Rattle.lucy_net.specs.Turning.{IsTurning};

/// A proper net's actors are usable and plugged to their rings, on which only a ring's own giver and taker operate, and
/// they alone have operations. With inputs for the first instants they are fed, and each has at most one firing an instant.
pub fn proper_nets_are_plugged()
    ensures plugged { (net : Net) (instants : ℕ) → IsProper net → IsPlugged (plan net instants) }
    ensures wired { (net : Net) (instants : ℕ) → IsProper net → IsWired (net_system net instants) }
    ensures usable { (net : Net) (a : ℕ) (actor : Actor) → IsProper net → slice_get net.actors a ≡ Some actor → IsUsable actor }
    ensures only { (net : Net) (instants : ℕ) → OnlyFirst (net_system net instants) (length net.actors) }
    ensures runnable { (inputs : List (List ℤ)) (net : Net) (instants : ℕ) →
        IsProper net → IsSupplied inputs net instants →
        IsRunnable inputs (plan net instants) (length net.actors) instants }
    ensures places { (net : Net) (instants : ℕ) → places_of (plan net instants) ≡ net_places net }
{}

/// After the first instants a ring was given and taken what its words count, whatever the horizon; so the counts are within
/// their bounds there, and the next instant is one in which each actor can go on or waits for another.
pub fn words_count_the_items()
    ensures given { (net : Net) (n instants r : ℕ) (ring : RingSpec) →
        n ≤ instants → IsProper net → slice_get net.rings r ≡ Some ring →
        given (net_system net instants) (done_by net n) r ≡ ones_to ring.write n }
    ensures taken { (net : Net) (n instants r : ℕ) (ring : RingSpec) →
        n ≤ instants → IsProper net → slice_get net.rings r ≡ Some ring →
        taken (net_system net instants) (done_by net n) r ≡ ones_to ring.read n }
    ensures within { (net : Net) (n instants : ℕ) → n ≤ instants → IsProper net → IsWithin (net_system net instants) (done_by net n) }
    ensures instant { (net : Net) (n : ℕ) → IsProper net → IsInstant (net_system net (n + 1)) (done_by net n) (done_by net (n + 1)) }
{}

/// Orders of all instants are a sound schedule. Past the prefixes of all words an order is one again after each hyperperiod.
pub fn orders_make_sound_schedules()
    ensures sound { (net : Net) (events : ℕ → List ℕ) → ((n : ℕ) → IsOrder net n (events (n + 1))) → IsSound net events }
    ensures again { (net : Net) (t period k : ℕ) (order : List ℕ) →
        IsProper net → ((n : ℕ) → t ≤ n → IsTurning net n period) → IsOrder net t order →
        IsOrder net (t + k * period) order }
{}

/// No item that a whole run gives reaches itself; so a net with a sound schedule is causal, for each item is given in some
/// instant.
pub fn sound_schedules_are_causal()
    ensures given { (net : Net) (instants : ℕ) (order : List ℕ) (x : StreamItem) →
        IsProper net → IsWhole (net_system net instants) order → 1 ≤ x.number → x.number ≤ items_by (slice_get net.actors x.place) instants →
        ReachesItself (net_places net) x →
        ⊥ }
    ensures all { (net : Net) (events : ℕ → List ℕ) →
        IsProper net → All IsStored (net_words net) → IsSound net events →
        IsCausal (net_places net) }
{}

/// The next operation of a state is the one at its place in the actor's list.
pub fn next_operations_are_planned()
    ensures { (actor : Actor) (instants n : ℕ) (took : List (List ℤ)) (state : ActorState) (op : RingOp) →
        IsActorState actor instants n took state →
        IsNext actor state op ↔ slice_get (actor_ops instants actor) n ≡ Some op }
{}
