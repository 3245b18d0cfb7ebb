// What rounds of several workers rest on. The bodies are empty: the contracts are laws.
ghost use Rattle.std.specs.Prelude.{ℕ, ◌≡◌, ◌+◌, ◌≤◌, ◌++◌, List, ℤ, length};
ghost use Rattle.lucy_host.specs.declared.kind.HostKind.{HostKind};
ghost use Rattle.lucy_stream.specs.Fronts.{IsFront};
ghost use Rattle.lucy_stream.specs.Runs.{IsPossible};
ghost use Rattle.lucy_stream.specs.States.{State};
ghost use Rattle.lucy_stream.specs.Actors.{StandsAs};
ghost use Rattle.lucy_stream.specs.Plans.{machine, system};
ghost use Rattle.lucy_net.specs.declared.net.Net.{Net};
ghost use Rattle.lucy_net.specs.Plans.{plan};
ghost use Rattle.lucy_ring.specs.Views.{GiverView, TakerView};
ghost use Rattle.lucy_worker.specs.declared.part.Part.{Part};
ghost use Rattle.lucy_worker.specs.Parts.{done_of, IsPartAt, CanMove, IsDone};
ghost use Rattle.lucy_worker.specs.Meets.{HaveMet};
ghost use Rattle.lucy_worker.specs.Rounds.{IsIn, KnowsAll};

/// What holds of the parts of workers holds in the state of the whole net: the actor of a part stands there as the part says,
/// a part whose ends know all can do its possible event, and a part that is done has done its list. What a meeting shows of a
/// ring holds of the lists that were given to it and taken from it: taken is a front of given, and no more is held than the
/// ring has slots.
pub fn rounds_are_runs()
    ensures part { (kinds : List HostKind) (inputs : List (List ℤ)) (net : Net) (instants : ℕ) (base : State) (front : List ℤ) (p : Part) (s : State) →
        IsPartAt kinds inputs net instants base front p → IsIn (system (plan net instants)) base p s →
        StandsAs (machine kinds inputs (plan net instants)) p.number s }
    ensures could { (kinds : List HostKind) (inputs : List (List ℤ)) (net : Net) (instants : ℕ) (base : State) (front : List ℤ) (p : Part) (done : ℕ → ℕ) →
        IsPartAt kinds inputs net instants base front p → done p.number ≡ done_of p →
        KnowsAll (system (plan net instants)) p done → IsPossible (system (plan net instants)) done p.number →
        CanMove p }
    ensures done { (kinds : List HostKind) (inputs : List (List ℤ)) (net : Net) (instants : ℕ) (base : State) (front : List ℤ) (p : Part) →
        IsPartAt kinds inputs net instants base front p → IsDone p →
        done_of p ≡ length ((system (plan net instants)).ops p.number) }
    ensures ring { (took : List ℤ) (g : GiverView) (t : TakerView) (h : GiverView) (u : TakerView) → HaveMet g t h u →
        IsFront (took ++ t.taken) ((took ++ t.held) ++ g.given) }
    ensures bound { (took : List ℤ) (g : GiverView) (t : TakerView) (h : GiverView) (u : TakerView) → HaveMet g t h u →
        length ((took ++ t.held) ++ g.given) ≤ length (took ++ t.taken) + g.ring.capacity }
{}
