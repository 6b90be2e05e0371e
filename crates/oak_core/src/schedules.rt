//! The two laws over all schedules of atomic steps.
ghost use Rattle.std.specs.Prelude.{◌≡◌, ℕ, ◌-◌, ◌^◌, ◌<◌, ◌∷◌, ◌++◌, [], List, false, length};
ghost use mathlib.Core.Option.{some};
ghost use lib.ListN.{get_elem?};
ghost use Rattle.pin_word.specs.PinWord.{state_of};
ghost use Rattle.oak_model.specs.Counts.{Each};
ghost use Rattle.oak_model.specs.Limits.{Sizes, IsInLimits};
ghost use Rattle.chunk_core.specs.declared.states.TheConstants.{HELD};
ghost use Rattle.chunk_core.specs.RoomStep.{RoomStep, claim_room, pin_room};
ghost use Rattle.oak_core.specs.declared.states.PassState.{PassState};
ghost use Rattle.oak_core.specs.Bounds.{UntilRemoved};
ghost use Rattle.oak_core.specs.Memory.{memory};
ghost use Rattle.oak_core.specs.RebalanceSteps.{KeepsRooms};
ghost use Rattle.oak_core.specs.TableState.{TableState};
ghost use Rattle.oak_core.specs.Rebalancing.{IsRebalance, KeepsKeys, HoldsNoPin, HasDud, BasesRise, RebalancesAt};
ghost use Rattle.oak_core.specs.Rule.{Rule};
ghost use Rattle.oak_core.specs.Schedule.{Event, IsSchedule, Goes, opening, steps};
ghost use Rattle.oak_core.specs.Step.{on_rooms, Told};

/// A law: the rule holds at every moment of every schedule. Each moment is the end of a schedule, that
/// of the events so far. It speaks of every shape and of every opening generation below the last one,
/// and of the schedules from any state that meets the rule. While nothing was removed, each header is at the
/// opening generation, and not dead.
///
/// Where the rule holds, a step of a rebalance changes no key's history, and so no key's state; a room
/// comes to be held only by a step that finds no pin on it; a pin that finds it held is a dud; and the
/// base of a key without an entry does not fall.
pub fn every_schedule()
    ensures from_the_opening { (z : Sizes) → IsInLimits z → (g : ℕ) → g < 2 ^ 32 - 1
        → (events : List Event) (s : TableState) → IsSchedule z (opening z g) events s → Rule z s }
    ensures opened { (z : Sizes) → IsInLimits z → (g : ℕ) → g < 2 ^ 32 - 1 → (events : List Event) (s : TableState)
        → IsSchedule z (opening z g) events s → UntilRemoved z g (memory z s.words) s.states }
    ensures from_any_state { (z : Sizes) (s t : TableState) → Rule z s → (events : List Event) → IsSchedule z s events t → Rule z t }
    ensures rebalances { (z : Sizes) (s t : TableState) (seat call : ℕ) (x : RoomStep) → IsRebalance x
        → Goes z (steps seat call (on_rooms x)) s t → KeepsKeys s t }
    ensures held { (z : Sizes) (s t : TableState) → Rule z s → (e : Event) → Goes z e s t → HoldsNoPin z s t }
    ensures duds { (z : Sizes) (s t : TableState) (seat call r : ℕ)
        → Goes z (steps seat call (on_rooms (pin_room r))) s t → state_of ((memory z s.words).rooms.pin r) ≡ HELD
        → HasDud seat r t }
    ensures bases { (z : Sizes) (s t : TableState) → Rule z s → (e : Event) → Goes z e s t → BasesRise z s t }
{}

/// A law: a pass keeps each step of a rebalance that it makes or tries, by how many findings it had met
/// before it, and so, besides, each that claims a room. So where a pass that is not spent has kept behind some events what it had kept before
/// them, none of them was a step of a rebalance of its seat.
pub fn rebalances_are_kept()
    ensures kept { (z : Sizes) (call : ℕ) (x : RoomStep) (v : PassState) (n : ℕ) (w : PassState) → IsRebalance x
        → Told z call (on_rooms x) v n w → w.findings.rebalances.steps ≡ v.findings.rebalances.steps ++ length
        v.findings.met ∷ [] }
    ensures claims { (z : Sizes) (call r old : ℕ) (v : PassState) (n : ℕ) (w : PassState)
        → Told z call (on_rooms (claim_room r old)) v n w
        → w.findings.rebalances.claims ≡ v.findings.rebalances.claims ++ length v.findings.met ∷ [] }
    ensures none { (z : Sizes) (events : List Event) (s t : TableState) (seat : ℕ) (v w : PassState)
        → IsSchedule z s events t → get_elem? s.states seat ≡ some v → get_elem? t.states seat ≡ some w
        → w.numbers.spent ≡ false → KeepsRooms v w → Each (λ (e : Event). RebalancesAt seat e → ⊥) events }
{}
