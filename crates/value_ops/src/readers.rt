//! Laws on readers, over every schedule.
ghost use Rattle.std.specs.Prelude.{ℕ, ◌-◌, ◌^◌, ◌<◌, List};
ghost use Rattle.oak_model.specs.Limits.{Sizes, IsInLimits};
ghost use Rattle.oak_model.specs.Counts.{Each};
ghost use Rattle.header_core.specs.declared.holds.PinnedHeader.{PinnedHeader};
ghost use Rattle.header_core.specs.HeaderRule.{IsGood};
ghost use Rattle.oak_core.specs.TableState.{TableState};
ghost use Rattle.oak_core.specs.Rule.{Rule};
ghost use Rattle.oak_core.specs.Schedule.{Event, IsSchedule, opening};
ghost use Rattle.value_ops.specs.Readers.{StandsAt, KeepsBlock, Undoes};

/// A law: at every moment of every schedule at which a pass has a good pin, the block under it is
/// taken, has no owner but the pinned header, and has the bytes that the pin found. It speaks of the
/// schedules from the opening states, and of those from any state that meets the rule.
pub fn no_block_changes_under_a_reader()
    ensures from_any_state { (z : Sizes) (s t : TableState) → Rule z s → (events : List Event)
        → IsSchedule z s events t → (seat : ℕ) (p : PinnedHeader) → StandsAt seat p t → IsGood p → KeepsBlock z p t }
    ensures from_the_opening { (z : Sizes) → IsInLimits z → (g : ℕ) → g < 2 ^ 32 - 1
        → (events : List Event) (s : TableState) → IsSchedule z (opening z g) events s → (seat : ℕ) (p : PinnedHeader)
        → StandsAt seat p s → IsGood p → KeepsBlock z p s }
{}

/// A law: a pin stands, with all that it recorded, until its own pass undoes it, whatever steps are
/// made by this pass and the others.
pub fn a_pin_stands_until_it_is_undone()
    ensures { (z : Sizes) (events : List Event) (s t : TableState) → IsSchedule z s events t
        → (seat : ℕ) (p : PinnedHeader) → StandsAt seat p s → Each (λ (e : Event). ¬ Undoes seat e) events
        → StandsAt seat p t }
{}
