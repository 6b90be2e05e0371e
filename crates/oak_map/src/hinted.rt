//! One try of each call, which looks first where the pass's hint says: the hint is asked for in each try.
ghost use Rattle.std.specs.Prelude.{◌≡◌, ◌⊎◌, ◌<◌, ◌+◌, ◌-◌, ◌^◌, IfErr, IfOk};
ghost use Rattle.chunk_ops.specs.AddsAlone.{Never};
ghost use Rattle.oak_core.specs.AloneWords.{Runs};
ghost use Rattle.oak_core.specs.MayWrite.{IsNewCall};
ghost use Rattle.oak_core.specs.PassState.{HoldsNothing, IsAlone};
ghost use Rattle.oak_core.specs.Passes.{IsPassOf, Stays, call_of, key as sizes, state};
ghost use Rattle.oak_core.specs.QuietSteps.{Quiet};
ghost use Rattle.oak_core.specs.Scratch.{StaysButScratch};
ghost use Rattle.oak_model.specs.Key.{IsKey};
ghost use Rattle.oak_model.specs.declared.cells.CellCall.TheVariants.{Compute, Get, Remove};
ghost use Rattle.point_ops.specs.Counted.{Feeds, times_done};
ghost use Rattle.point_ops.specs.declared.halts.Halt.TheVariants as halts;
ghost use Rattle.point_ops.specs.Gets.{GotFits};
ghost use Rattle.point_ops.specs.Halting.{Halts};
ghost use Rattle.point_ops.specs.LoneLeft.{LeavesBy};
ghost use Rattle.point_ops.specs.LoneLives.{GetsIn};
ghost use Rattle.point_ops.specs.LoneReplies.{GotAlone, SameAlone, WroteAlone};
ghost use Rattle.point_ops.specs.Parts.{WroteFits};
ghost use Rattle.point_ops.specs.Pins.{PinnedFits, PinsIn};
ghost use Rattle.point_ops.specs.Replies.{Refuses};

use oak_core::{OakTable, Pass};
use oak_model::Wrote;
use point_ops::{Got, Halt, Pinned};
use value_ops::Recipe;

/// Looks for the key.
pub(crate) fn try_get(table: &OakTable, pass: &mut Pass, key: &[u8]) -> Result<Got, Halt>
    requires own { IsPassOf table.now pass.old }
    requires key { IsKey key.now }
    requires idle { HoldsNothing (state pass.old) }
    ensures own { Stays pass.old pass.new }
    ensures quiet { Quiet (state pass.old) (state pass.new) }
    ensures got { IfOk result (λ x. GotFits x (sizes table.now) (call_of pass.old) key.now (state pass.old) (state pass.new)) }
    ensures alone_reply { IfOk result (λ x. IsAlone (state pass.old) → GotAlone x (sizes table.now) key.now (state pass.old) (state pass.new)) }
    ensures refused { IfErr result (λ _. Refuses (call_of pass.old) (state pass.old) (state pass.new)) }
    ensures halted { IfErr result (λ why. Halts why (sizes table.now) (call_of pass.old) key.now Get (state pass.old) (state pass.new)) }
    ensures either { IfErr result (λ why. (why ≡ halts.Busy) ⊎ (why ≡ halts.Moved)) }
    ensures alone_same { IfErr result (λ _. SameAlone (sizes table.now) (state pass.old) (state pass.new)) }
    ensures alone { Runs (GetsIn result) (state pass.old) (state pass.new) }
{
    let hint = pass.hint(key);
    point_ops::try_get(table, pass, hint, key)
}

/// Looks for the key, and keeps the pin of the header of its value where it has one.
pub(crate) fn try_pin(table: &OakTable, pass: &mut Pass, key: &[u8]) -> Result<Pinned, Halt>
    requires own { IsPassOf table.now pass.old }
    requires key { IsKey key.now }
    requires idle { HoldsNothing (state pass.old) }
    ensures own { Stays pass.old pass.new }
    ensures quiet { Quiet (state pass.old) (state pass.new) }
    ensures found { IfOk result (λ x. PinnedFits x (sizes table.now) (call_of pass.old) key.now (state pass.old) (state pass.new)) }
    ensures refused { IfErr result (λ _. Refuses (call_of pass.old) (state pass.old) (state pass.new)) }
    ensures halted { IfErr result (λ why. Halts why (sizes table.now) (call_of pass.old) key.now Get (state pass.old) (state pass.new)) }
    ensures either { IfErr result (λ why. (why ≡ halts.Busy) ⊎ (why ≡ halts.Moved)) }
    ensures alone { Runs (PinsIn result (sizes table.now)) (state pass.old) (state pass.new) }
{
    let hint = pass.hint(key);
    point_ops::try_pin(table, pass, hint, key)
}

/// Computes the value of the key anew, where it has one.
pub(crate) fn try_compute(
    table: &OakTable,
    pass: &mut Pass,
    key: &[u8],
    recipe: &mut Box<dyn Recipe + Send>,
) -> Result<Wrote, Halt>
    requires own { IsPassOf table.now pass.old }
    requires key { IsKey key.now }
    requires idle { HoldsNothing (state pass.old) }
    requires turn { IsNewCall (call_of pass.old) (state pass.old) }
    requires few { calls recipe.old < 2 ^ 64 - 1 }
    ensures own { StaysButScratch pass.old pass.new }
    ensures wrote { IfOk result (λ x. WroteFits x (call_of pass.old) key.now
        (Compute (told_kind recipe.old) (told_argument recipe.old)) (state pass.old) (state pass.new)) }
    ensures alone_reply { IfOk result (λ x. IsAlone (state pass.old) → WroteAlone x (sizes table.now) key.now
        (Compute (told_kind recipe.old) (told_argument recipe.old)) (state pass.old) (state pass.new)) }
    ensures refused { IfErr result (λ _. Refuses (call_of pass.old) (state pass.old) (state pass.new)) }
    ensures halted { IfErr result (λ why. Halts why (sizes table.now) (call_of pass.old) key.now
        (Compute (told_kind recipe.old) (told_argument recipe.old)) (state pass.old) (state pass.new)) }
    ensures either { IfErr result (λ why. (why ≡ halts.Busy) ⊎ (why ≡ halts.Moved)) }
    ensures alone { IfErr result (λ _. Runs Never (state pass.old) (state pass.new)) }
    ensures alone_left { IfOk result (λ x. Runs (LeavesBy x (sizes table.now) key.now) (state pass.old) (state pass.new)) }
    ensures counted { calls recipe.new ≡ calls recipe.old + times_done result }
    ensures fed { Feeds result key.now (fed recipe.old) (fed recipe.new) (state pass.new) }
    ensures told { (told_kind recipe.new ≡ told_kind recipe.old) × (told_argument recipe.new ≡ told_argument recipe.old) }
{
    let hint = pass.hint(key);
    point_ops::try_compute(table, pass, hint, key, recipe)
}

/// Removes the key.
pub(crate) fn try_remove(table: &OakTable, pass: &mut Pass, key: &[u8]) -> Result<Wrote, Halt>
    requires own { IsPassOf table.now pass.old }
    requires key { IsKey key.now }
    requires idle { HoldsNothing (state pass.old) }
    requires turn { IsNewCall (call_of pass.old) (state pass.old) }
    ensures own { Stays pass.old pass.new }
    ensures wrote { IfOk result (λ x. WroteFits x (call_of pass.old) key.now Remove (state pass.old) (state pass.new)) }
    ensures alone_reply { IfOk result (λ x. IsAlone (state pass.old) → WroteAlone x (sizes table.now) key.now Remove
        (state pass.old) (state pass.new)) }
    ensures refused { IfErr result (λ _. Refuses (call_of pass.old) (state pass.old) (state pass.new)) }
    ensures halted { IfErr result (λ why. Halts why (sizes table.now) (call_of pass.old) key.now Remove (state pass.old) (state pass.new)) }
    ensures either { IfErr result (λ why. (why ≡ halts.Busy) ⊎ (why ≡ halts.Moved)) }
    ensures alone { IfErr result (λ _. Runs Never (state pass.old) (state pass.new)) }
    ensures alone_left { IfOk result (λ x. Runs (LeavesBy x (sizes table.now) key.now) (state pass.old) (state pass.new)) }
{
    let hint = pass.hint(key);
    point_ops::try_remove(table, pass, hint, key)
}
