//! What the calls that put ask of their key's cell, and one try of each, which looks first where the pass's hint says.
ghost use Rattle.std.specs.Prelude.{◌≡◌, ◌<◌, ◌+◌, ◌-◌, ◌^◌, ℕ, Bool, true, false, List, Some, None, IfErr, IfOk};
ghost use Rattle.std.proofs.Common.{refl};
ghost use Rattle.chunk_ops.specs.RoomPins.{HadMoment};
ghost use Rattle.oak_core.specs.AloneWords.{Runs};
ghost use Rattle.oak_core.specs.MayWrite.{IsNewCall};
ghost use Rattle.oak_core.specs.PassState.{HoldsNothing, IsAlone};
ghost use Rattle.oak_core.specs.Passes.{IsPassOf, call_of, key as sizes, state};
ghost use Rattle.oak_model.specs.Cell.{state_after};
ghost use Rattle.oak_model.specs.Key.{IsKey};
ghost use Rattle.oak_model.specs.Value.{IsValue};
ghost use Rattle.oak_model.specs.declared.cells.CellCall.{CellCall};
ghost use Rattle.oak_model.specs.declared.cells.CellCall.TheVariants as asks;
ghost use Rattle.point_ops.specs.Counted.{Feeds, times_done};
ghost use Rattle.point_ops.specs.Halting.{Halts};
ghost use Rattle.point_ops.specs.LonePuts.{PutsIn};
ghost use Rattle.point_ops.specs.LoneReplies.{SameAlone, WroteAlone};
ghost use Rattle.point_ops.specs.Parts.{WroteFits};
ghost use Rattle.point_ops.specs.Replies.{Refuses};
ghost use Rattle.value_ops.specs.Recipes.{SaysNothing};
ghost use Rattle.oak_map.specs.Putting.{StaysAsUsed};

use oak_core::{OakTable, Pass};
use oak_model::Wrote;
use point_ops::Halt;
use value_ops::Recipe;

/// What a call that puts a value asks of its key's cell.
pub(crate) trait Asking {
    // what it asks, with the value that it puts
    ghost ask: { Self → List ℕ → CellCall };

    // how often it computed a value anew
    ghost times: { Self → ℕ };

    // what it says of the bytes from which it computed one last
    ghost says: { Self → List ℕ → Type 0 };

    // whether it works in the pass's scratch
    ghost uses_scratch: { Bool };

    /// Tries once.
    fn try_once(
        &mut self,
        table: &OakTable,
        pass: &mut Pass,
        key: &[u8],
        value: &[u8],
    ) -> Result<Wrote, Halt>
        requires own { IsPassOf table.now pass.old }
        requires key { IsKey key.now }
        requires idle { HoldsNothing (state pass.old) }
        requires turn { IsNewCall (call_of pass.old) (state pass.old) }
        requires value { IsValue value.now }
        requires few { times self.old < 2 ^ 64 - 1 }
        ensures own { StaysAsUsed uses_scratch pass.old pass.new }
        ensures wrote { IfOk result (λ x. WroteFits x (call_of pass.old) key.now (ask self.old value.now) (state pass.old) (state pass.new)) }
        ensures alone_reply { IfOk result (λ x. IsAlone (state pass.old) → WroteAlone x (sizes table.now) key.now
            (ask self.old value.now) (state pass.old) (state pass.new)) }
        ensures ended { IfOk result (λ _. HadMoment (sizes table.now) (state pass.new)) }
        ensures refused { IfErr result (λ _. Refuses (call_of pass.old) (state pass.old) (state pass.new)) }
        ensures alone_same { IfErr result (λ _. SameAlone (sizes table.now) (state pass.old) (state pass.new)) }
        ensures halted { IfErr result (λ why. Halts why (sizes table.now) (call_of pass.old) key.now
            (ask self.old value.now) (state pass.old) (state pass.new)) }
        ensures alone { Runs (PutsIn result (sizes table.now) key.now value.now) (state pass.old) (state pass.new) }
        ensures asks { ask self.new value.now ≡ ask self.old value.now }
        ensures counted { times self.new ≡ times self.old + times_done result }
        ensures fed { Feeds result key.now (says self.old) (says self.new) (state pass.new) };

    // of an absent key it makes that value
    ghost makes: { (x : Self) (value : List ℕ) → state_after None (ask x value) ≡ Some value };
}

/// That the value is put, whatever the key holds.
#[derive(Drop)]
pub(crate) struct PutOver;

impl Asking for PutOver {
    ghost ask = { λ _ value. asks.Put value };

    ghost times = { λ _. 0 };

    ghost says = { λ _. SaysNothing };

    ghost uses_scratch = { false };

    ghost makes = { λ _ value. refl };

    fn try_once(
        &mut self,
        table: &OakTable,
        pass: &mut Pass,
        key: &[u8],
        value: &[u8],
    ) -> Result<Wrote, Halt> {
        let hint = pass.hint(key);
        point_ops::try_put(table, pass, hint, key, value)
    }
}

/// That the value is put where the key is absent.
#[derive(Drop)]
pub(crate) struct PutIfAbsent;

impl Asking for PutIfAbsent {
    ghost ask = { λ _ value. asks.PutNew value };

    ghost times = { λ _. 0 };

    ghost says = { λ _. SaysNothing };

    ghost uses_scratch = { false };

    ghost makes = { λ _ value. refl };

    fn try_once(
        &mut self,
        table: &OakTable,
        pass: &mut Pass,
        key: &[u8],
        value: &[u8],
    ) -> Result<Wrote, Halt> {
        let hint = pass.hint(key);
        point_ops::try_put_if_absent(table, pass, hint, key, value)
    }
}

/// That what the key holds is computed anew by the recipe, or the value is put where it is absent.
impl Asking for Box<dyn Recipe + Send> {
    ghost ask = { λ b value. asks.Upsert value ((Recipe-box b).told_kind b.value) ((Recipe-box b).told_argument b.value) };

    ghost times = { λ b. (Recipe-box b).calls b.value };

    ghost says = { λ b. (Recipe-box b).fed b.value };

    ghost uses_scratch = { true };

    ghost makes = { λ _ value. refl };

    fn try_once(
        &mut self,
        table: &OakTable,
        pass: &mut Pass,
        key: &[u8],
        value: &[u8],
    ) -> Result<Wrote, Halt> {
        let hint = pass.hint(key);
        point_ops::try_upsert(table, pass, hint, key, value, self)
    }
}
