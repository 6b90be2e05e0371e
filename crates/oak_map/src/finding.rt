//! Searches for the value of a key, and for the life of a view.
ghost use Rattle.std.specs.Prelude.{◌≡◌, ◌<◌, IfErr, IfNone, IfOk, IfSome};
ghost use Rattle.oak_model.specs.declared.cells.CellCall.TheVariants.{Get};
ghost use Rattle.oak_model.specs.Key.{IsKey};
ghost use Rattle.oak_core.specs.PassState.{HoldsNothing};
ghost use Rattle.oak_core.specs.Passes.{IsPassOf, Stays, call_of, key as sizes, state};
ghost use Rattle.oak_core.specs.QuietSteps.{Quiet};
ghost use Rattle.value_ops.specs.Views.{KnowsView};
ghost use Rattle.oak_map.specs.Finding.{FindsValue, PinsView};
ghost use Rattle.oak_map.specs.GivingUp.{TriesInVain, GivesUpLife, IsHalted};
ghost use Rattle.oak_map.specs.Lending.{FindsOver};

use crate::answers::Busy;
use crate::hinted::try_pin;
use crate::waiting::LOOKS;
use oak_core::{OakTable, Pass};
use point_ops::Pinned;
use std::sync::Wait;
use std::thread;
use value_ops::{HeaderPin, NoRead, ValueView};

/// Looks for the key until it was found absent, at the place of a number, or the header of its value was pinned. `Busy`
/// comes only where each of so many tries came to nothing; to a pass that is alone it never comes.
pub(crate) fn try_find_value(
    table: &OakTable,
    pass: &mut Pass,
    key: &[u8],
    looks: u32,
) -> Result<Pinned, Busy>
    requires own { IsPassOf table.now pass.old }
    requires idle { HoldsNothing (state pass.old) }
    requires key { IsKey key.now }
    requires some { 0 < looks }
    ensures own { Stays pass.old pass.new }
    ensures found { IfOk result (λ x. FindsValue x (sizes table.now) (call_of pass.old) key.now (state pass.old) (state pass.new)) }
    ensures quiet { IfErr result (λ _. Quiet (state pass.old) (state pass.new)) }
    ensures busy { IfErr result (λ _. TriesInVain (IsHalted (sizes table.now) (call_of pass.old) key.now Get)
        (call_of pass.old) looks (state pass.old) (state pass.new)) }
{
    for _ in 0..looks {
        if let Ok(found) = try_pin(table, pass, key) {
            return Ok(found);
        }
    }
    Err(Busy)
}

/// Looks for the key as [`try_find_value`] does. It waits while other passes are at work there.
pub(crate) fn find_value<R: Wait>(rt: &R, table: &OakTable, pass: &mut Pass, key: &[u8]) -> Pinned
    requires own { IsPassOf table.now pass.old }
    requires idle { HoldsNothing (state pass.old) }
    requires key { IsKey key.now }
    ensures own { Stays pass.old pass.new }
    ensures found { FindsValue result (sizes table.now) (call_of pass.old) key.now (state pass.old) (state pass.new) }
{
    for _ in rt.forever() {
        if let Ok(found) = try_find_value(table, pass, key, LOOKS) {
            return found;
        }
        thread::yield_now();
    }
    unreachable!()
}

/// Pins the header of the view, or finds that its life is over. `Busy` comes only where a pass was writing there at each
/// of so many tries; to a pass that is alone it never comes.
pub(crate) fn try_find_life(
    table: &OakTable,
    pass: &mut Pass,
    view: &ValueView,
    looks: u32,
) -> Result<Option<HeaderPin>, Busy>
    requires own { IsPassOf table.now pass.old }
    requires idle { HoldsNothing (state pass.old) }
    requires known { KnowsView (sizes table.now) view.now (state pass.old) }
    requires some { 0 < looks }
    ensures own { Stays pass.old pass.new }
    ensures gone { IfOk result (λ found. IfNone found (FindsOver (sizes table.now) (call_of pass.old) view.now (state pass.old) (state pass.new))) }
    ensures pinned { IfOk result (λ found. IfSome found
        (λ p. (p.header ≡ view.now.header) × (p.generation ≡ view.now.generation) × PinsView (sizes table.now)
        (call_of pass.old) view.now (state pass.old) (state pass.new))) }
    ensures busy { IfErr result (λ _. GivesUpLife (sizes table.now) (call_of pass.old) view.now looks (state pass.old) (state pass.new)) }
{
    for _ in 0..looks {
        match view.pin(table, pass) {
            Ok(pin) => return Ok(Some(pin)),
            Err(NoRead::Gone) => return Ok(None),
            Err(NoRead::Busy) => {}
        }
    }
    Err(Busy)
}

/// Pins the header of the view, or finds that its life is over. It waits while a pass writes there.
pub(crate) fn find_life<R: Wait>(
    rt: &R,
    table: &OakTable,
    pass: &mut Pass,
    view: &ValueView,
) -> Option<HeaderPin>
    requires own { IsPassOf table.now pass.old }
    requires idle { HoldsNothing (state pass.old) }
    requires known { KnowsView (sizes table.now) view.now (state pass.old) }
    ensures own { Stays pass.old pass.new }
    ensures gone { IfNone result (FindsOver (sizes table.now) (call_of pass.old) view.now (state pass.old) (state pass.new)) }
    ensures pinned { IfSome result (λ p. (p.header ≡ view.now.header) × (p.generation ≡ view.now.generation)
        × PinsView (sizes table.now) (call_of pass.old) view.now (state pass.old) (state pass.new)) }
{
    for _ in rt.forever() {
        if let Ok(found) = try_find_life(table, pass, view, LOOKS) {
            return found;
        }
        thread::yield_now();
    }
    unreachable!()
}
