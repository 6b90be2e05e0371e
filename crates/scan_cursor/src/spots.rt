//! The room in which a scan goes on.
ghost use Rattle.std.specs.Prelude.{◌≡◌, true, IfErr, IfOk};
ghost use Rattle.oak_model.specs.Key.{is_key};
ghost use Rattle.oak_core.specs.AloneWords.{Runs};
ghost use Rattle.oak_core.specs.PassState.{HoldsNothing};
ghost use Rattle.oak_core.specs.Passes.{IsPassOf, Stays, state, key as sizes, call_of};
ghost use Rattle.chunk_ops.specs.PinRecords.{OnlyMeets, WordsStay};
ghost use Rattle.chunk_ops.specs.RoomPins.{AddsRoomPin};
ghost use Rattle.scan_cursor.specs.Busy.{LooksInVain};
ghost use Rattle.scan_cursor.specs.Holding.{HasRoom, IsAhead, bound_in, cut_room, room_at};
ghost use Rattle.scan_cursor.specs.Views.{Later, view_of};

use crate::hinted::{pin_below, pin_covering};
use crate::marks::Mark;
use crate::ways::Way;
use chunk_ops::{KeyBytes, Moved, RoomPin, high_key, low_key};
use oak_core::{OakTable, Pass};

/// Pins the room in which the scan goes on: the one that has the mark's key, or, where a scan that goes down is past
/// that, the one with the keys next below it.
pub(crate) fn pin_ahead(
    table: &OakTable,
    pass: &mut Pass,
    mark: &Mark,
    way: Way,
) -> Result<RoomPin, Moved>
    requires own { IsPassOf table.now pass.old }
    requires key { is_key mark.now.key ≡ true }
    requires idle { HoldsNothing (state pass.old) }
    ensures own { Stays pass.old pass.new }
    ensures later { let z = sizes table.now in let call = call_of pass.old in Later (view_of z call (state pass.old))
        (view_of z call (state pass.new)) }
    ensures ahead { IfOk result (λ p. IsAhead (sizes table.now) p.room way mark.now.past mark.now.key (state pass.new)) }
    ensures moved { IfErr result (λ _. HoldsNothing (state pass.new)) }
    ensures vain { let z = sizes table.now in let call = call_of pass.old in
        IfErr result (λ _. LooksInVain mark.now.key (view_of z call (state pass.old))
        (view_of z call (state pass.new))) }
    ensures still { IfOk result (λ p. Runs (AddsRoomPin (sizes table.now) p.room) (state pass.old) (state pass.new)) }
    ensures stays { IfErr result (λ _. Runs WordsStay (state pass.old) (state pass.new)) }
{
    match way {
        Way::Down if mark.past => pin_below(table, pass, mark.key.as_slice()),
        _ => pin_covering(table, pass, mark.key.as_slice()),
    }
}

/// The bound of the pinned room in the direction of the scan; none where no room is beyond it.
fn bound_ahead(table: &OakTable, pass: &mut Pass, pin: &RoomPin, way: Way) -> Option<KeyBytes>
    requires own { IsPassOf table.now pass.old }
    requires pinned { HasRoom (sizes table.now) pin.now.room (state pass.old) }
    ensures own { Stays pass.old pass.new }
    ensures bound { result ≡ bound_in way (room_at (state pass.old)) }
    ensures only { OnlyMeets (call_of pass.old) (state pass.old) (state pass.new) }
{
    let bound = match way {
        Way::Up => high_key(table, pass, pin),
        Way::Down => low_key(table, pass, pin),
    };
    match bound {
        Some(bound) => Some(KeyBytes::of(&bound)),
        None => None,
    }
}

/// The bound of a batch of the pinned room in the direction of the scan, which is the room's where it has none of its own.
pub(crate) fn batch_bound(
    table: &OakTable,
    pass: &mut Pass,
    pin: &RoomPin,
    near: Option<KeyBytes>,
    way: Way,
) -> Option<KeyBytes>
    requires own { IsPassOf table.now pass.old }
    requires pinned { HasRoom (sizes table.now) pin.now.room (state pass.old) }
    ensures own { Stays pass.old pass.new }
    ensures bound { result ≡ bound_in way (cut_room way (room_at (state pass.old)) near) }
    ensures only { OnlyMeets (call_of pass.old) (state pass.old) (state pass.new) }
{
    match near {
        Some(bound) => Some(bound),
        None => bound_ahead(table, pass, pin, way),
    }
}
