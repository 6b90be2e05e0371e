//! One key that is read: through its room, or by the life that its entry named.
ghost use Rattle.std.specs.Prelude.{◌≡◌, IfSome, List, ℕ};
ghost use Rattle.oak_model.specs.Key.{IsKey, AreBytes};
ghost use Rattle.chunk_core.specs.PinnedRooms.{span_of};
ghost use Rattle.oak_core.specs.AloneWords.{Runs};
ghost use Rattle.oak_core.specs.PassState.{HoldsNothing};
ghost use Rattle.oak_core.specs.Passes.{IsPassOf, Stays, state, key as sizes, call_of};
ghost use Rattle.oak_core.specs.QuietSteps.{Quiet};
ghost use Rattle.chunk_ops.specs.AskedRanges.{CoversKey};
ghost use Rattle.chunk_ops.specs.PinRecords.{HasRoomPin, UnderPin, WordsStay, room_pin};
ghost use Rattle.scan_cursor.specs.Busy.{FindsTaken, LooksInVain};
ghost use Rattle.scan_cursor.specs.Reading.{LeavesHere, LooksUp, NamesLife, ReadsHere};
ghost use Rattle.scan_cursor.specs.Views.{IsKnown, KnowsLast, Later, View, view_of};

use crate::hinted::pin_covering;
use chunk_ops::{Content, Found, RoomPin, content, find, unpin};
use oak_core::{OakTable, Pass};
use value_ops::{BadPin, PinnedValue, pin_at};

/// What a read of a key came to: it is present, and its value is pinned; it is absent; or its room was moved, or its
/// value is being written, or was written anew, so that it is to be read again.
#[derive(Clone, Copy)]
pub(crate) enum Here {
    Present(PinnedValue),
    Absent,
    Again,
}

/// Pins the value of a life that an entry named, and reads the key of that.
#[inline(always)] // once for each pair of a scan, and an answer goes through memory at a call
pub(crate) fn read_life(table: &OakTable, pass: &mut Pass, header: u32, generation: u32) -> Here
    requires own { IsPassOf table.now pass.old }
    requires idle { HoldsNothing (state pass.old) }
    requires known { IsKnown header generation (view_of (sizes table.now) (call_of pass.old) (state pass.old)) }
    ensures own { Stays pass.old pass.new }
    ensures later { let z = sizes table.now in let call = call_of pass.old in Later (view_of z call (state pass.old))
        (view_of z call (state pass.new)) }
    ensures here { let z = sizes table.now in let call = call_of pass.old in (k : List ℕ) (m : View)
        → KnowsLast k header generation m → Later m (view_of z call (state pass.old))
        → ReadsHere result k m (view_of z call (state pass.new)) }
    ensures still { LeavesHere result (sizes table.now) (state pass.old) (state pass.new) }
    ensures taken { result ≡ Here.Again → FindsTaken (sizes table.now) (call_of pass.old) header generation (state pass.old) (state pass.new) }
{
    match pin_at(table, pass, header, generation) {
        Ok(pin) => Here::Present(pin.value(table, pass)),
        Err(BadPin::Dead { stamp: _ }) => Here::Absent,
        Err(BadPin::Locked) => Here::Again,
        Err(BadPin::Other) => Here::Again,
    }
}

/// What the pinned room has of the key: the header and the generation of its last life, or none where it was read absent.
fn look_up(table: &OakTable, pass: &mut Pass, pin: &RoomPin, key: &[u8]) -> Option<(u32, u32)>
    requires own { IsPassOf table.now pass.old }
    requires key { IsKey key.now }
    requires covers { CoversKey key.now (span_of (room_pin (state pass.old))) }
    requires pinned { HasRoomPin (sizes table.now) pin.now.room (state pass.old) }
    ensures own { Stays pass.old pass.new }
    ensures under { UnderPin (sizes table.now) (call_of pass.old) pin.now.room (state pass.old) (state pass.new) }
    ensures found { let z = sizes table.now in let call = call_of pass.old in
        LooksUp result key.now (view_of z call (state pass.old)) (view_of z call (state pass.new)) }
    ensures quiet { Quiet (state pass.old) (state pass.new) }
    ensures still { Runs WordsStay (state pass.old) (state pass.new) }
    ensures named { IfSome result (λ life. NamesLife (sizes table.now) pin.now.room key.now life.0 life.1 (state pass.old) (state pass.new)) }
{
    match find(table, pass, pin, key) {
        Found::Entry(entry) => match content(table, pass, pin, entry) {
            Content::Value { header, generation } => Some((header, generation)),
            Content::Floor { stamp: _ } => None,
        },
        Found::Missing { behind: _, link: _ } => None,
    }
}

/// Reads the key through the room that covers it. The pin of the room is undone before the value is pinned. To a pass
/// that is alone the answer is never `Again`.
pub(crate) fn read_key(table: &OakTable, pass: &mut Pass, key: &[u8]) -> Here
    requires own { IsPassOf table.now pass.old }
    requires key { IsKey key.now × AreBytes key.now }
    requires idle { HoldsNothing (state pass.old) }
    ensures own { Stays pass.old pass.new }
    ensures later { let z = sizes table.now in let call = call_of pass.old in Later (view_of z call (state pass.old))
        (view_of z call (state pass.new)) }
    ensures here { let z = sizes table.now in let call = call_of pass.old in ReadsHere result key.now
        (view_of z call (state pass.old)) (view_of z call (state pass.new)) }
    ensures still { LeavesHere result (sizes table.now) (state pass.old) (state pass.new) }
    ensures again { let z = sizes table.now in let call = call_of pass.old in result ≡ Here.Again
        → LooksInVain key.now (view_of z call (state pass.old)) (view_of z call (state pass.new)) }
{
    let Ok(pin) = pin_covering(table, pass, key) else {
        return Here::Again;
    };
    let life = look_up(table, pass, &pin, key);
    unpin(table, pass, pin);
    match life {
        Some((header, generation)) => read_life(table, pass, header, generation),
        None => Here::Absent,
    }
}
