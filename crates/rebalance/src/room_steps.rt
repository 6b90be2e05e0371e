//! Rooms are frozen, held alone, claimed, opened again and retired.
ghost use Rattle.std.specs.Prelude.{◌≡◌, ◌≢◌, ℕ, ◌<◌, ◌≤◌, None, IfSome, IfNone, true, false};
ghost use Rattle.chunk_core.specs.declared.holds.MovingRange.{MovingRange};
ghost use Rattle.chunk_core.specs.declared.holds.RoomCopy.{RoomCopy};
ghost use Rattle.chunk_core.specs.declared.states.TheConstants.{FROZEN, HELD};
ghost use Rattle.chunk_core.specs.MayOnRooms.{MayOpenCopy, MayRetire};
ghost use Rattle.chunk_core.specs.RoomCopies.{copy_of};
ghost use Rattle.chunk_core.specs.RoomHolds.{had_room};
ghost use Rattle.chunk_core.specs.RoomRule.{in_room_state};
ghost use Rattle.oak_core.specs.AloneWords.{Runs};
ghost use Rattle.oak_core.specs.Passes.{IsPassOf, Stays, state, key, call_of};
ghost use Rattle.chunk_ops.specs.PinRecords.{HasRoomPin};
ghost use Rattle.chunk_ops.specs.RoomPins.{HadMoment};
ghost use Rattle.rebalance.specs.LoneWords.{IsTaken};
ghost use Rattle.rebalance.specs.Holding.{Freezes, LeavesUnfrozen, Holds, Thaws, HasOnly, Claims, ClaimsOthers, FindsUsed, FindsTaken, FindsNoneFree, Opens, Retires};
ghost use Rattle.rebalance.specs.Resting.{OnlyTries};

use chunk_core::{FREE, FROZEN, HELD, OPEN};
use chunk_ops::RoomPin;
use oak_core::{OakTable, Pass, load, steps};
use pin_word::pack;

/// Freezes the pinned room, and says whether it did: false where a look finds that another pass has frozen it,
/// or where behind each of so many looks at its pin word that has changed before it is frozen, since other passes
/// pinned it, or undid their pins.
pub(crate) fn freeze_pinned(table: &OakTable, pass: &mut Pass, pin: &RoomPin, looks: u32) -> bool
    requires own { IsPassOf table.now pass.old }
    requires pinned { HasRoomPin (key table.now) pin.now.room (state pass.old) }
    requires some { 0 < looks }
    ensures own { Stays pass.old pass.new }
    ensures frozen { result ≡ true → Freezes (key table.now) (call_of pass.old) pin.now.room (state pass.old) (state pass.new) }
    ensures leaves { result ≡ false → LeavesUnfrozen (key table.now) (call_of pass.old) looks pin.now.room (state pass.old) (state pass.new) }
{
    let word = table.room_at(pin.room);
    for _ in 0..looks {
        let open = load(table, pass, word);
        if pin_word::state(open) != OPEN {
            return false;
        }
        let frozen = open + pack(0, FROZEN - OPEN, 0);
        if steps::freeze(table, pass, word, open, frozen) == open {
            return true;
        }
    }
    false
}

/// Holds the room alone that the pass has frozen, and its range with it, once no pin stands on it any
/// more, and says whether it does: where pins stood on it at each of so many looks, the room is open again.
/// The pass has no pin itself.
pub(crate) fn hold_frozen(table: &OakTable, pass: &mut Pass, room: u32, looks: u32) -> bool
    requires own { IsPassOf table.now pass.old }
    requires inside { room < (key table.now).chunks }
    requires unpinned { (state pass.old).rooms.pin ≡ None }
    requires frozen { in_room_state room FROZEN (state pass.old).rooms ≡ 1 }
    requires some { 0 < looks }
    ensures own { Stays pass.old pass.new }
    ensures holds { result ≡ true → (w : RoomCopy) × (g : MovingRange)
        × Holds (key table.now) (call_of pass.old) room w g (state pass.old) (state pass.new) }
    ensures thaws { result ≡ false → Thaws (key table.now) (call_of pass.old) looks room (state pass.old) (state pass.new) }
{
    let word = table.room_at(room);
    let frozen = pack(0, FROZEN, 0);
    let held = pack(0, HELD, 0);
    for _ in 0..looks {
        if steps::hold_room(table, pass, word, frozen, held) == frozen {
            return true;
        }
    }
    steps::thaw_room(table, pass, word, pack(0, FROZEN - OPEN, 0));
    false
}

/// Claims the room, if it is free, and says whether it did.
fn try_claim(table: &OakTable, pass: &mut Pass, room: u32) -> bool
    requires own { IsPassOf table.now pass.old }
    requires inside { room < (key table.now).chunks }
    ensures own { Stays pass.old pass.new }
    ensures claims { result ≡ true → (w : RoomCopy) × Claims (key table.now) (call_of pass.old) room w (state pass.old) (state pass.new) }
    ensures used { result ≡ false → had_room room (state pass.old).rooms ≡ 0 → FindsUsed (key table.now) (state pass.old) (state pass.new) room }
    ensures only { result ≡ false → OnlyTries (call_of pass.old) (state pass.old) (state pass.new) }
    ensures others { (but : ℕ) → room ≢ but → ClaimsOthers (key table.now) but (state pass.old) (state pass.new) }
    ensures moment { result ≡ false → HadMoment (key table.now) (state pass.new) }
    ensures alone { result ≡ false → (state pass.old).rooms.pin ≡ None → Runs (IsTaken (key table.now) room) (state pass.old) (state pass.new) }
{
    let word = table.room_at(room);
    let free = pack(0, FREE, 0);
    if load(table, pass, word) != free {
        return false;
    }
    steps::claim_room(table, pass, word, free, pack(0, HELD, 0)) == free
}

/// Claims one of the rooms from `from` on and below `to`, if one of them is free, other than this one.
fn claim_between(table: &OakTable, pass: &mut Pass, but: u32, from: u32, to: u32) -> Option<u32>
    requires own { IsPassOf table.now pass.old }
    requires only { HasOnly but (state pass.old).rooms }
    requires inside { to ≤ (key table.now).chunks }
    ensures own { Stays pass.old pass.new }
    ensures claims { IfSome result (λ r. (r ≢ but)
        × ((w : RoomCopy) × Claims (key table.now) (call_of pass.old) r w (state pass.old) (state pass.new))) }
    ensures none { IfNone result (FindsTaken (key table.now) (call_of pass.old) but from to (state pass.old) (state pass.new)) }
    ensures others { ClaimsOthers (key table.now) but (state pass.old) (state pass.new) }
{
    for room in from..to {
        if room != but && try_claim(table, pass, room) {
            return Some(room);
        }
    }
    None
}

/// How far apart the looks for a free room begin of two chunks whose rooms are neighbours: the greatest number of
/// rooms, divided by the golden ratio, so that those of many lie far from each other ("Fibonacci hashing", D. Knuth,
/// The Art of Computer Programming, volume 3, section 6.4).
const APART: u32 = 633;

/// At which of so many rooms the look for a free one begins, for a chunk in this room. Used rooms come to be spread over
/// the table, with free ones between them, so that few are looked at.
fn look_from(rooms: u32, room: u32) -> u32
    requires { 0 < rooms }
    ensures { result < rooms }
{
    room.wrapping_mul(APART) % rooms
}

/// Claims a free room other than this one, which is all that the pass has of rooms. `None` comes only
/// where each other one was found not free in this call. It waits for nobody.
pub(crate) fn claim_free(table: &OakTable, pass: &mut Pass, but: u32) -> Option<u32>
    requires own { IsPassOf table.now pass.old }
    requires only { HasOnly but (state pass.old).rooms }
    ensures own { Stays pass.old pass.new }
    ensures claims { IfSome result (λ r. (r ≢ but)
        × ((w : RoomCopy) × Claims (key table.now) (call_of pass.old) r w (state pass.old) (state pass.new))) }
    ensures none { IfNone result (FindsNoneFree (key table.now) (call_of pass.old) but (state pass.old) (state pass.new)) }
    ensures others { ClaimsOthers (key table.now) but (state pass.old) (state pass.new) }
{
    let rooms = table.rooms();
    let first = look_from(rooms, but);
    if let Some(room) = claim_between(table, pass, but, first, rooms) {
        return Some(room);
    }
    claim_between(table, pass, but, 0, first)
}

/// Opens the room that the pass holds, over a range that moves with the pass, or over its upper part.
pub(crate) fn open_held(table: &OakTable, pass: &mut Pass, room: u32)
    requires own { IsPassOf table.now pass.old }
    requires inside { room < (key table.now).chunks }
    requires held { in_room_state room HELD (state pass.old).rooms ≡ 1 }
    requires may { MayOpenCopy (key table.now) (copy_of room (state pass.old).rooms.held) (state pass.old).rooms.moving }
    ensures own { Stays pass.old pass.new }
    ensures opens { Opens (key table.now) (call_of pass.old) room (state pass.old) (state pass.new) }
{
    let word = table.room_at(room);
    steps::open_room(table, pass, word, pack(0, HELD - OPEN, 0));
}

/// Retires the room that the pass holds. The range that came with it, if the pass still has that, joins
/// the one just below.
pub(crate) fn retire_held(table: &OakTable, pass: &mut Pass, room: u32)
    requires own { IsPassOf table.now pass.old }
    requires inside { room < (key table.now).chunks }
    requires held { in_room_state room HELD (state pass.old).rooms ≡ 1 }
    requires may { MayRetire room (state pass.old).rooms.moving }
    ensures own { Stays pass.old pass.new }
    ensures retires { Retires (key table.now) (call_of pass.old) room (state pass.old) (state pass.new) }
{
    let word = table.room_at(room);
    steps::retire_room(table, pass, word, pack(0, HELD, 0));
}
