//! The steps on the words of the rooms, which callers find in [`crate::steps`].
ghost use Rattle.std.specs.Prelude.{◌≡◌, ℕ, Option, ◌+◌, ◌-◌, ◌*◌};
ghost use Rattle.pin_word.specs.PinWord.{STATE};
ghost use Rattle.chunk_core.specs.declared.states.TheConstants.{OPEN, FROZEN, HELD};
ghost use Rattle.chunk_core.specs.Rooms.{RoomSpot};
ghost use Rattle.chunk_core.specs.RoomStep.{EntryField, of_value, pin_room, unpin_room, claim_entry, own_entry, link_entry, set_value, unlink_entry, freeze_room, thaw_room, hold_room, claim_room, store_room, open_room, retire_room};
ghost use Rattle.oak_core.specs.RoomCalls.{NamesRoomPin, NamesEntryWord, NamesLink, NamesCount, NamesRoomWord, PinsRoomWord, UnpinsRoomWord, ClaimsEntry, OwnsEntry, LinksEntry, SetsValueWord, UnlinksEntryWord, FreezesRoom, HoldsRoomWord, ClaimsRoom, StoresRoom, OpensRoom, RetiresRoom};
ghost use Rattle.oak_core.specs.Step.{MayOnRooms};
ghost use Rattle.oak_core.specs.Thawing.{ThawsRoom};
ghost use Rattle.oak_core.specs.Passes.{IsPassOf, Stays, TriesStay, state, key, call_of, tries};
ghost use Rattle.oak_core.specs.Tries.{raised};

use crate::atoms::{add_said, exchange_of_kind, exchange_said, store_said, sub_said};
use crate::table::{OakTable, Pass};
use oak_model::Kind;
use std::marker::Brand;

/// Pins a room, and sees its base and its bounds: `word` is its pin word, and `operand` one pin. A pass
/// has one pin on a room at most. The pass's tries are raised by 1, whatever was found.
pub fn pin_room(table: &OakTable, pass: &mut Pass, word: u32, operand: u64) -> u64
    requires own { IsPassOf table.now pass.old }
    requires names { (r : ℕ) × NamesRoomPin (key table.now) r word × (operand ≡ 1) × MayOnRooms (key table.now)
        (call_of pass.old) (pin_room r) (state pass.old) }
    ensures own { Stays pass.old pass.new }
    ensures tries { tries pass.new ≡ raised (tries pass.old) 1 }
    ensures told { (r : ℕ) → NamesRoomPin (key table.now) r word → PinsRoomWord (key table.now) (call_of pass.old) r
        (state pass.old) result (state pass.new) }
{
    let found = add_said::<Brand>(table, pass, word as usize, operand);
    pass.tries = pass.tries.saturating_add(1);
    found
}

/// Undoes the pass's pin on a room, while it has no claim: `word` is the room's pin word, and
/// `operand` one pin.
pub fn unpin_room(table: &OakTable, pass: &mut Pass, word: u32, operand: u64) -> u64
    requires own { IsPassOf table.now pass.old }
    requires names { (r : ℕ) × NamesRoomPin (key table.now) r word × (operand ≡ 1) × MayOnRooms (key table.now)
        (call_of pass.old) (unpin_room r) (state pass.old) }
    ensures own { Stays pass.old pass.new }
    ensures tries { TriesStay pass.old pass.new }
    ensures told { (r : ℕ) → NamesRoomPin (key table.now) r word → UnpinsRoomWord (key table.now) (call_of pass.old) r
        (state pass.old) result (state pass.new) }
{
    sub_said::<Brand>(table, pass, word as usize, operand)
}

/// Claims the entry past the count of a room on which the pass has a good pin, where the count is `old`:
/// `word` is the room's count word, and `new` its number with one entry more. The entry is in use from
/// then on, and its words are the pass's own. A pass has one claim at most.
pub fn claim_entry(table: &OakTable, pass: &mut Pass, word: u32, old: u64, new: u64) -> u64
    requires own { IsPassOf table.now pass.old }
    requires names { (r : ℕ) × NamesCount (key table.now) r word × (new ≡ old + 1) × MayOnRooms (key table.now) (call_of pass.old) (claim_entry r old) (state pass.old) }
    ensures own { Stays pass.old pass.new }
    ensures told { (r : ℕ) → NamesCount (key table.now) r word → ClaimsEntry (key table.now) (call_of pass.old) r old (state pass.old) result (state pass.new) }
{
    exchange_said::<Brand>(table, pass, word as usize, old, new)
}

/// Stores a number to `word`, a word of the entry that the pass has claimed. A key word other than 0 names
/// a block that the pass holds, which is the entry's from then on; with a key word of 0 the pass has the
/// block back, and the entry is claimed no more.
pub fn own_entry(table: &OakTable, pass: &mut Pass, word: u32, value: u64)
    requires own { IsPassOf table.now pass.old }
    requires names { (f : EntryField) × (r : ℕ) × (i : ℕ) × NamesEntryWord (key table.now) f r i word × MayOnRooms (key table.now) (call_of pass.old) (own_entry f r i value) (state pass.old) }
    ensures own { Stays pass.old pass.new }
    ensures told { (f : EntryField) (r i : ℕ) → NamesEntryWord (key table.now) f r i word → OwnsEntry (key table.now) (call_of pass.old) f r i value (state pass.old) (state pass.new) }
{
    store_said::<Brand>(table, pass, word as usize, value);
}

/// Links the entry that the pass has claimed, where the link is `old`: `word` is the room's first link
/// word, or that of an entry that the pass found, and `new` names the claimed entry.
pub fn link(table: &OakTable, pass: &mut Pass, word: u32, old: u64, new: u64) -> u64
    requires own { IsPassOf table.now pass.old }
    requires names { (r : ℕ) × (from : Option ℕ) × (i : ℕ) × NamesLink (key table.now) r from word × (new ≡ i + 1) × MayOnRooms (key table.now) (call_of pass.old) (link_entry r from i old) (state pass.old) }
    ensures own { Stays pass.old pass.new }
    ensures told { (r : ℕ) (from : Option ℕ) (i : ℕ) → NamesLink (key table.now) r from word → new ≡ i + 1 → LinksEntry (key table.now) (call_of pass.old) r from i old (state pass.old) result (state pass.new) }
{
    exchange_said::<Brand>(table, pass, word as usize, old, new)
}

/// Sets a header that the pass has fresh as the value of an entry that it found under a good pin, where
/// the entry has no value: `word` is its value word, `old` the floor that it is, and `new` names the
/// header. Where `old` was found, this is a write of the kind, and the header is the entry's from then on.
pub fn set_value(
    table: &OakTable,
    pass: &mut Pass,
    word: u32,
    old: u64,
    new: u64,
    kind: Kind,
) -> u64
    requires own { IsPassOf table.now pass.old }
    requires names { (r : ℕ) × (i : ℕ) × NamesEntryWord (key table.now) of_value r i word × MayOnRooms (key table.now)
        (call_of pass.old) (set_value r i old new kind) (state pass.old) }
    ensures own { Stays pass.old pass.new }
    ensures told { (r i : ℕ) → NamesEntryWord (key table.now) of_value r i word → SetsValueWord (key table.now)
        (call_of pass.old) r i old new kind (state pass.old) result (state pass.new) }
{
    exchange_of_kind::<Brand>(table, pass, word as usize, old, new, kind)
}

/// Unlinks the header that the pass buries from the entry of its key, which it found under a good pin:
/// `word` is the entry's value word, and `value` the stamp of the removal, its floor from then on.
pub fn unlink(table: &OakTable, pass: &mut Pass, word: u32, value: u64)
    requires own { IsPassOf table.now pass.old }
    requires names { (r : ℕ) × (i : ℕ) × NamesEntryWord (key table.now) of_value r i word × MayOnRooms (key table.now)
        (call_of pass.old) (unlink_entry r i value) (state pass.old) }
    ensures own { Stays pass.old pass.new }
    ensures told { (r i : ℕ) → NamesEntryWord (key table.now) of_value r i word → UnlinksEntryWord (key table.now)
        (call_of pass.old) r i value (state pass.old) (state pass.new) }
{
    let value_word = word as usize;
    store_said::<Brand>(table, pass, value_word, value);
}

/// Freezes an open room, where its pin word is still `old`: `word` is that word, and `new` is `old` with
/// one state more. The pass has the room frozen where `old` was found.
pub fn freeze(table: &OakTable, pass: &mut Pass, word: u32, old: u64, new: u64) -> u64
    requires own { IsPassOf table.now pass.old }
    requires names { (r : ℕ) × NamesRoomPin (key table.now) r word × (new ≡ old + STATE) × MayOnRooms (key table.now)
        (call_of pass.old) (freeze_room r old) (state pass.old) }
    ensures own { Stays pass.old pass.new }
    ensures told { (r : ℕ) → NamesRoomPin (key table.now) r word → FreezesRoom (key table.now)
        (call_of pass.old) r old (state pass.old) result (state pass.new) }
{
    let open_word = word as usize;
    exchange_said::<Brand>(table, pass, open_word, old, new)
}

/// Opens a room again that the pass has frozen and does not hold, whatever pins stand on it: `word` is
/// the room's pin word, and `operand` what lies between the states frozen and open. The word keeps its
/// count. The pass has the room no more; its range never moved, so no key changes, and the pins that were
/// good are good still.
pub fn thaw_room(table: &OakTable, pass: &mut Pass, word: u32, operand: u64) -> u64
    requires own { IsPassOf table.now pass.old }
    requires names { (r : ℕ) × NamesRoomPin (key table.now) r word × (operand ≡ (FROZEN - OPEN) * STATE)
        × MayOnRooms (key table.now) (call_of pass.old) (thaw_room r) (state pass.old) }
    ensures own { Stays pass.old pass.new }
    ensures told { (r : ℕ) → NamesRoomPin (key table.now) r word → ThawsRoom (key table.now) (call_of pass.old) r
        (state pass.old) result (state pass.new) }
{
    let thawed_word = word as usize;
    sub_said::<Brand>(table, pass, thawed_word, operand)
}

/// Comes to hold a room alone that the pass has frozen, and on which no pin stands any more, where its
/// pin word is still `old`: `word` is that word, and `new` is `old` with one state more. The room's range
/// moves with the pass where `old` was found.
pub fn hold_room(table: &OakTable, pass: &mut Pass, word: u32, old: u64, new: u64) -> u64
    requires own { IsPassOf table.now pass.old }
    requires names { (r : ℕ) × NamesRoomPin (key table.now) r word × (new ≡ old + STATE) × MayOnRooms (key table.now)
        (call_of pass.old) (hold_room r old) (state pass.old) }
    ensures own { Stays pass.old pass.new }
    ensures told { (r : ℕ) → NamesRoomPin (key table.now) r word → HoldsRoomWord (key table.now)
        (call_of pass.old) r old (state pass.old) result (state pass.new) }
{
    let frozen_word = word as usize;
    exchange_said::<Brand>(table, pass, frozen_word, old, new)
}

/// Claims a free room, on which no pin stands, where its pin word is still `old`: `word` is that word,
/// and `new` is `old` with the state held. The pass holds the room alone where `old` was found.
pub fn claim_room(table: &OakTable, pass: &mut Pass, word: u32, old: u64, new: u64) -> u64
    requires own { IsPassOf table.now pass.old }
    requires names { (r : ℕ) × NamesRoomPin (key table.now) r word × (new ≡ old + HELD * STATE)
        × MayOnRooms (key table.now) (call_of pass.old) (claim_room r old) (state pass.old) }
    ensures own { Stays pass.old pass.new }
    ensures told { (r : ℕ) → NamesRoomPin (key table.now) r word → ClaimsRoom (key table.now) (call_of pass.old) r old
        (state pass.old) result (state pass.new) }
{
    let free_word = word as usize;
    exchange_said::<Brand>(table, pass, free_word, old, new)
}

/// Stores a number to `word`, any word but the pin word of a room that the pass holds alone. Where a key
/// word becomes 0, the carried entry that it named is dropped, if it has no value: the pass holds its
/// block then.
pub fn store_room(table: &OakTable, pass: &mut Pass, word: u32, value: u64)
    requires own { IsPassOf table.now pass.old }
    requires names { (p : RoomSpot) × NamesRoomWord (key table.now) p word × MayOnRooms (key table.now)
        (call_of pass.old) (store_room p value) (state pass.old) }
    ensures own { Stays pass.old pass.new }
    ensures told { (p : RoomSpot) → NamesRoomWord (key table.now) p word → StoresRoom (key table.now)
        (call_of pass.old) p value (state pass.old) (state pass.new) }
{
    let room_word = word as usize;
    store_said::<Brand>(table, pass, room_word, value);
}

/// Opens a room that the pass holds alone, over a range that moves with the pass, or over its upper part:
/// `word` is the room's pin word, and `operand` what lies between the states held and open. The room has
/// the range's base, its high bound and its entries, which are its sorted prefix, each linked to the next,
/// with 0 in the key word and the value word of each entry behind them. The pass has them no more.
pub fn open_room(table: &OakTable, pass: &mut Pass, word: u32, operand: u64) -> u64
    requires own { IsPassOf table.now pass.old }
    requires names { (r : ℕ) × NamesRoomPin (key table.now) r word × (operand ≡ (HELD - OPEN) * STATE)
        × MayOnRooms (key table.now) (call_of pass.old) (open_room r) (state pass.old) }
    ensures own { Stays pass.old pass.new }
    ensures told { (r : ℕ) → NamesRoomPin (key table.now) r word → OpensRoom (key table.now) (call_of pass.old) r
        (state pass.old) result (state pass.new) }
{
    let held_word = word as usize;
    sub_said::<Brand>(table, pass, held_word, operand)
}

/// Retires a room that the pass holds alone: `word` is its pin word, and `operand` the state held. The
/// room is free then. The range that came with it, if the pass still has that, joins the one just below.
pub fn retire_room(table: &OakTable, pass: &mut Pass, word: u32, operand: u64) -> u64
    requires own { IsPassOf table.now pass.old }
    requires names { (r : ℕ) × NamesRoomPin (key table.now) r word × (operand ≡ HELD * STATE)
        × MayOnRooms (key table.now) (call_of pass.old) (retire_room r) (state pass.old) }
    ensures own { Stays pass.old pass.new }
    ensures told { (r : ℕ) → NamesRoomPin (key table.now) r word → RetiresRoom (key table.now) (call_of pass.old) r
        (state pass.old) result (state pass.new) }
{
    let retired_word = word as usize;
    sub_said::<Brand>(table, pass, retired_word, operand)
}
