//! What the value words of entries say.
ghost use Rattle.std.specs.Prelude.{◌≡◌, ℕ, List};
ghost use Rattle.chunk_core.specs.Rooms.{at_key};
ghost use Rattle.oak_core.specs.AloneWords.{Runs};
ghost use Rattle.oak_core.specs.Memory.{in_rooms, index};
ghost use Rattle.oak_core.specs.Passes.{IsPassOf, Stays, state, key, call_of};
ghost use Rattle.chunk_ops.specs.declared.entries.Content.{Content};
ghost use Rattle.chunk_ops.specs.Contents.{FindsContent, Says, SaysIn, TellsOf};
ghost use Rattle.chunk_ops.specs.PinRecords.{HasEntry, HasRoomPin, OnlyLearns};

use crate::entries::{Content, EntryNo};
use crate::room_pins::RoomPin;
use chunk_core::value_word::{NAMES, generation_in, header_in};
use oak_core::{OakTable, Pass, load};

/// What a value word says.
pub fn content_of(word: u64) -> Content
    ensures { Says result word }
{
    if word < NAMES {
        return Content::Floor { stamp: word };
    }
    Content::Value {
        header: header_in(word),
        generation: generation_in(word),
    }
}

/// Loads the value word of an entry, the number of whose key word is known. By a word that is a floor the entry's key was read absent, up to it;
/// by one that names a header the pass knows that life of the key, past which it has not seen the key go.
pub fn value_word_at(
    table: &OakTable,
    pass: &mut Pass,
    pin: &RoomPin,
    entry: EntryNo,
    at: u32,
) -> u64
    requires own { IsPassOf table.now pass.old }
    requires pinned { HasRoomPin (key table.now) pin.now.room (state pass.old) }
    requires entry { (k : List ℕ) × HasEntry pin.now.room entry.0 k (state pass.old) }
    requires number { at ≡ index (key table.now) (in_rooms (at_key pin.now.room entry.0)) }
    ensures own { Stays pass.old pass.new }
    ensures content { (c : Content) → Says c result → FindsContent (key table.now) (call_of pass.old) pin.now.room
        entry.0 c (state pass.old) (state pass.new) }
    ensures tells { (c : Content) (k : List ℕ) → Says c result → HasEntry pin.now.room entry.0 k (state pass.old)
        → TellsOf c (key table.now) (call_of pass.old) pin.now.room entry.0 k (state pass.old) (state pass.new) }
    ensures only { OnlyLearns (call_of pass.old) (state pass.old) (state pass.new) }
    ensures alone { (c : Content) → Says c result → Runs (SaysIn c (key table.now) pin.now.room entry.0)
        (state pass.old) (state pass.new) }
{
    load(table, pass, at + 1)
}

/// What the value word of an entry says, which is loaded once. By a floor the entry's key was read
/// absent, up to it; by a header the pass knows that life of the key, past which it has not seen the key
/// go.
pub fn content(table: &OakTable, pass: &mut Pass, pin: &RoomPin, entry: EntryNo) -> Content
    requires own { IsPassOf table.now pass.old }
    requires pinned { HasRoomPin (key table.now) pin.now.room (state pass.old) }
    requires entry { (k : List ℕ) × HasEntry pin.now.room entry.0 k (state pass.old) }
    ensures own { Stays pass.old pass.new }
    ensures content { FindsContent (key table.now) (call_of pass.old) pin.now.room entry.0 result (state pass.old) (state pass.new) }
    ensures tells { (k : List ℕ) → HasEntry pin.now.room entry.0 k (state pass.old) → TellsOf result (key table.now)
        (call_of pass.old) pin.now.room entry.0 k (state pass.old) (state pass.new) }
    ensures only { OnlyLearns (call_of pass.old) (state pass.old) (state pass.new) }
    ensures alone { Runs (SaysIn result (key table.now) pin.now.room entry.0) (state pass.old) (state pass.new) }
{
    let at = table.key_at(pin.room, entry.0);
    content_of(value_word_at(table, pass, pin, entry, at))
}
