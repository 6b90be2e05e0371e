//! A chunk and the one above it, taken and merged.
ghost use Rattle.std.specs.Prelude.{◌≡◌, ℕ, ◌<◌, List, take, Option, IfErr, IfNone, IfOk, IfSome};
ghost use Rattle.oak_model.specs.Key.{IsKey};
ghost use Rattle.oak_model.specs.KeyNumber.{key_number};
ghost use Rattle.chunk_core.specs.declared.holds.HeldRoom.{HeldRoom};
ghost use Rattle.chunk_core.specs.declared.holds.MovingRange.{MovingRange};
ghost use Rattle.chunk_core.specs.declared.holds.RoomCopy.{RoomCopy};
ghost use Rattle.chunk_core.specs.KeyWords.{high_bytes};
ghost use Rattle.oak_core.specs.AloneWords.{Runs};
ghost use Rattle.oak_core.specs.Passes.{IsPassOf, Stays, state, key as sizes, call_of, slots_of};
ghost use Rattle.oak_core.specs.PassState.{HoldsNothing};
ghost use Rattle.oak_core.specs.Scratch.{StaysButSlots};
ghost use Rattle.chunk_ops.specs.LoneRooms.{NeverElsewhere};
ghost use Rattle.chunk_ops.specs.RoomPins.{HadMoment};
ghost use Rattle.rebalance.specs.Busy.{GivesUpMerging, IsBusyFor, SweepsOff};
ghost use Rattle.rebalance.specs.Calls.{Merges};
ghost use Rattle.rebalance.specs.Chunks.{ComesBack, HoldsFront};
ghost use Rattle.rebalance.specs.HeldTables.{WorksOnRooms};
ghost use Rattle.rebalance.specs.Ranges.{IsHighKey};
ghost use Rattle.rebalance.specs.Merging.{ApartUpTo, HoldsCompacted, HoldsPair, JoinsPair, TakesChunk};

use crate::answers::Busy;
use crate::bounds::copy_high;
use crate::chunks::{open_front, try_hold};
use crate::filling::append_slots;
use crate::fronts::compact_front;
use crate::held_table::HeldTable;
use crate::ranges::load_high;
use crate::room_steps::retire_held;
use chunk_ops::{KeyBytes, StoredKey};
use oak_core::{OakTable, Pass};
use oak_model::GREATEST_ENTRIES;

/// What became of a chunk that was to be merged with the one above it: both are one chunk, or they stay
/// apart, with the key at which the one above begins, if there is one.
#[derive(Drop)]
pub(crate) enum Merged {
    Joined,
    Apart(Option<KeyBytes>),
}

/// A chunk that is held alone and compacted: its room, how many entries it has, and its base.
#[derive(Clone, Copy)]
struct Taken {
    room: u32,
    kept: usize,
    base: u64,
}

/// Tries to hold the chunk that covers the key alone, and compacts it. Its entries are in the first slots too.
/// `None` comes where it was busy, as [`try_hold`] says, and the pass has what it had then.
fn try_take_chunk(table: &OakTable, pass: &mut Pass, key: &[u8], looks: u32) -> Option<Taken>
    requires own { IsPassOf table.now pass.old }
    requires key { IsKey key.now }
    requires compacted { HoldsCompacted (sizes table.now) (state pass.old) }
    requires some { 0 < looks }
    ensures own { StaysButSlots pass.old pass.new }
    ensures takes { IfSome result (λ t. TakesChunk (sizes table.now) (call_of pass.old) key.now t
        (take t.kept (slots_of pass.new)) (state pass.old) (state pass.new)) }
    ensures back { IfNone result (ComesBack (sizes table.now) (call_of pass.old) (state pass.old) (state pass.new)) }
    ensures busy { IfNone result (IsBusyFor (sizes table.now) (call_of pass.old) looks key.now (state pass.old) (state pass.new)) }
    ensures swept { IfNone result (SweepsOff (sizes table.now) (call_of pass.old) key.now (state pass.old) (state pass.new)) }
    ensures alone { IfNone result (Runs (NeverElsewhere (key_number key.now) (state pass.old)) (state pass.old) (state pass.new)) }
{
    let room = try_hold(table, pass, key, looks)?;
    let read = compact_front(table, pass, room);
    Some(Taken {
        room,
        kept: read.kept,
        base: read.base,
    })
}

/// Loads the key before which the range of the front room ends; none where no range is above it.
fn load_end(table: &OakTable, pass: &mut Pass, room: u32) -> Option<StoredKey>
    requires own { IsPassOf table.now pass.old }
    requires front { (w : RoomCopy) × (g : MovingRange) × (hs : List HeldRoom) × (gs : List MovingRange)
        × HoldsFront (sizes table.now) room w g hs gs (state pass.old) }
    ensures own { Stays pass.old pass.new }
    ensures works { WorksOnRooms (sizes table.now) (call_of pass.old) (state pass.old) (state pass.new) }
    ensures rooms { (state pass.new).rooms ≡ (state pass.old).rooms }
    ensures high { (w : RoomCopy) (g : MovingRange) (hs : List HeldRoom) (gs : List MovingRange)
        → HoldsFront (sizes table.now) room w g hs gs (state pass.old) → IsHighKey w.high result }
{
    // Reading the slots shows how many there are, before and behind.
    prove!(pass.sorting().slots().len() == GREATEST_ENTRIES as usize);
    let high = load_high(&mut HeldTable { table, pass }, room);
    prove!(pass.sorting().slots().len() == GREATEST_ENTRIES as usize);
    high
}

/// The same key, as its bytes.
fn high_of(table: &OakTable, pass: &mut Pass, room: u32) -> Option<KeyBytes>
    requires own { IsPassOf table.now pass.old }
    requires front { (w : RoomCopy) × (g : MovingRange) × (hs : List HeldRoom) × (gs : List MovingRange)
        × HoldsFront (sizes table.now) room w g hs gs (state pass.old) }
    ensures own { Stays pass.old pass.new }
    ensures works { WorksOnRooms (sizes table.now) (call_of pass.old) (state pass.old) (state pass.new) }
    ensures rooms { (state pass.new).rooms ≡ (state pass.old).rooms }
    ensures high { (w : RoomCopy) (g : MovingRange) (hs : List HeldRoom) (gs : List MovingRange)
        → HoldsFront (sizes table.now) room w g hs gs (state pass.old) → high_bytes w.high ≡ result }
{
    Some(KeyBytes::of(&load_end(table, pass, room)?))
}

/// Stores the entries and the high bound of the upper chunk into the room of the lower one, whose entries
/// are below them, and retires the upper room. The slots have the upper chunk's entries.
fn join_above(table: &OakTable, pass: &mut Pass, low: &Taken, up: &Taken)
    requires own { IsPassOf table.now pass.old }
    requires pair { HoldsPair (sizes table.now) low.now up.now (take up.now.kept (slots_of pass.old)) (state pass.old) }
    ensures own { StaysButSlots pass.old pass.new }
    ensures joins { (p : HoldsPair (sizes table.now) low.now up.now (take up.now.kept (slots_of pass.old))
        (state pass.old)) → JoinsPair (sizes table.now) (call_of pass.old) low.now up.now p.below p.above
        (state pass.old) (state pass.new) }
{
    // Reading the slots shows how many there are.
    prove!(pass.sorting().slots().len() == GREATEST_ENTRIES as usize);
    let rooms = &mut HeldTable { table, pass };
    copy_high(rooms, up.room, low.room);
    append_slots(rooms, low.room, low.kept, up.kept, low.base.max(up.base));
    retire_held(table, rooms.pass, up.room);
}

/// Merges the chunk that covers the key with the one above it, where the two have at most half as many
/// entries with a value as a room has entries. Else both are opened again, compacted. `Busy` comes where the
/// one or the other was busy; where it is the other, the one is opened again, compacted.
pub(crate) fn try_merge_chunk(
    table: &OakTable,
    pass: &mut Pass,
    key: &[u8],
    looks: u32,
) -> Result<Merged, Busy>
    requires own { IsPassOf table.now pass.old }
    requires key { IsKey key.now }
    requires idle { HoldsNothing (state pass.old) }
    requires some { 0 < looks }
    ensures own { StaysButSlots pass.old pass.new }
    ensures joined { result ≡ Ok Merged.Joined → Merges (sizes table.now) (call_of pass.old) key.now (state pass.old) (state pass.new) }
    ensures apart { (high : Option (List ℕ)) → result ≡ Ok (Merged.Apart high) → ApartUpTo (sizes table.now)
        (call_of pass.old) key.now high (state pass.old) (state pass.new) }
    ensures ended { IfOk result (λ _. HadMoment (sizes table.now) (state pass.new)) }
    ensures busy { IfErr result (λ _. GivesUpMerging (sizes table.now) (call_of pass.old) looks key.now (state pass.old) (state pass.new)) }
{
    let Some(low) = try_take_chunk(table, pass, key, looks) else {
        return Err(Busy);
    };
    let Some(high) = high_of(table, pass, low.room) else {
        open_front(table, pass, low.room);
        return Ok(Merged::Apart(None));
    };
    let Some(up) = try_take_chunk(table, pass, high.as_slice(), looks) else {
        open_front(table, pass, low.room);
        return Err(Busy);
    };
    if low.kept + up.kept > table.entries() as usize / 2 {
        open_front(table, pass, up.room);
        open_front(table, pass, low.room);
        return Ok(Merged::Apart(Some(high)));
    }
    join_above(table, pass, &low, &up);
    open_front(table, pass, low.room);
    Ok(Merged::Joined)
}
