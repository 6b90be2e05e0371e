//! The chunk that a call came to hold last, read and rewritten.
ghost use Rattle.std.specs.Prelude.{◌≡◌, ℕ, ◌<◌, ◌≤◌, List, length, take};
ghost use Rattle.oak_model.specs.Counts.{Each};
ghost use Rattle.chunk_core.specs.declared.holds.HeldRoom.{HeldRoom};
ghost use Rattle.chunk_core.specs.declared.holds.MovingRange.{MovingRange};
ghost use Rattle.chunk_core.specs.declared.holds.RoomCopy.{RoomCopy};
ghost use Rattle.chunk_core.specs.LinkedEntries.{entries_in};
ghost use Rattle.chunk_core.specs.ValueWord.{names_header};
ghost use Rattle.oak_core.specs.Passes.{IsPassOf, Stays, state, key as sizes, call_of, slots_of};
ghost use Rattle.oak_core.specs.Scratch.{StaysButSlots};
ghost use Rattle.rebalance.specs.Chunks.{CompactsFront, HoldsFront, ReadsFront};
ghost use Rattle.rebalance.specs.Filled.{Fills};
ghost use Rattle.rebalance.specs.HeldRooms.{AllValued};
ghost use Rattle.rebalance.specs.HeldTables.{Apart, HoldsAlone, IsHeldRow, SeesValue, WorksOnRooms};
ghost use Rattle.rebalance.specs.Mirrors.{held_memory};
ghost use Rattle.rebalance.specs.Slots.{AllNamed};

use crate::filling::fill_room;
use crate::held_table::HeldTable;
use crate::reading::Read;
use crate::rewriting::{compact_held, read_sorted};
use oak_core::{OakTable, Pass};
use oak_model::GREATEST_ENTRIES;

/// Compacts the front room: its linked entries with a value are its sorted prefix then, in the first slots
/// too, and nothing is behind it.
pub(crate) fn compact_front(table: &OakTable, pass: &mut Pass, room: u32) -> Read
    requires own { IsPassOf table.now pass.old }
    requires front { (w : RoomCopy) × (g : MovingRange) × (hs : List HeldRoom) × (gs : List MovingRange)
        × HoldsFront (sizes table.now) room w g hs gs (state pass.old) × Each AllValued gs }
    ensures own { StaysButSlots pass.old pass.new }
    ensures compacted { (w : RoomCopy) (g : MovingRange) (hs : List HeldRoom) (gs : List MovingRange)
        → HoldsFront (sizes table.now) room w g hs gs (state pass.old) → Each AllValued gs
        → Each (IsHeldRow (sizes table.now)) hs → Apart hs → CompactsFront (sizes table.now)
        (call_of pass.old) room result.dropped (take result.kept (slots_of pass.new)) w hs gs (state pass.old)
        (state pass.new) }
    ensures many { length (take result.kept (slots_of pass.new)) ≡ result.kept }
    ensures base { result.base ≡ (held_memory (state pass.new).rooms.held).base room }
{
    let read = compact_held(&mut HeldTable { table, pass }, room);
    // Reading the slots shows how many there are.
    prove!(pass.sorting().slots().len() == GREATEST_ENTRIES as usize);
    read
}

/// Reads the front room: its linked entries with a value are in the first slots then, in the order of their
/// keys, and the others are dropped.
pub(crate) fn read_front(table: &OakTable, pass: &mut Pass, room: u32) -> Read
    requires own { IsPassOf table.now pass.old }
    requires front { (w : RoomCopy) × (g : MovingRange) × (hs : List HeldRoom) × (gs : List MovingRange)
        × HoldsFront (sizes table.now) room w g hs gs (state pass.old) }
    ensures own { StaysButSlots pass.old pass.new }
    ensures reads { ReadsFront (sizes table.now) (call_of pass.old) room (slots_of pass.new) result (state pass.old) (state pass.new) }
    ensures sees { let m = held_memory (state pass.old).rooms.held in (i : ℕ) → i < entries_in (m.count room)
        → 0 < m.key room i → names_header (m.value room i) ≡ 1 → SeesValue (sizes table.now) room i (state pass.old) (state pass.new) }
{
    let read = read_sorted(&mut HeldTable { table, pass }, room);
    // Reading the slots shows how many there are.
    prove!(pass.sorting().slots().len() == GREATEST_ENTRIES as usize);
    read
}

/// Makes the slots that were read the entries of the held room: its sorted prefix, with nothing behind it.
/// No entry that the ranges carry lacks a value.
pub(crate) fn fill_front(table: &OakTable, pass: &mut Pass, room: u32, read: &Read)
    requires own { IsPassOf table.now pass.old }
    requires held { HoldsAlone (sizes table.now) room (state pass.old) }
    requires few { read.now.kept ≤ (sizes table.now).entries }
    requires named { AllNamed (take read.now.kept (slots_of pass.old)) }
    requires valued { Each AllValued (state pass.old).rooms.moving }
    ensures own { Stays pass.old pass.new }
    ensures works { WorksOnRooms (sizes table.now) (call_of pass.old) (state pass.old) (state pass.new) }
    ensures ranges { (state pass.new).rooms.moving ≡ (state pass.old).rooms.moving }
    ensures filled { Fills (sizes table.now).entries room (take read.now.kept (slots_of pass.old)) read.now.base
        (held_memory (state pass.old).rooms.held) (held_memory (state pass.new).rooms.held) }
{
    // Reading the slots shows how many there are, before and behind.
    prove!(pass.sorting().slots().len() == GREATEST_ENTRIES as usize);
    fill_room(
        &mut HeldTable { table, pass },
        room,
        0,
        read.kept,
        read.base,
    );
    prove!(pass.sorting().slots().len() == GREATEST_ENTRIES as usize);
}
