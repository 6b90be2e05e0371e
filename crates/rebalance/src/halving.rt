//! A full chunk is opened as two.
ghost use Rattle.chunk_core.specs.declared.holds.MovingRange.{MovingRange};
ghost use Rattle.chunk_core.specs.declared.holds.RoomCopy.{RoomCopy};
ghost use Rattle.oak_core.specs.Passes.{IsPassOf, Stays, state, key as sizes, call_of, slots_of};
ghost use Rattle.rebalance.specs.Halving.{HasWhole, HoldsPair, OpensHalves, StoresHalves};

use crate::held_table::HeldTable;
use crate::reading::Read;
use crate::room_steps::open_held;
use crate::storing_halves::split_held;
use oak_core::{OakTable, Pass};
use oak_model::GREATEST_ENTRIES;

/// Stores the slots that were read, the lower half into the room that they were read from and the upper
/// half into the claimed one, with the bound between the two.
fn store_halves(table: &OakTable, pass: &mut Pass, room: u32, upper: u32, read: &Read)
    requires own { IsPassOf table.now pass.old }
    requires pair { (w : RoomCopy) × (c : RoomCopy) × (g : MovingRange) × HoldsPair (sizes table.now) room upper w c g (state pass.old) }
    requires whole { HasWhole (sizes table.now) room (slots_of pass.old) read.now (state pass.old) }
    ensures own { Stays pass.old pass.new }
    ensures stores { (w c : RoomCopy) (g : MovingRange) → HoldsPair (sizes table.now) room upper w c g
        (state pass.old) → StoresHalves (sizes table.now) (call_of pass.old) room upper w g (state pass.old)
        (state pass.new) }
{
    // Reading the slots shows how many there are, before and behind.
    prove!(pass.sorting().slots().len() == GREATEST_ENTRIES as usize);
    split_held(
        &mut HeldTable { table, pass },
        room,
        upper,
        read.kept,
        read.base,
    );
    prove!(pass.sorting().slots().len() == GREATEST_ENTRIES as usize);
}

/// Opens the range of a full room as two, the upper half of its entries in the claimed room. That is opened
/// first: it takes the upper part of the range, and the lower room what is left.
pub(crate) fn halve(table: &OakTable, pass: &mut Pass, room: u32, upper: u32, read: &Read)
    requires own { IsPassOf table.now pass.old }
    requires pair { (w : RoomCopy) × (c : RoomCopy) × (g : MovingRange) × HoldsPair (sizes table.now) room upper w c g (state pass.old) }
    requires whole { HasWhole (sizes table.now) room (slots_of pass.old) read.now (state pass.old) }
    ensures own { Stays pass.old pass.new }
    ensures halves { (w c : RoomCopy) (g : MovingRange) → HoldsPair (sizes table.now) room upper w c g
        (state pass.old) → OpensHalves (sizes table.now) (call_of pass.old) room upper w (state pass.old)
        (state pass.new) }
{
    store_halves(table, pass, room, upper, read);
    open_held(table, pass, upper);
    open_held(table, pass, room);
}
