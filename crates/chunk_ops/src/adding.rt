//! Entries are added to a pinned room.
ghost use Rattle.std.specs.Prelude.{◌≡◌, None, IfOk, IfErr, length};
ghost use Rattle.oak_core.specs.AloneWords.{Runs};
ghost use Rattle.oak_core.specs.Passes.{IsPassOf, Stays, state, key as sizes, call_of};
ghost use Rattle.oak_core.specs.QuietSteps.{MetOnly, TookNone};
ghost use Rattle.chunk_ops.specs.Adds.{MayAdd, AddsEntry, KeepsBlock, NotAddedBy};
ghost use Rattle.chunk_ops.specs.AddsAlone.{AddsIn, NotAddedIn};
ghost use Rattle.chunk_ops.specs.Finds.{LiesBefore, LiesBehind};
ghost use Rattle.chunk_ops.specs.PinRecords.{HasRoomPin};

use crate::entries::{AddHalt, EntryNo, NotAdded, number_in};
use crate::entry_numbers::first_key_at;
use crate::loading::base_of;
use crate::pinned_table::PinnedTable;
use crate::room_pins::RoomPin;
use arena_core::place::place_word;
use arena_ops::give;
use link_search::Outcome;
use oak_core::{Block, OakTable, Pass};

/// An entry of the key, which is in the block. The links are walked from the entry `behind`, as a search of
/// this pin found it, or from the first, and where they lead to the `link` by which that search ended, no key
/// is compared again. Where the room has none, the entry past its count is claimed, gets
/// the block and the room's base as its floor, and is linked in the order of the keys; else the block is
/// given back. `Crowded` comes only where the room had as many entries as it may and
/// none of the key, `Busy` only where the room's count or a link was found other than it was loaded before,
/// with no step of the call between that changed it; both hand the block back. To a pass that is alone
/// `Crowded` comes exactly where the room has as many entries as it may and none of the key, and `Busy` never;
/// else no words change but the word of the block's bit, where the entry was there, or the three words of the
/// next entry, the count, and the link that names it. No step of it takes a block.
pub fn add(
    table: &OakTable,
    pass: &mut Pass,
    pin: &RoomPin,
    key: &[u8],
    block: Block,
    behind: Option<EntryNo>,
    link: u32,
) -> Result<EntryNo, NotAdded>
    requires own { IsPassOf table.now pass.old }
    requires pinned { HasRoomPin (sizes table.now) pin.now.room (state pass.old) }
    requires claim { (state pass.old).rooms.claim ≡ None }
    requires key { MayAdd (sizes table.now) block.class block.number key.now (state pass.old) }
    requires behind { LiesBehind pin.now.room behind key.now (state pass.old) }
    requires before { LiesBefore pin.now.room link key.now (state pass.old) }
    ensures own { Stays pass.old pass.new }
    ensures added { IfOk result (λ i. AddsEntry (sizes table.now) (call_of pass.old) pin.now.room i.0 block.class
        block.number key.now (state pass.old) (state pass.new)) }
    ensures took { MetOnly TookNone (state pass.old) (state pass.new) }
    ensures block { IfErr result (λ n. n.block ≡ block) }
    ensures under { IfErr result (λ n. KeepsBlock (sizes table.now) (call_of pass.old) pin.now.room block.class
        block.number key.now (state pass.old) (state pass.new)) }
    ensures not_added { IfErr result (λ n. NotAddedBy n.why (sizes table.now) (call_of pass.old) pin.now.room key.now
        (state pass.old) (state pass.new)) }
    ensures alone { IfOk result (λ i. Runs (AddsIn (sizes table.now) pin.now.room i block.class block.number
        (length key.now) key.now) (state pass.old) (state pass.new)) }
    ensures alone_not_added { IfErr result (λ n. Runs (NotAddedIn n.why (sizes table.now) pin.now.room key.now)
        (state pass.old) (state pass.new)) }
{
    let base = base_of(table, pass, pin);
    let mut room = PinnedTable {
        table,
        pass,
        room: pin.room,
        first: first_key_at(table, pin.room),
        base,
        place: place_word(block.class, block.number, key.len() as u16),
    };
    match link_search::add(&mut room, key, number_in(behind), link, table.entries()) {
        Outcome::Found(entry) => {
            give(table, pass, block);
            Ok(EntryNo(entry))
        }
        Outcome::Added(entry) => {
            let Block {
                class: _,
                number: _,
            } = block;
            Ok(EntryNo(entry))
        }
        Outcome::Full => Err(NotAdded {
            why: AddHalt::Crowded,
            block,
        }),
        Outcome::Busy => Err(NotAdded {
            why: AddHalt::Busy,
            block,
        }),
    }
}
