//! Splitting a chunk.
ghost use Rattle.std.specs.Prelude.{◌≡◌, ℕ, ◌<◌, IfErr, IfOk};
ghost use Rattle.oak_model.specs.Key.{IsKey};
ghost use Rattle.oak_core.specs.Passes.{IsPassOf, state, key as sizes, call_of};
ghost use Rattle.oak_core.specs.PassState.{HoldsNothing};
ghost use Rattle.oak_core.specs.Scratch.{StaysButSlots};
ghost use Rattle.rebalance.specs.Busy.{GivesUpRewriting};
ghost use Rattle.rebalance.specs.Calls.{Loosens, Halves, FindsNoRoom};

use crate::answers::{Busy, NoRoom, Split};
use crate::chunks::{LOOKS, open_front, try_hold};
use crate::fronts::{fill_front, read_front};
use crate::halving::halve;
use crate::room_steps::claim_free;
use oak_core::{OakTable, Pass};
use std::sync::Wait;
use std::thread;

/// Compacts the chunk that covers the key, and where each of its entries was linked and had a value, so that
/// none was dropped, opens its range as two, the upper half in a room that was free. `NoRoom` comes only where
/// every other room was found not free in this call; the chunk is opened again with the same range, base
/// and entries, which are its sorted prefix. Each room that it claims, or tries to claim, it claims while it
/// holds the chunk, which was full when it came to hold it. It waits for nobody: `Busy` comes only where
/// another pass had moved or frozen the chunk, or at each of so many looks at its pin word other passes had
/// pinned it; to a pass that is alone it never comes.
pub fn try_split(
    table: &OakTable,
    pass: &mut Pass,
    key: &[u8],
    looks: u32,
) -> Result<Result<Split, NoRoom>, Busy>
    requires own { IsPassOf table.now pass.old }
    requires key { IsKey key.now }
    requires idle { HoldsNothing (state pass.old) }
    requires some { 0 < looks }
    ensures own { StaysButSlots pass.old pass.new }
    ensures loosened { result ≡ Ok (Ok Split.Loosened) → Loosens (sizes table.now) (call_of pass.old) key.now (state pass.old) (state pass.new) }
    ensures halved { (room : ℕ) → result ≡ Ok (Ok (Split.Halved room)) → Halves (sizes table.now)
        (call_of pass.old) key.now room (state pass.old) (state pass.new) }
    ensures none { IfOk result (λ answer. IfErr answer
        (λ _. FindsNoRoom (sizes table.now) (call_of pass.old) key.now (state pass.old) (state pass.new))) }
    ensures busy { IfErr result (λ _. GivesUpRewriting (sizes table.now) (call_of pass.old) looks key.now
        (state pass.old) (state pass.new)) }
{
    let Some(room) = try_hold(table, pass, key, looks) else {
        return Err(Busy);
    };
    let read = read_front(table, pass, room);
    if read.kept < table.entries() as usize {
        fill_front(table, pass, room, &read);
        open_front(table, pass, room);
        return Ok(Ok(Split::Loosened));
    }
    let Some(upper) = claim_free(table, pass, room) else {
        fill_front(table, pass, room, &read);
        open_front(table, pass, room);
        return Ok(Err(NoRoom));
    };
    halve(table, pass, room, upper, &read);
    Ok(Ok(Split::Halved { room: upper }))
}

/// Splits the chunk that covers the key as [`try_split`] does. It waits until no pin stands on the chunk.
pub fn split<R: Wait>(
    rt: &R,
    table: &OakTable,
    pass: &mut Pass,
    key: &[u8],
) -> Result<Split, NoRoom>
    requires own { IsPassOf table.now pass.old }
    requires key { IsKey key.now }
    requires idle { HoldsNothing (state pass.old) }
    ensures own { StaysButSlots pass.old pass.new }
    ensures loosened { result ≡ Ok Split.Loosened → Loosens (sizes table.now) (call_of pass.old) key.now (state pass.old) (state pass.new) }
    ensures halved { (room : ℕ) → result ≡ Ok (Split.Halved room) → Halves (sizes table.now)
        (call_of pass.old) key.now room (state pass.old) (state pass.new) }
    ensures none { IfErr result (λ _. FindsNoRoom (sizes table.now) (call_of pass.old) key.now (state pass.old) (state pass.new)) }
{
    for _ in rt.forever() {
        if let Ok(answer) = try_split(table, pass, key, LOOKS) {
            return answer;
        }
        thread::yield_now();
    }
    unreachable!()
}
