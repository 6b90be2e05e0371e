//! Mending of the index behind a settling: merges leave it pairs of rooms that are free, and want of memory leaves it
//! without some that it needs. Nothing is promised of it.
ghost use Rattle.std.specs.Prelude.{◌≡◌, IfSome};
ghost use Rattle.oak_model.specs.Key.{IsKey};
ghost use Rattle.oak_core.specs.PassState.{HoldsNothing};
ghost use Rattle.oak_core.specs.Passes.{IsPassOf, Stays, call_of, key as sizes, state};
ghost use Rattle.chunk_ops.specs.PinRecords.{OnlyMeets};
ghost use Rattle.chunk_ops.specs.RoomPins.{HadMoment};
ghost use Rattle.oak_map.specs.Maps.{table_of};

use crate::chunks::{Chunk, read_chunk};
use crate::map::OakMap;
use crate::publishing::publish;
use chunk_ops::KeyBytes;
use oak_core::Pass;
use std::sync::Wait;
use std::thread;

/// Publishes where the chunk in the room begins, unless the index names the room for that key. `false` comes for want of
/// memory.
fn publish_low<R: Wait + Drop + Send>(
    rt: &R,
    map: &OakMap<R>,
    pass: &mut Pass,
    low: &[u8],
    room: u32,
) -> bool
    requires { IsKey low.now }
    ensures { pass.new ≡ pass.old }
{
    pass.hint_now(low).room == Some(room) || publish(rt, map, pass, low, room)
}

/// Takes out the pairs of other rooms that the index has within the range of the chunk, which begins at `low`. Another
/// room's pair is taken out by publishing that room at `low`, and then the chunk's own there: so it need not be known
/// where the pair was.
fn take_out_others<R: Wait + Drop + Send>(
    rt: &R,
    map: &OakMap<R>,
    pass: &mut Pass,
    low: &[u8],
    chunk: &Chunk,
)
    requires { IsKey low.now }
    ensures { pass.new ≡ pass.old }
{
    for _ in 0..map.table.rooms() {
        let high = chunk.high.as_ref().map(|high| high.as_slice());
        let Some(other) = pass.hint_under(high).room else {
            return;
        };
        let done = other == chunk.room
            || !publish(rt, map, pass, low, other)
            || !publish(rt, map, pass, low, chunk.room);
        if done {
            return;
        }
    }
}

/// Mends what the index has of one chunk. The lowest one needs no pair, since its room is tried where there is none.
fn mend_chunk<R: Wait + Drop + Send>(rt: &R, map: &OakMap<R>, pass: &mut Pass, chunk: &Chunk)
    requires { IfSome chunk.now.low (λ k. IsKey k) }
    ensures { pass.new ≡ pass.old }
{
    match &chunk.low {
        None => take_out_others(rt, map, pass, KeyBytes::least().as_slice(), chunk),
        Some(low) => {
            if publish_low(rt, map, pass, low.as_slice(), chunk.room) {
                take_out_others(rt, map, pass, low.as_slice(), chunk);
            }
        }
    }
}

/// Reads the chunk that covers the key, and mends what the index has of it. None comes where another pass moved it.
fn mend_at<R: Wait + Drop + Send>(
    rt: &R,
    map: &OakMap<R>,
    pass: &mut Pass,
    key: &[u8],
) -> Option<Chunk>
    requires own { IsPassOf (table_of map.now) pass.old }
    requires idle { HoldsNothing (state pass.old) }
    requires key { IsKey key.now }
    ensures own { Stays pass.old pass.new }
    ensures high { IfSome result (λ c. IfSome c.high (λ k. IsKey k)) }
    ensures only { OnlyMeets (call_of pass.old) (state pass.old) (state pass.new) }
    ensures ended { IfSome result (λ _. HadMoment (sizes (table_of map.now)) (state pass.new)) }
{
    let hint = pass.hint_now(key);
    let chunk = read_chunk(&map.table, pass, key, hint)?;
    mend_chunk(rt, map, pass, &chunk);
    Some(chunk)
}

/// Goes over the chunks once, from the lowest on, so that the index has the pairs of these and no others, if no other pass
/// moves one meanwhile. It waits while other passes do.
pub(crate) fn mend<R: Wait + Drop + Send>(rt: &R, map: &OakMap<R>, pass: &mut Pass)
    requires own { IsPassOf (table_of map.now) pass.old }
    requires idle { HoldsNothing (state pass.old) }
    ensures own { Stays pass.old pass.new }
    ensures only { OnlyMeets (call_of pass.old) (state pass.old) (state pass.new) }
    ensures ended { HadMoment (sizes (table_of map.now)) (state pass.new) }
{
    let mut from = KeyBytes::least();
    for _ in rt.forever() {
        match mend_at(rt, map, pass, from.as_slice()) {
            None => thread::yield_now(),
            Some(chunk) => match chunk.high {
                Some(high) => from = high,
                None => return,
            },
        }
    }
    unreachable!()
}
