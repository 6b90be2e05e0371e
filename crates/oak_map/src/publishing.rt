//! Where the upper chunk of a split begins is published in the index. Nothing is promised of that, so its want of memory
//! changes no answer.
ghost use Rattle.std.specs.Prelude.{◌≡◌, IfSome};
ghost use Rattle.oak_model.specs.Key.{IsKey};
ghost use Rattle.oak_core.specs.PassState.{HoldsNothing};
ghost use Rattle.oak_core.specs.Passes.{IsPassOf, Stays, call_of, state};
ghost use Rattle.chunk_ops.specs.PinRecords.{OnlyMeets};
ghost use Rattle.oak_map.specs.Maps.{table_of};

use crate::chunks::{read_chunk, read_room};
use crate::map::OakMap;
use chunk_ops::KeyBytes;
use oak_core::Pass;
use std::sync::Wait;

/// Publishes where the chunk in the room begins, and has the pass's next hint go by the index as it is then. `false` comes
/// for want of memory.
pub(crate) fn publish<R: Wait + Drop + Send>(
    rt: &R,
    map: &OakMap<R>,
    pass: &mut Pass,
    low: &[u8],
    room: u32,
) -> bool
    requires { IsKey low.now }
    ensures { pass.new ≡ pass.old }
{
    pass.forget_hints();
    map.index.publish(rt, low, room).is_ok()
}

/// Where the chunk of the key ends, whose room the index names.
fn lower_high<R: Wait + Drop + Send>(
    map: &OakMap<R>,
    pass: &mut Pass,
    key: &[u8],
) -> Option<KeyBytes>
    requires own { IsPassOf (table_of map.now) pass.old }
    requires idle { HoldsNothing (state pass.old) }
    requires key { IsKey key.now }
    ensures own { Stays pass.old pass.new }
    ensures high { IfSome result (λ k. IsKey k) }
    ensures only { OnlyMeets (call_of pass.old) (state pass.old) (state pass.new) }
{
    let hint = pass.hint(key);
    read_chunk(&map.table, pass, key, hint)?.high
}

/// Where the chunk in the room begins, which a split of the chunk of the key has just opened as the upper one. That room is
/// looked at first, and then the one that the index names, which is the lower chunk's: so no other is looked at unless
/// another pass moved one.
fn upper_low<R: Wait + Drop + Send>(
    map: &OakMap<R>,
    pass: &mut Pass,
    key: &[u8],
    room: u32,
) -> Option<KeyBytes>
    requires own { IsPassOf (table_of map.now) pass.old }
    requires idle { HoldsNothing (state pass.old) }
    requires key { IsKey key.now }
    ensures own { Stays pass.old pass.new }
    ensures low { IfSome result (λ k. IsKey k) }
    ensures only { OnlyMeets (call_of pass.old) (state pass.old) (state pass.new) }
{
    if let Some(upper) = read_room(&map.table, pass, key, room) {
        return upper.low;
    }
    lower_high(map, pass, key)
}

/// Publishes where the chunk in the room begins, which a split of the chunk of the key has just opened as the upper one.
/// The key is in one of the two, so what begins there is its chunk or the one above. Where another pass moved one of them
/// meanwhile, nothing may be published, or what is no chunk's beginning any more: a hint that misses, until the next
/// settling.
pub(crate) fn publish_upper<R: Wait + Drop + Send>(
    rt: &R,
    map: &OakMap<R>,
    pass: &mut Pass,
    key: &[u8],
    room: u32,
)
    requires own { IsPassOf (table_of map.now) pass.old }
    requires idle { HoldsNothing (state pass.old) }
    requires key { IsKey key.now }
    ensures own { Stays pass.old pass.new }
    ensures only { OnlyMeets (call_of pass.old) (state pass.old) (state pass.new) }
{
    if let Some(low) = upper_low(map, pass, key, room) {
        let _ = publish(rt, map, pass, low.as_slice(), room);
    }
}
