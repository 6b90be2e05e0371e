//! What the errors of the calls tell.

use arena_ops::NoBlock;
use chunk_ops::Moved;
use oak_core::SplitFault;
use oak_model::{BadShape, Class, OutOfMemory, ShapeField};
use point_ops::Halt;
use rebalance::NoRoom;
use std::alloc::Global;
use std::fmt::Display;
use std::process::Abort;
use value_ops::{BadPin, NoHeader, NoLock, NoRead};

/// Asserts that the error tells this.
fn tells<R: Abort, E: Display + Drop>(rt: &R, alloc: Global, error: E, says: &str) {
    let Ok(told) = format!(in alloc; "{error}") else {
        assert!(rt; false);
        return;
    };
    assert_eq!(rt; told.as_str(), says);
}

/// Of a call on the map, a shape, or a split of a pass.
#[test]
fn errors_of_the_map_tell_why(rt: HostRuntime) {
    let alloc = rt.alloc();
    tells(&rt, alloc, NoRead::Gone, "the value was removed");
    tells(&rt, alloc, NoRead::Busy, "the value is being written");
    tells(&rt, alloc, OutOfMemory, "out of memory");
    tells(&rt, alloc, SplitFault::OutOfMemory, "out of memory");
    let limit = SplitFault::Limit { made: 17 };
    tells(&rt, alloc, limit, "all 17 passes were made");
    let field = ShapeField::Blocks(Class::B64);
    let shape = BadShape { field, value: 9 };
    tells(&rt, alloc, shape, "Blocks(B64) may not be 9");
}

/// Halts tell why.
fn halts_tell(rt: &impl Abort, alloc: Global) {
    tells(rt, alloc, Halt::Busy, "another pass is at work on the key");
    tells(rt, alloc, Halt::Moved, "the room was moved");
    tells(rt, alloc, Halt::Crowded, "the room has no entry left");
    let block = Halt::NoBlock(Class::B256);
    tells(rt, alloc, block, "no block of class B256 is free");
    tells(rt, alloc, Halt::NoHeader, "no header is free");
}

/// So do refusals for want of something.
fn lacks_tell(rt: &impl Abort, alloc: Global) {
    let block = NoBlock(Class::B1024);
    tells(rt, alloc, block, "no block of class B1024 is free");
    tells(rt, alloc, NoHeader, "no header is free");
    tells(rt, alloc, NoRoom, "no room is free");
    tells(rt, alloc, Moved, "the room was moved");
}

/// So do headers that are not pinned, or not locked.
fn headers_tell(rt: &impl Abort, alloc: Global) {
    tells(rt, alloc, BadPin::Locked, "the header is locked");
    let dead = BadPin::Dead { stamp: 12 };
    tells(rt, alloc, dead, "the header's life was removed at 12");
    let other = "the header is of another generation";
    tells(rt, alloc, BadPin::Other, other);
    let busy = "the header is of another generation, locked or pinned";
    tells(rt, alloc, NoLock::Busy, busy);
    tells(rt, alloc, NoLock::Dead, "the header's life was removed");
}

/// Of the calls that wait for nobody.
#[test]
fn errors_of_a_try_tell_why(rt: HostRuntime) {
    halts_tell(&rt, rt.alloc());
    lacks_tell(&rt, rt.alloc());
    headers_tell(&rt, rt.alloc());
}
