//! The keys of a cursor, gathered into a vector.
ghost use Rattle.std.specs.Prelude.{◌≡◌, ◌≤◌, IfOk, IsSome, MatchBool, MatchResult, OnErr, length};
ghost use Rattle.scan_cursor.specs.Cursors.{IsCursor, key_of};
ghost use Rattle.oak_caller.specs.Gathered.{AddsNext, GathersAll, GathersEnough, GathersUntil};
ghost use Rattle.oak_caller.specs.Given.{FindsPair};
ghost use Rattle.oak_caller.specs.Scans.{GoesOn};

use oak_map::Cursor;
use oak_model::{Key, OutOfMemory};
use std::sync::Wait;

/// Adds the keys of the pairs that are left behind those in `keys`, until there are `most`: whether no pair was left
/// before that.
pub(crate) fn gather_keys<R: Wait>(
    rt: &R,
    cursor: &mut Cursor<'_>,
    most: usize,
    keys: &mut Vec<Key>,
) -> Result<bool, OutOfMemory>
    requires { IsCursor cursor.old }
    ensures same_reference { cursor.new.pass.ghost_name ≡ cursor.old.pass.ghost_name }
    ensures on { GoesOn cursor.old cursor.new }
    ensures all { IfOk result (λ all. MatchBool all (GathersAll cursor.old cursor.new keys.old.items keys.new.items)
        (GathersEnough most cursor.old cursor.new keys.old.items keys.new.items)) }
    ensures some { OnErr result (GathersUntil cursor.old cursor.new keys.old.items keys.new.items) }
{
    for _ in rt.forever() {
        if keys.len() >= most {
            return Ok(false);
        }
        if !gather_next(rt, cursor, keys)? {
            return Ok(true);
        }
    }
    unreachable!()
}

/// Goes to the next pair, and adds its key: whether there was one.
fn gather_next<R: Wait>(
    rt: &R,
    cursor: &mut Cursor<'_>,
    keys: &mut Vec<Key>,
) -> Result<bool, OutOfMemory>
    requires { IsCursor cursor.old }
    ensures same_reference { cursor.new.pass.ghost_name ≡ cursor.old.pass.ghost_name }
    ensures on { GoesOn cursor.old cursor.new }
    ensures adds { IfOk result (λ more. AddsNext more cursor.old cursor.new keys.old.items keys.new.items) }
    ensures found { OnErr result (FindsPair cursor.old cursor.new) }
    ensures same { OnErr result (keys.new.items ≡ keys.old.items) }
{
    if !cursor.advance(rt) {
        return Ok(false);
    }
    let key = Key::make(*keys.allocator(), cursor.key())?;
    keys.push(key)?;
    Ok(true)
}
