//! The pairs of a cursor, given to a closure, and counted.
ghost use Rattle.std.specs.Prelude.{◌≡◌, ◌-◌, ◌^◌, ◌≤◌, IfNone, IfSome, IsSome, List, [], MatchBool, MatchOption, length, min, take, true};
ghost use Rattle.oak_model.specs.declared.limits.TheConstants.{GREATEST_KEY, GREATEST_VALUE};
ghost use Rattle.oak_model.specs.declared.replies.Pair.{Pair};
ghost use Rattle.scan_cursor.specs.Cursors.{IsCursor, key_of, value_of};
ghost use Rattle.oak_caller.specs.Given.{FindsEnd, FindsPair, GivesAll, GivesUntil};
ghost use Rattle.oak_caller.specs.Scans.{GivesOn, GoesOn, KeepsPair, front, present};

use arena_core::words::key_in_place;
use oak_map::Cursor;
use oak_model::{GREATEST_KEY, GREATEST_VALUE};
use std::sync::Wait;

/// Gives all pairs, of each value all bytes or no more than `most`, until the closure says no more: whether it never did.
pub(crate) fn give_pairs<R: Wait, F: FnMut(&[u8], &[u8]) -> bool>(
    rt: &R,
    cursor: &mut Cursor<'_>,
    most: Option<usize>,
    mut f: F,
) -> bool
    requires cursor { IsCursor cursor.old }
    requires calls { (g : _) (x : _) (y : _) → F.pre g x y }
    ensures same_reference { cursor.new.pass.ghost_name ≡ cursor.old.pass.ghost_name }
    ensures on { GoesOn cursor.old cursor.new }
    ensures gives { MatchBool result (GivesAll most F.FnMut f cursor.old cursor.new) (GivesUntil most F.FnMut f cursor.old cursor.new) }
{
    let mut value = [0; GREATEST_VALUE];
    for _ in rt.forever() {
        let Some(len) = next_value(rt, cursor, most, &mut value) else {
            return true;
        };
        if !f(cursor.key(), &value[..len]) {
            return false;
        }
    }
    unreachable!()
}

/// Goes to the next pair, and copies its value, all bytes or no more than `most`: how many; none where the scan has ended.
fn next_value<R: Wait>(
    rt: &R,
    cursor: &mut Cursor<'_>,
    most: Option<usize>,
    value: &mut [u8; GREATEST_VALUE],
) -> Option<usize>
    requires { IsCursor cursor.old }
    ensures same_reference { cursor.new.pass.ghost_name ≡ cursor.old.pass.ghost_name }
    ensures on { GoesOn cursor.old cursor.new }
    ensures ended { IfNone result (FindsEnd cursor.old cursor.new) }
    ensures given { IfSome result (λ _. FindsPair cursor.old cursor.new) }
    ensures value { IfSome result (λ n. (n ≤ length value.new) × (take n value.new ≡ front most (value_of cursor.new))) }
{
    if !cursor.advance(rt) {
        return None;
    }
    Some(copy_value(cursor, most, value))
}

/// Goes to the next pair, and copies it, of its value all bytes or no more than `most`: how many of its key and of its
/// value; none where the scan has ended.
pub(crate) fn next_pair<R: Wait>(
    rt: &R,
    cursor: &mut Cursor<'_>,
    most: Option<usize>,
    key: &mut [u8; GREATEST_KEY],
    value: &mut [u8; GREATEST_VALUE],
) -> Option<(usize, usize)>
    requires { IsCursor cursor.old }
    ensures same_reference { cursor.new.pass.ghost_name ≡ cursor.old.pass.ghost_name }
    ensures on { GoesOn cursor.old cursor.new }
    ensures ended { IfNone result (FindsEnd cursor.old cursor.new) }
    ensures given { IfSome result (λ _. FindsPair cursor.old cursor.new) }
    ensures key { IfSome result (λ n. (n.0 ≤ length key.new) × (take n.0 key.new ≡ key_of cursor.new)) }
    ensures value { IfSome result (λ n. (n.1 ≤ length value.new) × (take n.1 value.new ≡ front most (value_of cursor.new))) }
{
    let len = next_value(rt, cursor, most, value)?;
    let long = copy_key(cursor, key);
    Some((long, len))
}

/// Copies the present key to the begin of `out`, and tells its length.
fn copy_key(cursor: &Cursor<'_>, out: &mut [u8; GREATEST_KEY]) -> usize
    requires cursor { IsCursor cursor.now }
    requires given { IsSome cursor.now.value }
    ensures long { result ≤ length out.new }
    ensures key { take result out.new ≡ key_of cursor.now }
{
    let key = cursor.key();
    *out = key_in_place(key);
    key.len()
}

/// How many bytes are shown of a value with so many: all, or no more than `most`.
fn shown(most: Option<usize>, len: usize) -> usize
    ensures within { result ≤ len }
    ensures is { MatchOption most (result ≡ len) (λ m. result ≡ min m len) }
{
    match most {
        Some(most) => most.min(len),
        None => len,
    }
}

/// Copies the present value, all bytes or no more than `most`, to the begin of `out`: how many.
fn copy_value(cursor: &mut Cursor<'_>, most: Option<usize>, out: &mut [u8; GREATEST_VALUE]) -> usize
    requires cursor { IsCursor cursor.old }
    requires given { IsSome cursor.old.value }
    ensures same_reference { cursor.new.pass.ghost_name ≡ cursor.old.pass.ghost_name }
    ensures keeps { KeepsPair cursor.old cursor.new }
    ensures same { present cursor.new ≡ present cursor.old }
    ensures value_stays { cursor.new.value ≡ cursor.old.value }
    ensures long { result ≤ length out.new }
    ensures value { take result out.new ≡ front most (value_of cursor.old) }
{
    let many = shown(most, cursor.len());
    cursor.copy_prefix(&mut out[..many]);
    many
}

/// How many pairs are left. The count stands still at 2^64 - 1.
pub(crate) fn count_pairs<R: Wait>(rt: &R, cursor: &mut Cursor<'_>) -> u64
    requires { IsCursor cursor.old }
    ensures same_reference { cursor.new.pass.ghost_name ≡ cursor.old.pass.ghost_name }
    ensures on { GoesOn cursor.old cursor.new }
    ensures ended { cursor.new.walk.mark.ended ≡ true }
    ensures counts { (pairs : List Pair) × GivesOn cursor.old cursor.new [] pairs × (result ≡ min (length pairs) (2 ^ 64 - 1)) }
{
    let mut count = 0u64;
    for _ in rt.forever() {
        if !cursor.advance(rt) {
            return count;
        }
        count = count.saturating_add(1);
    }
    unreachable!()
}
