//! Runs of calls by one pass, each on a map of its own, with the answers and the ends that were worked out by hand.
//! The numbers are places: how many writes the key had by then. The map tells stamps, which rise with the key's writes.
ghost use Rattle.std.specs.Prelude.{◌≡◌, ◌+◌, ◌<◌, ◌≤◌, IsSome, length};
ghost use Rattle.oak_core.specs.PassState.{HoldsNothing};
ghost use Rattle.oak_core.specs.Passes.{IsPassOf, state as table_state};
ghost use Rattle.oak_core.specs.Scratch.{StaysButSlots};
ghost use Rattle.point_ops.specs.TestStates.{IsReady as IsReadyFor, IsReadyAgain};
ghost use Rattle.scan_cursor.specs.Cursors.{IsCursor, ReadsPair, under};
ghost use Rattle.oak_map.specs.Maps.{IsReady, call_of, state, table_of};

use crate::map::test_calls::{get, holds, is_one, make, put, remove, scan_whole, settle};
use oak_core::Pass;
use oak_map::{Cursor, MapPass, OakMap, Way};
use oak_model::{Class, Lack, Usage, Wrote};
use std::process::Abort;
use std::sync::Wait;
use std::test::Fail;

/// A call on the key of a letter, and its answer. Values have one byte.
#[derive(Clone, Copy)]
enum Call {
    Put(u8, u8, Wrote),
    Remove(u8, Wrote),
    /// It has the byte as its value, at this place.
    Get(u8, u8, u64),
}

/// The letter of a key, the byte of its value, and the place of that.
type Held = (u8, u8, u64);

/// A write: the letter of its key, and its stamp. The letter is 0 where a call was none.
type Write = (u8, u64);

/// A map's chunks, entries in each, headers, and blocks of 16; the calls on it; what it holds in the end, in the order
/// of the keys; and the blocks, headers and chunks that are used then.
struct Row<'a> {
    shape: (u32, u32, u32, u32),
    calls: &'a [Call],
    pairs: &'a [Held],
    used: (u32, u32, u32),
}

/// The most calls of a row.
const CALLS: usize = 16;

/// How many of these writes of the letter have a stamp up to this number.
fn place_of(writes: &[Write], letter: u8, at: u64) -> u64 {
    let upto = writes.iter().filter(|w| w.0 == letter && w.1 <= at);
    upto.count() as u64
}

/// The answer with its place for its number.
fn placed(writes: &[Write], letter: u8, said: Wrote) -> Wrote {
    match said {
        Wrote::New { at } => Wrote::New {
            at: place_of(writes, letter, at),
        },
        Wrote::Over { at } => Wrote::Over {
            at: place_of(writes, letter, at),
        },
        Wrote::Removed { at } => Wrote::Removed {
            at: place_of(writes, letter, at),
        },
        other => other,
    }
}

/// The write that the answer tells.
fn write_of(letter: u8, said: Wrote) -> Write {
    match said {
        Wrote::New { at } => (letter, at),
        Wrote::Over { at } => (letter, at),
        Wrote::Removed { at } => (letter, at),
        _ => (0, 0),
    }
}

/// What was answered is noted as the write of this number, and is what is due.
fn is_due(
    rt: &impl Abort,
    writes: &mut [Write; CALLS],
    number: usize,
    letter: u8,
    said: Wrote,
    due: Wrote,
)
    requires { number < CALLS }
{
    writes[number] = write_of(letter, said);
    let told = placed(writes, letter, said);
    assert!(rt; told == due, "call {number}: {told:?}");
}

/// The call of this number got a value with a stamp, at the place that is due.
fn is_got(rt: &impl Abort, number: usize, at: u64, found: u64, place: u64) {
    assert!(rt; at > 0 && found == place, "call {number}: {found}");
}

/// The map answers the call so.
fn answers<R: Abort + Wait + Drop + Send>(
    rt: &R,
    map: &OakMap<R>,
    pass: &mut MapPass,
    writes: &mut [Write; CALLS],
    number: usize,
    call: Call,
)
    requires own { IsReady map.now pass.old }
    requires few { number < CALLS }
    requires above { call_of pass.old ≤ number }
    requires ready { IsReadyFor (call_of pass.old) (state pass.old) }
    ensures own { IsReady map.now pass.new }
    ensures call { call_of pass.new ≤ number + 1 }
    ensures ready { IsReadyAgain (call_of pass.new) (state pass.old) (state pass.new) }
{
    match call {
        Call::Put(letter, byte, due) => {
            let said = put(rt, map, pass, number as u32 + 1, &[letter], &[byte]);
            is_due(rt, writes, number, letter, said, due);
        }
        Call::Remove(letter, due) => {
            let said = remove(rt, map, pass, number as u32 + 1, &[letter]);
            is_due(rt, writes, number, letter, said, due);
        }
        Call::Get(letter, byte, place) => {
            let at = get(rt, map, pass, &[letter], &[byte]).unwrap_or(0);
            is_got(rt, number, at, place_of(writes, letter, at), place);
        }
    }
}

/// So it does each of them, whose writes are noted.
fn answers_all<R: Abort + Wait + Drop + Send>(
    rt: &R,
    map: &OakMap<R>,
    pass: &mut MapPass,
    writes: &mut [Write; CALLS],
    calls: &[Call],
)
    requires own { IsReady map.now pass.old }
    requires first { call_of pass.old ≡ 0 }
    requires ready { IsReadyFor 0 (state pass.old) }
    requires few { length calls.now ≤ CALLS }
    ensures own { IsReady map.now pass.new }
    ensures ready { IsReadyAgain (call_of pass.new) (state pass.old) (state pass.new) }
{
    for i in 0..calls.len() {
        answers(rt, map, pass, writes, i, calls[i]);
    }
}

/// The key is that of the letter.
fn is_letter(rt: &impl Abort, key: u8, letter: u8) {
    assert_eq!(rt; key, letter);
}

/// The place that was found is what is due.
fn is_place(rt: &impl Abort, found: u64, place: u64) {
    assert_eq!(rt; found, place);
}

/// The cursor is at this pair.
fn is_at(rt: &impl Abort, cursor: &mut Cursor<'_>, writes: &[Write], pair: Held)
    requires cursor { IsCursor cursor.old }
    requires given { IsSome cursor.old.value }
    ensures same_reference { cursor.new.pass.ghost_name ≡ cursor.old.pass.ghost_name }
    ensures reads { ReadsPair cursor.old cursor.new }
{
    let (letter, byte, place) = pair;
    is_one(rt, cursor.key_len());
    is_letter(rt, cursor.key_byte(0), letter);
    is_place(rt, place_of(writes, letter, cursor.at()), place);
    holds(rt, cursor.same(&[byte]));
}

/// The next pair is this one.
fn goes_to<R: Abort + Wait>(rt: &R, cursor: &mut Cursor<'_>, writes: &[Write], pair: Held)
    requires { IsCursor cursor.old }
    ensures same_reference { cursor.new.pass.ghost_name ≡ cursor.old.pass.ghost_name }
    ensures table { cursor.new.table ≡ cursor.old.table }
    ensures own { StaysButSlots cursor.old.pass.now cursor.new.pass.now }
    ensures cursor { IsCursor cursor.new }
    ensures numbers { (under cursor.new).numbers ≡ (under cursor.old).numbers }
{
    let more = cursor.advance(rt);
    assert!(rt; more);
    is_at(rt, cursor, writes, pair);
}

/// The pairs are these, which are in the order of the keys, and there are no others.
fn goes_over<R: Abort + Wait>(
    rt: &R,
    cursor: &mut Cursor<'_>,
    writes: &[Write],
    pairs: &[Held],
    way: Way,
)
    requires { IsCursor cursor.old }
    ensures same_reference { cursor.new.pass.ghost_name ≡ cursor.old.pass.ghost_name }
    ensures table { cursor.new.table ≡ cursor.old.table }
    ensures own { StaysButSlots cursor.old.pass.now cursor.new.pass.now }
    ensures cursor { IsCursor cursor.new }
    ensures numbers { (under cursor.new).numbers ≡ (under cursor.old).numbers }
{
    for i in 0..pairs.len() {
        let place = match way {
            Way::Up => i,
            Way::Down => pairs.len() - 1 - i,
        };
        goes_to(rt, cursor, writes, pairs[place]);
    }
    let more = cursor.advance(rt);
    assert!(rt; !more);
}

/// A scan of the whole map gives these pairs.
fn scans<R: Abort + Wait + Drop + Send>(
    rt: &R,
    map: &OakMap<R>,
    pass: &mut Pass,
    writes: &[Write],
    pairs: &[Held],
    way: Way,
)
    requires own { IsPassOf (table_of map.now) pass.old }
    requires idle { HoldsNothing (table_state pass.old) }
    ensures own { StaysButSlots pass.old pass.new }
    ensures idle { HoldsNothing (table_state pass.new) }
    ensures numbers { (table_state pass.new).numbers ≡ (table_state pass.old).numbers }
{
    let mut cursor = scan_whole(map, pass, way);
    goes_over(rt, &mut cursor, writes, pairs, way);
    cursor.finish();
}

/// So does one up, and another down.
fn scans_both<R: Abort + Wait + Drop + Send>(
    rt: &R,
    map: &OakMap<R>,
    pass: &mut MapPass,
    writes: &[Write],
    pairs: &[Held],
)
    requires own { IsReady map.now pass.old }
    ensures own { IsReady map.now pass.new }
    ensures numbers { (state pass.new).numbers ≡ (state pass.old).numbers }
{
    scans(rt, map, pass.pass_mut(), writes, pairs, Way::Up);
    scans(rt, map, pass.pass_mut(), writes, pairs, Way::Down);
}

/// The map answers the calls of the row so, and holds its pairs then, settled.
fn answers_row<R: Abort + Wait + Drop + Send>(
    rt: &R,
    map: &OakMap<R>,
    pass: &mut MapPass,
    row: &Row<'_>,
)
    requires own { IsReady map.now pass.old }
    requires first { call_of pass.old ≡ 0 }
    requires ready { IsReadyFor 0 (state pass.old) }
    requires few { length row.now.calls.now ≤ CALLS }
    ensures own { IsReady map.now pass.new }
    ensures numbers { (state pass.new).numbers ≡ (state pass.old).numbers }
{
    let mut writes = [(0, 0); CALLS];
    answers_all(rt, map, pass, &mut writes, row.calls);
    settle(rt, map, pass);
    scans_both(rt, map, pass, &writes, row.pairs);
}

/// What is used is what is due.
fn is_used(rt: &impl Abort, used: Usage, due: (u32, u32, u32)) {
    let due = Usage {
        blocks: [due.0, 0, 0, 0],
        headers: due.1,
        chunks: due.2,
    };
    assert!(rt; used == due, "{used:?}");
}

/// The row is right.
fn works<R: Abort + Wait + Clone + Drop + Send + AllocGlobal>(
    rt: &R,
    row: &Row<'_>,
) -> Result<(), Fail> {
    assert!(rt; row.calls.len() <= CALLS);
    let (chunks, entries, headers, blocks) = row.shape;
    let (map, mut pass) = make(rt, 1, chunks, entries, headers, blocks)?;
    answers_row(rt, &map, &mut pass, row);
    is_used(rt, map.close(pass).usage(), row.used);
    Ok(())
}

/// An answer that a key was new.
const NEW: Wrote = Wrote::New { at: 1 };

/// An answer that a key that was put once was removed.
const REMOVED: Wrote = Wrote::Removed { at: 2 };

/// A key is removed and put anew, while others fill its chunk.
const PUT_ANEW: Row<'static> = Row {
    shape: (4, 4, 16, 16),
    calls: &[
        Call::Put(b'k', 1, NEW),
        Call::Remove(b'k', REMOVED),
        Call::Put(b'a', 0, NEW),
        Call::Put(b'b', 0, NEW),
        Call::Put(b'c', 0, NEW),
        Call::Put(b'd', 0, NEW),
        Call::Put(b'k', 2, Wrote::New { at: 3 }),
        Call::Get(b'k', 2, 3),
    ],
    pairs: &[
        (b'a', 0, 1),
        (b'b', 0, 1),
        (b'c', 0, 1),
        (b'd', 0, 1),
        (b'k', 2, 3),
    ],
    used: (10, 5, 2),
};

/// Keys come in falling order.
const FALLING: Row<'static> = Row {
    shape: (8, 4, 16, 32),
    calls: &[
        Call::Put(b'9', 0, NEW),
        Call::Put(b'8', 0, NEW),
        Call::Put(b'7', 0, NEW),
        Call::Put(b'6', 0, NEW),
        Call::Put(b'5', 0, NEW),
        Call::Put(b'4', 0, NEW),
        Call::Put(b'3', 0, NEW),
        Call::Put(b'2', 0, NEW),
        Call::Put(b'1', 0, NEW),
    ],
    pairs: &[
        (b'1', 0, 1),
        (b'2', 0, 1),
        (b'3', 0, 1),
        (b'4', 0, 1),
        (b'5', 0, 1),
        (b'6', 0, 1),
        (b'7', 0, 1),
        (b'8', 0, 1),
        (b'9', 0, 1),
    ],
    used: (18, 9, 4),
};

/// There are blocks for one pair.
const TWO_BLOCKS: Row<'static> = Row {
    shape: (4, 4, 16, 2),
    calls: &[
        Call::Put(b'a', 1, NEW),
        Call::Put(b'b', 2, Wrote::Full(Lack::Block(Class::B16))),
        Call::Get(b'a', 1, 1),
        Call::Remove(b'a', REMOVED),
        Call::Put(b'b', 2, NEW),
    ],
    pairs: &[(b'b', 2, 1)],
    used: (2, 1, 1),
};

/// There is one chunk.
const ONE_ROOM: Row<'static> = Row {
    shape: (1, 4, 16, 32),
    calls: &[
        Call::Put(b'a', 0, NEW),
        Call::Put(b'b', 0, NEW),
        Call::Put(b'c', 0, NEW),
        Call::Put(b'd', 0, NEW),
        Call::Put(b'e', 0, Wrote::Full(Lack::Room)),
        Call::Remove(b'a', REMOVED),
        Call::Put(b'e', 0, NEW),
    ],
    pairs: &[(b'b', 0, 1), (b'c', 0, 1), (b'd', 0, 1), (b'e', 0, 1)],
    used: (8, 4, 1),
};

/// There is one header.
const ONE_HEADER: Row<'static> = Row {
    shape: (4, 4, 1, 8),
    calls: &[
        Call::Put(b'a', 1, NEW),
        Call::Put(b'b', 2, Wrote::Full(Lack::Header)),
        Call::Put(b'a', 3, Wrote::Over { at: 2 }),
    ],
    pairs: &[(b'a', 3, 2)],
    used: (2, 1, 1),
};

/// Chunks that were split are merged again.
const MERGED: Row<'static> = Row {
    shape: (4, 4, 16, 32),
    calls: &[
        Call::Put(b'a', 0, NEW),
        Call::Put(b'b', 0, NEW),
        Call::Put(b'c', 0, NEW),
        Call::Put(b'd', 0, NEW),
        Call::Put(b'e', 0, NEW),
        Call::Remove(b'a', REMOVED),
        Call::Remove(b'd', REMOVED),
        Call::Remove(b'e', REMOVED),
    ],
    pairs: &[(b'b', 0, 1), (b'c', 0, 1)],
    used: (4, 2, 1),
};

/// All of them.
const ROWS: [&Row<'static>; 6] = [
    &PUT_ANEW,
    &FALLING,
    &TWO_BLOCKS,
    &ONE_ROOM,
    &ONE_HEADER,
    &MERGED,
];

#[test]
fn worked_rows(rt: HostRuntime) -> Result<(), Fail> {
    for row in &ROWS {
        works(&rt, row)?;
    }
    Ok(())
}
