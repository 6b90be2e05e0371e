//! Scans of tables of a few small rooms.
ghost use Rattle.std.specs.Prelude.{◌≡◌, ◌<◌, ◌^◌, IfSome, IsSome, length};
ghost use Rattle.oak_model.specs.Key.{IsKey};
ghost use Rattle.oak_core.specs.PassState.{HoldsNothing};
ghost use Rattle.oak_core.specs.Passes.{IsPassOf, state, call_of};
ghost use Rattle.oak_core.specs.Scratch.{StaysButSlots};
ghost use Rattle.point_ops.specs.TestStates.{IsReady, IsReadyAgain};
ghost use Rattle.scan_cursor.specs.Cursors.{IsCursor, ReadsPair, under};

use crate::calls::turn;
use crate::found::{is_so, number_is, stamp_is};
use crate::scans::test_calls::{put, remove};
use oak_core::{OakTable, Pass};
use oak_model::Shape;
use scan_cursor::{Busy, Cursor, Way};
use std::alloc::Global;
use std::process::Abort;
use std::sync::Wait;
use std::test::Fail;

/// A write: the letter of its key, the byte that is put as the value, or none of a removal, and the stamp of the write.
type Write = (u8, Option<u8>, u64);

/// A scan: its way, the letters of its bounds, or 0 of none, and the letters of the keys of its pairs.
type Scan<'a> = (Way, u8, u8, &'a [u8]);

/// Nine keys are put in falling order, with a split for e, for c and for a; then two are put over, and two removed.
const WRITTEN: [Write; 14] = [
    (b'i', Some(19), 1),
    (b'h', Some(18), 1),
    (b'g', Some(17), 1),
    (b'f', Some(16), 1),
    (b'e', Some(15), 1),
    (b'd', Some(14), 1),
    (b'c', Some(13), 1),
    (b'b', Some(12), 1),
    (b'a', Some(11), 1),
    (b'c', Some(33), 2),
    (b'h', Some(28), 2),
    (b'h', Some(38), 3),
    (b'b', None, 2),
    (b'f', None, 2),
];

/// The write has its stamp.
fn writes<R: Abort + Wait>(rt: &R, table: &OakTable, pass: &mut Pass, call: u32, write: Write)
    requires own { IsPassOf table.now pass.old }
    requires above { call_of pass.old < call }
    requires ready { IsReady (call_of pass.old) (state pass.old) }
    ensures own { IsPassOf table.now pass.new }
    ensures call { call_of pass.new ≡ call }
    ensures ready { IsReadyAgain call (state pass.old) (state pass.new) }
{
    turn(pass, call);
    let (letter, byte, at) = write;
    let stamp = match byte {
        Some(byte) => put(rt, table, pass, &[letter], &[byte]),
        None => remove(table, pass, &[letter]),
    };
    stamp_is(rt, call, stamp, at);
}

/// Each of them has it, one call behind another.
fn write_all<R: Abort + Wait>(rt: &R, table: &OakTable, pass: &mut Pass, rows: &[Write])
    requires own { IsPassOf table.now pass.old }
    requires first { call_of pass.old ≡ 0 }
    requires ready { IsReady 0 (state pass.old) }
    requires few { length rows.now < 2 ^ 32 }
    ensures own { IsPassOf table.now pass.new }
    ensures ready { IsReadyAgain (length rows.now) (state pass.old) (state pass.new) }
{
    for i in 0..rows.len() {
        writes(rt, table, pass, i as u32 + 1, rows[i]);
    }
}

/// The value of the letter in the end, and its stamp; of one that only the greater room has, those of its one write.
fn value_of(letter: u8) -> (u8, u64) {
    match letter {
        b'a' => (11, 1),
        b'c' => (33, 2),
        b'd' => (14, 1),
        b'e' => (15, 1),
        b'g' => (17, 1),
        b'h' => (38, 3),
        b'i' => (19, 1),
        _ => (1, 1),
    }
}

/// The key is this one.
fn key_is(rt: &impl Abort, key: &[u8], due: &[u8]) {
    assert!(rt; *key == *due);
}

/// The cursor is at the pair of this letter.
fn is_at(rt: &impl Abort, cursor: &mut Cursor<'_>, letter: u8)
    requires cursor { IsCursor cursor.old }
    requires given { IsSome cursor.old.value }
    ensures same_reference { cursor.new.pass.ghost_name ≡ cursor.old.pass.ghost_name }
    ensures reads { ReadsPair cursor.old cursor.new }
{
    let (value, stamp) = value_of(letter);
    assert!(rt; cursor.key_len() == 1);
    let key = cursor.key_byte(0);
    number_is(rt, "byte", u64::from(key), u64::from(letter));
    key_is(rt, cursor.key(), &[letter]);
    number_is(rt, "stamp", cursor.at(), stamp);
    let same = cursor.same(&[value]);
    is_so(rt, "value", same);
}

/// The next pair is that of the letter.
fn goes_to<R: Abort + Wait>(rt: &R, cursor: &mut Cursor<'_>, letter: u8)
    requires { IsCursor cursor.old }
    ensures same_reference { cursor.new.pass.ghost_name ≡ cursor.old.pass.ghost_name }
    ensures table { cursor.new.table ≡ cursor.old.table }
    ensures own { StaysButSlots cursor.old.pass.now cursor.new.pass.now }
    ensures cursor { IsCursor cursor.new }
    ensures numbers { (under cursor.new).numbers ≡ (under cursor.old).numbers }
{
    let more = cursor.advance(rt);
    assert!(rt; more);
    is_at(rt, cursor, letter);
}

/// The next pair is that of the letter, by a call that may give up at the first look in vain, which no look is where the
/// pass is alone.
fn tries_to(rt: &impl Abort, cursor: &mut Cursor<'_>, letter: u8)
    requires { IsCursor cursor.old }
    ensures same_reference { cursor.new.pass.ghost_name ≡ cursor.old.pass.ghost_name }
    ensures table { cursor.new.table ≡ cursor.old.table }
    ensures own { StaysButSlots cursor.old.pass.now cursor.new.pass.now }
    ensures cursor { IsCursor cursor.new }
    ensures numbers { (under cursor.new).numbers ≡ (under cursor.old).numbers }
{
    let Ok(true) = cursor.try_advance(1) else {
        panic!(rt; "busy, or no more");
    };
    is_at(rt, cursor, letter);
}

/// There was no other pair.
fn is_end(rt: &impl Abort, more: Result<bool, Busy>) {
    assert!(rt; more == Ok(false));
}

/// So are all of them, one behind the other.
fn tries_all(rt: &impl Abort, cursor: &mut Cursor<'_>, letters: &[u8])
    requires { IsCursor cursor.old }
    ensures same_reference { cursor.new.pass.ghost_name ≡ cursor.old.pass.ghost_name }
    ensures table { cursor.new.table ≡ cursor.old.table }
    ensures own { StaysButSlots cursor.old.pass.now cursor.new.pass.now }
    ensures cursor { IsCursor cursor.new }
    ensures numbers { (under cursor.new).numbers ≡ (under cursor.old).numbers }
{
    for letter in letters {
        tries_to(rt, cursor, *letter);
    }
    let more = cursor.try_advance(1);
    is_end(rt, more);
}

/// The pairs are those of the letters, and there are no others.
fn goes_over<R: Abort + Wait>(rt: &R, cursor: &mut Cursor<'_>, letters: &[u8])
    requires { IsCursor cursor.old }
    ensures same_reference { cursor.new.pass.ghost_name ≡ cursor.old.pass.ghost_name }
    ensures table { cursor.new.table ≡ cursor.old.table }
    ensures own { StaysButSlots cursor.old.pass.now cursor.new.pass.now }
    ensures cursor { IsCursor cursor.new }
    ensures numbers { (under cursor.new).numbers ≡ (under cursor.old).numbers }
{
    for letter in letters {
        goes_to(rt, cursor, *letter);
    }
    let more = cursor.advance(rt);
    is_so(rt, "no more", !more);
}

/// The key of a letter; none of 0.
fn bound_of(letter: &[u8; 1]) -> Option<&[u8]>
    ensures { IfSome result (λ k. IsKey k.now) }
{
    if letter[0] == 0 { None } else { Some(letter) }
}

/// The scan gives the pairs of its letters.
fn scans<R: Abort + Wait>(rt: &R, table: &OakTable, pass: &mut Pass, scan: Scan)
    requires own { IsPassOf table.now pass.old }
    requires idle { HoldsNothing (state pass.old) }
    ensures own { IsPassOf table.now pass.new }
    ensures idle { HoldsNothing (state pass.new) }
    ensures numbers { (state pass.new).numbers ≡ (state pass.old).numbers }
{
    let (way, low, high, letters) = scan;
    let low = [low];
    let high = [high];
    let mut cursor = Cursor::begin(table, pass, bound_of(&low), bound_of(&high), way);
    goes_over(rt, &mut cursor, letters);
    cursor.finish();
    let mut cursor = Cursor::begin(table, pass, bound_of(&low), bound_of(&high), way);
    tries_all(rt, &mut cursor, letters);
    cursor.finish();
}

/// So does each of them.
fn scan_all<R: Abort + Wait>(rt: &R, table: &OakTable, pass: &mut Pass, rows: &[Scan])
    requires own { IsPassOf table.now pass.old }
    requires idle { HoldsNothing (state pass.old) }
    ensures own { IsPassOf table.now pass.new }
    ensures idle { HoldsNothing (state pass.new) }
    ensures numbers { (state pass.new).numbers ≡ (state pass.old).numbers }
{
    for scan in rows {
        scans(rt, table, pass, *scan);
    }
}

/// Scans of what is left then.
const SCANNED: [Scan<'static>; 14] = [
    (Way::Up, 0, 0, b"acdeghi"),
    (Way::Down, 0, 0, b"ihgedca"),
    (Way::Up, b'c', b'g', b"cdeg"),
    (Way::Down, b'c', b'g', b"gedc"),
    (Way::Up, b'b', b'f', b"cde"),
    (Way::Down, b'b', b'f', b"edc"),
    (Way::Up, b'A', b'z', b"acdeghi"),
    (Way::Down, b'A', b'z', b"ihgedca"),
    (Way::Up, 0, b'd', b"acd"),
    (Way::Down, b'd', 0, b"ihged"),
    (Way::Up, b'f', b'f', b""),
    (Way::Down, b'j', b'z', b""),
    (Way::Up, b'h', b'c', b""),
    (Way::Down, b'h', b'c', b""),
];

#[test]
fn seven_pairs_in_four_rooms(rt: HostRuntime) -> Result<(), Fail> {
    let shape = Shape::make(1, 4, 4, 16, [32, 0, 0, 0])?;
    let (table, mut pass) = OakTable::create(rt.alloc(), &shape)?;
    write_all(&rt, &table, &mut pass, &WRITTEN);
    scan_all(&rt, &table, &mut pass, &SCANNED);
    table.close(pass);
    Ok(())
}

/// How many keys are put whose lengths are each another: as many as a key may have bytes.
const LENGTHS: usize = 64;

/// The begins of this are the keys.
const LONGEST: [u8; LENGTHS] = [b'a'; LENGTHS];

/// The key is put, by its first write.
fn puts_key<R: Abort + Wait>(rt: &R, table: &OakTable, pass: &mut Pass, call: u32, key: &[u8])
    requires own { IsPassOf table.now pass.old }
    requires above { call_of pass.old < call }
    requires key { IsKey key.now }
    requires ready { IsReady (call_of pass.old) (state pass.old) }
    ensures own { IsPassOf table.now pass.new }
    ensures call { call_of pass.new ≡ call }
    ensures ready { IsReadyAgain call (state pass.old) (state pass.new) }
{
    turn(pass, call);
    let stamp = put(rt, table, pass, key, &[1]);
    stamp_is(rt, call, stamp, 1);
}

/// A key of each length is put, the shortest first.
fn put_lengths<R: Abort + Wait>(rt: &R, table: &OakTable, pass: &mut Pass)
    requires own { IsPassOf table.now pass.old }
    requires first { call_of pass.old ≡ 0 }
    requires ready { IsReady 0 (state pass.old) }
    ensures own { IsPassOf table.now pass.new }
    ensures ready { IsReadyAgain 64 (state pass.old) (state pass.new) }
{
    for i in 0..LENGTHS {
        puts_key(rt, table, pass, i as u32 + 1, &LONGEST[..i + 1]);
    }
}

/// The key of each letter is put, in this order.
fn put_letters<R: Abort + Wait>(rt: &R, table: &OakTable, pass: &mut Pass, letters: &[u8])
    requires own { IsPassOf table.now pass.old }
    requires first { call_of pass.old ≡ 0 }
    requires ready { IsReady 0 (state pass.old) }
    requires few { length letters.now < 2 ^ 32 }
    ensures own { IsPassOf table.now pass.new }
    ensures ready { IsReadyAgain (length letters.now) (state pass.old) (state pass.new) }
{
    for i in 0..letters.len() {
        puts_key(rt, table, pass, i as u32 + 1, &[letters[i]]);
    }
}

/// Scans of those keys.
const SCANNED_OF_TWENTY: [Scan<'static>; 12] = [
    (Way::Up, 0, 0, b"ABCDEFGHIJKLMNOPQSUWYjklmnopqrst"),
    (Way::Down, 0, 0, b"tsrqponmlkjYWUSQPONMLKJIHGFEDCBA"),
    (Way::Up, b'A', b'W', b"ABCDEFGHIJKLMNOPQSUW"),
    (Way::Down, b'A', b'W', b"WUSQPONMLKJIHGFEDCBA"),
    (Way::Up, b'N', b'S', b"NOPQS"),
    (Way::Down, b'N', b'S', b"SQPON"),
    (Way::Up, b'C', b'C', b"C"),
    (Way::Down, b'C', b'C', b"C"),
    (Way::Up, b'F', b'F', b"F"),
    (Way::Down, b'F', b'F', b"F"),
    (Way::Up, b'R', b'R', b""),
    (Way::Down, b'R', b'R', b""),
];

/// The first 24 keys fill a room, and the next splits it. So the lower room has a sorted prefix of twelve entries, and
/// behind that eight that were appended, whose keys lie between those of the prefix.
#[test]
fn twenty_entries_of_one_room(rt: HostRuntime) -> Result<(), Fail> {
    let shape = Shape::make(1, 4, 24, 48, [80, 0, 0, 0])?;
    let (table, mut pass) = OakTable::create(rt.alloc(), &shape)?;
    put_letters(&rt, &table, &mut pass, b"ACEGIKMOQSUWYjklmnopqrstBDFHJLNP");
    scan_all(&rt, &table, &mut pass, &SCANNED_OF_TWENTY);
    table.close(pass);
    Ok(())
}

/// The next pair is that of the key.
fn goes_to_key<R: Abort + Wait>(rt: &R, cursor: &mut Cursor<'_>, key: &[u8])
    requires { IsCursor cursor.old }
    ensures same_reference { cursor.new.pass.ghost_name ≡ cursor.old.pass.ghost_name }
    ensures table { cursor.new.table ≡ cursor.old.table }
    ensures own { StaysButSlots cursor.old.pass.now cursor.new.pass.now }
    ensures cursor { IsCursor cursor.new }
    ensures numbers { (under cursor.new).numbers ≡ (under cursor.old).numbers }
{
    let more = cursor.advance(rt);
    is_so(rt, "more", more);
    key_is(rt, cursor.key(), key);
}

/// The pairs are those of the keys of each length, the shortest first.
fn goes_over_lengths<R: Abort + Wait>(rt: &R, cursor: &mut Cursor<'_>)
    requires { IsCursor cursor.old }
    ensures same_reference { cursor.new.pass.ghost_name ≡ cursor.old.pass.ghost_name }
    ensures table { cursor.new.table ≡ cursor.old.table }
    ensures own { StaysButSlots cursor.old.pass.now cursor.new.pass.now }
    ensures cursor { IsCursor cursor.new }
    ensures numbers { (under cursor.new).numbers ≡ (under cursor.old).numbers }
{
    for i in 0..LENGTHS {
        goes_to_key(rt, cursor, &LONGEST[..i + 1]);
    }
}

/// The text of such a cursor.
fn text_is(rt: &impl Abort, shown: &str) {
    assert_eq!(rt; shown, "Cursor { way: Up, value: None, .. }");
}

/// A cursor that has given no pair is shown by its way.
fn is_shown(rt: &impl Abort, alloc: Global, cursor: &Cursor<'_>) {
    let Ok(shown) = format!(in alloc; "{cursor:?}") else {
        panic!(rt; "no memory");
    };
    text_is(rt, shown.as_str());
}

/// A scan of all keys gives them.
fn scans_lengths<R: Abort + Wait + AllocGlobal>(rt: &R, table: &OakTable, pass: &mut Pass)
    requires own { IsPassOf table.now pass.old }
    requires idle { HoldsNothing (state pass.old) }
    ensures own { IsPassOf table.now pass.new }
    ensures idle { HoldsNothing (state pass.new) }
    ensures numbers { (state pass.new).numbers ≡ (state pass.old).numbers }
{
    let mut cursor = Cursor::begin(table, pass, None, None, Way::Up);
    is_shown(rt, rt.alloc(), &cursor);
    goes_over_lengths(rt, &mut cursor);
    cursor.finish();
}

#[test]
fn keys_of_each_length(rt: HostRuntime) -> Result<(), Fail> {
    let shape = Shape::make(1, 16, 16, 80, [96, 64, 0, 0])?;
    let (table, mut pass) = OakTable::create(rt.alloc(), &shape)?;
    put_lengths(&rt, &table, &mut pass);
    scans_lengths(&rt, &table, &mut pass);
    table.close(pass);
    Ok(())
}
