//! A thread scans while another writes.
ghost use Rattle.std.specs.Prelude.{◌≡◌, ◌+◌, ◌<◌, IsSome};
ghost use Rattle.oak_core.specs.PassState.{HoldsNothing, IsAlone};
ghost use Rattle.oak_core.specs.Passes.{IsPassOf, state as table_state};
ghost use Rattle.oak_core.specs.Scratch.{StaysButSlots};
ghost use Rattle.point_ops.specs.TestStates.{IsReady as IsReadyFor, IsReadyAgain};
ghost use Rattle.scan_cursor.specs.Cursors.{IsCursor, ReadsPair, under};
ghost use Rattle.oak_map.specs.Maps.{IsReady, call_of, state, table_of};
ghost use Rattle.map_tests.specs.declared.map.thread_tests.TheConstants.{STAY};

use crate::map::test_calls::{
    holds, is_new, is_one, is_removed, make, put, remove, scan_whole, settle,
};
use oak_core::Pass;
use oak_map::{Cursor, MapPass, OakMap, Way};
use std::process::Abort;
use std::sync::Wait;
use std::test::Fail;
use std::thread::{self, Threads, join_mut};

/// How many letters there are, each with itself as its value.
const LETTERS: u32 = 24;

/// How many of them stay: each third one. The others come and go.
const STAY: u32 = 8;

/// How many writes the one thread makes.
const WRITES: u32 = 16_000;

/// How many times the other thread scans up, and down.
const SCANS: u32 = 3_000;

/// Whether the letter stays.
fn stays(letter: u8) -> bool {
    (letter.wrapping_sub(b'a')) % 3 == 2
}

/// Puts a letter that is new.
fn adds<R: Abort + Wait + Drop + Send>(
    rt: &R,
    map: &OakMap<R>,
    pass: &mut MapPass,
    call: u32,
    letter: u8,
)
    requires own { IsReady map.now pass.old }
    requires above { call_of pass.old < call }
    requires ready { IsReadyFor (call_of pass.old) (state pass.old) }
    ensures own { IsReady map.now pass.new }
    ensures call { call_of pass.new ≡ call }
    ensures ready { IsReadyAgain call (state pass.old) (state pass.new) }
{
    let said = put(rt, map, pass, call, &[letter], &[letter]);
    is_new(rt, call, said);
}

/// Removes a letter that is there.
fn takes<R: Abort + Wait + Drop + Send>(
    rt: &R,
    map: &OakMap<R>,
    pass: &mut MapPass,
    call: u32,
    letter: u8,
)
    requires own { IsReady map.now pass.old }
    requires above { call_of pass.old < call }
    requires ready { IsReadyFor (call_of pass.old) (state pass.old) }
    ensures own { IsReady map.now pass.new }
    ensures call { call_of pass.new ≡ call }
    ensures ready { IsReadyAgain call (state pass.old) (state pass.new) }
{
    let said = remove(rt, map, pass, call, &[letter]);
    is_removed(rt, call, said);
}

/// Puts the letters that stay.
fn fill<R: Abort + Wait + Drop + Send>(rt: &R, map: &OakMap<R>, pass: &mut MapPass)
    requires own { IsReady map.now pass.old }
    requires first { call_of pass.old ≡ 0 }
    requires ready { IsReadyFor 0 (state pass.old) }
    ensures own { IsReady map.now pass.new }
    ensures call { call_of pass.new ≡ STAY }
    ensures ready { IsReadyAgain STAY (state pass.old) (state pass.new) }
{
    for i in 0..STAY {
        adds(rt, map, pass, i + 1, b'c' + 3 * i as u8);
    }
}

/// The write of this number: in turn each letter that comes and goes is put, in an order that changes, and each is
/// removed.
fn write<R: Abort + Wait + Drop + Send>(rt: &R, map: &OakMap<R>, pass: &mut MapPass, number: u32)
    requires own { IsReady map.now pass.old }
    requires few { number < WRITES }
    requires above { call_of pass.old < STAY + 1 + number }
    requires ready { IsReadyFor (call_of pass.old) (state pass.old) }
    ensures own { IsReady map.now pass.new }
    ensures call { call_of pass.new ≡ STAY + 1 + number }
    ensures ready { IsReadyAgain (STAY + 1 + number) (state pass.old) (state pass.new) }
{
    let others = LETTERS - STAY;
    let round = number / others;
    let place = (5 * number + round) % others;
    let letter = b'a' + (place / 2 * 3 + place % 2) as u8;
    if round % 2 == 0 {
        adds(rt, map, pass, STAY + 1 + number, letter);
    } else {
        takes(rt, map, pass, STAY + 1 + number, letter);
    }
}

/// Settles the map behind each seventh write.
fn rest<R: Wait + Drop + Send>(rt: &R, map: &OakMap<R>, pass: &mut MapPass, number: u32)
    requires own { IsReady map.now pass.old }
    requires ready { IsReadyFor (call_of pass.old) (state pass.old) }
    ensures own { IsReady map.now pass.new }
    ensures call { call_of pass.new ≡ call_of pass.old }
    ensures ready { IsReadyAgain (call_of pass.old) (state pass.old) (state pass.new) }
{
    if number % 7 == 6 {
        settle(rt, map, pass);
    }
}

/// All writes.
fn write_all<R: Abort + Wait + Drop + Send>(rt: &R, map: &OakMap<R>, pass: &mut MapPass)
    requires own { IsReady map.now pass.old }
    requires call { call_of pass.old ≡ STAY }
    requires ready { IsReadyFor STAY (state pass.old) }
    ensures own { IsReady map.now pass.new }
    ensures ready { IsReadyAgain (call_of pass.new) (state pass.old) (state pass.new) }
{
    for number in 0..WRITES {
        write(rt, map, pass, number);
        rest(rt, map, pass, number);
    }
}

/// The letter of the present pair, which is its value, too.
fn letter_of(rt: &impl Abort, cursor: &mut Cursor<'_>) -> u8
    requires cursor { IsCursor cursor.old }
    requires given { IsSome cursor.old.value }
    ensures same_reference { cursor.new.pass.ghost_name ≡ cursor.old.pass.ghost_name }
    ensures reads { ReadsPair cursor.old cursor.new }
{
    is_one(rt, cursor.key_len());
    let letter = cursor.key_byte(0);
    holds(rt, cursor.same(&[letter]));
    letter
}

/// The letter of the next pair; none where there is none left.
fn next_letter<R: Abort + Wait>(rt: &R, cursor: &mut Cursor<'_>) -> Option<u8>
    requires { IsCursor cursor.old }
    ensures same_reference { cursor.new.pass.ghost_name ≡ cursor.old.pass.ghost_name }
    ensures table { cursor.new.table ≡ cursor.old.table }
    ensures own { StaysButSlots cursor.old.pass.now cursor.new.pass.now }
    ensures cursor { IsCursor cursor.new }
    ensures numbers { (under cursor.new).numbers ≡ (under cursor.old).numbers }
{
    if cursor.advance(rt) {
        Some(letter_of(rt, cursor))
    } else {
        None
    }
}

/// Whether the letter is behind the last one in the order of the way.
fn is_behind(way: Way, last: Option<u8>, letter: u8) -> bool {
    match (way, last) {
        (_, None) => true,
        (Way::Up, Some(last)) => last < letter,
        (Way::Down, Some(last)) => letter < last,
    }
}

/// So it is with the letter of the pair of this number.
fn comes_behind(rt: &impl Abort, number: u32, way: Way, last: Option<u8>, letter: u8) {
    let behind = is_behind(way, last, letter);
    assert!(rt; behind, "pair {number}");
}

/// Goes over all pairs, which come in the order of the way: how many letters that stay are among them.
fn goes_over<R: Abort + Wait>(rt: &R, cursor: &mut Cursor<'_>, way: Way) -> u32
    requires { IsCursor cursor.old }
    ensures same_reference { cursor.new.pass.ghost_name ≡ cursor.old.pass.ghost_name }
    ensures table { cursor.new.table ≡ cursor.old.table }
    ensures own { StaysButSlots cursor.old.pass.now cursor.new.pass.now }
    ensures cursor { IsCursor cursor.new }
    ensures numbers { (under cursor.new).numbers ≡ (under cursor.old).numbers }
{
    let mut last = None;
    let mut stay = 0;
    for step in 0..LETTERS + 1 {
        let Some(letter) = next_letter(rt, cursor) else {
            return stay;
        };
        comes_behind(rt, step, way, last, letter);
        stay += u32::from(stays(letter));
        last = Some(letter);
    }
    assert!(rt; false);
    stay
}

/// A scan of the whole map has each letter that stays once.
fn scans<R: Abort + Wait + Drop + Send>(rt: &R, map: &OakMap<R>, pass: &mut Pass, way: Way)
    requires own { IsPassOf (table_of map.now) pass.old }
    requires idle { HoldsNothing (table_state pass.old) }
    ensures own { StaysButSlots pass.old pass.new }
    ensures idle { HoldsNothing (table_state pass.new) }
    ensures numbers { (table_state pass.new).numbers ≡ (table_state pass.old).numbers }
{
    let mut cursor = scan_whole(map, pass, way);
    let stay = goes_over(rt, &mut cursor, way);
    cursor.finish();
    assert_eq!(rt; stay, STAY);
}

/// So does each of them, up and down in turn.
fn scan_all<R: Abort + Wait + Drop + Send>(rt: &R, map: &OakMap<R>, pass: &mut MapPass)
    requires own { IsReady map.now pass.old }
    ensures own { IsReady map.now pass.new }
    ensures numbers { (state pass.new).numbers ≡ (state pass.old).numbers }
{
    for _ in 0..SCANS {
        scans(rt, map, pass.pass_mut(), Way::Up);
        scans(rt, map, pass.pass_mut(), Way::Down);
        thread::yield_now();
    }
}

/// Both at once.
fn work_together<R: Threads + Abort + Wait + Sync + Drop + Send>(
    rt: &R,
    map: &OakMap<R>,
    a: &mut MapPass,
    b: &mut MapPass,
)
    requires own { IsReady map.now a.old × IsReady map.now b.old }
    requires call { call_of a.old ≡ STAY }
    requires ready { IsReadyFor STAY (state a.old) }
    ensures own { IsReady map.now a.new × IsReady map.now b.new }
    ensures ready { IsReadyAgain (call_of a.new) (state a.old) (state a.new) }
    ensures numbers { (state b.new).numbers ≡ (state b.old).numbers }
{
    join_mut(
        rt,
        &mut ||
            requires own { IsReady map.now a.now }
            requires call { call_of a.now ≡ STAY }
            requires ready { IsReadyFor STAY (state a.now) }
            ensures own { IsReady map.entry.now a.exit.now }
            ensures ready { IsReadyAgain (call_of a.exit.now) (state a.entry.now) (state a.exit.now) }
        {
            write_all(rt, map, a);
        },
        &mut ||
            requires own { IsReady map.now b.now }
            ensures own { IsReady map.entry.now b.exit.now }
            ensures numbers { (state b.exit.now).numbers ≡ (state b.entry.now).numbers }
        {
            scan_all(rt, map, b);
        },
    );
}

/// A pass is split off for that, and joined again.
fn split_and_work<R: Threads + Abort + Wait + Sync + AllocGlobal + Drop + Send>(
    rt: &R,
    map: &OakMap<R>,
    pass: &mut MapPass,
)
    requires own { IsReady map.now pass.old }
    requires call { call_of pass.old ≡ STAY }
    requires ready { IsReadyFor STAY (state pass.old) }
    requires alone { IsAlone (state pass.old) }
    ensures own { IsReady map.now pass.new }
    ensures alone { IsAlone (state pass.new) }
{
    let Ok(mut other) = map.split(rt, pass) else {
        assert!(rt; false);
        return;
    };
    work_together(rt, map, pass, &mut other);
    map.join(pass, other);
}

#[test]
fn scans_beside_a_writer(rt: HostRuntime) -> Result<(), Fail> {
    let (map, mut pass) = make(&rt, 2, 16, 4, 48, 128)?;
    fill(&rt, &map, &mut pass);
    split_and_work(&rt, &map, &mut pass);
    map.close(pass);
    Ok(())
}
