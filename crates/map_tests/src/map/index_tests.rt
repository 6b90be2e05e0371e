//! Calls find chunks by the index: where no pass is at work, each at the first try.
ghost use Rattle.std.specs.Prelude.{◌≡◌, ◌+◌, ◌≤◌, ◌<◌};
ghost use Rattle.oak_core.specs.Passes.{IsPassOf, Stays, call_of as table_call, key as sizes, state as table_state};
ghost use Rattle.oak_core.specs.PassState.{IsAlone};
ghost use Rattle.chunk_ops.specs.PinRecords.{HasRoomPin, OnlyMeets};
ghost use Rattle.point_ops.specs.TestStates.{IsReady as IsReadyFor, IsReadyAgain};
ghost use Rattle.oak_map.specs.Maps.{IsReady, call_of, state};
ghost use Rattle.map_tests.specs.declared.map.index_tests.TheConstants.{KEYS, ROUNDS};

use crate::map::test_calls::{get, is_new, is_removed, make, put, remove, settle};
use chunk_ops::{KeyBytes, RoomPin, high_key, low_key, low_len, pin_for, unpin};
use oak_core::{OakTable, Pass};
use oak_map::{MapPass, OakMap};
use oak_model::Hint;
use std::process::Abort;
use std::sync::Wait;
use std::test::Fail;
use std::thread::{Threads, join_mut};

/// How many keys there are, each of two bytes.
const KEYS: u32 = 400;

/// How many times one thread looks for all of them, while another puts them.
const ROUNDS: u32 = 40;

/// How many chunks there are, of which half as many as there are keys are needed when these rise.
const CHUNKS: u32 = 256;

/// How many entries each of them has.
const ENTRIES: u32 = 4;

/// How many headers there are.
const HEADERS: u32 = 8192;

/// How many blocks there are.
const BLOCKS: u32 = 16384;

/// The key of this number. In their order the numbers rise.
fn key_of(number: u32) -> [u8; 2]
    requires { number < KEYS }
{
    (number as u16).to_be_bytes()
}

/// Puts all keys in rising order, each with itself as its value.
fn put_all<R: Abort + Wait + Drop + Send>(rt: &R, map: &OakMap<R>, pass: &mut MapPass)
    requires own { IsReady map.now pass.old }
    requires first { call_of pass.old ≡ 0 }
    requires ready { IsReadyFor 0 (state pass.old) }
    ensures own { IsReady map.now pass.new }
    ensures call { call_of pass.new ≡ KEYS }
    ensures ready { IsReadyAgain KEYS (state pass.old) (state pass.new) }
{
    for i in 0..KEYS {
        let key = key_of(i);
        let said = put(rt, map, pass, i + 1, &key, &key);
        is_new(rt, i, said);
    }
}

/// How many of the keys are there.
fn get_all<R: Abort + Wait + Drop + Send>(rt: &R, map: &OakMap<R>, pass: &mut MapPass) -> u32
    requires own { IsReady map.now pass.old }
    requires ready { IsReadyFor (call_of pass.old) (state pass.old) }
    ensures own { IsReady map.now pass.new }
    ensures call { call_of pass.new ≡ call_of pass.old }
    ensures ready { IsReadyAgain (call_of pass.old) (state pass.old) (state pass.new) }
{
    let mut found = 0;
    for i in 0..KEYS {
        let key = key_of(i);
        found += u32::from(get(rt, map, pass, &key, &key).is_some());
    }
    found
}

/// A new pass looks for each key: how many rooms it pins for that.
fn tries_of_gets<R: Abort + Wait + AllocGlobal + Drop + Send>(
    rt: &R,
    map: &OakMap<R>,
    pass: &mut MapPass,
) -> u64
    requires own { IsReady map.now pass.old }
    requires alone { IsAlone (state pass.old) }
    ensures own { IsReady map.now pass.new }
    ensures alone { IsAlone (state pass.new) }
{
    let Ok(mut other) = map.split(rt, pass) else {
        assert!(rt; false);
        return 0;
    };
    let found = get_all(rt, map, &mut other);
    assert_eq!(rt; found, KEYS);
    let tries = other.tries();
    map.join(pass, other);
    tries
}

/// So it does in a new map, into which another put the keys.
fn tries_in_map<R: Abort + Wait + Clone + AllocGlobal + Drop + Send>(rt: &R) -> Result<u64, Fail> {
    let (map, mut pass) = make(rt, 2, CHUNKS, ENTRIES, HEADERS, BLOCKS)?;
    put_all(rt, &map, &mut pass);
    let tries = tries_of_gets(rt, &map, &mut pass);
    map.close(pass);
    Ok(tries)
}

/// The index may lack a pair for want of memory, and is then tried anew.
#[test]
fn each_get_tries_one_room(rt: HostRuntime) -> Result<(), Fail> {
    for _ in 0..100 {
        if tries_in_map(&rt)? == u64::from(KEYS) {
            return Ok(());
        }
    }
    assert!(rt; false);
    Ok(())
}

/// The room that the index names for the last keys of the pinned room's range.
fn last_named(table: &OakTable, pass: &mut Pass, pin: &RoomPin) -> Option<u32>
    requires own { IsPassOf table.now pass.old }
    requires pinned { HasRoomPin (sizes table.now) pin.now.room (table_state pass.old) }
    ensures own { Stays pass.old pass.new }
    ensures only { OnlyMeets (table_call pass.old) (table_state pass.old) (table_state pass.new) }
{
    match high_key(table, pass, pin) {
        None => pass.hint_under(None).room,
        Some(high) => pass.hint_under(Some(KeyBytes::of(&high).as_slice())).room,
    }
}

/// Whether the index names the pinned room at both ends of its range. For the lowest it may name none.
fn is_named(table: &OakTable, pass: &mut Pass, pin: &RoomPin) -> bool
    requires own { IsPassOf table.now pass.old }
    requires pinned { HasRoomPin (sizes table.now) pin.now.room (table_state pass.old) }
    ensures own { Stays pass.old pass.new }
    ensures only { OnlyMeets (table_call pass.old) (table_state pass.old) (table_state pass.new) }
{
    let last = last_named(table, pass, pin);
    match low_key(table, pass, pin) {
        None => last.is_none() || last == Some(pin.room),
        Some(low) => {
            let first = pass.hint_now(KeyBytes::of(&low).as_slice()).room;
            last == Some(pin.room) && first == last
        }
    }
}

/// Whether the pinned room is the one of the hint. The lowest may be without one.
fn fits_hint(table: &OakTable, pass: &mut Pass, pin: &RoomPin, hint: Hint) -> bool
    requires own { IsPassOf table.now pass.old }
    requires pinned { HasRoomPin (sizes table.now) pin.now.room (table_state pass.old) }
    ensures own { Stays pass.old pass.new }
    ensures only { OnlyMeets (table_call pass.old) (table_state pass.old) (table_state pass.new) }
{
    match hint.room {
        Some(room) => room == pin.room,
        None => low_len(table, pass, pin) == 0,
    }
}

/// The chunk of the key of this number is named, and its hint fits.
fn is_right(rt: &impl Abort, number: u32, named: bool, fits: bool) {
    assert!(rt; named, "{number}");
    assert!(rt; fits, "{number}");
}

/// Whether the chunk of the key has its place in the index, and is hinted for the key.
fn is_hinted(rt: &impl Abort, table: &OakTable, pass: &mut Pass, number: u32)
    requires few { number < KEYS }
    requires own { IsPassOf table.now pass.old }
    requires ready { IsReadyFor (table_call pass.old) (table_state pass.old) }
    ensures own { Stays pass.old pass.new }
    ensures ready { IsReadyAgain (table_call pass.old) (table_state pass.old) (table_state pass.new) }
{
    let key = key_of(number);
    let hint = pass.hint(&key);
    let Ok(pin) = pin_for(table, pass, &key, hint) else {
        assert!(rt; false);
        return;
    };
    let named = is_named(table, pass, &pin);
    let fits = fits_hint(table, pass, &pin, hint);
    unpin(table, pass, pin);
    is_right(rt, number, named, fits);
}

/// So it is with each key.
fn all_are_hinted<R: Abort + Wait + Drop + Send>(rt: &R, map: &OakMap<R>, pass: &mut MapPass)
    requires own { IsReady map.now pass.old }
    requires ready { IsReadyFor (call_of pass.old) (state pass.old) }
    ensures own { IsReady map.now pass.new }
    ensures call { call_of pass.new ≡ call_of pass.old }
    ensures ready { IsReadyAgain (call_of pass.old) (state pass.old) (state pass.new) }
{
    for i in 0..KEYS {
        is_hinted(rt, map.table(), pass.pass_mut(), i);
    }
}

/// Removes all keys but each fifth one.
fn remove_most<R: Abort + Wait + Drop + Send>(rt: &R, map: &OakMap<R>, pass: &mut MapPass)
    requires own { IsReady map.now pass.old }
    requires call { call_of pass.old ≡ KEYS }
    requires ready { IsReadyFor KEYS (state pass.old) }
    ensures own { IsReady map.now pass.new }
    ensures call { call_of pass.new ≤ KEYS + KEYS }
    ensures ready { IsReadyAgain (call_of pass.new) (state pass.old) (state pass.new) }
{
    for i in 0..KEYS {
        if i % 5 != 0 {
            let said = remove(rt, map, pass, KEYS + 1 + i, &key_of(i));
            is_removed(rt, i, said);
        }
    }
}

#[test]
fn settling_names_the_open_chunks(rt: HostRuntime) -> Result<(), Fail> {
    let (map, mut pass) = make(&rt, 2, CHUNKS, ENTRIES, HEADERS, BLOCKS)?;
    put_all(&rt, &map, &mut pass);
    all_are_hinted(&rt, &map, &mut pass);
    remove_most(&rt, &map, &mut pass);
    settle(&rt, &map, &mut pass);
    all_are_hinted(&rt, &map, &mut pass);
    map.close(pass);
    Ok(())
}

/// Looks for all keys again and again.
fn look_again<R: Abort + Wait + Drop + Send>(rt: &R, map: &OakMap<R>, pass: &mut MapPass)
    requires own { IsReady map.now pass.old }
    requires ready { IsReadyFor (call_of pass.old) (state pass.old) }
    ensures own { IsReady map.now pass.new }
    ensures numbers { (state pass.new).numbers ≡ (state pass.old).numbers }
{
    for _ in 0..ROUNDS {
        get_all(rt, map, pass);
    }
}

/// One pass puts the keys while another looks for them.
fn work_together<R: Threads + Abort + Wait + Sync + Drop + Send>(
    rt: &R,
    map: &OakMap<R>,
    a: &mut MapPass,
    b: &mut MapPass,
)
    requires own { IsReady map.now a.old × IsReady map.now b.old }
    requires first { call_of a.old ≡ 0 }
    requires ready { IsReadyFor 0 (state a.old) × IsReadyFor (call_of b.old) (state b.old) }
    ensures own { IsReady map.now a.new × IsReady map.now b.new }
    ensures ready { IsReadyAgain KEYS (state a.old) (state a.new) }
    ensures numbers { (state b.new).numbers ≡ (state b.old).numbers }
{
    join_mut(
        rt,
        &mut ||
            requires own { IsReady map.now a.now }
            requires first { call_of a.now ≡ 0 }
            requires ready { IsReadyFor 0 (state a.now) }
            ensures own { IsReady map.entry.now a.exit.now }
            ensures ready { IsReadyAgain KEYS (state a.entry.now) (state a.exit.now) }
        {
            put_all(rt, map, a);
        },
        &mut ||
            requires own { IsReady map.now b.now }
            requires ready { IsReadyFor (call_of b.now) (state b.now) }
            ensures own { IsReady map.entry.now b.exit.now }
            ensures numbers { (state b.exit.now).numbers ≡ (state b.entry.now).numbers }
        {
            look_again(rt, map, b);
        },
    );
}

/// A pass is split off for that, and joined again.
fn split_and_work<R: Threads + Abort + Wait + Sync + AllocGlobal + Drop + Send>(
    rt: &R,
    map: &OakMap<R>,
    pass: &mut MapPass,
)
    requires own { IsReady map.now pass.old }
    requires first { call_of pass.old ≡ 0 }
    requires ready { IsReadyFor 0 (state pass.old) }
    requires alone { IsAlone (state pass.old) }
    ensures own { IsReady map.now pass.new }
    ensures alone { IsAlone (state pass.new) }
{
    let Ok(mut other) = map.split(rt, pass) else {
        assert!(rt; false);
        return;
    };
    work_together(rt, map, pass, &mut other);
    map.join(pass, other);
}

#[test]
fn a_pass_looks_while_another_splits(rt: HostRuntime) -> Result<(), Fail> {
    let (map, mut pass) = make(&rt, 3, CHUNKS, ENTRIES, HEADERS, BLOCKS)?;
    split_and_work(&rt, &map, &mut pass);
    let tries = tries_of_gets(&rt, &map, &mut pass);
    assert_eq!(rt; tries, u64::from(KEYS));
    map.close(pass);
    Ok(())
}
