//! A map of the shape for so many keys has room for them, however they come and go, and for no more.
ghost use Rattle.std.specs.Prelude.{◌≡◌, ◌+◌, ◌*◌, ◌<◌, ◌≤◌};
ghost use Rattle.point_ops.specs.TestStates.{IsReady as IsReadyFor};
ghost use Rattle.oak_map.specs.Maps.{IsReady, call_of, state};
ghost use Rattle.map_tests.specs.RoomTests.{AreShort};

use crate::map::test_calls::{is_removed, is_told, put, remove};
use oak_map::{MapPass, OakMap};
use oak_model::{Class, Lack, Shape, Wrote};
use std::process::Abort;
use std::sync::Wait;
use std::test::Fail;

/// How many times the keys come and go.
const ROUNDS: u32 = 4;

/// How many keys there are, of how many bytes each; and of how many bytes the values are that are put first, and those that
/// come in their place.
#[derive(Clone, Copy)]
struct Keys {
    count: u32,
    bytes: usize,
    first: usize,
    second: usize,
}

/// The key of this number, with bytes to spare.
fn key_of(number: u32) -> [u8; 20]
    requires { number < 256 }
{
    let mut key = [9; 20];
    key[0] = number as u8;
    key
}

/// For the key of this number there was room.
fn has_room(rt: &impl Abort, number: u32, said: Wrote) {
    assert!(rt; !matches!(said, Wrote::Full(_)), "{number}: {said:?}");
}

/// Puts the key of this number, with a value of so many bytes, for which there is room.
fn put_number<R: Abort + Wait + Drop + Send>(
    rt: &R,
    map: &OakMap<R>,
    pass: &mut MapPass,
    call: u32,
    keys: Keys,
    number: u32,
    bytes: usize,
)
    requires short { AreShort keys.count keys.bytes keys.first keys.second × (number ≤ keys.count) × (bytes ≤ 70) }
    requires own { IsReady map.now pass.old }
    requires above { call_of pass.old < call }
    requires ready { IsReadyFor (call_of pass.old) (state pass.old) }
    ensures own { IsReady map.now pass.new }
    ensures call { call_of pass.new ≡ call }
    ensures ready { IsReadyFor (call_of pass.new) (state pass.new) }
{
    let key = key_of(number);
    let value = [7; 70];
    let said = put(rt, map, pass, call, &key[..keys.bytes], &value[..bytes]);
    has_room(rt, number, said);
}

/// Removes the key of this number, which is there.
fn remove_number<R: Abort + Wait + Drop + Send>(
    rt: &R,
    map: &OakMap<R>,
    pass: &mut MapPass,
    call: u32,
    keys: Keys,
    number: u32,
)
    requires short { AreShort keys.count keys.bytes keys.first keys.second × (number ≤ keys.count) }
    requires own { IsReady map.now pass.old }
    requires above { call_of pass.old < call }
    requires ready { IsReadyFor (call_of pass.old) (state pass.old) }
    ensures own { IsReady map.now pass.new }
    ensures call { call_of pass.new ≡ call }
    ensures ready { IsReadyFor (call_of pass.new) (state pass.new) }
{
    let key = key_of(number);
    let said = remove(rt, map, pass, call, &key[..keys.bytes]);
    is_removed(rt, number, said);
}

/// Puts each key, those of greater numbers later, with a value of so many bytes.
fn put_each<R: Abort + Wait + Drop + Send>(
    rt: &R,
    map: &OakMap<R>,
    pass: &mut MapPass,
    call: u32,
    keys: Keys,
    bytes: usize,
)
    requires short { AreShort keys.count keys.bytes keys.first keys.second × (bytes ≤ 70) }
    requires own { IsReady map.now pass.old }
    requires call { (call_of pass.old ≤ call) × (call ≤ 10000) }
    requires ready { IsReadyFor (call_of pass.old) (state pass.old) }
    ensures own { IsReady map.now pass.new }
    ensures call { call_of pass.new ≤ call + keys.count }
    ensures ready { IsReadyFor (call_of pass.new) (state pass.new) }
{
    for i in 0..keys.count {
        put_number(rt, map, pass, call + i + 1, keys, i, bytes);
    }
}

/// Puts each key anew, once it was removed, those of greater numbers sooner, while all others are there.
fn renew_each<R: Abort + Wait + Drop + Send>(
    rt: &R,
    map: &OakMap<R>,
    pass: &mut MapPass,
    call: u32,
    keys: Keys,
)
    requires short { AreShort keys.count keys.bytes keys.first keys.second }
    requires own { IsReady map.now pass.old }
    requires call { (call_of pass.old ≤ call) × (call ≤ 10000) }
    requires ready { IsReadyFor (call_of pass.old) (state pass.old) }
    ensures own { IsReady map.now pass.new }
    ensures call { call_of pass.new ≤ call + 2 * keys.count }
    ensures ready { IsReadyFor (call_of pass.new) (state pass.new) }
{
    for i in 0..keys.count {
        let number = keys.count - 1 - i;
        remove_number(rt, map, pass, call + 2 * i + 1, keys, number);
        put_number(rt, map, pass, call + 2 * i + 2, keys, number, keys.first);
    }
}

/// Removes each key.
fn remove_each<R: Abort + Wait + Drop + Send>(
    rt: &R,
    map: &OakMap<R>,
    pass: &mut MapPass,
    call: u32,
    keys: Keys,
)
    requires short { AreShort keys.count keys.bytes keys.first keys.second }
    requires own { IsReady map.now pass.old }
    requires call { (call_of pass.old ≤ call) × (call ≤ 10000) }
    requires ready { IsReadyFor (call_of pass.old) (state pass.old) }
    ensures own { IsReady map.now pass.new }
    ensures call { call_of pass.new ≤ call + keys.count }
    ensures ready { IsReadyFor (call_of pass.new) (state pass.new) }
{
    for i in 0..keys.count {
        remove_number(rt, map, pass, call + i + 1, keys, i);
    }
}

/// All keys come, get other values, come anew, and go.
fn come_and_go<R: Abort + Wait + Drop + Send>(
    rt: &R,
    map: &OakMap<R>,
    pass: &mut MapPass,
    call: u32,
    keys: Keys,
)
    requires short { AreShort keys.count keys.bytes keys.first keys.second }
    requires own { IsReady map.now pass.old }
    requires call { (call_of pass.old ≤ call) × (call ≤ 5000) }
    requires ready { IsReadyFor (call_of pass.old) (state pass.old) }
    ensures own { IsReady map.now pass.new }
    ensures call { call_of pass.new ≤ call + 5 * keys.count }
    ensures ready { IsReadyFor (call_of pass.new) (state pass.new) }
{
    put_each(rt, map, pass, call, keys, keys.first);
    put_each(rt, map, pass, call + keys.count, keys, keys.second);
    renew_each(rt, map, pass, call + 2 * keys.count, keys);
    remove_each(rt, map, pass, call + 4 * keys.count, keys);
}

/// They do so several times around.
fn go_around<R: Abort + Wait + Drop + Send>(rt: &R, map: &OakMap<R>, pass: &mut MapPass, keys: Keys)
    requires short { AreShort keys.count keys.bytes keys.first keys.second }
    requires own { IsReady map.now pass.old }
    requires first { call_of pass.old ≡ 0 }
    requires ready { IsReadyFor (call_of pass.old) (state pass.old) }
    ensures own { IsReady map.now pass.new }
    ensures call { call_of pass.new ≤ 2000 }
    ensures ready { IsReadyFor (call_of pass.new) (state pass.new) }
{
    for i in 0..ROUNDS {
        come_and_go(rt, map, pass, 500 * i, keys);
    }
}

/// There is room for each key, and for one more only in place of another. Else the map lacks this.
fn fills<R: Abort + Wait + Drop + Send>(
    rt: &R,
    map: &OakMap<R>,
    pass: &mut MapPass,
    keys: Keys,
    lack: Lack,
)
    requires short { AreShort keys.count keys.bytes keys.first keys.second }
    requires own { IsReady map.now pass.old }
    requires call { call_of pass.old ≤ 2000 }
    requires ready { IsReadyFor (call_of pass.old) (state pass.old) }
{
    put_each(rt, map, pass, 2000, keys, keys.first);
    let more = key_of(keys.count);
    let full = put(rt, map, pass, 2101, &more[..keys.bytes], b"1");
    is_told(rt, full, Wrote::Full(lack));
    remove_number(rt, map, pass, 2102, keys, 0);
    put_number(rt, map, pass, 2103, keys, keys.count, keys.second);
}

/// A map for these keys has room for each of them, time and again, and for no more.
fn has_just_room<R: Abort + Wait + Clone + AllocGlobal + Drop + Send>(
    rt: &R,
    keys: Keys,
    longest: usize,
    lack: Lack,
) -> Result<(), Fail>
    requires short { AreShort keys.count keys.bytes keys.first keys.second }
{
    let shape = Shape::for_keys(keys.count, keys.bytes, longest, 1)?;
    let (map, mut pass) = OakMap::create(rt, &shape)?;
    go_around(rt, &map, &mut pass, keys);
    fills(rt, &map, &mut pass, keys, lack);
    pass.leave();
    drop(map);
    Ok(())
}

/// In one chunk, with keys and values of several classes.
#[test]
fn five_keys_have_room(rt: HostRuntime) -> Result<(), Fail> {
    let keys = Keys {
        count: 5,
        bytes: 20,
        first: 70,
        second: 17,
    };
    has_just_room(&rt, keys, 70, Lack::Header)
}

/// In several chunks, with blocks of one class alone.
#[test]
fn seventy_keys_have_room(rt: HostRuntime) -> Result<(), Fail> {
    let keys = Keys {
        count: 70,
        bytes: 8,
        first: 8,
        second: 1,
    };
    has_just_room(&rt, keys, 8, Lack::Block(Class::B16))
}
