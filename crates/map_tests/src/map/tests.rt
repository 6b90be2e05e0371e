//! The calls of the map, by one pass.
ghost use Rattle.std.specs.Prelude.{◌≡◌, ◌<◌, ◌-◌, ◌^◌};
ghost use Rattle.oak_model.specs.Key.{IsKey};
ghost use Rattle.oak_model.specs.Value.{IsValue};
ghost use Rattle.point_ops.specs.TestStates.{IsReady as IsReadyFor, IsReadyAgain};
ghost use Rattle.oak_map.specs.Maps.{IsReady, call_of, state};

use crate::map::test_calls::{close, is_called, is_told, make, put, remove, settle, turn};
use oak_map::{MapPass, OakMap};
use oak_model::{Class, Lack, RecipeKind, Shape, Wrote};
use point_ops::Got;
use std::process::Abort;
use std::sync::Wait;
use std::test::Fail;
use value_ops::{Recipe, StepRecipe};

/// No value of the key is seen, and none was.
fn sees_none<R: Abort + Wait + Drop + Send>(rt: &R, map: &OakMap<R>, pass: &mut MapPass, key: &[u8])
    requires own { IsReady map.now pass.old }
    requires ready { IsReadyFor (call_of pass.old) (state pass.old) }
    requires key { IsKey key.now }
    ensures own { IsReady map.now pass.new }
    ensures call { call_of pass.new ≡ call_of pass.old }
    ensures ready { IsReadyAgain (call_of pass.old) (state pass.old) (state pass.new) }
{
    let got = map.view(rt, pass, key);
    assert!(rt; matches!(got, Got::Absent { at: 0 }));
}

/// Computes the value of the key, in a call of its own.
fn compute<R: Wait + Drop + Send>(
    rt: &R,
    map: &OakMap<R>,
    pass: &mut MapPass,
    call: u32,
    key: &[u8],
    recipe: &mut Box<dyn Recipe + Send>,
) -> Wrote
    requires own { IsReady map.now pass.old }
    requires above { call_of pass.old < call }
    requires ready { IsReadyFor (call_of pass.old) (state pass.old) }
    requires key { IsKey key.now }
    requires few { calls recipe.old < 2 ^ 64 - 1 }
    ensures own { IsReady map.now pass.new }
    ensures call { call_of pass.new ≡ call }
    ensures ready { IsReadyAgain call (state pass.old) (state pass.new) }
{
    turn(map, pass, call);
    map.compute(rt, pass, key, recipe)
}

/// Puts the value of the key where it has none, in a call of its own.
fn put_if_absent<R: Wait + Drop + Send>(
    rt: &R,
    map: &OakMap<R>,
    pass: &mut MapPass,
    call: u32,
    key: &[u8],
    bytes: &[u8],
) -> Wrote
    requires own { IsReady map.now pass.old }
    requires above { call_of pass.old < call }
    requires ready { IsReadyFor (call_of pass.old) (state pass.old) }
    requires key { IsKey key.now }
    requires value { IsValue bytes.now }
    ensures own { IsReady map.now pass.new }
    ensures call { call_of pass.new ≡ call }
    ensures ready { IsReadyAgain call (state pass.old) (state pass.new) }
{
    turn(map, pass, call);
    map.put_if_absent(rt, pass, key, bytes)
}

/// Computes the value of the key anew, or puts it, in a call of its own.
fn upsert<R: Wait + Drop + Send>(
    rt: &R,
    map: &OakMap<R>,
    pass: &mut MapPass,
    call: u32,
    key: &[u8],
    bytes: &[u8],
    recipe: &mut Box<dyn Recipe + Send>,
) -> Wrote
    requires own { IsReady map.now pass.old }
    requires above { call_of pass.old < call }
    requires ready { IsReadyFor (call_of pass.old) (state pass.old) }
    requires key { IsKey key.now }
    requires value { IsValue bytes.now }
    requires few { calls recipe.old < 2 ^ 64 - 1 }
    ensures own { IsReady map.now pass.new }
    ensures call { call_of pass.new ≡ call }
    ensures ready { IsReadyAgain call (state pass.old) (state pass.new) }
{
    turn(map, pass, call);
    map.upsert(rt, pass, key, bytes, recipe)
}

/// No call finds a value of the key, and the recipe isn't called.
fn is_absent<R: Abort + Wait + Drop + Send>(
    rt: &R,
    map: &OakMap<R>,
    pass: &mut MapPass,
    ones: &mut Box<dyn Recipe + Send>,
)
    requires own { IsReady map.now pass.old }
    requires first { call_of pass.old ≡ 0 }
    requires ready { IsReadyFor 0 (state pass.old) }
    ensures own { IsReady map.now pass.new }
    ensures ready { IsReadyAgain 2 (state pass.old) (state pass.new) }
{
    sees_none(rt, map, pass, b"k");
    let removed = remove(rt, map, pass, 1, b"k");
    is_told(rt, removed, Wrote::Absent { at: 0 });
    is_called(rt, ones.calls(), 0);
    let computed = compute(rt, map, pass, 2, b"k", ones);
    is_told(rt, computed, Wrote::Absent { at: 0 });
    is_called(rt, ones.calls(), 0);
    settle(rt, map, pass);
}

#[test]
fn an_absent_key(rt: HostRuntime) -> Result<(), Fail> {
    let mut ones: Box<dyn Recipe + Send> = Box::new(rt.alloc(), StepRecipe::make())?;
    ones.tell(RecipeKind::Xor, 1);
    let (map, mut pass) = make(&rt, 1, 1, 4, 1, 2)?;
    is_absent(&rt, &map, &mut pass, &mut ones);
    close(&rt, map, pass);
    Ok(())
}

/// Three puts of two keys, for one of which there is room.
fn is_put<R: Abort + Wait + Drop + Send>(rt: &R, map: &OakMap<R>, pass: &mut MapPass)
    requires own { IsReady map.now pass.old }
    requires first { call_of pass.old ≡ 0 }
    requires ready { IsReadyFor 0 (state pass.old) }
    ensures own { IsReady map.now pass.new }
    ensures call { call_of pass.new ≡ 3 }
    ensures ready { IsReadyAgain 3 (state pass.old) (state pass.new) }
{
    let new = put(rt, map, pass, 1, b"k", b"one");
    is_told(rt, new, Wrote::New { at: 1 });
    let kept = put_if_absent(rt, map, pass, 2, b"k", b"two");
    is_told(rt, kept, Wrote::Kept { at: 1 });
    let full = put(rt, map, pass, 3, b"l", b"two");
    is_told(rt, full, Wrote::Full(Lack::Block(Class::B16)));
}

/// Its value is computed then.
fn is_computed<R: Abort + Wait + Drop + Send>(
    rt: &R,
    map: &OakMap<R>,
    pass: &mut MapPass,
    ones: &mut Box<dyn Recipe + Send>,
)
    requires own { IsReady map.now pass.old }
    requires call { call_of pass.old ≡ 3 }
    requires ready { IsReadyFor 3 (state pass.old) }
    ensures own { IsReady map.now pass.new }
    ensures ready { IsReadyAgain 4 (state pass.old) (state pass.new) }
{
    is_called(rt, ones.calls(), 0);
    let done = upsert(rt, map, pass, 4, b"k", b"two", ones);
    is_told(rt, done, Wrote::Done { at: 2 });
    is_called(rt, ones.calls(), 1);
}

#[test]
fn a_put_key(rt: HostRuntime) -> Result<(), Fail> {
    let mut ones: Box<dyn Recipe + Send> = Box::new(rt.alloc(), StepRecipe::make())?;
    ones.tell(RecipeKind::Xor, 1);
    let (map, mut pass) = make(&rt, 1, 1, 4, 1, 2)?;
    is_put(&rt, &map, &mut pass);
    is_computed(&rt, &map, &mut pass, &mut ones);
    close(&rt, map, pass);
    Ok(())
}

#[test]
fn passes_are_left_and_their_map_is_freed(rt: HostRuntime) -> Result<(), Fail> {
    let shape = Shape::make(2, 1, 4, 1, [2, 0, 0, 0])?;
    let (map, mut pass) = OakMap::create(&rt, &shape)?;
    let split = match map.split(&rt, &mut pass) {
        Ok(other) => {
            other.leave();
            true
        }
        Err(_) => false,
    };
    pass.turn(1);
    let new = map.put(&rt, &mut pass, b"k", b"one");
    pass.leave();
    drop(map);
    assert!(rt; split);
    is_told(&rt, new, Wrote::New { at: 1 });
    Ok(())
}
