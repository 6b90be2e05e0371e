//! Puts that give up, by one pass, and beside one that waits.
ghost use Rattle.std.specs.Prelude.{◌≡◌, ◌+◌, ◌-◌, ◌^◌, ◌<◌};
ghost use Rattle.oak_model.specs.Key.{IsKey};
ghost use Rattle.oak_model.specs.Value.{IsValue};
ghost use Rattle.point_ops.specs.TestStates.{IsReady as IsReadyFor, IsReadyAgain};
ghost use Rattle.oak_map.specs.Maps.{IsReady, call_of, state};

use crate::map::test_calls::{is_called, is_tried, make, put, turn};
use oak_map::{Busy, MapPass, OakMap};
use oak_model::{Class, Lack, RecipeKind, Wrote};
use std::process::Abort;
use std::sync::Wait;
use std::test::Fail;
use std::thread::{Threads, join_mut};
use value_ops::{Recipe, StepRecipe};

/// How many puts each of two threads makes.
const PUTS: u32 = 4_000;

/// Tries to put the value of the key, in a call of its own.
fn tries<R: Wait + Drop + Send>(
    map: &OakMap<R>,
    pass: &mut MapPass,
    call: u32,
    key: &[u8],
    bytes: &[u8],
) -> Result<Wrote, Busy>
    requires own { IsReady map.now pass.old }
    requires above { call_of pass.old < call }
    requires ready { IsReadyFor (call_of pass.old) (state pass.old) }
    requires key { IsKey key.now }
    requires value { IsValue bytes.now }
    ensures own { IsReady map.now pass.new }
    ensures call { call_of pass.new ≡ call }
    ensures ready { IsReadyAgain call (state pass.old) (state pass.new) }
{
    turn(map, pass, call);
    map.try_put(pass, key, bytes, 1)
}

/// Tries to put it where the key is absent.
fn tries_if_absent<R: Wait + Drop + Send>(
    map: &OakMap<R>,
    pass: &mut MapPass,
    call: u32,
    key: &[u8],
    bytes: &[u8],
) -> Result<Wrote, Busy>
    requires own { IsReady map.now pass.old }
    requires above { call_of pass.old < call }
    requires ready { IsReadyFor (call_of pass.old) (state pass.old) }
    requires key { IsKey key.now }
    requires value { IsValue bytes.now }
    ensures own { IsReady map.now pass.new }
    ensures call { call_of pass.new ≡ call }
    ensures ready { IsReadyAgain call (state pass.old) (state pass.new) }
{
    turn(map, pass, call);
    map.try_put_if_absent(pass, key, bytes, 1)
}

/// Tries to compute it anew, or to put it.
fn tries_upsert<R: Wait + Drop + Send>(
    map: &OakMap<R>,
    pass: &mut MapPass,
    call: u32,
    key: &[u8],
    bytes: &[u8],
    recipe: &mut Box<dyn Recipe + Send>,
) -> Result<Wrote, Busy>
    requires own { IsReady map.now pass.old }
    requires above { call_of pass.old < call }
    requires ready { IsReadyFor (call_of pass.old) (state pass.old) }
    requires key { IsKey key.now }
    requires value { IsValue bytes.now }
    requires few { calls recipe.old < 2 ^ 64 - 1 }
    ensures own { IsReady map.now pass.new }
    ensures call { call_of pass.new ≡ call }
    ensures ready { IsReadyAgain call (state pass.old) (state pass.new) }
{
    turn(map, pass, call);
    map.try_upsert(pass, key, bytes, recipe, 1)
}

/// A key is put twice.
fn put_twice<R: Abort + Wait + Drop + Send>(rt: &R, map: &OakMap<R>, pass: &mut MapPass)
    requires own { IsReady map.now pass.old }
    requires first { call_of pass.old ≡ 0 }
    requires ready { IsReadyFor 0 (state pass.old) }
    ensures own { IsReady map.now pass.new }
    ensures call { call_of pass.new ≡ 2 }
    ensures ready { IsReadyAgain 2 (state pass.old) (state pass.new) }
{
    let new = tries(map, pass, 1, b"k", b"one");
    is_tried(rt, new, Ok(Wrote::New { at: 1 }));
    let over = tries(map, pass, 2, b"k", b"two");
    is_tried(rt, over, Ok(Wrote::Over { at: 2 }));
}

/// It keeps its value where another one is put only if it is absent, and for another key there is no room.
fn keep_one<R: Abort + Wait + Drop + Send>(rt: &R, map: &OakMap<R>, pass: &mut MapPass)
    requires own { IsReady map.now pass.old }
    requires call { call_of pass.old ≡ 2 }
    requires ready { IsReadyFor 2 (state pass.old) }
    ensures own { IsReady map.now pass.new }
    ensures call { call_of pass.new ≡ 4 }
    ensures ready { IsReadyAgain 4 (state pass.old) (state pass.new) }
{
    let kept = tries_if_absent(map, pass, 3, b"k", b"three");
    is_tried(rt, kept, Ok(Wrote::Kept { at: 2 }));
    let full = tries_if_absent(map, pass, 4, b"l", b"three");
    is_tried(rt, full, Ok(Wrote::Full(Lack::Block(Class::B16))));
}

/// Its value is computed then.
fn compute_one<R: Abort + Wait + Drop + Send>(
    rt: &R,
    map: &OakMap<R>,
    pass: &mut MapPass,
    ones: &mut Box<dyn Recipe + Send>,
)
    requires own { IsReady map.now pass.old }
    requires call { call_of pass.old ≡ 4 }
    requires ready { IsReadyFor 4 (state pass.old) }
{
    is_called(rt, ones.calls(), 0);
    let done = tries_upsert(map, pass, 5, b"k", b"three", ones);
    is_tried(rt, done, Ok(Wrote::Done { at: 3 }));
    is_called(rt, ones.calls(), 1);
}

/// Two keys are put, for one of which there is room, and that one's value is computed then.
fn answer<R: Abort + Wait + Drop + Send>(
    rt: &R,
    map: &OakMap<R>,
    pass: &mut MapPass,
    ones: &mut Box<dyn Recipe + Send>,
)
    requires own { IsReady map.now pass.old }
    requires first { call_of pass.old ≡ 0 }
    requires ready { IsReadyFor 0 (state pass.old) }
{
    put_twice(rt, map, pass);
    keep_one(rt, map, pass);
    compute_one(rt, map, pass, ones);
}

#[test]
fn by_one_pass(rt: HostRuntime) -> Result<(), Fail> {
    let mut ones: Box<dyn Recipe + Send> = Box::new(rt.alloc(), StepRecipe::make())?;
    ones.tell(RecipeKind::Xor, 1);
    let (map, mut pass) = make(&rt, 1, 1, 4, 1, 2)?;
    answer(&rt, &map, &mut pass, &mut ones);
    pass.leave();
    drop(map);
    Ok(())
}

/// A value was put.
fn is_put(rt: &impl Abort, said: Wrote) {
    assert!(rt; matches!(said, Wrote::New { at: _ } | Wrote::Over { at: _ }));
}

/// There was room for a value, where the call didn't give up.
fn has_room(rt: &impl Abort, said: Result<Wrote, Busy>) {
    assert!(rt; !matches!(said, Ok(Wrote::Full(_))));
}

/// Puts four keys in turn, and waits.
fn put_all<R: Abort + Wait + Drop + Send>(rt: &R, map: &OakMap<R>, pass: &mut MapPass)
    requires own { IsReady map.now pass.old }
    requires call { call_of pass.old ≡ 0 }
    requires ready { IsReadyFor 0 (state pass.old) }
    ensures own { IsReady map.now pass.new }
{
    for i in 0..PUTS {
        let said = put(rt, map, pass, i + 1, &[b'a' + (i % 4) as u8], b"waits");
        is_put(rt, said);
    }
}

/// Puts them, and gives up at once where the other is at work.
fn try_all<R: Abort + Wait + Drop + Send>(rt: &R, map: &OakMap<R>, pass: &mut MapPass)
    requires own { IsReady map.now pass.old }
    requires call { call_of pass.old ≡ 0 }
    requires ready { IsReadyFor 0 (state pass.old) }
    ensures own { IsReady map.now pass.new }
{
    for i in 0..PUTS {
        let said = tries(map, pass, i + 1, &[b'a' + (i % 4) as u8], b"tries");
        has_room(rt, said);
    }
}

/// Both at once.
fn put_together<R: Threads + Abort + Wait + Sync + Drop + Send>(
    rt: &R,
    map: &OakMap<R>,
    a: &mut MapPass,
    b: &mut MapPass,
)
    requires own { IsReady map.now a.old × IsReady map.now b.old }
    requires call { (call_of a.old ≡ 0) × (call_of b.old ≡ 0) }
    requires ready { IsReadyFor 0 (state a.old) × IsReadyFor 0 (state b.old) }
{
    join_mut(
        rt,
        &mut ||
            requires own { IsReady map.now a.now }
            requires call { call_of a.now ≡ 0 }
            requires ready { IsReadyFor 0 (state a.now) }
        {
            put_all(rt, map, a);
        },
        &mut ||
            requires own { IsReady map.now b.now }
            requires call { call_of b.now ≡ 0 }
            requires ready { IsReadyFor 0 (state b.now) }
        {
            try_all(rt, map, b);
        },
    );
}

/// A pass is split off for that.
#[test]
fn beside_one_that_waits(rt: HostRuntime) -> Result<(), Fail> {
    let (map, mut pass) = make(&rt, 2, 1, 4, 4, 16)?;
    let Ok(mut other) = map.split(&rt, &mut pass) else {
        pass.leave();
        assert!(rt; false, "no pass was split off");
        return Ok(());
    };
    put_together(&rt, &map, &mut pass, &mut other);
    pass.leave();
    other.leave();
    drop(map);
    Ok(())
}
