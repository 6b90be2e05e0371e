//! Calls that give up: to a pass that is alone they answer as those that wait, and while another pass has the value in hand
//! they are busy.
ghost use Rattle.std.specs.Prelude.{◌≡◌, ◌<◌, ◌-◌, ◌^◌};
ghost use Rattle.oak_model.specs.Key.{IsKey};
ghost use Rattle.oak_core.specs.PassState.{HoldsNothing};
ghost use Rattle.oak_core.specs.Passes.{IsPassOf, Stays, state as table_state};
ghost use Rattle.value_ops.specs.Views.{KnowsView};
ghost use Rattle.point_ops.specs.TestStates.{IsReady as IsReadyFor, IsReadyAgain};
ghost use Rattle.oak_map.specs.Maps.{IsReady, call_of, sizes, state, table_of};

use crate::map::test_calls::{is_called, is_tried, make, put, turn};
use oak_core::Pass;
use oak_map::{Busy, MapPass, NoValue, OakMap, try_get_of};
use oak_model::{RecipeKind, Wrote};
use point_ops::Got;
use std::process::Abort;
use std::sync::Wait;
use std::test::Fail;
use value_ops::{Recipe, StepRecipe, ValueView};

/// Removes the key, or gives up, in a call of its own.
fn removes<R: Wait + Drop + Send>(
    map: &OakMap<R>,
    pass: &mut MapPass,
    call: u32,
    key: &[u8],
    looks: u32,
) -> Result<Wrote, Busy>
    requires own { IsReady map.now pass.old }
    requires above { call_of pass.old < call }
    requires ready { IsReadyFor (call_of pass.old) (state pass.old) }
    requires key { IsKey key.now }
    requires some { 0 < looks }
    ensures own { IsReady map.now pass.new }
    ensures call { call_of pass.new ≡ call }
    ensures ready { IsReadyAgain call (state pass.old) (state pass.new) }
{
    turn(map, pass, call);
    map.try_remove(pass, key, looks)
}

/// Computes the value of the key, or gives up, in a call of its own.
pub(crate) fn computes<R: Wait + Drop + Send>(
    map: &OakMap<R>,
    pass: &mut MapPass,
    call: u32,
    key: &[u8],
    recipe: &mut Box<dyn Recipe + Send>,
    looks: u32,
) -> Result<Wrote, Busy>
    requires own { IsReady map.now pass.old }
    requires above { call_of pass.old < call }
    requires ready { IsReadyFor (call_of pass.old) (state pass.old) }
    requires key { IsKey key.now }
    requires few { calls recipe.old < 2 ^ 64 - 1 }
    requires some { 0 < looks }
    ensures own { IsReady map.now pass.new }
    ensures call { call_of pass.new ≡ call }
    ensures ready { IsReadyAgain call (state pass.old) (state pass.new) }
{
    turn(map, pass, call);
    map.try_compute(pass, key, recipe, looks)
}

/// It is computed so, with a recipe that was called so often before.
fn computes_to<R: Abort + Wait + Drop + Send>(
    rt: &R,
    map: &OakMap<R>,
    pass: &mut MapPass,
    call: u32,
    key: &[u8],
    recipe: &mut Box<dyn Recipe + Send>,
    looks: u32,
    before: u64,
    due: Result<Wrote, Busy>,
)
    requires own { IsReady map.now pass.old }
    requires above { call_of pass.old < call }
    requires ready { IsReadyFor (call_of pass.old) (state pass.old) }
    requires key { IsKey key.now }
    requires few { before < 2 ^ 64 - 1 }
    requires some { 0 < looks }
    ensures own { IsReady map.now pass.new }
    ensures call { call_of pass.new ≡ call }
    ensures ready { IsReadyAgain call (state pass.old) (state pass.new) }
{
    is_called(rt, recipe.calls(), before);
    let told = computes(map, pass, call, key, recipe, looks);
    is_tried(rt, told, due);
}

/// The stamp of the key's value, and its length.
fn reads<R: Wait + Drop + Send>(
    map: &OakMap<R>,
    pass: &mut Pass,
    key: &[u8],
) -> Result<(u64, usize), NoValue>
    requires own { IsPassOf (table_of map.now) pass.old }
    requires idle { HoldsNothing (table_state pass.old) }
    requires key { IsKey key.now }
    ensures own { Stays pass.old pass.new }
{
    match try_get_of(pass, map, key, 1) {
        Err(why) => Err(why),
        Ok(reading) => {
            let told = (reading.at(), reading.len());
            reading.done();
            Ok(told)
        }
    }
}

/// Two computes are made, one on a key that has a value, for which the recipe is called, and one on a key that has none.
fn compute_two<R: Abort + Wait + Drop + Send>(
    rt: &R,
    map: &OakMap<R>,
    pass: &mut MapPass,
    ones: &mut Box<dyn Recipe + Send>,
)
    requires own { IsReady map.now pass.old }
    requires call { call_of pass.old ≡ 2 }
    requires ready { IsReadyFor 2 (state pass.old) }
    ensures own { IsReady map.now pass.new }
    ensures call { call_of pass.new ≡ 4 }
    ensures ready { IsReadyAgain 4 (state pass.old) (state pass.new) }
{
    let done = Ok(Wrote::Done { at: 2 });
    computes_to(rt, map, pass, 3, b"k", ones, 1, 0, done);
    let none = Ok(Wrote::Absent { at: 0 });
    computes_to(rt, map, pass, 4, b"l", ones, 1, 1, none);
    is_called(rt, ones.calls(), 1);
}

/// A key is removed twice.
fn remove_twice<R: Abort + Wait + Drop + Send>(rt: &R, map: &OakMap<R>, pass: &mut MapPass)
    requires own { IsReady map.now pass.old }
    requires call { call_of pass.old ≡ 4 }
    requires ready { IsReadyFor 4 (state pass.old) }
    ensures own { IsReady map.now pass.new }
    ensures call { call_of pass.new ≡ 6 }
    ensures ready { IsReadyAgain 6 (state pass.old) (state pass.new) }
{
    let removed = removes(map, pass, 5, b"k", 1);
    is_tried(rt, removed, Ok(Wrote::Removed { at: 3 }));
    let away = removes(map, pass, 6, b"k", 1);
    is_tried(rt, away, Ok(Wrote::Absent { at: 3 }));
}

/// The key that was removed has no view, and the other one its value.
fn see_one<R: Abort + Wait + Drop + Send>(rt: &R, map: &OakMap<R>, pass: &mut MapPass)
    requires own { IsReady map.now pass.old }
    requires ready { IsReadyFor (call_of pass.old) (state pass.old) }
{
    let absent = map.try_view(pass, b"k", 1);
    assert!(rt; matches!(absent, Ok(Got::Absent { at: 3 })));
    let read = reads(map, pass.pass_mut(), b"m");
    assert!(rt; read == Ok((1, 5)));
}

/// So it is where two keys were put.
fn answer<R: Abort + Wait + Drop + Send>(
    rt: &R,
    map: &OakMap<R>,
    pass: &mut MapPass,
    ones: &mut Box<dyn Recipe + Send>,
)
    requires own { IsReady map.now pass.old }
    requires first { call_of pass.old ≡ 0 }
    requires ready { IsReadyFor 0 (state pass.old) }
{
    put(rt, map, pass, 1, b"k", b"one");
    put(rt, map, pass, 2, b"m", b"three");
    compute_two(rt, map, pass, ones);
    remove_twice(rt, map, pass);
    see_one(rt, map, pass);
}

#[test]
fn they_answer_as_those_that_wait(rt: HostRuntime) -> Result<(), Fail> {
    let mut ones: Box<dyn Recipe + Send> = Box::new(rt.alloc(), StepRecipe::make())?;
    ones.tell(RecipeKind::Xor, 1);
    let (map, mut pass) = make(&rt, 1, 1, 4, 2, 4)?;
    answer(&rt, &map, &mut pass, &mut ones);
    pass.leave();
    Ok(())
}

/// A removal and a compute give up, and the recipe isn't called.
fn are_busy<R: Abort + Wait + Drop + Send>(
    rt: &R,
    map: &OakMap<R>,
    pass: &mut MapPass,
    ones: &mut Box<dyn Recipe + Send>,
)
    requires own { IsReady map.now pass.old }
    requires call { call_of pass.old ≡ 1 }
    requires ready { IsReadyFor 1 (state pass.old) }
    ensures own { IsReady map.now pass.new }
    ensures call { call_of pass.new ≡ 3 }
    ensures ready { IsReadyAgain 3 (state pass.old) (state pass.new) }
{
    let busy = removes(map, pass, 2, b"k", 3);
    is_tried(rt, busy, Err(Busy));
    computes_to(rt, map, pass, 3, b"k", ones, 3, 0, Err(Busy));
}

/// Both go through.
fn go_through<R: Abort + Wait + Drop + Send>(
    rt: &R,
    map: &OakMap<R>,
    pass: &mut MapPass,
    ones: &mut Box<dyn Recipe + Send>,
)
    requires own { IsReady map.now pass.old }
    requires call { call_of pass.old ≡ 3 }
    requires ready { IsReadyFor 3 (state pass.old) }
{
    let done = Ok(Wrote::Done { at: 2 });
    computes_to(rt, map, pass, 4, b"k", ones, 1, 0, done);
    let removed = removes(map, pass, 5, b"k", 1);
    is_tried(rt, removed, Ok(Wrote::Removed { at: 3 }));
}

/// They give up while the other pass has the value of the view pinned, and go through behind that.
fn beside_a_pin<R: Abort + Wait + Drop + Send>(
    rt: &R,
    map: &OakMap<R>,
    pass: &mut MapPass,
    other: &mut MapPass,
    view: &ValueView,
    ones: &mut Box<dyn Recipe + Send>,
)
    requires own { IsReady map.now pass.old }
    requires other { IsReady map.now other.old }
    requires known { KnowsView (sizes map.now) view.now (state other.old) }
    requires call { call_of pass.old ≡ 1 }
    requires ready { IsReadyFor 1 (state pass.old) }
{
    let Ok(pin) = view.pin(map.table(), other.pass_mut()) else {
        assert!(rt; false);
        return;
    };
    are_busy(rt, map, pass, ones);
    pin.reading(map.table(), other.pass_mut()).done();
    go_through(rt, map, pass, ones);
}

/// So it is with the view that the other pass gets.
fn beside_a_view<R: Abort + Wait + Drop + Send>(
    rt: &R,
    map: &OakMap<R>,
    pass: &mut MapPass,
    other: &mut MapPass,
    ones: &mut Box<dyn Recipe + Send>,
)
    requires own { IsReady map.now pass.old }
    requires other { IsReady map.now other.old }
    requires call { call_of pass.old ≡ 1 }
    requires ready { IsReadyFor 1 (state pass.old) }
{
    match map.try_view(other, b"k", 1) {
        Ok(Got::View(view)) => beside_a_pin(rt, map, pass, other, &view, ones),
        _ => assert!(rt; false),
    }
}

#[test]
fn they_give_up_beside_a_pin(rt: HostRuntime) -> Result<(), Fail> {
    let mut ones: Box<dyn Recipe + Send> = Box::new(rt.alloc(), StepRecipe::make())?;
    ones.tell(RecipeKind::Xor, 1);
    let (map, mut pass) = make(&rt, 2, 1, 4, 1, 2)?;
    put(&rt, &map, &mut pass, 1, b"k", b"one");
    let split = match map.split(&rt, &mut pass) {
        Ok(mut other) => {
            beside_a_view(&rt, &map, &mut pass, &mut other, &mut ones);
            other.leave();
            true
        }
        Err(_) => false,
    };
    pass.leave();
    assert!(rt; split);
    Ok(())
}
