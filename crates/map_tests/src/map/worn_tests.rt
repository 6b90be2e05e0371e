//! A map whose one header is used once, and never again.
ghost use Rattle.std.specs.Prelude.{◌≡◌};
ghost use Rattle.oak_model.specs.Key.{IsKey};
ghost use Rattle.oak_core.specs.Passes.{IsPassOf, Stays, call_of as table_call, state as table_state};
ghost use Rattle.point_ops.specs.TestStates.{HasView, IsReady as IsReadyFor, IsReadyAgain};
ghost use Rattle.oak_map.specs.Maps.{IsReady, call_of, sizes, state, table_of};

use crate::map::lending_tests::shows_none;
use crate::map::test_calls::{is_told, put, remove, settle};
use header_core::LAST_GENERATION;
use oak_core::{Pass, SplitFault};
use oak_map::{Lent, MapPass, OakMap, ValueView, get_of};
use oak_model::{Lack, Shape, Usage, Wrote};
use point_ops::Got;
use std::process::Abort;
use std::sync::Wait;
use std::test::Fail;

/// The view of a, which was put, shows nothing once a was removed, and a is refused for want of a header then.
fn wears_out<R: Abort + Wait + Drop + Send>(
    rt: &R,
    map: &OakMap<R>,
    pass: &mut MapPass,
    view: &ValueView,
)
    requires ready { IsReady map.now pass.old }
    requires wrote { IsReadyFor 1 (state pass.old) }
    requires call { call_of pass.old ≡ 1 }
    requires has { HasView (sizes map.now) view.now (state pass.old) }
    ensures ready { IsReady map.now pass.new }
    ensures call { call_of pass.new ≡ 3 }
    ensures again { IsReadyAgain 3 (state pass.old) (state pass.new) }
{
    let removed = remove(rt, map, pass, 2, b"a");
    is_told(rt, removed, Wrote::Removed { at: 2 });
    shows_none(rt, map, pass, view);
    let full = put(rt, map, pass, 3, b"a", &[1]);
    is_told(rt, full, Wrote::Full(Lack::Header));
}

/// So it is with the view that is got of a.
fn one_life<R: Abort + Wait + Drop + Send>(rt: &R, map: &OakMap<R>, pass: &mut MapPass)
    requires ready { IsReady map.now pass.old }
    requires wrote { IsReadyFor 1 (state pass.old) }
    requires call { call_of pass.old ≡ 1 }
    ensures ready { IsReady map.now pass.new }
    ensures call { call_of pass.new ≡ 3 }
    ensures wrote { IsReadyFor 3 (state pass.new) }
    ensures numbers { (state pass.new).numbers ≡ (state pass.old).numbers }
{
    match map.view(rt, pass, b"a") {
        Got::Absent { at: _ } => assert!(rt; false),
        Got::View(view) => wears_out(rt, map, pass, &view),
    }
}

/// The place at which the key has no value.
fn misses<R: Wait + Drop + Send>(
    rt: &R,
    map: &OakMap<R>,
    pass: &mut Pass,
    key: &[u8],
) -> Option<u64>
    requires own { IsPassOf (table_of map.now) pass.old }
    requires ready { IsReadyFor (table_call pass.old) (table_state pass.old) }
    requires key { IsKey key.now }
    ensures own { Stays pass.old pass.new }
    ensures ready { IsReadyAgain (table_call pass.old) (table_state pass.old) (table_state pass.new) }
{
    match get_of(pass, rt, map, key) {
        Lent::Absent { at } => Some(at),
        Lent::Present(reading) => {
            reading.done();
            None
        }
    }
}

/// A map for one pass splits none off.
fn splits_none<R: Abort + Wait + Drop + Send + AllocGlobal>(
    rt: &R,
    map: &OakMap<R>,
    pass: &mut MapPass,
)
    requires ready { IsReady map.now pass.old }
    ensures ready { IsReady map.now pass.new }
    ensures numbers { (state pass.new).numbers ≡ (state pass.old).numbers }
{
    match map.split(rt, pass) {
        Ok(other) => {
            map.join(pass, other);
            assert!(rt; false);
        }
        Err(fault) => assert!(rt; fault == SplitFault::Limit { made: 1 }),
    }
}

/// The key of a map of one old header is put, removed and missed, the map is settled, and splits no pass off.
fn one_key<R: Abort + Wait + AllocGlobal + Drop + Send>(rt: &R, map: &OakMap<R>, pass: &mut MapPass)
    requires own { IsReady map.now pass.old }
    requires first { call_of pass.old ≡ 0 }
    requires ready { IsReadyFor 0 (state pass.old) }
    ensures own { IsReady map.now pass.new }
    ensures numbers { (state pass.new).numbers ≡ (state pass.old).numbers }
{
    let new = put(rt, map, pass, 1, b"a", &[1]);
    is_told(rt, new, Wrote::New { at: 1 });
    one_life(rt, map, pass);
    let missed = misses(rt, map, pass.pass_mut(), b"a");
    assert!(rt; missed == Some(2));
    settle(rt, map, pass);
    splits_none(rt, map, pass);
}

#[test]
fn one_old_header(rt: HostRuntime) -> Result<(), Fail> {
    let shape = Shape::make(1, 1, 4, 1, [8, 0, 0, 0])?;
    let (map, mut pass) = OakMap::create_aged(&rt, &shape, LAST_GENERATION - 1)?;
    one_key(&rt, &map, &mut pass);
    let used = map.close(pass).usage();
    let worn = Usage {
        blocks: [0, 0, 0, 0],
        headers: 1,
        chunks: 1,
    };
    assert!(rt; used == worn);
    Ok(())
}
