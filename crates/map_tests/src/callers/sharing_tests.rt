//! A map in an `Arc`, as a service keeps it: each thread has a share of the map, and a pass of its own.
ghost use Rattle.std.specs.Prelude.{◌≡◌};
ghost use Rattle.std.specs.Arc.{arc_value};
ghost use Rattle.oak_map.specs.Maps.{IsReady, call_of, state};
ghost use Rattle.point_ops.specs.TestStates.{WroteBy};

use oak_caller::{Caller, MapPass, OakMap, Shape, Wrote};
use std::alloc::Global;
use std::marker::Model;
use std::process::Abort;
use std::sync::{Arc, Wait};
use std::test::Fail;
use std::thread::{self, Threads};

/// A share of a map, with a pass that made no call so far.
struct Sharer<R: Wait + Drop + Send> {
    map: Arc<OakMap<R>, Global>,
    pass: MapPass,
}

impl<R: Wait + Drop + Send> Model for Sharer<R> {
    ghost use Rattle.std.specs.Arc.{arc_value};
    ghost use Rattle.oak_map.specs.Maps.{table_of};
    ghost use Rattle.oak_caller.specs.Callers.{Called, IsIdle};

    ghost Value = { Called };

    ghost view = { λ s. record { table = table_of (arc_value s.map); pass = s.pass } };

    ghost invariant = { λ s. IsIdle (table_of (arc_value s.map)) s.pass 0 };
}

impl<R: Wait + Drop + Send> Drop for Sharer<R> {
    fn drop(self) {
        let Sharer { map: _, pass } = self;
        pass.leave();
    }
}

/// What was asked is so.
fn holds(rt: &impl Abort, so: bool) {
    assert!(rt; so);
}

/// Puts the letter as its own value, and tells whether it was new.
fn puts<R: Wait + Drop + Send>(rt: &R, caller: &mut Caller<'_, R>, letter: u8) -> bool {
    let said = caller.put(rt, &[letter], &[letter]);
    matches!(said, Ok(Wrote::New { at: 1 }))
}

impl<R: Wait + Drop + Send> Sharer<R> {
    /// The other thread puts b, and lets its pass and its share of the map go.
    fn puts_b(self, rt: &R) -> bool {
        let Sharer { map, pass } = self;
        let mut caller = Caller::open(&map, pass);
        puts(rt, &mut caller, b'b')
    }
}

/// A share for another thread.
fn share<R: Wait + Drop + Send + AllocGlobal>(
    rt: &R,
    map: &Arc<OakMap<R>, Global>,
    pass: &mut MapPass,
) -> Option<Sharer<R>>
    requires own { IsReady (arc_value map.now) pass.old }
    requires first { call_of pass.old ≡ 0 }
    requires wrote { WroteBy 0 (state pass.old) }
    ensures own { IsReady (arc_value map.now) pass.new }
    ensures first { call_of pass.new ≡ 0 }
    ensures wrote { WroteBy 0 (state pass.new) }
{
    let Ok(theirs) = Arc::try_clone(map) else {
        return None;
    };
    match map.split(rt, pass) {
        Ok(pass) => Some(Sharer { map: theirs, pass }),
        Err(_fault) => None,
    }
}

/// This thread puts a while the other puts b, and sees b once that has ended.
fn put_both<R: Threads + Abort + Wait + AllocGlobal + Drop + Copy + Send + Sync + 'static>(
    rt: R,
    caller: &mut Caller<'_, R>,
    sharer: Sharer<R>,
) {
    match thread::spawn(&rt, move || sharer.puts_b(&rt)) {
        Ok(child) => {
            holds(&rt, puts(&rt, caller, b'a'));
            holds(&rt, child.join(&rt));
            holds(&rt, caller.contains(&rt, b"b"));
        }
        Err(refused) => {
            (refused.value)();
            assert!(rt; false);
        }
    }
}

/// Two threads share the map. A caller is dropped with its pass.
fn shares<R: Threads + Abort + Wait + AllocGlobal + Drop + Copy + Send + Sync + 'static>(
    rt: R,
    map: &Arc<OakMap<R>, Global>,
    mut pass: MapPass,
)
    requires own { IsReady (arc_value map.now) pass }
    requires first { call_of pass ≡ 0 }
    requires wrote { WroteBy 0 (state pass) }
{
    let theirs = share(&rt, map, &mut pass);
    let mut caller = Caller::open(map, pass);
    let Some(sharer) = theirs else {
        assert!(rt; false);
        return;
    };
    put_both(rt, &mut caller, sharer);
}

#[test]
fn two_threads_share_a_map(rt: HostRuntime) -> Result<(), Fail> {
    let shape = Shape::make(2, 2, 4, 4, [8, 0, 0, 0])?;
    let (map, pass) = OakMap::create(&rt, &shape)?;
    let Ok(map) = Arc::new(rt.alloc(), map) else {
        pass.leave();
        assert!(rt; false);
        return Ok(());
    };
    shares(rt, &map, pass);
    assert_eq!(rt; Arc::strong_count(&map), 1);
    drop(map);
    Ok(())
}
