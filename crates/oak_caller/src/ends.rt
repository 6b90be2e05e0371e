//! The first pair of a map and the last.
ghost use Rattle.std.specs.Prelude.{◌≡◌, IfNone, IfSome, ◌∷◌, [], MatchOption, None};
ghost use Rattle.std.specs.Fn.{FnOnceReturnsAtPair};
ghost use Rattle.oak_model.specs.declared.limits.TheConstants.{GREATEST_KEY, GREATEST_VALUE};
ghost use Rattle.oak_model.specs.declared.replies.Pair.{Pair};
ghost use Rattle.oak_core.specs.PassState.{HoldsNothing};
ghost use Rattle.oak_core.specs.Passes.{IsPassOf, state as table_state};
ghost use Rattle.oak_core.specs.Scratch.{StaysButSlots};
ghost use Rattle.scan_cursor.specs.declared.ways.Way.TheVariants as ways;
ghost use Rattle.scan_cursor.specs.Scanned.{HasScanned};
ghost use Rattle.scan_cursor.specs.Views.{Later};
ghost use Rattle.scan_cursor.specs.Walks.{view_at};
ghost use Rattle.oak_map.specs.Maps.{sizes, table_of};
ghost use Rattle.oak_caller.specs.Callers.{CallsOn, KeepsViews, PassKeepsViews};
ghost use Rattle.oak_caller.specs.Scans.{EmptyFits, FindsNext, ScannedTo, view_of};

use crate::caller::Caller;
use crate::giving::next_pair;
use oak_core::Pass;
use oak_map::{OakMap, Way, scan_of};
use oak_model::{GREATEST_KEY, GREATEST_VALUE};
use std::sync::Wait;

impl<R: Wait + Drop + Send> Caller<'_, R> {
    /// Gives the closure the bytes of the least key that is present and of its value, once; none where there is no key,
    /// and the closure is not called then. Each key is read at a moment of its own.
    pub fn first<T, F: FnOnce(&[u8], &[u8]) -> T + Drop>(&mut self, rt: &R, f: F) -> Option<T>
        requires { F.IsAlwaysCallable f }
        ensures on { CallsOn StaysButSlots self.old self.new }
        ensures views { KeepsViews self.old self.new }
        ensures first { MatchOption result (HasScanned ways.Up None None (view_of self.old) (view_of self.new) [])
            (λ y. (x : Pair) × ScannedTo ways.Up None None x.key (view_of self.old) (view_of self.new) (x ∷ [])
            × FnOnceReturnsAtPair F.FnOnce f x.key x.value y) }
    {
        let mut key = [0; GREATEST_KEY];
        let mut value = [0; GREATEST_VALUE];
        match end_pair(
            rt,
            self.map,
            self.pass.pass_mut(),
            Way::Up,
            &mut key,
            &mut value,
        ) {
            None => None,
            Some((long, len)) => Some(f(&key[..long], &value[..len])),
        }
    }

    /// Gives the closure the bytes of the greatest key that is present and of its value, as [`Caller::first`] does.
    pub fn last<T, F: FnOnce(&[u8], &[u8]) -> T + Drop>(&mut self, rt: &R, f: F) -> Option<T>
        requires { F.IsAlwaysCallable f }
        ensures on { CallsOn StaysButSlots self.old self.new }
        ensures views { KeepsViews self.old self.new }
        ensures last { MatchOption result (HasScanned ways.Down None None (view_of self.old) (view_of self.new) [])
            (λ y. (x : Pair) × ScannedTo ways.Down None None x.key (view_of self.old) (view_of self.new) (x ∷ [])
            × FnOnceReturnsAtPair F.FnOnce f x.key x.value y) }
    {
        let mut key = [0; GREATEST_KEY];
        let mut value = [0; GREATEST_VALUE];
        match end_pair(
            rt,
            self.map,
            self.pass.pass_mut(),
            Way::Down,
            &mut key,
            &mut value,
        ) {
            None => None,
            Some((long, len)) => Some(f(&key[..long], &value[..len])),
        }
    }

    /// Whether no key is present. Each key is read at a moment of its own.
    pub fn is_empty(&mut self, rt: &R) -> bool
        ensures on { CallsOn StaysButSlots self.old self.new }
        ensures views { KeepsViews self.old self.new }
        ensures empty { EmptyFits result (view_of self.old) (view_of self.new) }
    {
        gives_none(rt, self.map, self.pass.pass_mut())
    }
}

/// Whether a scan of the whole map by the pass on its table gives no pair.
fn gives_none<R: Wait + Drop + Send>(rt: &R, map: &OakMap<R>, pass: &mut Pass) -> bool
    requires own { IsPassOf (table_of map.now) pass.old }
    requires idle { HoldsNothing (table_state pass.old) }
    ensures own { StaysButSlots pass.old pass.new }
    ensures idle { HoldsNothing (table_state pass.new) }
    ensures views { PassKeepsViews (sizes map.now) pass.old pass.new }
    ensures later { Later (view_at (sizes map.now) pass.old) (view_at (sizes map.now) pass.new) }
    ensures empty { EmptyFits result (view_at (sizes map.now) pass.old) (view_at (sizes map.now) pass.new) }
{
    let mut cursor = scan_of(map, pass, None, None, Way::Up);
    let found = cursor.advance(rt);
    cursor.finish();
    !found
}

/// The first pair of a scan of the whole map by the pass on its table, copied: the lengths of its key and its value.
fn end_pair<R: Wait + Drop + Send>(
    rt: &R,
    map: &OakMap<R>,
    pass: &mut Pass,
    way: Way,
    key: &mut [u8; GREATEST_KEY],
    value: &mut [u8; GREATEST_VALUE],
) -> Option<(usize, usize)>
    requires own { IsPassOf (table_of map.now) pass.old }
    requires idle { HoldsNothing (table_state pass.old) }
    ensures own { StaysButSlots pass.old pass.new }
    ensures idle { HoldsNothing (table_state pass.new) }
    ensures views { PassKeepsViews (sizes map.now) pass.old pass.new }
    ensures later { Later (view_at (sizes map.now) pass.old) (view_at (sizes map.now) pass.new) }
    ensures none { IfNone result (HasScanned way None None (view_at (sizes map.now) pass.old) (view_at (sizes map.now) pass.new) []) }
    ensures found { IfSome result (λ n. FindsNext n key.new value.new way None None (view_at (sizes map.now) pass.old)
        (view_at (sizes map.now) pass.new)) }
{
    let mut cursor = scan_of(map, pass, None, None, way);
    let found = next_pair(rt, &mut cursor, None, key, value);
    cursor.finish();
    found
}
