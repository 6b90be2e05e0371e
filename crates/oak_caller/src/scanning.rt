//! Scans: pairs that are given to a closure, and counted.
ghost use Rattle.std.specs.Prelude.{◌≡◌, IfSome, None, Some};
ghost use Rattle.oak_model.specs.Key.{IsKey};
ghost use Rattle.oak_core.specs.PassState.{HoldsNothing};
ghost use Rattle.oak_core.specs.Passes.{IsPassOf, state as table_state};
ghost use Rattle.oak_core.specs.Scratch.{StaysButSlots};
ghost use Rattle.chunk_ops.specs.AskedRanges.{bytes_in_option};
ghost use Rattle.scan_cursor.specs.Views.{Later};
ghost use Rattle.scan_cursor.specs.Walks.{view_at};
ghost use Rattle.oak_map.specs.Maps.{sizes, table_of};
ghost use Rattle.oak_caller.specs.Callers.{CallsOn, KeepsViews, PassKeepsViews};
ghost use Rattle.oak_caller.specs.Scans.{Counts, GaveFits, view_of};

use crate::caller::Caller;
use crate::giving::{count_pairs, give_pairs};
use oak_core::Pass;
use oak_map::{OakMap, Way, scan_of};
use std::sync::Wait;

impl<R: Wait + Drop + Send> Caller<'_, R> {
    /// Gives the closure the bytes of the key and of the value of each pair between the bounds, which belong to the
    /// range, in order, each pair once, until it says no more: whether the scan came to the end of its range. None is no
    /// bound. Each pair is that of its key at a moment of its own.
    pub fn for_each<F: FnMut(&[u8], &[u8]) -> bool>(
        &mut self,
        rt: &R,
        low: Option<&[u8]>,
        high: Option<&[u8]>,
        way: Way,
        f: F,
    ) -> bool
        requires low { IfSome low (λ k. IsKey k.now) }
        requires high { IfSome high (λ k. IsKey k.now) }
        requires calls { (g : _) (x : _) (y : _) → F.pre g x y }
        ensures on { CallsOn StaysButSlots self.old self.new }
        ensures views { KeepsViews self.old self.new }
        ensures gave { GaveFits None result F.FnMut f way (bytes_in_option low.entry) (bytes_in_option high.entry) (view_of self.old) (view_of self.new) }
    {
        pairs_between(rt, self.map, self.pass.pass_mut(), low, high, way, None, f)
    }

    /// Gives the closure the pairs that [`Caller::for_each`] gives, of each value the first bytes, `most` of them where it
    /// has more. No more is copied, so a scan that wants little of long values costs less.
    pub fn for_each_prefix<F: FnMut(&[u8], &[u8]) -> bool>(
        &mut self,
        rt: &R,
        low: Option<&[u8]>,
        high: Option<&[u8]>,
        way: Way,
        most: usize,
        f: F,
    ) -> bool
        requires low { IfSome low (λ k. IsKey k.now) }
        requires high { IfSome high (λ k. IsKey k.now) }
        requires calls { (g : _) (x : _) (y : _) → F.pre g x y }
        ensures on { CallsOn StaysButSlots self.old self.new }
        ensures views { KeepsViews self.old self.new }
        ensures gave { GaveFits (Some most) result F.FnMut f way (bytes_in_option low.entry) (bytes_in_option high.entry) (view_of self.old) (view_of self.new) }
    {
        pairs_between(
            rt,
            self.map,
            self.pass.pass_mut(),
            low,
            high,
            way,
            Some(most),
            f,
        )
    }

    /// How many keys between the bounds are present, each at a moment of its own. None is no bound. The count stands
    /// still at 2^64 - 1.
    pub fn count(&mut self, rt: &R, low: Option<&[u8]>, high: Option<&[u8]>) -> u64
        requires low { IfSome low (λ k. IsKey k.now) }
        requires high { IfSome high (λ k. IsKey k.now) }
        ensures on { CallsOn StaysButSlots self.old self.new }
        ensures views { KeepsViews self.old self.new }
        ensures counts { Counts result (bytes_in_option low.entry) (bytes_in_option high.entry) (view_of self.old) (view_of self.new) }
    {
        count_between(rt, self.map, self.pass.pass_mut(), low, high)
    }
}

/// [`Caller::for_each_prefix`] by the pass on the map's table, and [`Caller::for_each`] where `most` is none.
fn pairs_between<R: Wait + Drop + Send, F: FnMut(&[u8], &[u8]) -> bool>(
    rt: &R,
    map: &OakMap<R>,
    pass: &mut Pass,
    low: Option<&[u8]>,
    high: Option<&[u8]>,
    way: Way,
    most: Option<usize>,
    f: F,
) -> bool
    requires own { IsPassOf (table_of map.now) pass.old }
    requires idle { HoldsNothing (table_state pass.old) }
    requires low { IfSome low (λ k. IsKey k.now) }
    requires high { IfSome high (λ k. IsKey k.now) }
    requires calls { (g : _) (x : _) (y : _) → F.pre g x y }
    ensures own { StaysButSlots pass.old pass.new }
    ensures idle { HoldsNothing (table_state pass.new) }
    ensures views { PassKeepsViews (sizes map.now) pass.old pass.new }
    ensures later { Later (view_at (sizes map.now) pass.old) (view_at (sizes map.now) pass.new) }
    ensures gave { GaveFits most result F.FnMut f way (bytes_in_option low.entry) (bytes_in_option high.entry)
        (view_at (sizes map.now) pass.old) (view_at (sizes map.now) pass.new) }
{
    let mut cursor = scan_of(map, pass, low, high, way);
    let ended = give_pairs(rt, &mut cursor, most, f);
    cursor.finish();
    ended
}

/// [`Caller::count`] by the pass on the map's table.
fn count_between<R: Wait + Drop + Send>(
    rt: &R,
    map: &OakMap<R>,
    pass: &mut Pass,
    low: Option<&[u8]>,
    high: Option<&[u8]>,
) -> u64
    requires own { IsPassOf (table_of map.now) pass.old }
    requires idle { HoldsNothing (table_state pass.old) }
    requires low { IfSome low (λ k. IsKey k.now) }
    requires high { IfSome high (λ k. IsKey k.now) }
    ensures own { StaysButSlots pass.old pass.new }
    ensures idle { HoldsNothing (table_state pass.new) }
    ensures views { PassKeepsViews (sizes map.now) pass.old pass.new }
    ensures later { Later (view_at (sizes map.now) pass.old) (view_at (sizes map.now) pass.new) }
    ensures counts { Counts result (bytes_in_option low.entry) (bytes_in_option high.entry)
        (view_at (sizes map.now) pass.old) (view_at (sizes map.now) pass.new) }
{
    let mut cursor = scan_of(map, pass, low, high, Way::Up);
    let count = count_pairs(rt, &mut cursor);
    cursor.finish();
    count
}
