//! The keys of a range.
ghost use Rattle.std.specs.Prelude.{◌≡◌, IfOk, IfSome, MatchBool, OnErr, OnOk};
ghost use Rattle.oak_model.specs.Key.{IsKey};
ghost use Rattle.oak_core.specs.PassState.{HoldsNothing};
ghost use Rattle.oak_core.specs.Passes.{IsPassOf, state as table_state};
ghost use Rattle.oak_core.specs.Scratch.{StaysButSlots};
ghost use Rattle.chunk_ops.specs.AskedRanges.{bytes_in_option};
ghost use Rattle.scan_cursor.specs.Views.{Later};
ghost use Rattle.scan_cursor.specs.Walks.{view_at};
ghost use Rattle.oak_map.specs.Maps.{sizes, table_of};
ghost use Rattle.oak_caller.specs.Callers.{CallsOn, KeepsViews, PassKeepsViews};
ghost use Rattle.oak_caller.specs.Keys.{AddsAll, AddsBefore, AddsEnough};
ghost use Rattle.oak_caller.specs.Scans.{view_of};

use crate::caller::Caller;
use crate::gathering::gather_keys;
use oak_core::Pass;
use oak_map::{OakMap, Way, scan_of};
use oak_model::{Key, OutOfMemory};
use std::sync::Wait;

impl<R: Wait + Drop + Send> Caller<'_, R> {
    /// Adds the keys between the bounds that are present behind those in `keys`, in rising order, each once. None is no
    /// bound. Each key is read at a moment of its own. Where no memory is found for a key, those before it were added.
    pub fn keys_into(
        &mut self,
        rt: &R,
        low: Option<&[u8]>,
        high: Option<&[u8]>,
        keys: &mut Vec<Key>,
    ) -> Result<(), OutOfMemory>
        requires low { IfSome low (λ k. IsKey k.now) }
        requires high { IfSome high (λ k. IsKey k.now) }
        ensures on { CallsOn StaysButSlots self.old self.new }
        ensures views { KeepsViews self.old self.new }
        ensures all { OnOk result (AddsAll (bytes_in_option low.entry) (bytes_in_option high.entry) (view_of self.old)
            (view_of self.new) keys.old.items keys.new.items) }
        ensures some { OnErr result (AddsBefore (bytes_in_option low.entry) (bytes_in_option high.entry)
            (view_of self.old) (view_of self.new) keys.old.items keys.new.items) }
    {
        self.add_keys(rt, low, high, usize::MAX, keys)?;
        Ok(())
    }

    /// The same, until there are `most` keys: whether the scan came to the end of its range before that.
    pub(crate) fn add_keys(
        &mut self,
        rt: &R,
        low: Option<&[u8]>,
        high: Option<&[u8]>,
        most: usize,
        keys: &mut Vec<Key>,
    ) -> Result<bool, OutOfMemory>
        requires low { IfSome low (λ k. IsKey k.now) }
        requires high { IfSome high (λ k. IsKey k.now) }
        ensures on { CallsOn StaysButSlots self.old self.new }
        ensures views { KeepsViews self.old self.new }
        ensures all { IfOk result (λ all. MatchBool all
            (AddsAll (bytes_in_option low.entry) (bytes_in_option high.entry) (view_of self.old)
            (view_of self.new) keys.old.items keys.new.items)
            (AddsEnough most (bytes_in_option low.entry) (bytes_in_option high.entry) (view_of self.old)
            (view_of self.new) keys.old.items keys.new.items)) }
        ensures some { OnErr result (AddsBefore (bytes_in_option low.entry) (bytes_in_option high.entry)
            (view_of self.old) (view_of self.new) keys.old.items keys.new.items) }
    {
        keys_between(rt, self.map, self.pass.pass_mut(), low, high, most, keys)
    }
}

/// [`Caller::add_keys`] by the pass on the map's table.
fn keys_between<R: Wait + Drop + Send>(
    rt: &R,
    map: &OakMap<R>,
    pass: &mut Pass,
    low: Option<&[u8]>,
    high: Option<&[u8]>,
    most: usize,
    keys: &mut Vec<Key>,
) -> Result<bool, OutOfMemory>
    requires own { IsPassOf (table_of map.now) pass.old }
    requires idle { HoldsNothing (table_state pass.old) }
    requires low { IfSome low (λ k. IsKey k.now) }
    requires high { IfSome high (λ k. IsKey k.now) }
    ensures own { StaysButSlots pass.old pass.new }
    ensures idle { HoldsNothing (table_state pass.new) }
    ensures views { PassKeepsViews (sizes map.now) pass.old pass.new }
    ensures later { Later (view_at (sizes map.now) pass.old) (view_at (sizes map.now) pass.new) }
    ensures all { IfOk result (λ all. MatchBool all (AddsAll (bytes_in_option low.entry) (bytes_in_option high.entry)
        (view_at (sizes map.now) pass.old) (view_at (sizes map.now) pass.new) keys.old.items keys.new.items)
        (AddsEnough most (bytes_in_option low.entry) (bytes_in_option high.entry) (view_at (sizes map.now) pass.old)
        (view_at (sizes map.now) pass.new) keys.old.items keys.new.items)) }
    ensures some { OnErr result (AddsBefore (bytes_in_option low.entry) (bytes_in_option high.entry)
        (view_at (sizes map.now) pass.old) (view_at (sizes map.now) pass.new) keys.old.items keys.new.items) }
{
    let mut cursor = scan_of(map, pass, low, high, Way::Up);
    let all = gather_keys(rt, &mut cursor, most, keys);
    cursor.finish();
    all
}
