//! Calls that lend the pass: to a reading, or to a cursor.
ghost use Rattle.std.specs.Prelude.{◌≡◌, ◌<◌, [], IfErr, IfOk, IfSome, MatchOption, None};
ghost use Rattle.std.specs.Borrow.{Lends, RestsIfErr, sem};
ghost use Rattle.oak_model.specs.Key.{IsKey};
ghost use Rattle.oak_core.specs.PassState.{HoldsNothing};
ghost use Rattle.oak_core.specs.Passes.{IsPassOf, state as table_state};
ghost use Rattle.oak_core.specs.contracts.table.Pass as table_pass;
ghost use Rattle.value_ops.specs.Views.{KnowsView};
ghost use Rattle.scan_cursor.specs.Cursors.{HasGiven, IsCursor};
ghost use Rattle.scan_cursor.specs.Holding.{greatest_key};
ghost use Rattle.scan_cursor.specs.Scanned.{least_key};
ghost use Rattle.scan_cursor.specs.Walks.{view_at};
ghost use Rattle.oak_map.specs.Maps.{IsReady, sizes, state, table_of};
ghost use Rattle.oak_map.specs.Rests.{LentFits, LentRests, LookedFits, LookedRests, MapFits, MapLookedFits, MapLookedRests, MapRests, with_pass};
ghost use Rattle.oak_map.specs.TriedRests.{LendsFor, LendsLifeFor, MapTriedLookRests, MapTriedRests, RestsUnseen, RestsWithout};
ghost use Rattle.oak_map.specs.contracts.map.MapPass.{the_row};

use crate::answers::NoValue;
use crate::bare;
use crate::finding::{find_life, find_value};
use crate::map::{MapPass, OakMap};
use oak_core::Pass;
use point_ops::Pinned;
use scan_cursor::{Cursor, Way};
use std::sync::Wait;
use value_ops::{NoRead, Reading, ValueView};

/// What a key holds: nothing at the number `at`, or a value, which is read under a pin.
#[derive(Debug)]
pub enum Lent<'p> {
    Absent { at: u64 },
    Present(Reading<'p>),
}

/// What a view shows: its life is over, or the value that it has, which is read under a pin.
#[derive(Debug)]
pub enum Looked<'p> {
    Gone,
    Present(Reading<'p>),
}

/// [`OakMap::get`] by the pass on the map's table. It takes the pass first: in this form its caller learns
/// what becomes of the pass where nothing is read.
pub fn get_of<'p, R: Wait + Drop + Send>(
    pass: &'p mut Pass,
    rt: &R,
    map: &'p OakMap<R>,
    key: &[u8],
) -> Lent<'p>
    requires own { IsPassOf (table_of map.now) pass.old }
    requires idle { HoldsNothing (table_state pass.old) }
    requires key { IsKey key.now }
    ensures* rests { sem 𝓛 (LentRests (sizes map.now) pass.entry key.now result) }
    ensures present { LentFits (table_of map.now) pass.entry key.now result }
{
    match find_value(rt, &map.table, pass, key) {
        Pinned::Absent { at } => Lent::Absent { at },
        Pinned::Value(pin) => Lent::Present(pin.reading(&map.table, pass)),
    }
}

/// [`OakMap::look`] by the pass on the map's table, which it takes first, as [`get_of`] does.
pub fn look_of<'p, R: Wait + Drop + Send>(
    pass: &'p mut Pass,
    rt: &R,
    map: &'p OakMap<R>,
    view: &ValueView,
) -> Looked<'p>
    requires own { IsPassOf (table_of map.now) pass.old }
    requires idle { HoldsNothing (table_state pass.old) }
    requires known { KnowsView (sizes map.now) view.now (table_state pass.old) }
    ensures* rests { sem 𝓛 (LookedRests (sizes map.now) pass.entry view.now result) }
    ensures present { LookedFits (table_of map.now) pass.entry view.now result }
{
    match find_life(rt, &map.table, pass, view) {
        None => Looked::Gone,
        Some(pin) => Looked::Present(pin.reading(&map.table, pass)),
    }
}

/// [`OakMap::try_get`] by the pass on the map's table, which it takes first, as [`get_of`] does.
pub fn try_get_of<'p, R: Wait + Drop + Send>(
    pass: &'p mut Pass,
    map: &'p OakMap<R>,
    key: &[u8],
    looks: u32,
) -> Result<Reading<'p>, NoValue>
    requires own { IsPassOf (table_of map.now) pass.old }
    requires idle { HoldsNothing (table_state pass.old) }
    requires key { IsKey key.now }
    requires some { 0 < looks }
    ensures* rests { sem 𝓛 (RestsIfErr table_pass.the_row pass.entry (λ r. r.pass.ghost_name) result
        (λ n. IfErr result (λ why. RestsWithout (sizes map.now) key.now looks why pass.old n))) }
    ensures same_reference { IfOk result (λ r. r.pass.ghost_name ≡ pass.entry.ghost_name) }
    ensures lends { IfOk result (λ r. LendsFor (table_of map.now) key.now pass.old r) }
{
    bare::try_get(pass, &map.table, key, looks)
}

/// [`OakMap::try_look`] by the pass on the map's table, which it takes first, as [`get_of`] does.
pub fn try_look_of<'p, R: Wait + Drop + Send>(
    pass: &'p mut Pass,
    map: &'p OakMap<R>,
    view: &ValueView,
    looks: u32,
) -> Result<Reading<'p>, NoRead>
    requires own { IsPassOf (table_of map.now) pass.old }
    requires idle { HoldsNothing (table_state pass.old) }
    requires known { KnowsView (sizes map.now) view.now (table_state pass.old) }
    requires some { 0 < looks }
    ensures* rests { sem 𝓛 (RestsIfErr table_pass.the_row pass.entry (λ r. r.pass.ghost_name) result
        (λ n. IfErr result (λ why. RestsUnseen (sizes map.now) view.now looks why pass.old n))) }
    ensures same_reference { IfOk result (λ r. r.pass.ghost_name ≡ pass.entry.ghost_name) }
    ensures lends { IfOk result (λ r. LendsLifeFor (table_of map.now) view.now pass.old r) }
{
    bare::try_look(pass, &map.table, view, looks)
}

/// [`OakMap::scan`] by the pass on the map's table, with bounds that it copies.
pub fn scan_of<'p, R: Wait + Drop + Send>(
    map: &'p OakMap<R>,
    pass: &'p mut Pass,
    low: Option<&[u8]>,
    high: Option<&[u8]>,
    way: Way,
) -> Cursor<'p>
    requires own { IsPassOf (table_of map.now) pass.old }
    requires idle { HoldsNothing (table_state pass.old) }
    requires low { IfSome low (λ k. IsKey k.now) }
    requires high { IfSome high (λ k. IsKey k.now) }
    ensures same_reference { result.pass.ghost_name ≡ pass.entry.ghost_name }
    ensures table { result.table.now ≡ table_of map.now }
    ensures same { result.pass.now ≡ pass.old }
    ensures low { MatchOption low.entry (result.low ≡ least_key) (λ k. result.low ≡ k.now) }
    ensures high { MatchOption high.entry (result.high ≡ greatest_key) (λ k. result.high ≡ k.now) }
    ensures way { result.way ≡ way }
    ensures value { result.value ≡ None }
    ensures cursor { IsCursor result }
    ensures starts { HasGiven result (view_at (sizes map.now) pass.old) [] }
{
    Cursor::begin(&map.table, pass, low, high, way)
}

/// The same with bounds that live as long as the loan.
fn scan_within<'p, R: Wait + Drop + Send>(
    map: &'p OakMap<R>,
    pass: &'p mut Pass,
    low: Option<&'p [u8]>,
    high: Option<&'p [u8]>,
    way: Way,
) -> Cursor<'p>
    requires own { IsPassOf (table_of map.now) pass.old }
    requires idle { HoldsNothing (table_state pass.old) }
    requires low { IfSome low (λ k. IsKey k.now) }
    requires high { IfSome high (λ k. IsKey k.now) }
    ensures same_reference { result.pass.ghost_name ≡ pass.entry.ghost_name }
    ensures table { result.table.now ≡ table_of map.now }
    ensures same { result.pass.now ≡ pass.old }
    ensures low { MatchOption low.entry (result.low ≡ least_key) (λ k. result.low ≡ k.now) }
    ensures high { MatchOption high.entry (result.high ≡ greatest_key) (λ k. result.high ≡ k.now) }
    ensures way { result.way ≡ way }
    ensures value { result.value ≡ None }
    ensures cursor { IsCursor result }
    ensures starts { HasGiven result (view_at (sizes map.now) pass.old) [] }
{
    scan_of(map, pass, low, high, way)
}

impl<R: Wait + Drop + Send> OakMap<R> {
    /// Looks for a key, and reads its value where it has one: the answer is the cell's at the place of the
    /// number `at`, or of the reading's stamp, in the key's history. It is tried again while other passes
    /// are at work on the key or move its room. It only loads words, and pins and undoes pins, so it takes no
    /// lock. Where the pass is alone, the answer is the cell's on the last state of the key.
    pub fn get<'p>(&'p self, rt: &R, pass: &'p mut MapPass, key: &[u8]) -> Lent<'p>
        requires ready { IsReady self.now pass.old }
        requires key { IsKey key.now }
        ensures* rests { sem 𝓛 (MapRests (sizes self.now) pass.entry key.now result) }
        ensures present { MapFits (table_of self.now) pass.entry key.now result }
    {
        get_of(pass.pass_mut(), rt, self, key)
    }

    /// Reads the value that the life of a view has. It waits while a pass writes it. `Gone` comes only where
    /// the life was found to be over. It only loads words, and pins and undoes pins, so it takes no lock.
    pub fn look<'p>(&'p self, rt: &R, pass: &'p mut MapPass, view: &ValueView) -> Looked<'p>
        requires ready { IsReady self.now pass.old }
        requires known { KnowsView (sizes self.now) view.now (state pass.old) }
        ensures* rests { sem 𝓛 (MapLookedRests (sizes self.now) pass.entry view.now result) }
        ensures present { MapLookedFits (table_of self.now) pass.entry view.now result }
    {
        look_of(pass.pass_mut(), rt, self, view)
    }

    /// Looks for a key, and reads its value where it has one, as [`OakMap::get`] does, or gives up: `Busy` comes only where
    /// each of so many tries found another pass at work on the key, or moving its room. To a pass that is alone it never
    /// comes.
    pub fn try_get<'p>(
        &'p self,
        pass: &'p mut MapPass,
        key: &[u8],
        looks: u32,
    ) -> Result<Reading<'p>, NoValue>
        requires ready { IsReady self.now pass.old }
        requires key { IsKey key.now }
        requires some { 0 < looks }
        ensures* rests { sem 𝓛 (MapTriedRests (sizes self.now) pass.entry key.now looks result) }
        ensures lends { IfOk result (λ r. LendsFor (table_of self.now) key.now pass.old.pass r) }
    {
        try_get_of(pass.pass_mut(), self, key, looks)
    }

    /// Reads the value that the life of a view has as [`OakMap::look`] does, or gives up: `Busy` comes only where a pass
    /// was writing it at each of so many tries. To a pass that is alone it never comes.
    pub fn try_look<'p>(
        &'p self,
        pass: &'p mut MapPass,
        view: &ValueView,
        looks: u32,
    ) -> Result<Reading<'p>, NoRead>
        requires ready { IsReady self.now pass.old }
        requires known { KnowsView (sizes self.now) view.now (state pass.old) }
        requires some { 0 < looks }
        ensures* rests { sem 𝓛 (MapTriedLookRests (sizes self.now) pass.entry view.now looks result) }
        ensures lends { IfOk result (λ r. LendsLifeFor (table_of self.now) view.now pass.old.pass r) }
    {
        try_look_of(pass.pass_mut(), self, view, looks)
    }

    /// Begins a scan of the keys between the bounds, which belong to the range; none is no bound. What the scan
    /// has given since says that it only loaded words, and pinned and undid pins, so it takes no lock.
    pub fn scan<'p>(
        &'p self,
        pass: &'p mut MapPass,
        low: Option<&'p [u8]>,
        high: Option<&'p [u8]>,
        way: Way,
    ) -> Cursor<'p>
        requires ready { IsReady self.now pass.old }
        requires low { IfSome low (λ k. IsKey k.now) }
        requires high { IfSome high (λ k. IsKey k.now) }
        ensures* rests { sem 𝓛 (Lends the_row table_pass.the_row pass.entry result.pass (with_pass pass.old)) }
        ensures table { result.table.now ≡ table_of self.now }
        ensures same { result.pass.now ≡ pass.old.pass }
        ensures low { MatchOption low.entry (result.low ≡ least_key) (λ k. result.low ≡ k.now) }
        ensures high { MatchOption high.entry (result.high ≡ greatest_key) (λ k. result.high ≡ k.now) }
        ensures way { result.way ≡ way }
        ensures value { result.value ≡ None }
        ensures cursor { IsCursor result }
        ensures starts { HasGiven result (view_at (sizes self.now) pass.old.pass) [] }
    {
        scan_within(self, pass.pass_mut(), low, high, way)
    }
}
