//! What the tests ask of a map, each time by one pass.
ghost use Rattle.std.specs.Prelude.{◌≡◌, ◌<◌, IfOk};
ghost use Rattle.oak_model.specs.Key.{IsKey};
ghost use Rattle.oak_model.specs.Value.{IsValue};
ghost use Rattle.oak_core.specs.MayWrite.{IsNewCall};
ghost use Rattle.oak_core.specs.Passes.{IsPassOf, Stays, Turns, call_of as table_call, key as table_sizes, state as table_state};
ghost use Rattle.point_ops.specs.TestStates.{HasView, IsReady as IsReadyFor, IsReadyAgain};
ghost use Rattle.oak_core.specs.PassState.{HoldsNothing, IsAlone};
ghost use Rattle.scan_cursor.specs.Cursors.{IsCursor};
ghost use Rattle.oak_map.specs.Maps.{IsReady, call_of, pass_of, state, table_of};

use oak_core::{OakTable, Pass};
use oak_map::{Busy, Cursor, MapPass, OakMap, Way, scan_of};
use oak_model::{Shape, Wrote};
use point_ops::Got;
use std::process::Abort;
use std::sync::Wait;
use std::test::Fail;
use value_ops::ValueView;

/// A map for so many passes, with so many chunks, entries in each, headers, and blocks of 16; and its pass.
pub(crate) fn make<R: Wait + Clone + AllocGlobal + Drop + Send>(
    rt: &R,
    passes: u32,
    chunks: u32,
    entries: u32,
    headers: u32,
    blocks: u32,
) -> Result<(OakMap<R>, MapPass), Fail>
    ensures own { IfOk result (λ made. IsReady made.0 made.1) }
    ensures first { IfOk result (λ made. call_of made.1 ≡ 0) }
    ensures ready { IfOk result (λ made. IsReadyFor 0 (state made.1)) }
    ensures alone { IfOk result (λ made. IsAlone (state made.1)) }
{
    let shape = Shape::make(passes, chunks, entries, headers, [blocks, 0, 0, 0])?;
    let (map, pass) = OakMap::create(rt, &shape)?;
    Ok((map, pass))
}

/// A call told what is due.
pub(crate) fn is_told(rt: &impl Abort, told: Wrote, due: Wrote) {
    assert_eq!(rt; told, due);
}

/// So did a call that may give up.
pub(crate) fn is_tried(rt: &impl Abort, told: Result<Wrote, Busy>, due: Result<Wrote, Busy>) {
    assert_eq!(rt; told, due);
}

/// The call of this number told that its key was new.
pub(crate) fn is_new(rt: &impl Abort, number: u32, told: Wrote) {
    assert!(rt; matches!(told, Wrote::New { at: _ }), "{number}: {told:?}");
}

/// It told that its key was removed.
pub(crate) fn is_removed(rt: &impl Abort, number: u32, told: Wrote) {
    assert!(rt;
        matches!(told, Wrote::Removed { at: _ }),
        "{number}: {told:?}"
    );
}

/// What was asked is so.
pub(crate) fn holds(rt: &impl Abort, so: bool) {
    assert!(rt; so);
}

/// A key has one byte.
pub(crate) fn is_one(rt: &impl Abort, len: usize)
    ensures { len ≡ 1 }
{
    assert_eq!(rt; len, 1);
}

/// A recipe was called as often as is due.
pub(crate) fn is_called(rt: &impl Abort, calls: u64, due: u64)
    ensures { calls ≡ due }
{
    assert_eq!(rt; calls, due);
}

/// Closes the map, of which one chunk is used.
pub(crate) fn close<R: Abort + Wait + Drop + Send>(rt: &R, map: OakMap<R>, pass: MapPass)
    requires own { IsReady map pass }
    requires alone { IsAlone (state pass) }
{
    let usage = map.close(pass).usage();
    assert_eq!(rt; usage.chunks, 1);
}

/// The pass's next call.
pub(crate) fn turn<R: Wait + Drop + Send>(map: &OakMap<R>, pass: &mut MapPass, call: u32)
    requires own { IsReady map.now pass.old }
    requires above { call_of pass.old < call }
    requires ready { IsReadyFor (call_of pass.old) (state pass.old) }
    ensures turned { Turns (pass_of pass.old) (pass_of pass.new) call }
    ensures own { IsReady map.now pass.new }
    ensures new { IsNewCall (call_of pass.new) (state pass.new) }
    ensures ready { IsReadyAgain call (state pass.old) (state pass.new) }
{
    pass.turn(call);
}

/// Puts the value of the key, in a call of its own.
pub(crate) fn put<R: Wait + Drop + Send>(
    rt: &R,
    map: &OakMap<R>,
    pass: &mut MapPass,
    call: u32,
    key: &[u8],
    bytes: &[u8],
) -> Wrote
    requires own { IsReady map.now pass.old }
    requires above { call_of pass.old < call }
    requires ready { IsReadyFor (call_of pass.old) (state pass.old) }
    requires key { IsKey key.now }
    requires value { IsValue bytes.now }
    ensures own { IsReady map.now pass.new }
    ensures call { call_of pass.new ≡ call }
    ensures ready { IsReadyAgain call (state pass.old) (state pass.new) }
{
    turn(map, pass, call);
    map.put(rt, pass, key, bytes)
}

/// Removes the key, in a call of its own.
pub(crate) fn remove<R: Wait + Drop + Send>(
    rt: &R,
    map: &OakMap<R>,
    pass: &mut MapPass,
    call: u32,
    key: &[u8],
) -> Wrote
    requires own { IsReady map.now pass.old }
    requires above { call_of pass.old < call }
    requires ready { IsReadyFor (call_of pass.old) (state pass.old) }
    requires key { IsKey key.now }
    ensures own { IsReady map.now pass.new }
    ensures call { call_of pass.new ≡ call }
    ensures ready { IsReadyAgain call (state pass.old) (state pass.new) }
{
    turn(map, pass, call);
    map.remove(rt, pass, key)
}

/// Settles the map.
pub(crate) fn settle<R: Wait + Drop + Send>(rt: &R, map: &OakMap<R>, pass: &mut MapPass)
    requires own { IsReady map.now pass.old }
    requires ready { IsReadyFor (call_of pass.old) (state pass.old) }
    ensures own { IsReady map.now pass.new }
    ensures call { call_of pass.new ≡ call_of pass.old }
    ensures ready { IsReadyAgain (call_of pass.old) (state pass.old) (state pass.new) }
{
    map.settle(rt, pass);
}

/// Whether the view shows these bytes.
fn shows(table: &OakTable, pass: &mut Pass, view: &ValueView, bytes: &[u8]) -> bool
    requires own { IsPassOf table.now pass.old }
    requires has { HasView (table_sizes table.now) view.now (table_state pass.old) }
    requires ready { IsReadyFor (table_call pass.old) (table_state pass.old) }
    ensures own { Stays pass.old pass.new }
    ensures ready { IsReadyAgain (table_call pass.old) (table_state pass.old) (table_state pass.new) }
{
    match view.pin(table, pass) {
        Ok(pin) => {
            let mut reading = pin.reading(table, pass);
            let same = reading.same(bytes);
            reading.done();
            same
        }
        Err(_) => false,
    }
}

/// Looks for the key, whose value must be these bytes where it has one: the stamp of that.
pub(crate) fn get<R: Abort + Wait + Drop + Send>(
    rt: &R,
    map: &OakMap<R>,
    pass: &mut MapPass,
    key: &[u8],
    bytes: &[u8],
) -> Option<u64>
    requires own { IsReady map.now pass.old }
    requires ready { IsReadyFor (call_of pass.old) (state pass.old) }
    requires key { IsKey key.now }
    ensures own { IsReady map.now pass.new }
    ensures call { call_of pass.new ≡ call_of pass.old }
    ensures ready { IsReadyAgain (call_of pass.old) (state pass.old) (state pass.new) }
{
    match map.view(rt, pass, key) {
        Got::Absent { at: _ } => None,
        Got::View(view) => {
            let same = shows(map.table(), pass.pass_mut(), &view, bytes);
            assert!(rt; same);
            Some(view.at())
        }
    }
}

/// Begins a scan of the whole map.
pub(crate) fn scan_whole<'p, R: Wait + Drop + Send>(
    map: &'p OakMap<R>,
    pass: &'p mut Pass,
    way: Way,
) -> Cursor<'p>
    requires own { IsPassOf (table_of map.now) pass.old }
    requires idle { HoldsNothing (table_state pass.old) }
    ensures same_reference { result.pass.ghost_name ≡ pass.entry.ghost_name }
    ensures same { result.pass.now ≡ pass.old }
    ensures cursor { IsCursor result }
{
    scan_of(map, pass, None, None, way)
}
