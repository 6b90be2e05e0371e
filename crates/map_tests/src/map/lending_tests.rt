//! How the calls that lend are used: by one small function over the table's pass for each, which reads, copies what it
//! wants, and ends the loan. It is called with the pass on the map's table.
ghost use Rattle.std.specs.Prelude.{◌≡◌, ◌<◌, IfSome, length};
ghost use Rattle.oak_model.specs.Key.{IsKey};
ghost use Rattle.oak_core.specs.PassState.{HoldsNothing};
ghost use Rattle.oak_core.specs.Passes.{IsPassOf, Stays, call_of as table_call, state as table_state};
ghost use Rattle.oak_core.specs.QuietSteps.{Quiet};
ghost use Rattle.oak_core.specs.Scratch.{StaysButSlots};
ghost use Rattle.value_ops.specs.Reading.{IsReading, ReadsOn};
ghost use Rattle.value_ops.specs.Views.{KnowsView};
ghost use Rattle.point_ops.specs.TestStates.{HasView, IsReady as IsReadyFor, IsReadyAgain};
ghost use Rattle.scan_cursor.specs.Cursors.{IsCursor, under};
ghost use Rattle.oak_map.specs.Maps.{IsReady, call_of, sizes, state, table_of};

use crate::map::test_calls::{is_told, make, put, remove};
use oak_core::Pass;
use oak_map::{
    Cursor, Lent, Looked, MapPass, OakMap, Reading, ValueView, Way, get_of, look_of, scan_of,
};
use oak_model::Wrote;
use point_ops::Got;
use std::process::Abort;
use std::sync::Wait;
use std::test::Fail;

/// Copies the value where `out` is as long, and tells its length.
fn copy_if(reading: &mut Reading<'_>, out: &mut [u8]) -> usize
    requires reading { IsReading reading.old }
    ensures same_reference { reading.new.pass.ghost_name ≡ reading.old.pass.ghost_name }
    ensures reads { ReadsOn reading.old reading.new }
    ensures long { length out.new ≡ length out.old }
{
    let len = reading.len();
    if len == out.len() {
        reading.copy_into(out);
    }
    len
}

/// Copies the value of a key, and tells its stamp and its length.
fn copies_of<R: Wait + Drop + Send>(
    rt: &R,
    map: &OakMap<R>,
    pass: &mut Pass,
    key: &[u8],
    out: &mut [u8],
) -> Option<(u64, usize)>
    requires own { IsPassOf (table_of map.now) pass.old }
    requires ready { IsReadyFor (table_call pass.old) (table_state pass.old) }
    requires key { IsKey key.now }
    ensures own { Stays pass.old pass.new }
    ensures ready { IsReadyAgain (table_call pass.old) (table_state pass.old) (table_state pass.new) }
    ensures quiet { Quiet (table_state pass.old) (table_state pass.new) }
    ensures long { length out.new ≡ length out.old }
{
    match get_of(pass, rt, map, key) {
        Lent::Absent { at: _ } => None,
        Lent::Present(mut reading) => {
            let at = reading.at();
            let len = copy_if(&mut reading, out);
            reading.done();
            Some((at, len))
        }
    }
}

/// Copies the value of a view's life, and tells its stamp and its length.
pub(crate) fn looks_of<R: Wait + Drop + Send>(
    rt: &R,
    map: &OakMap<R>,
    pass: &mut Pass,
    view: &ValueView,
    out: &mut [u8],
) -> Option<(u64, usize)>
    requires own { IsPassOf (table_of map.now) pass.old }
    requires ready { IsReadyFor (table_call pass.old) (table_state pass.old) }
    requires known { KnowsView (sizes map.now) view.now (table_state pass.old) }
    ensures own { Stays pass.old pass.new }
    ensures ready { IsReadyAgain (table_call pass.old) (table_state pass.old) (table_state pass.new) }
    ensures quiet { Quiet (table_state pass.old) (table_state pass.new) }
    ensures long { length out.new ≡ length out.old }
{
    match look_of(pass, rt, map, view) {
        Looked::Gone => None,
        Looked::Present(mut reading) => {
            let at = reading.at();
            let len = copy_if(&mut reading, out);
            reading.done();
            Some((at, len))
        }
    }
}

/// Goes to the next pair, and tells the first byte of its key; 0 where there is none.
fn next_of<R: Wait>(rt: &R, cursor: &mut Cursor<'_>) -> u8
    requires { IsCursor cursor.old }
    ensures same_reference { cursor.new.pass.ghost_name ≡ cursor.old.pass.ghost_name }
    ensures table { cursor.new.table ≡ cursor.old.table }
    ensures own { StaysButSlots cursor.old.pass.now cursor.new.pass.now }
    ensures cursor { IsCursor cursor.new }
    ensures numbers { (under cursor.new).numbers ≡ (under cursor.old).numbers }
    ensures quiet { Quiet (under cursor.old) (under cursor.new) }
{
    let more = cursor.advance(rt);
    if more && cursor.key_len() > 0 {
        cursor.key_byte(0)
    } else {
        0
    }
}

/// So of as many pairs as `out` is long.
fn next_all<R: Wait>(rt: &R, cursor: &mut Cursor<'_>, out: &mut [u8])
    requires { IsCursor cursor.old }
    ensures same_reference { cursor.new.pass.ghost_name ≡ cursor.old.pass.ghost_name }
    ensures table { cursor.new.table ≡ cursor.old.table }
    ensures own { StaysButSlots cursor.old.pass.now cursor.new.pass.now }
    ensures cursor { IsCursor cursor.new }
    ensures numbers { (under cursor.new).numbers ≡ (under cursor.old).numbers }
    ensures quiet { Quiet (under cursor.old) (under cursor.new) }
    ensures long { length out.new ≡ length out.old }
{
    for i in 0..out.len() {
        out[i] = next_of(rt, cursor);
    }
}

/// The first bytes of the keys of a range, in the order of the scan.
fn collects<R: Wait + Drop + Send>(
    rt: &R,
    map: &OakMap<R>,
    pass: &mut Pass,
    low: Option<&[u8]>,
    high: Option<&[u8]>,
    way: Way,
    out: &mut [u8],
)
    requires own { IsPassOf (table_of map.now) pass.old }
    requires idle { HoldsNothing (table_state pass.old) }
    requires low { IfSome low (λ k. IsKey k.now) }
    requires high { IfSome high (λ k. IsKey k.now) }
    ensures own { StaysButSlots pass.old pass.new }
    ensures idle { HoldsNothing (table_state pass.new) }
    ensures numbers { (table_state pass.new).numbers ≡ (table_state pass.old).numbers }
    ensures quiet { Quiet (table_state pass.old) (table_state pass.new) }
    ensures long { length out.new ≡ length out.old }
{
    let mut cursor = scan_of(map, pass, low, high, way);
    next_all(rt, &mut cursor, out);
    cursor.finish();
}

/// What was copied is these bytes, with this stamp.
fn is_copied(
    rt: &impl Abort,
    told: Option<(u64, usize)>,
    copied: [u8; 3],
    at: u64,
    bytes: [u8; 3],
) {
    assert!(rt; told == Some((at, 3)));
    assert!(rt; copied == bytes);
}

/// The key has these bytes, by its first write.
fn has<R: Abort + Wait + Drop + Send>(
    rt: &R,
    map: &OakMap<R>,
    pass: &mut MapPass,
    key: &[u8],
    bytes: [u8; 3],
)
    requires own { IsReady map.now pass.old }
    requires ready { IsReadyFor (call_of pass.old) (state pass.old) }
    requires key { IsKey key.now }
    ensures own { IsReady map.now pass.new }
    ensures call { call_of pass.new ≡ call_of pass.old }
    ensures ready { IsReadyAgain (call_of pass.old) (state pass.old) (state pass.new) }
{
    let mut out = [0; 3];
    let held = copies_of(rt, map, pass.pass_mut(), key, &mut out);
    is_copied(rt, held, out, 1, bytes);
}

/// The key has no value.
fn has_none<R: Abort + Wait + Drop + Send>(rt: &R, map: &OakMap<R>, pass: &mut MapPass, key: &[u8])
    requires own { IsReady map.now pass.old }
    requires ready { IsReadyFor (call_of pass.old) (state pass.old) }
    requires key { IsKey key.now }
    ensures own { IsReady map.now pass.new }
    ensures call { call_of pass.new ≡ call_of pass.old }
    ensures ready { IsReadyAgain (call_of pass.old) (state pass.old) (state pass.new) }
{
    let away = copies_of(rt, map, pass.pass_mut(), key, &mut [0; 3]);
    assert!(rt; away.is_none());
}

/// The view shows these bytes, with this stamp.
fn shows<R: Abort + Wait + Drop + Send>(
    rt: &R,
    map: &OakMap<R>,
    pass: &mut MapPass,
    view: &ValueView,
    at: u64,
    bytes: [u8; 3],
)
    requires own { IsReady map.now pass.old }
    requires ready { IsReadyFor (call_of pass.old) (state pass.old) }
    requires has { HasView (sizes map.now) view.now (state pass.old) }
    ensures own { IsReady map.now pass.new }
    ensures call { call_of pass.new ≡ call_of pass.old }
    ensures ready { IsReadyAgain (call_of pass.old) (state pass.old) (state pass.new) }
    ensures has { HasView (sizes map.now) view.now (state pass.new) }
{
    let mut out = [0; 3];
    let seen = looks_of(rt, map, pass.pass_mut(), view, &mut out);
    is_copied(rt, seen, out, at, bytes);
}

/// The view shows nothing.
pub(crate) fn shows_none<R: Abort + Wait + Drop + Send>(
    rt: &R,
    map: &OakMap<R>,
    pass: &mut MapPass,
    view: &ValueView,
)
    requires own { IsReady map.now pass.old }
    requires ready { IsReadyFor (call_of pass.old) (state pass.old) }
    requires has { HasView (sizes map.now) view.now (state pass.old) }
    ensures own { IsReady map.now pass.new }
    ensures call { call_of pass.new ≡ call_of pass.old }
    ensures ready { IsReadyAgain (call_of pass.old) (state pass.old) (state pass.new) }
    ensures has { HasView (sizes map.now) view.now (state pass.new) }
{
    let gone = looks_of(rt, map, pass.pass_mut(), view, &mut [0; 3]);
    assert!(rt; gone.is_none());
}

/// A view of k, with the value "one", shows what is put over that, and nothing once k was removed, and put anew.
fn one_life<R: Abort + Wait + Drop + Send>(
    rt: &R,
    map: &OakMap<R>,
    pass: &mut MapPass,
    view: &ValueView,
)
    requires ready { IsReady map.now pass.old }
    requires wrote { IsReadyFor 2 (state pass.old) }
    requires call { call_of pass.old ≡ 2 }
    requires has { HasView (sizes map.now) view.now (state pass.old) }
    ensures ready { IsReady map.now pass.new }
    ensures again { IsReadyAgain 5 (state pass.old) (state pass.new) }
{
    shows(rt, map, pass, view, 1, *b"one");
    let over = put(rt, map, pass, 3, b"k", b"six");
    is_told(rt, over, Wrote::Over { at: 2 });
    shows(rt, map, pass, view, 2, *b"six");
    let removed = remove(rt, map, pass, 4, b"k");
    is_told(rt, removed, Wrote::Removed { at: 3 });
    shows_none(rt, map, pass, view);
    let new = put(rt, map, pass, 5, b"k", b"two");
    is_told(rt, new, Wrote::New { at: 4 });
    shows_none(rt, map, pass, view);
}

/// So does the view that is got of k.
fn one_view<R: Abort + Wait + Drop + Send>(rt: &R, map: &OakMap<R>, pass: &mut MapPass)
    requires ready { IsReady map.now pass.old }
    requires wrote { IsReadyFor 2 (state pass.old) }
    requires call { call_of pass.old ≡ 2 }
    ensures ready { IsReady map.now pass.new }
    ensures numbers { (state pass.new).numbers ≡ (state pass.old).numbers }
{
    match map.view(rt, pass, b"k") {
        Got::Absent { at: _ } => assert!(rt; false),
        Got::View(view) => one_life(rt, map, pass, &view),
    }
}

/// A scan from the lower bound on gives keys with these first bytes; 0 where there is none left.
fn scans<R: Abort + Wait + Drop + Send>(
    rt: &R,
    map: &OakMap<R>,
    pass: &mut MapPass,
    low: Option<&[u8]>,
    way: Way,
    firsts: [u8; 3],
)
    requires own { IsReady map.now pass.old }
    requires low { IfSome low (λ k. IsKey k.now) }
    ensures own { IsReady map.now pass.new }
    ensures numbers { (state pass.new).numbers ≡ (state pass.old).numbers }
{
    let mut out = [0; 3];
    collects(rt, map, pass.pass_mut(), low, None, way, &mut out);
    assert!(rt; out == firsts);
}

/// Two keys are put, and got, viewed and scanned.
fn are_lent<R: Abort + Wait + Drop + Send>(rt: &R, map: &OakMap<R>, pass: &mut MapPass)
    requires own { IsReady map.now pass.old }
    requires first { call_of pass.old ≡ 0 }
    requires ready { IsReadyFor 0 (state pass.old) }
    ensures own { IsReady map.now pass.new }
    ensures numbers { (state pass.new).numbers ≡ (state pass.old).numbers }
{
    put(rt, map, pass, 1, b"k", b"one");
    put(rt, map, pass, 2, b"m", b"ten");
    has(rt, map, pass, b"m", *b"ten");
    has_none(rt, map, pass, b"l");
    one_view(rt, map, pass);
    scans(rt, map, pass, None, Way::Up, [b'k', b'm', 0]);
    scans(rt, map, pass, None, Way::Down, [b'm', b'k', 0]);
    scans(rt, map, pass, Some(b"l"), Way::Up, [b'm', 0, 0]);
}

#[test]
fn lent_values(rt: HostRuntime) -> Result<(), Fail> {
    let (map, mut pass) = make(&rt, 1, 4, 4, 16, 16)?;
    are_lent(&rt, &map, &mut pass);
    map.close(pass);
    Ok(())
}
