//! The cursor of a scan.
ghost use Rattle.std.specs.Prelude.{false, ◌≡◌, ◌↔◌, ◌+◌, ◌*◌, ◌<◌, ◌≤◌, ◌++◌, IfErr, IfOk, IfSome, IsSome, IsTrue, List, MatchOption, [], None, drop, length, min, slice_index, slice_range, take, true};
ghost use Rattle.std.specs.Int.{w64, from_be_bytes};
ghost use Rattle.oak_model.specs.declared.replies.Pair.{Pair};
ghost use Rattle.oak_model.specs.Key.{IsKey, is_key};
ghost use Rattle.oak_core.specs.AloneWords.{Runs};
ghost use Rattle.oak_core.specs.PassState.{HoldsNothing};
ghost use Rattle.oak_core.specs.Passes.{IsPassOf, Stays, state, key as sizes};
ghost use Rattle.oak_core.specs.QuietSteps.{Quiet};
ghost use Rattle.oak_core.specs.Scratch.{StaysButSlots};
ghost use Rattle.scan_cursor.specs.Cursors.{Advances, GivesUp, HasGiven, IsCursor, ReadsPair, key_of, stamp_of, under, value_of, view_under};
ghost use Rattle.scan_cursor.specs.Holding.{greatest_key};
ghost use Rattle.scan_cursor.specs.Leaving.{LeavesValue};
ghost use Rattle.scan_cursor.specs.Scanned.{least_key};
ghost use Rattle.scan_cursor.specs.Views.{Later, View};
ghost use Rattle.scan_cursor.specs.Walks.{view_at};

use crate::busy::Busy;
use crate::walking::{Stepped, Walk, has_slot, take_slot, try_walk};
use crate::ways::Way;
use chunk_ops::KeyBytes;
use oak_core::{OakTable, Pass};
use std::fmt::{self, Debug, Formatter};
use std::sync::Wait;
use std::thread;
use value_ops::PinnedValue;

/// The bytes of a key, copied.
fn copy_of(key: &[u8]) -> KeyBytes
    requires { IsKey key.now }
    ensures key { is_key result ≡ true }
    ensures value { result ≡ key.now }
{
    KeyBytes::from_key(key)
}

/// The bound as a key, or else this one.
fn bound_or(bound: Option<&[u8]>, or: KeyBytes) -> KeyBytes
    requires bound { IfSome bound (λ k. IsKey k.now) }
    requires or { is_key or ≡ true }
    ensures key { is_key result ≡ true }
    ensures bound { MatchOption bound.entry (result ≡ or) (λ k. result ≡ k.now) }
{
    match bound {
        Some(key) => copy_of(key),
        None => or,
    }
}

/// A scan of a range of keys, up or down, from one present key to the next. It borrows its pass until
/// [`Cursor::finish`], which it must be spent by: it can't be dropped. It has at most the value of the present pair
/// pinned. From its begin to its end it makes loads, pins and their undoing alone, and takes no block.
pub struct Cursor<'p> {
    table: &'p OakTable,
    pass: &'p mut Pass,
    low: KeyBytes,
    high: KeyBytes,
    way: Way,
    walk: Walk,
    value: Option<PinnedValue>,
}

impl Debug for Cursor<'_> {
    fn fmt<W: fmt::Write>(&self, f: &mut Formatter<W>) -> fmt::Result {
        f.debug_struct("Cursor")
            .field("way", &self.way)
            .field("value", &self.value)
            .finish_non_exhaustive()
    }
}

impl<'p> Cursor<'p> {
    /// Begins a scan of the keys between the bounds, which belong to the range; none is no bound. No step is made yet.
    pub fn begin(
        table: &'p OakTable,
        pass: &'p mut Pass,
        low: Option<&[u8]>,
        high: Option<&[u8]>,
        way: Way,
    ) -> Cursor<'p>
        requires own { IsPassOf table.now pass.old }
        requires idle { HoldsNothing (state pass.old) }
        requires low { IfSome low (λ k. IsKey k.now) }
        requires high { IfSome high (λ k. IsKey k.now) }
        ensures same_reference { result.pass.ghost_name ≡ pass.entry.ghost_name }
        ensures table { result.table ≡ table.entry }
        ensures same { result.pass.now ≡ pass.old }
        ensures low { MatchOption low.entry (result.low ≡ least_key) (λ k. result.low ≡ k.now) }
        ensures high { MatchOption high.entry (result.high ≡ greatest_key) (λ k. result.high ≡ k.now) }
        ensures way { result.way ≡ way }
        ensures value { result.value ≡ None }
        ensures cursor { IsCursor result }
        ensures starts { HasGiven result (view_at (sizes table.now) pass.old) [] }
    {
        let low = bound_or(low, KeyBytes::least());
        let high = bound_or(high, KeyBytes::greatest());
        let walk = Walk::at_start(low.as_slice(), high.as_slice(), way);
        Cursor {
            table,
            pass,
            low,
            high,
            way,
            walk,
            value: None,
        }
    }
}

impl Cursor<'_> {
    /// Goes to the next pair of the scan: false where there is none left. It makes loads, pins and their undoing alone, as
    /// the whole scan does so far, and takes no block. It waits for nobody: `Busy` comes only where so many looks at keys,
    /// one behind the other, were in vain, since another pass had moved the key's room, or was writing its value or
    /// putting its header to another use; to a pass that is alone it never comes. The present value is given back in any
    /// case, so behind `Busy` there is no present pair. The scan keeps its place: no pair is lost or given twice, and what
    /// was read is not read again.
    #[inline(always)] // once for each pair of a scan
    pub fn try_advance(&mut self, looks: u32) -> Result<bool, Busy>
        requires cursor { IsCursor self.old }
        requires some { 0 < looks }
        ensures same_reference { self.new.pass.ghost_name ≡ self.old.pass.ghost_name }
        ensures table { self.new.table ≡ self.old.table }
        ensures low { self.new.low ≡ self.old.low }
        ensures high { self.new.high ≡ self.old.high }
        ensures way { self.new.way ≡ self.old.way }
        ensures own { StaysButSlots self.old.pass.now self.new.pass.now }
        ensures cursor { IsCursor self.new }
        ensures later { Later (view_under self.old) (view_under self.new) }
        ensures advances { IfOk result (λ more. Advances more self.old self.new) }
        ensures busy { IfErr result (λ _. GivesUp looks self.old self.new) }
        ensures still { Runs (LeavesValue (sizes self.old.table.now) self.old.value self.new.value) (under self.old) (under self.new) }
    {
        self.leave_pair();
        if self.walk.mark.ended {
            return Ok(false);
        }
        if has_slot(&self.walk) {
            self.take_next(looks)
        } else {
            self.search_on(looks)
        }
    }

    /// Goes to the next pair, where none is pinned, as [`Cursor::try_advance`] does: mostly that is the one of the next slot,
    /// of which one is left.
    #[inline(always)] // once for each pair of a scan
    fn take_next(&mut self, looks: u32) -> Result<bool, Busy>
        requires cursor { IsCursor self.old }
        requires none { self.old.value ≡ None }
        requires going { self.old.walk.mark.ended ≡ false }
        requires some { 0 < looks }
        requires past { self.old.walk.mark.past ≡ true }
        requires gathered { self.old.walk.gathered ≡ true }
        requires slot { self.old.walk.from < self.old.walk.to }
        ensures same_reference { self.new.pass.ghost_name ≡ self.old.pass.ghost_name }
        ensures table { self.new.table ≡ self.old.table }
        ensures low { self.new.low ≡ self.old.low }
        ensures high { self.new.high ≡ self.old.high }
        ensures way { self.new.way ≡ self.old.way }
        ensures own { StaysButSlots self.old.pass.now self.new.pass.now }
        ensures cursor { IsCursor self.new }
        ensures later { Later (view_under self.old) (view_under self.new) }
        ensures advances { IfOk result (λ more. Advances more self.old self.new) }
        ensures busy { IfErr result (λ _. GivesUp looks self.old self.new) }
        ensures still { Runs (LeavesValue (sizes self.old.table.now) self.old.value self.new.value) (under self.old) (under self.new) }
    {
        let low = self.low.as_slice();
        let high = self.high.as_slice();
        match take_slot(self.table, self.pass, &mut self.walk, low, high, self.way) {
            Stepped::Given(value) => {
                self.value = Some(value);
                Ok(true)
            }
            Stepped::Ended => Ok(false),
            Stepped::Passed => self.search_on(looks),
            Stepped::Again => unreachable!(),
        }
    }

    /// Goes to the next pair, where none is pinned, as [`Cursor::try_advance`] does, however far that is.
    #[inline(never)] // else what most pairs go by is spread over all of it
    fn search_on(&mut self, looks: u32) -> Result<bool, Busy>
        requires cursor { IsCursor self.old }
        requires none { self.old.value ≡ None }
        requires going { self.old.walk.mark.ended ≡ false }
        requires some { 0 < looks }
        ensures same_reference { self.new.pass.ghost_name ≡ self.old.pass.ghost_name }
        ensures table { self.new.table ≡ self.old.table }
        ensures low { self.new.low ≡ self.old.low }
        ensures high { self.new.high ≡ self.old.high }
        ensures way { self.new.way ≡ self.old.way }
        ensures own { StaysButSlots self.old.pass.now self.new.pass.now }
        ensures cursor { IsCursor self.new }
        ensures later { Later (view_under self.old) (view_under self.new) }
        ensures advances { IfOk result (λ more. Advances more self.old self.new) }
        ensures busy { IfErr result (λ _. GivesUp looks self.old self.new) }
        ensures still { Runs (LeavesValue (sizes self.old.table.now) self.old.value self.new.value) (under self.old) (under self.new) }
    {
        let found = try_walk(
            self.table,
            self.pass,
            &mut self.walk,
            self.low.as_slice(),
            self.high.as_slice(),
            self.way,
            looks,
        );
        match found {
            Ok(value) => {
                self.value = value;
                Ok(value.is_some())
            }
            Err(busy) => Err(busy),
        }
    }

    /// Goes to the next pair of the scan: false where there is none left. It waits where a room was moved or a value
    /// is being written. It makes loads, pins and their undoing alone, as the whole scan does so far, and takes no block.
    #[inline(always)] // once for each pair of a scan
    pub fn advance<R: Wait>(&mut self, rt: &R) -> bool
        requires { IsCursor self.old }
        ensures same_reference { self.new.pass.ghost_name ≡ self.old.pass.ghost_name }
        ensures table { self.new.table ≡ self.old.table }
        ensures low { self.new.low ≡ self.old.low }
        ensures high { self.new.high ≡ self.old.high }
        ensures way { self.new.way ≡ self.old.way }
        ensures own { StaysButSlots self.old.pass.now self.new.pass.now }
        ensures cursor { IsCursor self.new }
        ensures later { Later (view_under self.old) (view_under self.new) }
        ensures advances { Advances result self.old self.new }
        ensures still { Runs (LeavesValue (sizes self.old.table.now) self.old.value self.new.value) (under self.old) (under self.new) }
    {
        if let Ok(more) = self.try_advance(1) {
            return more;
        }
        self.wait_on(rt)
    }

    /// Goes to the next pair, where none is pinned, as [`Cursor::advance`] does behind a look in vain: before each further
    /// look other threads go on.
    #[inline(never)] // else each pair saves what only a wait needs
    fn wait_on<R: Wait>(&mut self, rt: &R) -> bool
        requires cursor { IsCursor self.old }
        requires none { self.old.value ≡ None }
        requires going { self.old.walk.mark.ended ≡ false }
        ensures same_reference { self.new.pass.ghost_name ≡ self.old.pass.ghost_name }
        ensures table { self.new.table ≡ self.old.table }
        ensures low { self.new.low ≡ self.old.low }
        ensures high { self.new.high ≡ self.old.high }
        ensures way { self.new.way ≡ self.old.way }
        ensures own { StaysButSlots self.old.pass.now self.new.pass.now }
        ensures cursor { IsCursor self.new }
        ensures later { Later (view_under self.old) (view_under self.new) }
        ensures advances { Advances result self.old self.new }
        ensures still { Runs (LeavesValue (sizes self.old.table.now) self.old.value self.new.value) (under self.old) (under self.new) }
    {
        for _ in rt.forever() {
            thread::yield_now();
            if let Ok(more) = self.search_on(1) {
                return more;
            }
        }
        unreachable!()
    }

    /// Undoes the pin of the present value, if there is one.
    fn leave_pair(&mut self)
        requires { IsCursor self.old }
        ensures same_reference { self.new.pass.ghost_name ≡ self.old.pass.ghost_name }
        ensures table { self.new.table ≡ self.old.table }
        ensures low { self.new.low ≡ self.old.low }
        ensures high { self.new.high ≡ self.old.high }
        ensures way { self.new.way ≡ self.old.way }
        ensures walk { self.new.walk ≡ self.old.walk }
        ensures value { self.new.value ≡ None }
        ensures own { Stays self.old.pass.now self.new.pass.now }
        ensures idle { HoldsNothing (state self.new.pass.now) }
        ensures later { Later (view_under self.old) (view_under self.new) }
        ensures still { Runs (LeavesValue (sizes self.old.table.now) self.old.value None) (under self.old) (under self.new) }
    {
        if let Some(value) = self.value {
            value.unpin(self.table, self.pass);
            self.value = None;
        }
    }

    /// The bytes of the present key.
    pub fn key(&self) -> &[u8]
        ensures { result.now ≡ key_of self.now }
    {
        self.walk.mark.key.as_slice()
    }

    /// The length of the present key in bytes, which is at least 1.
    pub fn key_len(&self) -> usize
        ensures { result ≡ length (key_of self.now) }
    {
        self.key().len()
    }

    /// The byte of the present key at `i`.
    pub fn key_byte(&self, i: usize) -> u8
        requires { i < length (key_of self.now) }
        ensures { result ≡ slice_index (key_of self.now) i }
    {
        self.key()[i]
    }

    /// Where the present pair's value lies, which is pinned.
    fn pinned(&self) -> PinnedValue
        requires { IsSome self.now.value }
        ensures { self.now.value ≡ Some result }
    {
        match self.value {
            Some(value) => value,
            None => unreachable!(),
        }
    }

    /// The length of the present value in bytes.
    pub fn len(&self) -> usize
        requires cursor { IsCursor self.now }
        requires given { IsSome self.now.value }
        ensures { result ≡ length (value_of self.now) }
    {
        self.pinned().len()
    }

    /// The stamp of the write that made the present value.
    pub fn at(&self) -> u64
        requires cursor { IsCursor self.now }
        requires given { IsSome self.now.value }
        ensures { result ≡ stamp_of self.now }
    {
        self.pinned().at()
    }

    /// The byte of the present value at `i`. It makes loads alone.
    pub fn byte(&mut self, i: usize) -> u8
        requires cursor { IsCursor self.old }
        requires given { IsSome self.old.value }
        requires inside { i < length (value_of self.old) }
        ensures same_reference { self.new.pass.ghost_name ≡ self.old.pass.ghost_name }
        ensures reads { ReadsPair self.old self.new }
        ensures byte { result ≡ slice_index (value_of self.old) i }
    {
        self.pinned().byte(self.table, self.pass, i)
    }

    /// The bytes of the present value from `8 * i` to `8 * i + 7`, the first of which is the highest of the number. It
    /// makes loads alone.
    pub fn eight(&mut self, i: usize) -> u64
        requires cursor { IsCursor self.old }
        requires given { IsSome self.old.value }
        requires inside { 8 * i + 8 ≤ length (value_of self.old) }
        ensures same_reference { self.new.pass.ghost_name ≡ self.old.pass.ghost_name }
        ensures reads { ReadsPair self.old self.new }
        ensures eight { result ≡ from_be_bytes w64 (slice_range (value_of self.old) (8 * i) (8 * i + 8)) }
    {
        self.pinned().eight(self.table, self.pass, i)
    }

    /// Whether the present value has exactly these bytes. It makes loads alone.
    pub fn same(&mut self, other: &[u8]) -> bool
        requires cursor { IsCursor self.old }
        requires given { IsSome self.old.value }
        ensures same_reference { self.new.pass.ghost_name ≡ self.old.pass.ghost_name }
        ensures reads { ReadsPair self.old self.new }
        ensures same { IsTrue result ↔ other.now ≡ value_of self.old }
    {
        self.pinned().same(self.table, self.pass, other)
    }

    /// Copies the present value to `out`, which is as long. It makes loads alone.
    pub fn copy_into(&mut self, out: &mut [u8])
        requires cursor { IsCursor self.old }
        requires given { IsSome self.old.value }
        requires long { length out.old ≡ length (value_of self.old) }
        ensures same_reference { self.new.pass.ghost_name ≡ self.old.pass.ghost_name }
        ensures reads { ReadsPair self.old self.new }
        ensures copied { out.new ≡ value_of self.old }
    {
        self.pinned().copy_into(self.table, self.pass, out);
    }

    /// Copies the front of the present value to the front of `out`, as many bytes as both have: how many. It makes loads
    /// alone.
    pub fn copy_prefix(&mut self, out: &mut [u8]) -> usize
        requires cursor { IsCursor self.old }
        requires given { IsSome self.old.value }
        ensures same_reference { self.new.pass.ghost_name ≡ self.old.pass.ghost_name }
        ensures reads { ReadsPair self.old self.new }
        ensures many { result ≡ min (length out.old) (length (value_of self.old)) }
        ensures copied { out.new ≡ take result (value_of self.old) ++ drop result out.old }
    {
        self.pinned().copy_prefix(self.table, self.pass, out)
    }

    /// Ends the scan, and undoes the pin of the present value. With that the whole scan has made loads, pins and their
    /// undoing alone, and has taken no block.
    pub fn finish(self)
        requires { IsCursor self }
        ensures own { Stays self.entry.pass.now self.exit.1.0.now }
        ensures idle { HoldsNothing (state self.exit.1.0.now) }
        ensures later { Later (view_under self.entry) (view_at (sizes self.entry.table.now) self.exit.1.0.now) }
        ensures quiet { (before : View) (pairs : List Pair) → HasGiven self.entry before pairs → Quiet before.state (state self.exit.1.0.now) }
        ensures still { Runs (LeavesValue (sizes self.entry.table.now) self.entry.value None) (under self.entry) (state self.exit.1.0.now) }
    {
        let Cursor {
            table,
            pass,
            low: _,
            high: _,
            way: _,
            walk: _,
            value,
        } = self;
        if let Some(value) = value {
            value.unpin(table, pass);
        }
    }
}
