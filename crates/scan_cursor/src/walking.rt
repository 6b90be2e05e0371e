//! A scan that loads the entries of each room once, in batches.
ghost use Rattle.std.specs.Prelude.{◌≡◌, ◌≢◌, ◌*◌, ◌-◌, ◌<◌, ◌≤◌, ℕ, suc, IfErr, IfOk, IsTrue, MatchBool, None, Some, [], max, min, true, false};
ghost use Rattle.oak_model.specs.declared.limits.TheConstants.{GREATEST_ENTRIES};
ghost use Rattle.oak_model.specs.Key.{is_key};
ghost use Rattle.oak_model.specs.KeyNumber.{key_number};
ghost use Rattle.oak_core.specs.AloneWords.{Runs};
ghost use Rattle.oak_core.specs.PassState.{HoldsNothing};
ghost use Rattle.oak_core.specs.Passes.{IsPassOf, Stays, call_of, state, key as sizes, slots_of};
ghost use Rattle.oak_core.specs.Scratch.{StaysButSlots};
ghost use Rattle.chunk_ops.specs.AddsAlone.{Never};
ghost use Rattle.chunk_ops.specs.PinRecords.{OnlyMeets};
ghost use Rattle.scan_cursor.specs.Busy.{AreInVain, IsInVain, LooksInVain};
ghost use Rattle.scan_cursor.specs.Gathered.{in_slot};
ghost use Rattle.scan_cursor.specs.Holding.{HasRoom, IsBound, bound_in, cut_room, room_at};
ghost use Rattle.scan_cursor.specs.Leaving.{LeavesValue, given_by};
ghost use Rattle.scan_cursor.specs.Marks.{InBounds, IsBeyond, IsWithin, Leaves};
ghost use Rattle.scan_cursor.specs.Remaining.{steps_left};
ghost use Rattle.scan_cursor.specs.Walks.{IsTaken, IsWalk, MayGoOn, WalkSteps, WalksOrEnds, course_of, view_at};

use crate::busy::Busy;
use crate::gathering::{Batch, gather};
use crate::loading_ahead::load_batch_ahead;
use crate::marks::Mark;
use crate::reading::{Here, read_key, read_life};
use crate::spots::{batch_bound, pin_ahead};
use crate::ways::Way;
use chunk_core::value_word::{generation_in, header_in};
use chunk_ops::{KeyBytes, RoomPin, unpin};
use oak_core::{OakTable, Pass, SortSlot};
use oak_model::{GREATEST_ENTRIES, GREATEST_KEY, cmp_keys};
use value_ops::PinnedValue;

/// How many pairs a scan asks of its first batch. A scan of one pair loads that many, and what has a floor or was appended
/// between them, and so costs little more than a get; each batch asks for twice as many as the one before, so a long scan
/// makes few.
const FIRST_BATCH: u32 = 4;

/// How far a scan has come, and what it keeps of the room that it is in. Where it has loaded a batch of the entries, those
/// that are left stand in the slots of its pass, from one number on and below another, and the batch's bound in the
/// direction of the scan is kept, and whether that shows that none of its keys is behind the scan's own bound. The last
/// batch was asked for so many pairs; for none, where there was none.
#[derive(Drop)]
pub(crate) struct Walk {
    pub(crate) mark: Mark,
    pub(crate) gathered: bool,
    pub(crate) from: usize,
    pub(crate) to: usize,
    pub(crate) bound: Option<KeyBytes>,
    pub(crate) within: bool,
    pub(crate) asked: u32,
}

impl Walk {
    ghost use Rattle.scan_cursor.specs.Marks.{HasCome};
    ghost use Rattle.scan_cursor.specs.Views.{View};

    /// Where a scan between these keys begins: it has ended already where there is none between them.
    pub(crate) fn at_start(low: &[u8], high: &[u8], way: Way) -> Walk
        requires low { is_key low.now ≡ true }
        requires high { is_key high.now ≡ true }
        ensures gathered { result.gathered ≡ false }
        ensures to { result.to ≡ 0 }
        ensures bound { result.bound ≡ None }
        ensures bounds { result.mark.ended ≡ false → InBounds (key_number low.now) (key_number high.now) result.mark.key }
        ensures starts { (a : View) → HasCome way (key_number low.now) (key_number high.now) result.mark a a [] }
    {
        let key = match way {
            Way::Up => KeyBytes::from_key(low),
            Way::Down => KeyBytes::from_key(high),
        };
        let mark = Mark {
            key,
            past: false,
            ended: is_above(low, high),
        };
        Walk {
            mark,
            gathered: false,
            from: 0,
            to: 0,
            bound: None,
            within: false,
            asked: 0,
        }
    }
}

/// What a step of a scan came to: a pair, whose value is pinned; the end; neither yet; or nothing was read, since another
/// pass has the room of the key or its value, so that it is to be tried again.
#[derive(Clone, Copy)]
pub(crate) enum Stepped {
    Given(PinnedValue),
    Ended,
    Passed,
    Again,
}

/// Whether `a` comes behind `b`.
pub(crate) fn is_above(a: &[u8], b: &[u8]) -> bool
    requires a { is_key a.now ≡ true }
    requires b { is_key b.now ≡ true }
    ensures { MatchBool result (key_number b.now < key_number a.now) (key_number a.now ≤ key_number b.now) }
{
    cmp_keys(a, b).is_gt()
}

/// Whether the key is behind the bound to which the scan goes. It stands out of line, as few keys are compared.
#[inline(never)]
fn is_beyond(way: Way, key: &[u8], low: &[u8], high: &[u8]) -> bool
    requires key { is_key key.now ≡ true }
    requires low { is_key low.now ≡ true }
    requires high { is_key high.now ≡ true }
    ensures { MatchBool result (IsBeyond way (key_number low.now) (key_number high.now) key.now)
        (IsBeyond way (key_number low.now) (key_number high.now) key.now → ⊥) }
{
    match way {
        Way::Up => is_above(key, high),
        Way::Down => is_above(low, key),
    }
}

/// Whether the key at the mark, which is one of a batch, is behind the bound to which the scan goes. It is not compared
/// where the batch shows that none of its keys is.
#[inline(always)] // once for each pair of a scan
fn is_past_end(walk: &Walk, low: &[u8], high: &[u8], way: Way) -> bool
    requires key { is_key walk.now.mark.key ≡ true }
    requires low { is_key low.now ≡ true }
    requires high { is_key high.now ≡ true }
    requires within { walk.now.within ≡ true → IsBeyond way (key_number low.now) (key_number high.now) walk.now.mark.key → ⊥ }
    ensures { MatchBool result (IsBeyond way (key_number low.now) (key_number high.now) walk.now.mark.key)
        (IsBeyond way (key_number low.now) (key_number high.now) walk.now.mark.key → ⊥) }
{
    if walk.within {
        return false;
    }
    is_beyond(way, walk.mark.key.as_slice(), low, high)
}

/// Goes on at the bound of a room or a batch, or ends where that is none of the scan's range.
fn go_to_bound(mark: &mut Mark, bound: KeyBytes, low: &[u8], high: &[u8], way: Way)
    requires bound { is_key bound ≡ true }
    requires low { is_key low.now ≡ true }
    requires high { is_key high.now ≡ true }
    requires going { mark.old.ended ≡ false }
    ensures { Leaves way (key_number low.now) (key_number high.now) (Some bound) mark.new }
{
    let behind = match way {
        Way::Up => is_above(bound.as_slice(), high),
        Way::Down => !is_above(bound.as_slice(), low),
    };
    if behind {
        mark.ended = true;
    } else {
        mark.key = bound;
        mark.past = way == Way::Down;
    }
}

/// Leaves the batch, of whose entries none is left, at its bound.
fn leave_room(walk: &mut Walk, low: &[u8], high: &[u8], way: Way)
    requires low { is_key low.now ≡ true }
    requires high { is_key high.now ≡ true }
    requires going { walk.old.mark.ended ≡ false }
    requires bound { IsBound walk.old.bound }
    ensures bound { IsBound walk.new.bound }
    ensures gathered { walk.new.gathered ≡ false }
    ensures from { walk.new.from ≡ walk.old.from }
    ensures to { walk.new.to ≡ walk.old.to }
    ensures leaves { Leaves way (key_number low.now) (key_number high.now) walk.old.bound walk.new.mark }
{
    walk.gathered = false;
    match walk.bound.take() {
        Some(bound) => go_to_bound(&mut walk.mark, bound, low, high, way),
        None => walk.mark.ended = true,
    }
}

/// How many pairs the next batch is asked for, behind one that was asked for so many: no more than a room may have.
fn next_batch(asked: u32) -> u32
    ensures some { 0 < result }
    ensures few { result ≤ GREATEST_ENTRIES }
    ensures twice { result ≡ min GREATEST_ENTRIES (max 4 (2 * asked)) }
{
    asked.saturating_mul(2).clamp(FIRST_BATCH, GREATEST_ENTRIES)
}

/// Ends a batch of the pinned room: its bound in the direction of the scan, which is the room's where it has none of its
/// own. What its pairs are read from is loaded ahead.
fn end_batch(
    table: &OakTable,
    pass: &mut Pass,
    pin: &RoomPin,
    batch: Batch,
    way: Way,
) -> Option<KeyBytes>
    requires own { IsPassOf table.now pass.old }
    requires pinned { HasRoom (sizes table.now) pin.now.room (state pass.old) }
    requires few { batch.filled ≤ GREATEST_ENTRIES }
    ensures own { Stays pass.old pass.new }
    ensures bound { result ≡ bound_in way (cut_room way (room_at (state pass.old)) batch.bound) }
    ensures only { OnlyMeets (call_of pass.old) (state pass.old) (state pass.new) }
{
    let Batch { filled, bound } = batch;
    let end = batch_bound(table, pass, pin, bound, way);
    load_batch_ahead(table, pass, filled);
    end
}

/// Whether a batch with this bound has no key behind the bound to which the scan goes. One without a bound of its own, in
/// the last room, may have such keys.
fn is_within(bound: &Option<KeyBytes>, low: &[u8], high: &[u8], way: Way) -> bool
    requires bound { IsBound bound.now }
    requires low { is_key low.now ≡ true }
    requires high { is_key high.now ≡ true }
    ensures { result ≡ true → IsWithin way (key_number low.now) (key_number high.now) bound.now }
{
    match bound {
        Some(bound) => match way {
            Way::Up => !is_above(bound.as_slice(), high),
            Way::Down => !is_above(low, bound.as_slice()),
        },
        None => false,
    }
}

/// Loads the next batch of the entries that lie behind the mark in the room in which the scan goes on.
#[inline(always)] // so that its loops are compiled for each direction
fn refill(
    table: &OakTable,
    pass: &mut Pass,
    walk: &mut Walk,
    low: &[u8],
    high: &[u8],
    way: Way,
) -> Stepped
    requires own { IsPassOf table.now pass.old }
    requires idle { HoldsNothing (state pass.old) }
    requires key { is_key walk.old.mark.key ≡ true }
    requires past { walk.old.mark.past ≡ true }
    requires going { walk.old.mark.ended ≡ false }
    requires unloaded { walk.old.gathered ≡ false }
    requires low { is_key low.now ≡ true }
    requires high { is_key high.now ≡ true }
    ensures own { StaysButSlots pass.old pass.new }
    ensures steps { let z = sizes table.now in let from = key_number low.now in let to = key_number high.now in
        IsWalk way from to (course_of way z walk.old pass.old) → WalkSteps result way from to
        (course_of way z walk.old pass.old) (course_of way z walk.new pass.new) }
    ensures still { Runs (LeavesValue (sizes table.now) None (given_by result)) (state pass.old) (state pass.new) }
    ensures nearer { (high : ℕ) → key_number walk.old.mark.key ≤ high → result ≡ Stepped.Passed
        → steps_left way high walk.new < steps_left way high walk.old }
    ensures again { let z = sizes table.now in result ≡ Stepped.Again → LooksInVain walk.old.mark.key (view_at z pass.old) (view_at z pass.new) }
{
    let Ok(pin) = pin_ahead(table, pass, &walk.mark, way) else {
        return Stepped::Again;
    };
    walk.asked = next_batch(walk.asked);
    let batch = gather(table, pass, &pin, walk.mark.key.as_slice(), walk.asked, way);
    walk.from = 0;
    walk.to = batch.filled;
    walk.bound = end_batch(table, pass, &pin, batch, way);
    walk.within = is_within(&walk.bound, low, high, way);
    walk.gathered = true;
    unpin(table, pass, pin);
    Stepped::Passed
}

/// Reads the key at the mark through the room that covers it.
fn read_mark(table: &OakTable, pass: &mut Pass, walk: &mut Walk) -> Stepped
    requires own { IsPassOf table.now pass.old }
    requires idle { HoldsNothing (state pass.old) }
    requires key { is_key walk.old.mark.key ≡ true }
    requires at { walk.old.mark.past ≡ false }
    requires going { walk.old.mark.ended ≡ false }
    ensures own { StaysButSlots pass.old pass.new }
    ensures steps { let z = sizes table.now in (way : Way) (low high : ℕ)
        → IsWalk way low high (course_of way z walk.old pass.old) → WalkSteps result way low high
        (course_of way z walk.old pass.old) (course_of way z walk.new pass.new) }
    ensures still { Runs (LeavesValue (sizes table.now) None (given_by result)) (state pass.old) (state pass.new) }
    ensures nearer { (way : Way) (high : ℕ) → result ≡ Stepped.Passed → steps_left way high walk.new < steps_left way high walk.old }
    ensures again { let z = sizes table.now in result ≡ Stepped.Again → LooksInVain walk.old.mark.key (view_at z pass.old) (view_at z pass.new) }
{
    match read_key(table, pass, walk.mark.key.as_slice()) {
        Here::Present(value) => {
            walk.mark.past = true;
            Stepped::Given(value)
        }
        Here::Absent => {
            walk.mark.past = true;
            Stepped::Passed
        }
        Here::Again => Stepped::Again,
    }
}

/// Copies the key of a slot to its place, no more words of it than it has bytes for.
fn set_key(key: &mut KeyBytes, slot: &SortSlot)
    requires { is_key (in_slot slot.now).key ≡ true }
    ensures { key.new ≡ (in_slot slot.now).key }
{
    key.set_words(&slot.words, slot.length.min(GREATEST_KEY));
}

/// Takes the next of the slots that are left, of which there is one.
fn next_slot<'p>(pass: &'p Pass, walk: &mut Walk, way: Way) -> &'p SortSlot
    requires some { walk.old.from < walk.old.to }
    requires few { walk.old.to ≤ GREATEST_ENTRIES }
    ensures mark { walk.new.mark ≡ walk.old.mark }
    ensures gathered { walk.new.gathered ≡ walk.old.gathered }
    ensures bound { walk.new.bound ≡ walk.old.bound }
    ensures within { walk.new.within ≡ walk.old.within }
    ensures few { walk.new.to ≤ GREATEST_ENTRIES }
    ensures fewer { suc (walk.new.to - walk.new.from) ≡ walk.old.to - walk.old.from }
    ensures taken { IsTaken way walk.old walk.new (slots_of pass.now) (in_slot result.now) }
{
    let slots = pass.sorting().slots();
    match way {
        Way::Up => {
            let slot = &slots[walk.from];
            walk.from += 1;
            slot
        }
        Way::Down => {
            walk.to -= 1;
            &slots[walk.to]
        }
    }
}

/// Goes to the key of the next of the slots that are left, and pins its value. Where that is being written, or was
/// written anew, the scan stays at the key, which is then read through its room.
#[inline(always)] // once for each pair of a scan
pub(crate) fn take_slot(
    table: &OakTable,
    pass: &mut Pass,
    walk: &mut Walk,
    low: &[u8],
    high: &[u8],
    way: Way,
) -> Stepped
    requires on { MayGoOn way low.now high.now table.now walk.old pass.old }
    requires past { walk.old.mark.past ≡ true }
    requires gathered { walk.old.gathered ≡ true }
    requires some { walk.old.from < walk.old.to }
    ensures own { StaysButSlots pass.old pass.new }
    ensures steps { let z = sizes table.now in WalkSteps result way (key_number low.now) (key_number high.now)
        (course_of way z walk.old pass.old) (course_of way z walk.new pass.new) }
    ensures still { Runs (LeavesValue (sizes table.now) None (given_by result)) (state pass.old) (state pass.new) }
    ensures nearer { result ≡ Stepped.Passed → steps_left way (key_number high.now) walk.new < steps_left way (key_number high.now) walk.old }
    ensures on { result ≢ Stepped.Again }
{
    let slot = next_slot(pass, walk, way);
    let value = slot.value;
    set_key(&mut walk.mark.key, slot);
    if is_past_end(walk, low, high, way) {
        walk.mark.ended = true;
        walk.gathered = false;
        return Stepped::Ended;
    }
    match read_life(table, pass, header_in(value), generation_in(value)) {
        Here::Present(value) => Stepped::Given(value),
        Here::Absent => Stepped::Passed,
        Here::Again => {
            walk.mark.past = false;
            Stepped::Passed
        }
    }
}

/// Goes on in the batch of entries that is loaded: to the next of them, or where none is left to its bound.
fn go_ahead(
    table: &OakTable,
    pass: &mut Pass,
    walk: &mut Walk,
    low: &[u8],
    high: &[u8],
    way: Way,
) -> Stepped
    requires on { MayGoOn way low.now high.now table.now walk.old pass.old }
    requires past { walk.old.mark.past ≡ true }
    requires gathered { walk.old.gathered ≡ true }
    ensures own { StaysButSlots pass.old pass.new }
    ensures steps { let z = sizes table.now in WalkSteps result way (key_number low.now) (key_number high.now)
        (course_of way z walk.old pass.old) (course_of way z walk.new pass.new) }
    ensures still { Runs (LeavesValue (sizes table.now) None (given_by result)) (state pass.old) (state pass.new) }
    ensures nearer { result ≡ Stepped.Passed → steps_left way (key_number high.now) walk.new < steps_left way (key_number high.now) walk.old }
    ensures on { result ≢ Stepped.Again }
{
    if walk.from < walk.to {
        return take_slot(table, pass, walk, low, high, way);
    }
    leave_room(walk, low, high, way);
    if walk.mark.ended {
        Stepped::Ended
    } else {
        Stepped::Passed
    }
}

/// One step of the scan: reads the key at the mark, loads the entries behind it, or goes on to the next of these.
fn step(
    table: &OakTable,
    pass: &mut Pass,
    walk: &mut Walk,
    low: &[u8],
    high: &[u8],
    way: Way,
) -> Stepped
    requires { MayGoOn way low.now high.now table.now walk.old pass.old }
    ensures own { StaysButSlots pass.old pass.new }
    ensures steps { let z = sizes table.now in WalkSteps result way (key_number low.now) (key_number high.now)
        (course_of way z walk.old pass.old) (course_of way z walk.new pass.new) }
    ensures still { Runs (LeavesValue (sizes table.now) None (given_by result)) (state pass.old) (state pass.new) }
    ensures nearer { result ≡ Stepped.Passed → steps_left way (key_number high.now) walk.new < steps_left way (key_number high.now) walk.old }
    ensures again { let z = sizes table.now in result ≡ Stepped.Again → LooksInVain walk.old.mark.key (view_at z pass.old) (view_at z pass.new) }
{
    if !walk.mark.past {
        read_mark(table, pass, walk)
    } else if walk.gathered {
        go_ahead(table, pass, walk, low, high, way)
    } else {
        match way {
            Way::Up => refill(table, pass, walk, low, high, Way::Up),
            Way::Down => refill(table, pass, walk, low, high, Way::Down),
        }
    }
}

/// Goes to the next key that is read present, whose value is then pinned; none where there is no such key, and the scan
/// has ended. It gives up at the first key that is looked at in vain, and keeps its place there.
fn walk_to(
    table: &OakTable,
    pass: &mut Pass,
    walk: &mut Walk,
    low: &[u8],
    high: &[u8],
    way: Way,
) -> Result<Option<PinnedValue>, Busy>
    requires { MayGoOn way low.now high.now table.now walk.old pass.old }
    ensures own { StaysButSlots pass.old pass.new }
    ensures goes { let z = sizes table.now in IfOk result
        (λ o. WalksOrEnds o way (key_number low.now) (key_number high.now) (course_of way z walk.old pass.old)
        (course_of way z walk.new pass.new)) }
    ensures still { IfOk result (λ o. Runs (LeavesValue (sizes table.now) None o) (state pass.old) (state pass.new)) }
    ensures waits { let z = sizes table.now in IfErr result
        (λ _. WalkSteps Stepped.Again way (key_number low.now) (key_number high.now)
        (course_of way z walk.old pass.old) (course_of way z walk.new pass.new)) }
    ensures vain { let z = sizes table.now in IfErr result
        (λ _. IsInVain (key_number low.now) (key_number high.now) (view_at z pass.old) (view_at z pass.new)) }
{
    loop {
        match step(table, pass, walk, low, high, way) {
            Stepped::Given(value) => return Ok(Some(value)),
            Stepped::Ended => return Ok(None),
            Stepped::Passed => {}
            Stepped::Again => return Err(Busy),
        }
    }
}

/// Goes to the next key that is read present as [`walk_to`] does, and gives up only after so many looks in vain. It keeps
/// its place then: what was read is not read again.
pub(crate) fn try_walk(
    table: &OakTable,
    pass: &mut Pass,
    walk: &mut Walk,
    low: &[u8],
    high: &[u8],
    way: Way,
    looks: u32,
) -> Result<Option<PinnedValue>, Busy>
    requires on { MayGoOn way low.now high.now table.now walk.old pass.old }
    requires some { 0 < looks }
    ensures own { StaysButSlots pass.old pass.new }
    ensures goes { let z = sizes table.now in IfOk result
        (λ o. WalksOrEnds o way (key_number low.now) (key_number high.now) (course_of way z walk.old pass.old)
        (course_of way z walk.new pass.new)) }
    ensures still { IfOk result (λ o. Runs (LeavesValue (sizes table.now) None o) (state pass.old) (state pass.new)) }
    ensures waits { let z = sizes table.now in IfErr result
        (λ _. WalkSteps Stepped.Again way (key_number low.now) (key_number high.now)
        (course_of way z walk.old pass.old) (course_of way z walk.new pass.new)) }
    ensures vain { let z = sizes table.now in IfErr result
        (λ _. AreInVain looks (key_number low.now) (key_number high.now) (view_at z pass.old) (view_at z pass.new)) }
    ensures alone { IfErr result (λ _. Runs Never (state pass.old) (state pass.new)) }
{
    for _ in 0..looks {
        if let Ok(value) = walk_to(table, pass, walk, low, high, way) {
            return Ok(value);
        }
    }
    Err(Busy)
}

/// Whether one of the slots that are loaded is left, and comes next.
#[inline(always)] // once for each pair of a scan
pub(crate) fn has_slot(walk: &Walk) -> bool
    ensures { IsTrue result → (walk.now.mark.past ≡ true) × (walk.now.gathered ≡ true) × (walk.now.from < walk.now.to) }
{
    if !walk.mark.past {
        return false;
    }
    if !walk.gathered {
        return false;
    }
    walk.from < walk.to
}
