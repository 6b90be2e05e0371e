//! Tests of passes: how many a shape allows, and that a new one looks at a table that was used.
ghost use Rattle.std.specs.Prelude.{◌≡◌, ◌<◌, length, slice_index};
ghost use Rattle.oak_model.specs.declared.limits.TheConstants.{GREATEST_ENTRIES};
ghost use Rattle.oak_core.specs.PassState.{HoldsNothing, IsAlone};
ghost use Rattle.oak_core.specs.Opening.{first_state};
ghost use Rattle.oak_core.specs.Passes.{IsPassOf, Stays, state, key, call_of, scratch_of};
ghost use Rattle.oak_core.specs.Scratch.{StaysButScratch};
ghost use Rattle.oak_core.specs.Splitting.{LooksAtGiven};

use crate::found::{bytes_are, counts, is_unused, room_is};
use crate::table::index_tests::names;
use crate::table::model_tests::is_refused;
use chunk_core::OPEN;
use chunk_index::{IndexReader, IndexWriter};
use header_core::LAST_GENERATION;
use oak_core::steps::{pin_room, unpin_room};
use oak_core::{OakTable, Pass, SortSlot, Sorting, SplitFault, Writing, load};
use oak_model::{Shape, ShapeField};
use std::alloc::Global;
use std::process::Abort;
use std::test::Fail;
use std::thread::{Threads, join_mut};

/// Takes a pass of number 1.
fn has_number_one(_other: &Pass)
    requires { (state _other.now).numbers.number ≡ 1 }
{}

/// A shape of two has no third pass.
fn is_limit(rt: &impl Abort, fault: SplitFault) {
    assert!(rt; fault == SplitFault::Limit { made: 2 });
}

/// A pass of a shape of two, of which both were made.
fn split_no_more(rt: &impl Abort, alloc: Global, table: &OakTable, pass: &mut Pass)
    requires own { IsPassOf table.now pass.old }
    requires idle { HoldsNothing (state pass.old) }
    ensures own { Stays pass.old pass.new }
    ensures same { LooksAtGiven (call_of pass.old) (state pass.old) (state pass.new) }
{
    match pass.split(alloc, table) {
        Ok(third) => {
            pass.join(table, third);
            panic!(rt; "a third pass");
        }
        Err(fault) => is_limit(rt, fault),
    }
}

/// The first pass of a shape of two is split once, and no further.
fn split_twice(rt: &impl Abort, alloc: Global, table: &OakTable, pass: &mut Pass)
    requires own { IsPassOf table.now pass.old }
    requires two { (key table.now).passes ≡ 2 }
    requires first { state pass.old ≡ first_state (key table.now) 0 }
    ensures own { Stays pass.old pass.new }
    ensures idle { HoldsNothing (state pass.new) }
    ensures alone { IsAlone (state pass.new) }
{
    let Ok(other) = pass.split(alloc, table) else {
        panic!(rt; "no other pass");
    };
    has_number_one(&other);
    split_no_more(rt, alloc, table, pass);
    pass.join(table, other);
}

/// A shape of three entries is none.
fn three_entries_are_refused(rt: &impl Abort) {
    let made = Shape::make(2, 4, 3, 16, [2, 0, 0, 0]);
    is_refused(rt, made, ShapeField::Entries, 3);
}

#[test]
fn a_shape_of_two_passes(rt: HostRuntime) -> Result<(), Fail> {
    three_entries_are_refused(&rt);
    let shape = Shape::make(2, 4, 4, 16, [2, 0, 0, 0])?;
    let (table, mut pass) = OakTable::create(rt.alloc(), &shape)?;
    split_twice(&rt, rt.alloc(), &table, &mut pass);
    is_unused(&rt, table.close(pass).usage());
    Ok(())
}

/// Takes a pass of number 0.
fn has_number_zero(_first: &Pass)
    requires { (state _first.now).numbers.number ≡ 0 }
{}

#[test]
fn a_table_with_old_headers(rt: HostRuntime) -> Result<(), Fail> {
    let shape = Shape::make(1, 1, 4, 1, [8, 0, 0, 0])?;
    let (table, pass) = OakTable::create_aged(rt.alloc(), &shape, LAST_GENERATION - 1)?;
    has_number_zero(&pass);
    is_unused(&rt, table.close(pass).usage());
    Ok(())
}

fn look(table: &OakTable, pass: &mut Pass)
    requires own { IsPassOf table.now pass.old }
    ensures own { Stays pass.old pass.new }
    ensures numbers { (state pass.new).numbers ≡ (state pass.old).numbers }
    ensures idle { HoldsNothing (state pass.old) → HoldsNothing (state pass.new) }
{
    load(table, pass, 0);
}

/// Two passes load a word in two threads.
fn look_together<R: Threads + Sync>(rt: &R, table: &OakTable, a: &mut Pass, b: &mut Pass)
    requires own { IsPassOf table.now a.old × IsPassOf table.now b.old }
    ensures own { Stays a.old a.new × Stays b.old b.new }
    ensures numbers { ((state a.new).numbers ≡ (state a.old).numbers) × ((state b.new).numbers ≡ (state b.old).numbers) }
    ensures idle { (HoldsNothing (state a.old) → HoldsNothing (state a.new)) × (HoldsNothing (state b.old) → HoldsNothing (state b.new)) }
{
    join_mut(rt, &mut || look(table, a), &mut || look(table, b));
}

fn split_and_join<R: Threads + Sync>(rt: &R, alloc: Global, table: &OakTable, pass: &mut Pass)
    requires own { IsPassOf table.now pass.old }
    requires idle { HoldsNothing (state pass.old) }
    requires alone { IsAlone (state pass.old) }
    ensures own { Stays pass.old pass.new }
    ensures idle { HoldsNothing (state pass.new) }
    ensures alone { IsAlone (state pass.new) }
{
    let Ok(mut other) = pass.split(alloc, table) else {
        return;
    };
    look_together(rt, table, pass, &mut other);
    pass.join(table, other);
}

#[test]
fn two_passes_in_two_threads(rt: HostRuntime) -> Result<(), Fail> {
    let shape = Shape::make(3, 1, 4, 1, [1, 1, 1, 1])?;
    let (table, mut pass) = OakTable::create(rt.alloc(), &shape)?;
    pass.turn(1);
    split_and_join(&rt, rt.alloc(), &table, &mut pass);
    let usage = table.close(pass).usage();
    counts(&rt, "chunks", usage.chunks as usize, 1);
    Ok(())
}

/// Writes to the scratch between two loads.
fn write_between_loads(table: &OakTable, pass: &mut Pass)
    requires own { IsPassOf table.now pass.old }
    requires alone { IsAlone (state pass.old) }
    ensures own { StaysButScratch pass.old pass.new }
    ensures idle { HoldsNothing (state pass.old) → HoldsNothing (state pass.new) }
    ensures alone { IsAlone (state pass.new) }
    ensures long { length (scratch_of pass.new) ≡ 3 }
    ensures first { slice_index (scratch_of pass.new) 0 ≡ 7 }
{
    load(table, pass, 0);
    pass.scratch_mut().set_len(3);
    pass.scratch_mut().set(0, 7);
    load(table, pass, 0);
}

#[test]
fn a_scratch_of_a_pass(rt: HostRuntime) -> Result<(), Fail> {
    let shape = Shape::make(1, 1, 4, 1, [1, 1, 1, 1])?;
    let (table, mut pass) = OakTable::create(rt.alloc(), &shape)?;
    write_between_loads(&table, &mut pass);
    pass.scratch_mut().bytes_mut()[2] = 9;
    bytes_are(&rt, "scratch", pass.scratch().bytes(), &[7, 0, 9]);
    table.close(pass);
    Ok(())
}

/// A slot with this key word and value word, and no key.
fn slot(key: u64, value: u64) -> SortSlot {
    SortSlot {
        words: [0; 8],
        length: 0,
        key,
        value,
    }
}

/// Sets the first three slots, and sorts them.
fn sort_three(sorting: &mut Sorting) {
    sorting.set(0, slot(7, 1));
    sorting.set(1, slot(5, 3));
    sorting.set(2, slot(5, 2));
    sorting.front_mut(3).sort_unstable();
}

/// Slot `i` is this one.
fn slot_is(rt: &impl Abort, sorting: &Sorting, i: usize, due: SortSlot)
    requires { i < GREATEST_ENTRIES }
{
    assert_eq!(rt; sorting.slots()[i], due, "slot {i}");
}

/// The three slots are in their order.
fn three_in_order(rt: &impl Abort, sorting: &Sorting) {
    slot_is(rt, sorting, 0, slot(5, 2));
    slot_is(rt, sorting, 1, slot(5, 3));
    slot_is(rt, sorting, 2, slot(7, 1));
}

#[test]
fn slots_of_a_pass(rt: HostRuntime) -> Result<(), Fail> {
    let shape = Shape::make(1, 1, 4, 1, [1, 1, 1, 1])?;
    let (table, mut pass) = OakTable::create(rt.alloc(), &shape)?;
    sort_three(pass.sorting_mut());
    three_in_order(&rt, pass.sorting());
    table.close(pass);
    Ok(())
}

/// Two bytes, of which the second is set.
fn two_bytes(rt: &impl Abort, scratch: &mut Writing) {
    scratch.set_len(2);
    scratch.set(1, 5);
    assert!(rt; scratch.len() == 2);
    counts(rt, "the second byte", usize::from(scratch.byte(1)), 5);
    bytes_are(rt, "scratch", scratch.bytes(), &[0, 5]);
}

#[test]
fn a_scratch(rt: HostRuntime) -> Result<(), Fail> {
    let mut scratch = Writing::make(rt.alloc())?;
    assert!(rt; scratch.is_empty());
    two_bytes(&rt, &mut scratch);
    Ok(())
}

/// Pins room 0 of a new table, and undoes that pin.
fn pin_and_unpin(rt: &impl Abort, table: &OakTable, pass: &mut Pass)
    requires own { IsPassOf table.now pass.old }
    requires idle { HoldsNothing (state pass.old) }
    requires alone { IsAlone (state pass.old) }
    ensures own { Stays pass.old pass.new }
    ensures idle { HoldsNothing (state pass.new) }
    ensures alone { IsAlone (state pass.new) }
{
    let _rooms = table.rooms();
    let word = table.room_at(0);
    let before = pin_room(table, pass, word, 1);
    let pinned = unpin_room(table, pass, word, 1);
    room_is(rt, "before", before, OPEN, 0);
    room_is(rt, "pinned", pinned, OPEN, 1);
}

#[test]
fn a_pinned_room(rt: HostRuntime) -> Result<(), Fail> {
    let shape = Shape::make(1, 1, 4, 1, [1, 1, 1, 1])?;
    let (table, mut pass) = OakTable::create(rt.alloc(), &shape)?;
    pin_and_unpin(&rt, &table, &mut pass);
    table.close(pass);
    Ok(())
}

/// The pass's hint of the key names this room.
fn hints(rt: &impl Abort, pass: &mut Pass, key: &[u8], room: Option<u32>)
    ensures { pass.new ≡ pass.old }
{
    names(rt, pass.hint(key), key, room);
}

/// Its hint under the bound names this room.
fn hints_under(rt: &impl Abort, pass: &mut Pass, bound: &[u8], room: Option<u32>)
    ensures { pass.new ≡ pass.old }
{
    names(rt, pass.hint_under(Some(bound)), bound, room);
}

/// The pass hints nothing, and with the reader the room of the minimum `k`.
fn hints_by(rt: &impl Abort, pass: &mut Pass, reader: IndexReader)
    ensures { pass.new ≡ pass.old }
{
    hints(rt, pass, b"m", None);
    pass.set_reader(reader);
    hints(rt, pass, b"m", Some(2));
    hints(rt, pass, b"j", None);
    hints_under(rt, pass, b"m", Some(2));
    hints_under(rt, pass, b"k", None);
}

#[test]
fn hints_of_a_pass(rt: HostRuntime) -> Result<(), Fail> {
    let shape = Shape::make(1, 4, 4, 1, [1, 1, 1, 1])?;
    let mut writer = IndexWriter::create(&rt, 4, 1)?;
    writer.set(b"k", 2)?;
    let (table, mut pass) = OakTable::create(rt.alloc(), &shape)?;
    hints_by(&rt, &mut pass, writer.reader());
    counts(&rt, "tries", pass.tries() as usize, 0);
    table.close(pass);
    Ok(())
}
