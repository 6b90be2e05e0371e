//! The seven calls by one pass, and by two threads.
ghost use Rattle.std.specs.Prelude.{◌≡◌, ◌<◌, ◌≤◌, ◌+◌, ◌^◌, ◌-◌, length};
ghost use Rattle.oak_model.specs.Key.{IsKey};
ghost use Rattle.oak_model.specs.Value.{IsValue};
ghost use Rattle.oak_core.specs.MayWrite.{IsNewCall};
ghost use Rattle.oak_core.specs.Passes.{IsPassOf, Stays, state, key as sizes, call_of};
ghost use Rattle.oak_core.specs.PassState.{HoldsNothing, IsAlone};
ghost use Rattle.oak_core.specs.Scratch.{StaysButScratch};
ghost use Rattle.point_ops.specs.TestStates.{HasView, IsReady, IsReadyAgain};

use crate::calls::{shows, turn};
use crate::found::{is_so, is_used, number_is};
use crate::keys::test_rows::{Ask, ROWS, ROWS_OF_FOUR_ENTRIES, ROWS_OF_ONE_HEADER, Row, Said};
use oak_core::{OakTable, Pass};
use oak_model::{Class, NO_HINT, RecipeKind, Shape, Usage, Wrote};
use point_ops::{
    Got, Halt, Pinned, try_compute, try_get, try_pin, try_put, try_put_if_absent, try_remove,
    try_upsert,
};
use std::alloc::Global;
use std::process::Abort;
use std::test::Fail;
use std::thread::{Threads, join_mut};
use value_ops::{NoRead, Recipe, StepRecipe, ValueView};

/// A refusal as a row has it.
fn halted(halt: Halt) -> (Said, u64) {
    match halt {
        Halt::Busy => (Said::Busy, 0),
        Halt::Moved => (Said::Moved, 0),
        Halt::Crowded => (Said::Crowded, 0),
        Halt::NoBlock(class) => (Said::NoBlock, class.bytes() as u64),
        Halt::NoHeader => (Said::NoHeader, 0),
    }
}

/// A reply as a row has it.
fn said(reply: Result<Wrote, Halt>) -> (Said, u64) {
    match reply {
        Ok(Wrote::New { at }) => (Said::New, at),
        Ok(Wrote::Over { at }) => (Said::Over, at),
        Ok(Wrote::Kept { at }) => (Said::Kept, at),
        Ok(Wrote::Done { at }) => (Said::Done, at),
        Ok(Wrote::Removed { at }) => (Said::Removed, at),
        Ok(Wrote::Absent { at }) => (Said::Absent, at),
        Ok(Wrote::Full(_)) => (Said::Busy, 1),
        Err(halt) => halted(halt),
    }
}

/// Gets the key, and the value through its view, which must be these bytes.
pub(crate) fn gets(
    rt: &impl Abort,
    table: &OakTable,
    pass: &mut Pass,
    key: &[u8],
    bytes: &[u8],
) -> (Said, u64)
    requires own { IsPassOf table.now pass.old }
    requires key { IsKey key.now }
    requires ready { IsReady (call_of pass.old) (state pass.old) }
    ensures own { Stays pass.old pass.new }
    ensures ready { IsReadyAgain (call_of pass.old) (state pass.old) (state pass.new) }
{
    match try_get(table, pass, NO_HINT, key) {
        Ok(Got::Absent { at }) => (Said::Absent, at),
        Ok(Got::View(view)) => {
            let at = shows(rt, table, pass, &view, bytes);
            number_is(rt, "the stamp of a view", at, view.at());
            (Said::Holds, at)
        }
        Err(halt) => halted(halt),
    }
}

/// Gets the key, and reads the value, which must be these bytes, under the very pin by which it was found.
fn reads(
    rt: &impl Abort,
    table: &OakTable,
    pass: &mut Pass,
    key: &[u8],
    bytes: &[u8],
) -> (Said, u64)
    requires own { IsPassOf table.now pass.old }
    requires key { IsKey key.now }
    requires ready { IsReady (call_of pass.old) (state pass.old) }
    ensures own { Stays pass.old pass.new }
    ensures ready { IsReadyAgain (call_of pass.old) (state pass.old) (state pass.new) }
{
    match try_pin(table, pass, NO_HINT, key) {
        Ok(Pinned::Absent { at }) => (Said::Absent, at),
        Ok(Pinned::Value(pin)) => {
            let mut reading = pin.reading(table, pass);
            let same = reading.same(bytes);
            let at = reading.at();
            reading.done();
            is_so(rt, "the bytes of a value", same);
            (Said::Holds, at)
        }
        Err(halt) => halted(halt),
    }
}

/// Gets the key in both ways, which must tell the same.
fn gets_both(
    rt: &impl Abort,
    table: &OakTable,
    pass: &mut Pass,
    key: &[u8],
    bytes: &[u8],
) -> (Said, u64)
    requires own { IsPassOf table.now pass.old }
    requires key { IsKey key.now }
    requires ready { IsReady (call_of pass.old) (state pass.old) }
    ensures own { Stays pass.old pass.new }
    ensures ready { IsReadyAgain (call_of pass.old) (state pass.old) (state pass.new) }
{
    let read = reads(rt, table, pass, key, bytes);
    let got = gets(rt, table, pass, key, bytes);
    is_so(rt, "what a get and a reading tell", read == got);
    got
}

/// Makes the call on the key, with the bytes as its value and the argument for its recipe.
fn ask(
    rt: &impl Abort,
    table: &OakTable,
    pass: &mut Pass,
    recipe: &mut Box<dyn Recipe + Send>,
    ask: Ask,
    key: &[u8],
    bytes: &[u8],
    argument: u8,
) -> (Said, u64)
    requires own { IsPassOf table.now pass.old }
    requires key { IsKey key.now }
    requires value { IsValue bytes.now }
    requires ready { IsReady (call_of pass.old) (state pass.old) }
    requires turn { IsNewCall (call_of pass.old) (state pass.old) }
    requires few { calls recipe.old < 2 ^ 64 - 1 }
    ensures own { StaysButScratch pass.old pass.new }
    ensures ready { IsReadyAgain (call_of pass.old) (state pass.old) (state pass.new) }
    ensures few { calls recipe.new ≤ calls recipe.old + 1 }
{
    recipe.tell(RecipeKind::Xor, u64::from(argument));
    match ask {
        Ask::Get => gets_both(rt, table, pass, key, bytes),
        Ask::Put => said(try_put(table, pass, NO_HINT, key, bytes)),
        Ask::PutNew => said(try_put_if_absent(table, pass, NO_HINT, key, bytes)),
        Ask::Xor => said(try_compute(table, pass, NO_HINT, key, recipe)),
        Ask::Upsert => said(try_upsert(table, pass, NO_HINT, key, bytes, recipe)),
        Ask::Remove => said(try_remove(table, pass, NO_HINT, key)),
    }
}

/// The key of a letter: from p on it has the letter 20 times.
fn key_of(letter: &[u8; 20]) -> &[u8]
    ensures { IsKey result.now }
{
    if letter[0] < b'p' {
        &letter[..1]
    } else {
        letter
    }
}

/// The argument of the call for its recipe.
fn argument_of(asked: Ask, byte: u8) -> u8 {
    match asked {
        Ask::Upsert => 15,
        _ => byte,
    }
}

/// The call replied this, with this number.
pub(crate) fn is_said(rt: &impl Abort, call: u32, found: (Said, u64), said: Said, at: u64) {
    assert_eq!(rt; found, (said, at), "call {call}");
}

/// The call of the row has its reply.
fn has_reply(
    rt: &impl Abort,
    table: &OakTable,
    pass: &mut Pass,
    recipe: &mut Box<dyn Recipe + Send>,
    call: u32,
    row: Row,
)
    requires own { IsPassOf table.now pass.old }
    requires above { call_of pass.old < call }
    requires ready { IsReady (call_of pass.old) (state pass.old) }
    requires few { calls recipe.old < 2 ^ 64 - 1 }
    ensures own { IsPassOf table.now pass.new }
    ensures call { call_of pass.new ≡ call }
    ensures ready { IsReadyAgain call (state pass.old) (state pass.new) }
    ensures few { calls recipe.new ≤ calls recipe.old + 1 }
{
    turn(pass, call);
    let (asked, letter, byte, len, reply, at) = row;
    let argument = argument_of(asked, byte);
    let letters = [letter; 20];
    let bytes = [byte; 1024];
    let bytes = &bytes[..len.min(1024)];
    let found = ask(
        rt,
        table,
        pass,
        recipe,
        asked,
        key_of(&letters),
        bytes,
        argument,
    );
    is_said(rt, call, found, reply, at);
}

/// Each row has its reply, one call behind another.
fn have_replies(
    rt: &impl Abort,
    table: &OakTable,
    pass: &mut Pass,
    recipe: &mut Box<dyn Recipe + Send>,
    rows: &[Row],
)
    requires own { IsPassOf table.now pass.old }
    requires first { call_of pass.old ≡ 0 }
    requires ready { IsReady 0 (state pass.old) }
    requires none { calls recipe.old ≡ 0 }
    requires few { length rows.now < 2 ^ 32 }
    ensures own { IsPassOf table.now pass.new }
    ensures ready { IsReadyAgain (length rows.now) (state pass.old) (state pass.new) }
{
    for i in 0..rows.len() {
        has_reply(rt, table, pass, recipe, i as u32 + 1, rows[i]);
    }
}

/// How many of the rows are done by the recipe.
fn done_rows(rows: &[Row]) -> u64 {
    let mut done = 0u64;
    for row in rows {
        if row.4 == Said::Done {
            done = done.wrapping_add(1);
        }
    }
    done
}

/// The rows have their replies on a table of this shape, which is used so then.
fn run_by_recipe(
    rt: &impl Abort,
    alloc: Global,
    shape: &Shape,
    recipe: &mut Box<dyn Recipe + Send>,
    rows: &[Row],
    used: Usage,
) -> Result<(), Fail>
    requires none { calls recipe.old ≡ 0 }
    requires few { length rows.now < 2 ^ 32 }
{
    let (table, mut pass) = OakTable::create(alloc, shape)?;
    have_replies(rt, &table, &mut pass, recipe, rows);
    let usage = table.close(pass).usage();
    is_used(rt, usage, used);
    Ok(())
}

/// They have, and the recipe was called just as often as a row is done.
fn run_rows(
    rt: &impl Abort,
    alloc: Global,
    shape: &Shape,
    rows: &[Row],
    used: Usage,
) -> Result<(), Fail>
    requires few { length rows.now < 2 ^ 32 }
{
    let mut recipe: Box<dyn Recipe + Send> = Box::new(alloc, StepRecipe::make())?;
    run_by_recipe(rt, alloc, shape, &mut recipe, rows, used)?;
    let done = done_rows(rows);
    number_is(rt, "the calls of the recipe", recipe.calls(), done);
    Ok(())
}

#[test]
fn two_hundred_calls_on_a_small_room(rt: HostRuntime) -> Result<(), Fail> {
    let shape = Shape::make(1, 1, 6, 5, [7, 3, 2, 1])?;
    let used = Usage {
        blocks: [6, 3, 1, 0],
        headers: 4,
        chunks: 1,
    };
    run_rows(&rt, rt.alloc(), &shape, &ROWS, used)
}

#[test]
fn one_header(rt: HostRuntime) -> Result<(), Fail> {
    let shape = Shape::make(1, 1, 4, 1, [4, 0, 0, 0])?;
    let used = Usage {
        blocks: [2, 0, 0, 0],
        headers: 1,
        chunks: 1,
    };
    run_rows(&rt, rt.alloc(), &shape, &ROWS_OF_ONE_HEADER, used)
}

#[test]
fn four_entries(rt: HostRuntime) -> Result<(), Fail> {
    let shape = Shape::make(1, 1, 4, 8, [16, 0, 0, 0])?;
    let used = Usage {
        blocks: [8, 0, 0, 0],
        headers: 4,
        chunks: 1,
    };
    run_rows(&rt, rt.alloc(), &shape, &ROWS_OF_FOUR_ENTRIES, used)
}

/// A pin was refused since the life is over.
fn is_over(rt: &impl Abort, why: NoRead) {
    assert!(rt; why == NoRead::Gone);
}

/// The view's life is over.
pub(crate) fn is_gone(rt: &impl Abort, table: &OakTable, pass: &mut Pass, view: &ValueView)
    requires own { IsPassOf table.now pass.old }
    requires has { HasView (sizes table.now) view.now (state pass.old) }
    requires ready { IsReady (call_of pass.old) (state pass.old) }
    ensures own { Stays pass.old pass.new }
    ensures ready { IsReadyAgain (call_of pass.old) (state pass.old) (state pass.new) }
{
    match view.pin(table, pass) {
        Ok(pin) => {
            pin.reading(table, pass).done();
            panic!(rt; "not gone");
        }
        Err(why) => is_over(rt, why),
    }
}

/// Puts the byte as the value of k, as the call.
pub(crate) fn put_byte(table: &OakTable, pass: &mut Pass, call: u32, byte: u8) -> (Said, u64)
    requires own { IsPassOf table.now pass.old }
    requires above { call_of pass.old < call }
    requires ready { IsReady (call_of pass.old) (state pass.old) }
    ensures own { IsPassOf table.now pass.new }
    ensures call { call_of pass.new ≡ call }
    ensures ready { IsReadyAgain call (state pass.old) (state pass.new) }
{
    turn(pass, call);
    said(try_put(table, pass, NO_HINT, b"k", &[byte]))
}

/// Removes k, as the call.
pub(crate) fn remove_k(table: &OakTable, pass: &mut Pass, call: u32) -> (Said, u64)
    requires own { IsPassOf table.now pass.old }
    requires above { call_of pass.old < call }
    requires ready { IsReady (call_of pass.old) (state pass.old) }
    ensures own { IsPassOf table.now pass.new }
    ensures call { call_of pass.new ≡ call }
    ensures ready { IsReadyAgain call (state pass.old) (state pass.new) }
{
    turn(pass, call);
    said(try_remove(table, pass, NO_HINT, b"k"))
}

/// The view of k, as the call.
pub(crate) fn view_of_k(rt: &impl Abort, table: &OakTable, pass: &mut Pass, call: u32) -> ValueView
    requires own { IsPassOf table.now pass.old }
    requires above { call_of pass.old < call }
    requires ready { IsReady (call_of pass.old) (state pass.old) }
    ensures own { IsPassOf table.now pass.new }
    ensures call { call_of pass.new ≡ call }
    ensures ready { IsReadyAgain call (state pass.old) (state pass.new) }
    ensures has { HasView (sizes table.now) result (state pass.new) }
{
    turn(pass, call);
    let Ok(Got::View(view)) = try_get(table, pass, NO_HINT, b"k") else {
        panic!(rt; "no value of k");
    };
    view
}

/// The view shows what is put over its value, and is gone with it, whatever is put then. Calls 3 to 5.
fn follow(rt: &impl Abort, table: &OakTable, pass: &mut Pass, view: &ValueView)
    requires own { IsPassOf table.now pass.old }
    requires call { call_of pass.old ≡ 2 }
    requires ready { IsReady 2 (state pass.old) }
    requires has { HasView (sizes table.now) view.now (state pass.old) }
    ensures own { IsPassOf table.now pass.new }
    ensures ready { IsReadyAgain 5 (state pass.old) (state pass.new) }
{
    let first = shows(rt, table, pass, view, &[1]);
    number_is(rt, "the first stamp", first, 1);
    let over = put_byte(table, pass, 3, 2);
    is_said(rt, 3, over, Said::Over, 2);
    let second = shows(rt, table, pass, view, &[2]);
    number_is(rt, "the second stamp", second, 2);
    let removed = remove_k(table, pass, 4);
    is_said(rt, 4, removed, Said::Removed, 3);
    is_gone(rt, table, pass, view);
    let new = put_byte(table, pass, 5, 3);
    is_said(rt, 5, new, Said::New, 4);
    is_gone(rt, table, pass, view);
}

/// A value is put, viewed, put over, removed and put again.
fn a_life_and_the_next(rt: &impl Abort, table: &OakTable, pass: &mut Pass)
    requires own { IsPassOf table.now pass.old }
    requires call { call_of pass.old ≡ 0 }
    requires ready { IsReady 0 (state pass.old) }
    ensures own { IsPassOf table.now pass.new }
    ensures ready { IsReadyAgain 5 (state pass.old) (state pass.new) }
{
    let new = put_byte(table, pass, 1, 1);
    is_said(rt, 1, new, Said::New, 1);
    let view = view_of_k(rt, table, pass, 2);
    number_is(rt, "the stamp of the view", view.at(), 1);
    follow(rt, table, pass, &view);
}

#[test]
fn a_view_is_of_one_life(rt: HostRuntime) -> Result<(), Fail> {
    let shape = Shape::make(1, 1, 4, 2, [4, 0, 0, 0])?;
    let (table, mut pass) = OakTable::create(rt.alloc(), &shape)?;
    a_life_and_the_next(&rt, &table, &mut pass);
    let usage = table.close(pass).usage();
    number_is(&rt, "blocks", u64::from(usage.blocks[0]), 2);
    Ok(())
}

/// The value was computed.
fn is_done(rt: &impl Abort, wrote: Wrote) {
    assert!(rt; matches!(wrote, Wrote::Done { at: _ }));
}

/// Another pass was at work on it.
fn is_busy(rt: &impl Abort, why: Halt) {
    assert!(rt; why == Halt::Busy);
}

/// Computes the value of k, as often as another pass is at work on it.
fn flip(rt: &impl Abort, table: &OakTable, pass: &mut Pass, recipe: &mut Box<dyn Recipe + Send>)
    requires own { IsPassOf table.now pass.old }
    requires ready { IsReady (call_of pass.old) (state pass.old) }
    requires turn { IsNewCall (call_of pass.old) (state pass.old) }
    requires few { calls recipe.old < 2 ^ 64 - 1 }
    ensures own { StaysButScratch pass.old pass.new }
    ensures ready { IsReadyAgain (call_of pass.old) (state pass.old) (state pass.new) }
    ensures few { calls recipe.new ≤ calls recipe.old + 1 }
{
    for _ in 0..10_000_000 {
        match try_compute(table, pass, NO_HINT, b"k", recipe) {
            Ok(wrote) => {
                is_done(rt, wrote);
                return;
            }
            Err(why) => is_busy(rt, why),
        }
    }
    panic!(rt; "busy");
}

/// Computes it so many times, each by a call of its own. The recipe was not called before.
fn flips(
    rt: &impl Abort,
    table: &OakTable,
    pass: &mut Pass,
    recipe: &mut Box<dyn Recipe + Send>,
    times: u32,
)
    requires own { IsPassOf table.now pass.old }
    requires first { call_of pass.old ≡ 1 }
    requires ready { IsReady 1 (state pass.old) }
    requires few { times < 1000 }
    ensures own { IsPassOf table.now pass.new }
    ensures call { call_of pass.new ≡ times + 1 }
    ensures ready { IsReadyAgain (times + 1) (state pass.old) (state pass.new) }
{
    assert_eq!(rt; recipe.calls(), 0);
    for i in 0..times {
        turn(pass, i + 2);
        flip(rt, table, pass, recipe);
    }
}

/// Two threads compute the value of k, the one 301 times and the other 300 times.
fn flip_together<R: Threads + Abort + Sync>(
    rt: &R,
    table: &OakTable,
    a: &mut Pass,
    b: &mut Pass,
    ones: &mut Box<dyn Recipe + Send>,
    twos: &mut Box<dyn Recipe + Send>,
)
    requires own { IsPassOf table.now a.old × IsPassOf table.now b.old }
    requires first { (call_of a.old ≡ 1) × (call_of b.old ≡ 1) }
    requires ready { IsReady 1 (state a.old) × IsReady 1 (state b.old) }
    ensures own { IsPassOf table.now a.new × IsPassOf table.now b.new }
    ensures call { call_of a.new ≡ 302 }
    ensures ready { IsReadyAgain 302 (state a.old) (state a.new) × IsReadyAgain 301 (state b.old) (state b.new) }
{
    join_mut(
        rt,
        &mut ||
            requires own { IsPassOf table.now a.now }
            requires first { call_of a.now ≡ 1 }
            requires ready { IsReady 1 (state a.now) }
            ensures own { IsPassOf table.entry.now a.exit.now }
            ensures call { call_of a.exit.now ≡ 302 }
            ensures ready { IsReadyAgain 302 (state a.entry.now) (state a.exit.now) }
        {
            flips(rt, table, a, ones, 301);
        },
        &mut ||
            requires own { IsPassOf table.now b.now }
            requires first { call_of b.now ≡ 1 }
            requires ready { IsReady 1 (state b.now) }
            ensures own { IsPassOf table.entry.now b.exit.now }
            ensures call { call_of b.exit.now ≡ 301 }
            ensures ready { IsReadyAgain 301 (state b.entry.now) (state b.exit.now) }
        {
            flips(rt, table, b, twos, 300);
        },
    );
}

/// A pass is split off for them, and joined again.
fn split_and_flip<R: Threads + Abort + Sync>(
    rt: &R,
    alloc: Global,
    table: &OakTable,
    pass: &mut Pass,
    ones: &mut Box<dyn Recipe + Send>,
    twos: &mut Box<dyn Recipe + Send>,
)
    requires own { IsPassOf table.now pass.old }
    requires first { call_of pass.old ≡ 1 }
    requires ready { IsReady 1 (state pass.old) }
    requires alone { IsAlone (state pass.old) }
    ensures own { IsPassOf table.now pass.new }
    ensures call { call_of pass.new ≡ 302 }
    ensures ready { IsReady 302 (state pass.new) }
    ensures alone { IsAlone (state pass.new) }
{
    let Ok(mut other) = pass.split(alloc, table) else {
        panic!(rt; "no other pass");
    };
    other.turn(1);
    flip_together(rt, table, pass, &mut other, ones, twos);
    pass.join(table, other);
}

/// The value of k is this byte, at the stamp.
fn ends_as(rt: &impl Abort, table: &OakTable, pass: &mut Pass, at: u64, byte: u8)
    requires own { IsPassOf table.now pass.old }
    requires ready { IsReady (call_of pass.old) (state pass.old) }
    ensures own { Stays pass.old pass.new }
    ensures numbers { (state pass.new).numbers ≡ (state pass.old).numbers }
    ensures idle { HoldsNothing (state pass.new) }
{
    let found = gets(rt, table, pass, b"k", &[byte]);
    is_said(rt, 0, found, Said::Holds, at);
}

/// Two threads compute the value of k on a new table, and it is as both leave it.
fn compute_one_value<R: Threads + Abort + Sync>(
    rt: &R,
    alloc: Global,
    ones: &mut Box<dyn Recipe + Send>,
    twos: &mut Box<dyn Recipe + Send>,
) -> Result<(), Fail> {
    let shape = Shape::make(2, 1, 4, 1, [2, 0, 0, 0])?;
    let (table, mut pass) = OakTable::create(alloc, &shape)?;
    let new = put_byte(&table, &mut pass, 1, 0);
    split_and_flip(rt, alloc, &table, &mut pass, ones, twos);
    ends_as(rt, &table, &mut pass, 602, 1);
    table.close(pass);
    is_said(rt, 1, new, Said::New, 1);
    Ok(())
}

/// A recipe that was told this argument of `Xor`, and was not called.
fn xor_recipe(alloc: Global, argument: u8) -> Result<Box<dyn Recipe + Send>, Fail> {
    let mut recipe: Box<dyn Recipe + Send> = Box::new(alloc, StepRecipe::make())?;
    recipe.tell(RecipeKind::Xor, u64::from(argument));
    Ok(recipe)
}

#[test]
fn two_threads_compute_one_value(rt: HostRuntime) -> Result<(), Fail> {
    let mut ones = xor_recipe(rt.alloc(), 1)?;
    let mut twos = xor_recipe(rt.alloc(), 2)?;
    compute_one_value(&rt, rt.alloc(), &mut ones, &mut twos)
}
