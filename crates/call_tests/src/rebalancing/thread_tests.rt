//! A thread writes while another makes the chunks anew.
ghost use Rattle.std.specs.Prelude.{◌≡◌, ◌<◌, IfSome, length};
ghost use Rattle.oak_model.specs.Key.{IsKey};
ghost use Rattle.oak_model.specs.Value.{IsValue};
ghost use Rattle.oak_core.specs.MayWrite.{IsNewCall};
ghost use Rattle.oak_core.specs.Passes.{IsPassOf, Stays, state, call_of};
ghost use Rattle.oak_core.specs.PassState.{IsAlone};
ghost use Rattle.oak_core.specs.Scratch.{StaysButSlots};
ghost use Rattle.point_ops.specs.TestStates.{IsReady, IsReadyAgain};
ghost use Rattle.point_ops.specs.declared.halts.Halt.{Halt};

use crate::calls::turn;
use crate::rebalancing::test_calls::{Ask, Said, put, rebalance, remove};
use crate::rebalancing::test_maps::{Plain, ends_as, make_keys, note_put, note_removal};
use oak_core::{OakTable, Pass};
use oak_model::{Key, OutOfMemory, Shape};
use point_ops::Halt;
use std::alloc::Global;
use std::collections::BTreeMap;
use std::process::Abort;
use std::sync::Wait;
use std::test::Fail;
use std::thread::{self, Threads, join_mut};

/// How many keys there are: so few that behind a settle a room is free, or none is full.
const KEYS: u8 = 12;

/// How many writes the one thread makes.
const WRITES: u32 = 600;

/// How many calls the other thread makes.
const REBALANCES: u32 = 300;

/// Splits the chunk of the key. Where no room is free for that, all chunks are settled.
fn make_place<R: Wait>(rt: &R, table: &OakTable, pass: &mut Pass, key: &[u8])
    requires own { IsPassOf table.now pass.old }
    requires key { IsKey key.now }
    requires ready { IsReady (call_of pass.old) (state pass.old) }
    ensures own { StaysButSlots pass.old pass.new }
    ensures ready { IsReadyAgain (call_of pass.old) (state pass.old) (state pass.new) }
    ensures knows { (state pass.new).knowledge ≡ (state pass.old).knowledge }
{
    if let Said::NoRoom = rebalance(rt, table, pass, Ask::Split, key) {
        rebalance(rt, table, pass, Ask::Settle, key);
    }
}

/// Puts the bytes, or removes the key where there are none.
fn try_write(table: &OakTable, pass: &mut Pass, key: &[u8], bytes: Option<&[u8]>) -> Said
    requires own { IsPassOf table.now pass.old }
    requires key { IsKey key.now }
    requires value { IfSome bytes (λ b. IsValue b.now) }
    requires ready { IsReady (call_of pass.old) (state pass.old) }
    requires turn { IsNewCall (call_of pass.old) (state pass.old) }
    ensures own { Stays pass.old pass.new }
    ensures ready { IsReadyAgain (call_of pass.old) (state pass.old) (state pass.new) }
    ensures refused { (halt : Halt) → result ≡ Said.Halted halt → IsNewCall (call_of pass.old) (state pass.new) }
{
    match bytes {
        Some(bytes) => put(table, pass, key, bytes),
        None => remove(table, pass, key),
    }
}

/// Why the write was given up, where it may be tried again.
fn given_up(said: Said) -> Option<Halt>
    ensures { IfSome result (λ halt. said ≡ Said.Halted halt) }
{
    match said {
        Said::Halted(Halt::Crowded) => Some(Halt::Crowded),
        Said::Halted(Halt::Busy) => Some(Halt::Busy),
        Said::Halted(Halt::Moved) => Some(Halt::Moved),
        _ => None,
    }
}

/// Makes way for the next try: by a split where the chunk of the key was crowded.
fn make_way<R: Wait>(rt: &R, table: &OakTable, pass: &mut Pass, key: &[u8], halt: Halt)
    requires own { IsPassOf table.now pass.old }
    requires key { IsKey key.now }
    requires ready { IsReady (call_of pass.old) (state pass.old) }
    ensures own { StaysButSlots pass.old pass.new }
    ensures ready { IsReadyAgain (call_of pass.old) (state pass.old) (state pass.new) }
    ensures knows { (state pass.new).knowledge ≡ (state pass.old).knowledge }
{
    match halt {
        Halt::Crowded => make_place(rt, table, pass, key),
        _ => thread::yield_now(),
    }
}

/// Does that as often as it is given up.
fn write<R: Abort + Wait>(
    rt: &R,
    table: &OakTable,
    pass: &mut Pass,
    key: &[u8],
    bytes: Option<&[u8]>,
) -> Said
    requires own { IsPassOf table.now pass.old }
    requires key { IsKey key.now }
    requires value { IfSome bytes (λ b. IsValue b.now) }
    requires ready { IsReady (call_of pass.old) (state pass.old) }
    requires turn { IsNewCall (call_of pass.old) (state pass.old) }
    ensures own { StaysButSlots pass.old pass.new }
    ensures ready { IsReadyAgain (call_of pass.old) (state pass.old) (state pass.new) }
{
    for _ in rt.forever() {
        let said = try_write(table, pass, key, bytes);
        match given_up(said) {
            Some(halt) => make_way(rt, table, pass, key, halt),
            None => return said,
        }
    }
    unreachable!()
}

/// Whether the write of this number is a removal. All keys are put in each second round over them, and in
/// the others each third one is removed.
fn is_removal(number: u32) -> bool {
    let round = number / u32::from(KEYS);
    round % 2 == 1 && (number % 3 + round) % 3 == 0
}

/// The put was not refused.
fn is_answered(rt: &impl Abort, said: Said) {
    assert!(rt; !matches!(said, Said::Halted(_)), "{said:?}");
}

/// The write of this number, which is answered as the map says.
fn write_one<R: Abort + Wait>(
    rt: &R,
    alloc: Global,
    table: &OakTable,
    pass: &mut Pass,
    map: &mut Plain,
    key: &Key,
    number: u32,
) -> Result<(), OutOfMemory>
    requires own { IsPassOf table.now pass.old }
    requires above { call_of pass.old < number }
    requires ready { IsReady (call_of pass.old) (state pass.old) }
    ensures own { IsPassOf table.now pass.new }
    ensures call { call_of pass.new ≡ number }
    ensures ready { IsReadyAgain number (state pass.old) (state pass.new) }
{
    turn(pass, number);
    if is_removal(number) {
        let said = write(rt, table, pass, key.bytes(), None);
        note_removal(rt, map, key, said);
        return Ok(());
    }
    let bytes = [(number % 256) as u8; 20];
    let bytes = &bytes[..1 + number as usize % 20];
    let said = write(rt, table, pass, key.bytes(), Some(bytes));
    is_answered(rt, said);
    note_put(rt, alloc, map, key, bytes, said)
}

/// All writes, each by a call of its own.
fn write_all<R: Abort + Wait>(
    rt: &R,
    alloc: Global,
    table: &OakTable,
    pass: &mut Pass,
    map: &mut Plain,
    keys: &[Key],
) -> Result<(), OutOfMemory>
    requires own { IsPassOf table.now pass.old }
    requires first { call_of pass.old ≡ 0 }
    requires ready { IsReady 0 (state pass.old) }
    requires some { 0 < length keys.now }
    ensures own { IsPassOf table.now pass.new }
    ensures ready { IsReadyAgain (call_of pass.new) (state pass.old) (state pass.new) }
{
    for i in 0..WRITES {
        let key = &keys[5 * i as usize % keys.len()];
        write_one(rt, alloc, table, pass, map, key, i + 1)?;
    }
    Ok(())
}

/// Splits, compacts and merges the chunks of the keys in turn, and settles all of them.
fn rebalance_all<R: Wait>(rt: &R, table: &OakTable, pass: &mut Pass, keys: &[Key])
    requires own { IsPassOf table.now pass.old }
    requires ready { IsReady (call_of pass.old) (state pass.old) }
    requires some { 0 < length keys.now }
    ensures own { StaysButSlots pass.old pass.new }
    ensures ready { IsReadyAgain (call_of pass.old) (state pass.old) (state pass.new) }
{
    for i in 0..REBALANCES {
        let ask = match i % 4 {
            0 => Ask::Split,
            1 => Ask::Compact,
            2 => Ask::Merge,
            _ => Ask::Settle,
        };
        let key = &keys[i as usize / 4 % keys.len()];
        rebalance(rt, table, pass, ask, key.bytes());
        thread::yield_now();
    }
}

/// Both at once.
fn work_together<R: Threads + Abort + Wait + Sync>(
    rt: &R,
    alloc: Global,
    table: &OakTable,
    a: &mut Pass,
    b: &mut Pass,
    map: &mut Plain,
    keys: &[Key],
) -> Result<(), OutOfMemory>
    requires own { IsPassOf table.now a.old × IsPassOf table.now b.old }
    requires first { call_of a.old ≡ 0 }
    requires ready { IsReady 0 (state a.old) × IsReady (call_of b.old) (state b.old) }
    requires some { 0 < length keys.now }
    ensures own { IsPassOf table.now a.new × IsPassOf table.now b.new }
    ensures ready { IsReadyAgain (call_of a.new) (state a.old) (state a.new) × IsReadyAgain (call_of b.old) (state b.old) (state b.new) }
{
    let (wrote, ()) = join_mut(
        rt,
        &mut ||
            requires own { IsPassOf table.now a.now }
            requires first { call_of a.now ≡ 0 }
            requires ready { IsReady 0 (state a.now) }
            requires some { 0 < length keys.now }
            ensures own { IsPassOf table.entry.now a.exit.now }
            ensures ready { IsReadyAgain (call_of a.exit.now) (state a.entry.now) (state a.exit.now) }
        { write_all(rt, alloc, table, a, map, keys) },
        &mut ||
            requires own { IsPassOf table.now b.now }
            requires ready { IsReady (call_of b.now) (state b.now) }
            requires some { 0 < length keys.now }
            ensures own { IsPassOf table.entry.now b.exit.now }
            ensures ready { IsReadyAgain (call_of b.entry.now) (state b.entry.now) (state b.exit.now) }
        {
            rebalance_all(rt, table, b, keys);
        },
    );
    wrote
}

/// A pass is split off for that, and joined again.
fn split_and_work<R: Threads + Abort + Wait + Sync>(
    rt: &R,
    alloc: Global,
    table: &OakTable,
    pass: &mut Pass,
    map: &mut Plain,
    keys: &[Key],
) -> Result<(), OutOfMemory>
    requires own { IsPassOf table.now pass.old }
    requires first { call_of pass.old ≡ 0 }
    requires ready { IsReady 0 (state pass.old) }
    requires alone { IsAlone (state pass.old) }
    requires some { 0 < length keys.now }
    ensures own { IsPassOf table.now pass.new }
    ensures ready { IsReady (call_of pass.new) (state pass.new) }
    ensures alone { IsAlone (state pass.new) }
{
    let Ok(mut other) = pass.split(alloc, table) else {
        panic!(rt; "no other pass");
    };
    let wrote = work_together(rt, alloc, table, pass, &mut other, map, keys);
    pass.join(table, other);
    wrote
}

#[test]
fn one_thread_writes_while_another_rebalances(rt: HostRuntime) -> Result<(), Fail> {
    let keys = make_keys(rt.alloc(), KEYS)?;
    let mut map = BTreeMap::new(rt.alloc());
    let shape = Shape::make(2, 4, 8, 32, [128, 64, 0, 0])?;
    let (table, mut pass) = OakTable::create(rt.alloc(), &shape)?;
    let wrote = split_and_work(&rt, rt.alloc(), &table, &mut pass, &mut map, &keys);
    ends_as(&rt, table, pass, &map, &keys);
    wrote?;
    Ok(())
}
