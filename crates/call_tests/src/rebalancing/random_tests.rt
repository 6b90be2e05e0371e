//! Random calls are answered as by a plain ordered map.
ghost use Rattle.std.specs.Prelude.{◌≡◌, ◌<◌, length};
ghost use Rattle.oak_model.specs.Key.{IsKey};
ghost use Rattle.oak_model.specs.Value.{IsValue};
ghost use Rattle.oak_core.specs.MayWrite.{IsNewCall};
ghost use Rattle.oak_core.specs.Passes.{IsPassOf, Stays, state, call_of};
ghost use Rattle.oak_core.specs.Scratch.{StaysButSlots};
ghost use Rattle.point_ops.specs.TestStates.{IsReady, IsReadyAgain};
ghost use Rattle.call_tests.specs.declared.rebalancing.random_tests.TheConstants.{KEYS};

use crate::calls::turn;
use crate::rebalancing::test_calls::{Ask, Said, put, rebalance, remove};
use crate::rebalancing::test_maps::{
    Plain, agrees, all_agree, ends_as, make_keys, note_put, note_removal,
};
use oak_core::{OakTable, Pass};
use oak_model::{Key, OutOfMemory, Shape};
use point_ops::Halt;
use std::alloc::Global;
use std::collections::BTreeMap;
use std::process::Abort;
use std::sync::Wait;
use std::test::Fail;

/// How many keys there are.
const KEYS: u8 = 24;

/// A run of random calls: what the table should hold, the last random number, and how many puts found
/// their chunk crowded, were refused for that in the end, and lacked a block or a header.
#[derive(Drop)]
struct Trial {
    map: Plain,
    last: u32,
    crowded: u32,
    refused: u32,
    lacking: u32,
}

impl Trial {
    /// A random number below `sides`.
    fn roll(&mut self, sides: u32) -> u32
        requires { 0 < sides }
        ensures { result < sides }
    {
        self.last = (self.last % 65_536 * 25_173 + 13_849) % 65_536;
        self.last / 64 % sides
    }

    /// Counts a refusal.
    fn count(&mut self, rt: &impl Abort, halt: Halt) {
        match halt {
            Halt::Crowded => self.refused = self.refused.wrapping_add(1),
            Halt::NoBlock(_) => self.lacking = self.lacking.wrapping_add(1),
            Halt::NoHeader => self.lacking = self.lacking.wrapping_add(1),
            halt => panic!(rt; "{halt}"),
        }
    }
}

/// A put behind a split is refused since the chunk is crowded just where there was no room for the split.
fn is_crowded(rt: &impl Abort, split: Said, said: Said) {
    let crowded = matches!(said, Said::Halted(Halt::Crowded));
    assert!(rt; crowded == matches!(split, Said::NoRoom));
}

/// Splits the chunk of the key, and puts the bytes once more, which is refused since the chunk is crowded just where no room was
/// free.
fn split_and_put<R: Abort + Wait>(
    rt: &R,
    table: &OakTable,
    pass: &mut Pass,
    key: &[u8],
    bytes: &[u8],
) -> Said
    requires own { IsPassOf table.now pass.old }
    requires key { IsKey key.now }
    requires value { IsValue bytes.now }
    requires ready { IsReady (call_of pass.old) (state pass.old) }
    requires turn { IsNewCall (call_of pass.old) (state pass.old) }
    ensures own { StaysButSlots pass.old pass.new }
    ensures ready { IsReadyAgain (call_of pass.old) (state pass.old) (state pass.new) }
{
    let split = rebalance(rt, table, pass, Ask::Split, key);
    let said = put(table, pass, key, bytes);
    is_crowded(rt, split, said);
    said
}

/// Puts the bytes, once more where the chunk of the key is crowded.
fn put_or_split<R: Abort + Wait>(
    rt: &R,
    table: &OakTable,
    pass: &mut Pass,
    trial: &mut Trial,
    key: &[u8],
    bytes: &[u8],
) -> Said
    requires own { IsPassOf table.now pass.old }
    requires key { IsKey key.now }
    requires value { IsValue bytes.now }
    requires ready { IsReady (call_of pass.old) (state pass.old) }
    requires turn { IsNewCall (call_of pass.old) (state pass.old) }
    ensures own { StaysButSlots pass.old pass.new }
    ensures ready { IsReadyAgain (call_of pass.old) (state pass.old) (state pass.new) }
{
    match put(table, pass, key, bytes) {
        Said::Halted(Halt::Crowded) => {
            trial.crowded = trial.crowded.wrapping_add(1);
            split_and_put(rt, table, pass, key, bytes)
        }
        said => said,
    }
}

/// Puts 1 to 20 bytes, as the pass's present call.
fn put_any<R: Abort + Wait>(
    rt: &R,
    alloc: Global,
    table: &OakTable,
    pass: &mut Pass,
    trial: &mut Trial,
    key: &Key,
) -> Result<(), OutOfMemory>
    requires own { IsPassOf table.now pass.old }
    requires ready { IsReady (call_of pass.old) (state pass.old) }
    requires turn { IsNewCall (call_of pass.old) (state pass.old) }
    ensures own { StaysButSlots pass.old pass.new }
    ensures ready { IsReadyAgain (call_of pass.old) (state pass.old) (state pass.new) }
{
    let bytes = [trial.roll(256) as u8; 20];
    let bytes = &bytes[..1 + trial.roll(20) as usize];
    let said = put_or_split(rt, table, pass, trial, key.bytes(), bytes);
    if let Said::Halted(halt) = said {
        trial.count(rt, halt);
    }
    note_put(rt, alloc, &mut trial.map, key, bytes, said)
}

/// Removes the key, as the pass's present call.
fn remove_any(rt: &impl Abort, table: &OakTable, pass: &mut Pass, trial: &mut Trial, key: &Key)
    requires own { IsPassOf table.now pass.old }
    requires ready { IsReady (call_of pass.old) (state pass.old) }
    requires turn { IsNewCall (call_of pass.old) (state pass.old) }
    ensures own { Stays pass.old pass.new }
    ensures ready { IsReadyAgain (call_of pass.old) (state pass.old) (state pass.new) }
{
    let said = remove(table, pass, key.bytes());
    note_removal(rt, &mut trial.map, key, said);
}

/// Makes chunks anew. Where all are, all keys are got.
fn rebalance_any<R: Abort + Wait>(
    rt: &R,
    table: &OakTable,
    pass: &mut Pass,
    trial: &mut Trial,
    keys: &[Key],
    key: &Key,
)
    requires own { IsPassOf table.now pass.old }
    requires ready { IsReady (call_of pass.old) (state pass.old) }
    ensures own { StaysButSlots pass.old pass.new }
    ensures ready { IsReadyAgain (call_of pass.old) (state pass.old) (state pass.new) }
{
    let ask = match trial.roll(4) {
        0 => Ask::Compact,
        1 => Ask::Split,
        2 => Ask::Merge,
        _ => Ask::Settle,
    };
    rebalance(rt, table, pass, ask, key.bytes());
    if let Ask::Settle = ask {
        all_agree(rt, table, pass, &trial.map, keys);
    }
}

/// The random call of this number, which is answered as the map says.
fn call_any<R: Abort + Wait>(
    rt: &R,
    alloc: Global,
    table: &OakTable,
    pass: &mut Pass,
    trial: &mut Trial,
    keys: &[Key],
    number: u32,
) -> Result<(), OutOfMemory>
    requires own { IsPassOf table.now pass.old }
    requires above { call_of pass.old < number }
    requires ready { IsReady (call_of pass.old) (state pass.old) }
    requires all { length keys.now ≡ KEYS }
    ensures own { IsPassOf table.now pass.new }
    ensures call { call_of pass.new ≡ number }
    ensures ready { IsReadyAgain number (state pass.old) (state pass.new) }
{
    turn(pass, number);
    let key = &keys[trial.roll(u32::from(KEYS)) as usize];
    match trial.roll(12) {
        0..=5 => put_any(rt, alloc, table, pass, trial, key)?,
        6..=7 => remove_any(rt, table, pass, trial, key),
        8..=9 => agrees(rt, table, pass, &trial.map, key),
        _ => rebalance_any(rt, table, pass, trial, keys, key),
    }
    Ok(())
}

/// So many random calls.
fn call_all<R: Abort + Wait>(
    rt: &R,
    alloc: Global,
    table: &OakTable,
    pass: &mut Pass,
    trial: &mut Trial,
    keys: &[Key],
    times: u32,
) -> Result<(), OutOfMemory>
    requires own { IsPassOf table.now pass.old }
    requires first { call_of pass.old ≡ 0 }
    requires ready { IsReady 0 (state pass.old) }
    requires all { length keys.now ≡ KEYS }
    ensures own { IsPassOf table.now pass.new }
    ensures ready { IsReadyAgain (call_of pass.new) (state pass.old) (state pass.new) }
{
    for i in 0..times {
        call_any(rt, alloc, table, pass, trial, keys, i + 1)?;
    }
    Ok(())
}

/// So many random calls on a table of this shape, which then holds what the map has, with so much in use.
fn run_calls<R: Abort + Wait>(
    rt: &R,
    alloc: Global,
    shape: &Shape,
    seed: u32,
    times: u32,
) -> Result<Trial, Fail> {
    let keys = make_keys(alloc, KEYS)?;
    let mut trial = Trial {
        map: BTreeMap::new(alloc),
        last: seed,
        crowded: 0,
        refused: 0,
        lacking: 0,
    };
    let (table, mut pass) = OakTable::create(alloc, shape)?;
    let called = call_all(rt, alloc, &table, &mut pass, &mut trial, &keys, times);
    ends_as(rt, table, pass, &trial.map, &keys);
    called?;
    Ok(trial)
}

/// How many random calls the runs make. Usage can be read off a closed table alone, so each run is made anew up to several
/// settles.
const TIMES: [u32; 4] = [60, 90, 120, 200];

/// A shape's chunks, and the entries of each.
const SHAPES: [(u32, u32); 7] = [(1, 4), (2, 4), (2, 8), (3, 5), (4, 4), (4, 6), (4, 8)];

/// The run of so many calls on such a shape lacked no block and no header.
fn lacks_none(rt: &impl Abort, lacking: u32, chunks: u32, entries: u32, times: u32) {
    assert!(rt; lacking == 0, "{chunks} {entries} {times}");
}

/// The runs on such a shape lack no block and no header: how many puts found their chunk crowded, and were refused for that.
fn crowd<R: Abort + Wait>(
    rt: &R,
    alloc: Global,
    chunks: u32,
    entries: u32,
) -> Result<(u32, u32), Fail> {
    let shape = Shape::make(1, chunks, entries, 32, [64, 32, 0, 0])?;
    let mut crowded = 0u32;
    let mut refused = 0u32;
    for times in &TIMES {
        let trial = run_calls(rt, alloc, &shape, entries, *times)?;
        lacks_none(rt, trial.lacking, chunks, entries, *times);
        crowded = crowded.wrapping_add(trial.crowded);
        refused = refused.wrapping_add(trial.refused);
    }
    Ok((crowded, refused))
}

/// Some puts were refused, and some were not for which a chunk was split.
fn some_were_refused(rt: &impl Abort, crowded: u32, refused: u32) {
    assert!(rt; 0 < refused, "{refused} refused");
    assert!(rt; refused < crowded, "{crowded} crowded");
}

#[test]
fn random_calls_agree_with_an_ordered_map(rt: HostRuntime) -> Result<(), Fail> {
    let mut crowded = 0u32;
    let mut refused = 0u32;
    for (chunks, entries) in &SHAPES {
        let counts = crowd(&rt, rt.alloc(), *chunks, *entries)?;
        crowded = crowded.wrapping_add(counts.0);
        refused = refused.wrapping_add(counts.1);
    }
    some_were_refused(&rt, crowded, refused);
    Ok(())
}

/// A shape's headers, and its blocks of two classes: few of the one or of the other.
const FEW: [(u32, u32, u32); 4] = [(5, 64, 32), (32, 12, 32), (32, 64, 2), (8, 16, 4)];

/// The run of so many calls on such a shape lacked one.
fn lacks_some(rt: &impl Abort, lacking: u32, headers: u32, small: u32, large: u32, times: u32) {
    assert!(rt; 0 < lacking, "{headers} {small} {large} {times}");
}

/// Each run on such a shape lacks a block or a header.
fn lack<R: Abort + Wait>(
    rt: &R,
    alloc: Global,
    headers: u32,
    small: u32,
    large: u32,
) -> Result<(), Fail> {
    let shape = Shape::make(1, 4, 8, headers, [small, large, 0, 0])?;
    for times in &TIMES {
        let trial = run_calls(rt, alloc, &shape, 7, *times)?;
        lacks_some(rt, trial.lacking, headers, small, large, *times);
    }
    Ok(())
}

#[test]
fn random_calls_with_few_blocks_or_headers(rt: HostRuntime) -> Result<(), Fail> {
    for (headers, small, large) in &FEW {
        lack(&rt, rt.alloc(), *headers, *small, *large)?;
    }
    Ok(())
}
