//! A small map is rebalanced by one pass.
ghost use Rattle.std.specs.Prelude.{◌≡◌, ◌<◌, ◌^◌, length};
ghost use Rattle.oak_model.specs.Key.{IsKey};
ghost use Rattle.oak_core.specs.MayWrite.{IsNewCall};
ghost use Rattle.oak_core.specs.Passes.{IsPassOf, state, call_of};
ghost use Rattle.point_ops.specs.TestStates.{IsReady, IsReadyAgain};

use crate::calls::turn;
use crate::found::is_used;
use crate::rebalancing::test_calls::{Ask, Said, get, is_due, put, rebalance, remove};
use oak_core::{OakTable, Pass};
use oak_model::{Shape, Usage};
use point_ops::Halt;
use std::alloc::Global;
use std::process::Abort;
use std::sync::Wait;
use std::test::Fail;

/// What is asked of the key of one byte, and the answer.
type Row = (Ask, u8, Said);

/// Asks it of the key. Each value is the one byte 0.
fn ask_of<R: Abort + Wait>(rt: &R, table: &OakTable, pass: &mut Pass, ask: Ask, key: &[u8]) -> Said
    requires own { IsPassOf table.now pass.old }
    requires key { IsKey key.now }
    requires ready { IsReady (call_of pass.old) (state pass.old) }
    requires turn { IsNewCall (call_of pass.old) (state pass.old) }
    ensures own { IsPassOf table.now pass.new }
    ensures call { call_of pass.new ≡ call_of pass.old }
    ensures ready { IsReadyAgain (call_of pass.old) (state pass.old) (state pass.new) }
{
    match ask {
        Ask::Get => get(rt, table, pass, key, &[0]),
        Ask::Put => put(table, pass, key, &[0]),
        Ask::Remove => remove(table, pass, key),
        ask => rebalance(rt, table, pass, ask, key),
    }
}

/// The call has the row's answer.
fn has_answer<R: Abort + Wait>(rt: &R, table: &OakTable, pass: &mut Pass, call: u32, row: Row)
    requires own { IsPassOf table.now pass.old }
    requires above { call_of pass.old < call }
    requires ready { IsReady (call_of pass.old) (state pass.old) }
    ensures own { IsPassOf table.now pass.new }
    ensures call { call_of pass.new ≡ call }
    ensures ready { IsReadyAgain call (state pass.old) (state pass.new) }
{
    turn(pass, call);
    let (ask, letter, answer) = row;
    let said = ask_of(rt, table, pass, ask, &[letter]);
    is_due(rt, call, said, answer);
}

/// Each row has its answer, one call behind another.
fn have_answers<R: Abort + Wait>(rt: &R, table: &OakTable, pass: &mut Pass, rows: &[Row])
    requires own { IsPassOf table.now pass.old }
    requires first { call_of pass.old ≡ 0 }
    requires ready { IsReady 0 (state pass.old) }
    requires few { length rows.now < 2 ^ 32 }
    ensures own { IsPassOf table.now pass.new }
    ensures ready { IsReadyAgain (length rows.now) (state pass.old) (state pass.new) }
{
    for i in 0..rows.len() {
        has_answer(rt, table, pass, i as u32 + 1, rows[i]);
    }
}

/// The rows have their answers on a table of this shape, which is used so then.
fn run_rows<R: Abort + Wait>(
    rt: &R,
    alloc: Global,
    shape: &Shape,
    rows: &[Row],
    used: Usage,
) -> Result<(), Fail>
    requires few { length rows.now < 2 ^ 32 }
{
    let (table, mut pass) = OakTable::create(alloc, shape)?;
    have_answers(rt, &table, &mut pass, rows);
    let usage = table.close(pass).usage();
    is_used(rt, usage, used);
    Ok(())
}

/// Asked of a map of two chunks.
const TWO_CHUNKS: [Row; 17] = [
    (Ask::Put, 0x61, Said::New(1)),
    (Ask::Put, 0x62, Said::New(1)),
    (Ask::Put, 0x63, Said::New(1)),
    (Ask::Put, 0x64, Said::New(1)),
    (Ask::Put, 0x65, Said::Halted(Halt::Crowded)),
    (Ask::Split, 0x64, Said::Halved(1)),
    (Ask::Put, 0x65, Said::New(1)),
    (Ask::Merge, 0x61, Said::Apart),
    (Ask::Remove, 0x61, Said::Removed(2)),
    (Ask::Compact, 0x61, Said::Dropped(1)),
    (Ask::Remove, 0x64, Said::Removed(2)),
    (Ask::Remove, 0x65, Said::Removed(2)),
    (Ask::Compact, 0x63, Said::Dropped(2)),
    (Ask::Merge, 0x61, Said::Joined),
    (Ask::Merge, 0x61, Said::Apart),
    (Ask::Put, 0x64, Said::New(3)),
    (Ask::Put, 0x60, Said::New(3)),
];

#[test]
fn a_chunk_is_split_merged_and_compacted(rt: HostRuntime) -> Result<(), Fail> {
    let shape = Shape::make(1, 2, 4, 16, [32, 0, 0, 0])?;
    let used = Usage {
        blocks: [8, 0, 0, 0],
        headers: 4,
        chunks: 1,
    };
    run_rows(&rt, rt.alloc(), &shape, &TWO_CHUNKS, used)
}

/// Asked of a map of one chunk.
const ONE_CHUNK: [Row; 11] = [
    (Ask::Put, 0x61, Said::New(1)),
    (Ask::Put, 0x62, Said::New(1)),
    (Ask::Put, 0x63, Said::New(1)),
    (Ask::Put, 0x64, Said::New(1)),
    (Ask::Split, 0x61, Said::NoRoom),
    (Ask::Remove, 0x62, Said::Removed(2)),
    (Ask::Split, 0x61, Said::Loosened),
    (Ask::Get, 0x61, Said::Holds(1)),
    (Ask::Get, 0x62, Said::Absent(2)),
    (Ask::Get, 0x63, Said::Holds(1)),
    (Ask::Get, 0x64, Said::Holds(1)),
];

#[test]
fn a_full_chunk_without_a_room(rt: HostRuntime) -> Result<(), Fail> {
    let shape = Shape::make(1, 1, 4, 16, [32, 0, 0, 0])?;
    let used = Usage {
        blocks: [6, 0, 0, 0],
        headers: 3,
        chunks: 1,
    };
    run_rows(&rt, rt.alloc(), &shape, &ONE_CHUNK, used)
}
