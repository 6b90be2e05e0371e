//! A plain ordered map beside a table, and the keys of both.
ghost use Rattle.std.specs.Prelude.{◌≡◌, ◌≤◌, IfOk, length};
ghost use Rattle.oak_core.specs.Passes.{IsPassOf, Stays, state, call_of};
ghost use Rattle.oak_core.specs.PassState.{IsAlone};
ghost use Rattle.point_ops.specs.TestStates.{IsReady, IsReadyAgain};

use crate::found::number_is;
use crate::rebalancing::test_calls::{Said, get};
use oak_core::{OakTable, Pass};
use oak_model::{CLASSES, Key, OutOfMemory, Usage, Value, class_of};
use rebalance::settle;
use std::alloc::Global;
use std::collections::BTreeMap;
use std::process::Abort;
use std::sync::Wait;

/// What a table should hold.
pub(crate) type Plain = BTreeMap<Key, Value>;

/// So many keys, three to a letter: of one byte, of two and of three.
pub(crate) fn make_keys(alloc: Global, count: u8) -> Result<Vec<Key>, OutOfMemory>
    requires few { count ≤ 24 }
    ensures { IfOk result (λ keys. length keys.items ≡ count) }
{
    let mut keys = Vec::new(alloc);
    for number in 0..count {
        let bytes = [b'a' + number / 3, number % 2, 0];
        let length = 1 + number as usize % 3;
        keys.push(Key::make(alloc, &bytes[..length])?)?;
    }
    Ok(keys)
}

/// A put is answered so where the key had a value, or had none.
fn is_put(rt: &impl Abort, said: Said, had: bool) {
    let right = match said {
        Said::New(_) => !had,
        Said::Over(_) => had,
        _ => false,
    };
    assert!(rt; right, "{said:?}");
}

/// A put of the bytes is answered as the map says, and the map has them then; where the put is refused, the
/// map stays.
pub(crate) fn note_put(
    rt: &impl Abort,
    alloc: Global,
    map: &mut Plain,
    key: &Key,
    bytes: &[u8],
    said: Said,
) -> Result<(), OutOfMemory>
    requires value { length bytes.now ≤ 1024 }
{
    if let Said::Halted(_) = said {
        return Ok(());
    }
    let old = map.insert(key.copy(alloc)?, Value::make(alloc, bytes)?)?;
    is_put(rt, said, old.is_some());
    Ok(())
}

/// A removal is answered as the map says, and the map has the key no more.
pub(crate) fn note_removal(rt: &impl Abort, map: &mut Plain, key: &Key, said: Said) {
    let had = map.remove(key).is_some();
    let right = match said {
        Said::Removed(_) => had,
        Said::Absent(_) => !had,
        _ => false,
    };
    assert!(rt; right, "{said:?}");
}

/// A get is answered so where the key has a value, or has none.
fn is_got(rt: &impl Abort, said: Said, has: bool) {
    let right = match said {
        Said::Holds(_) => has,
        Said::Absent(_) => !has,
        _ => false,
    };
    assert!(rt; right, "{said:?}");
}

/// A get of the key gives what the map has.
pub(crate) fn agrees(rt: &impl Abort, table: &OakTable, pass: &mut Pass, map: &Plain, key: &Key)
    requires own { IsPassOf table.now pass.old }
    requires ready { IsReady (call_of pass.old) (state pass.old) }
    ensures own { Stays pass.old pass.new }
    ensures ready { IsReadyAgain (call_of pass.old) (state pass.old) (state pass.new) }
{
    match map.get(key) {
        Some(value) => {
            let said = get(rt, table, pass, key.bytes(), value.bytes());
            is_got(rt, said, true);
        }
        None => {
            let said = get(rt, table, pass, key.bytes(), &[]);
            is_got(rt, said, false);
        }
    }
}

/// So do gets of all of them.
pub(crate) fn all_agree(
    rt: &impl Abort,
    table: &OakTable,
    pass: &mut Pass,
    map: &Plain,
    keys: &[Key],
)
    requires own { IsPassOf table.now pass.old }
    requires ready { IsReady (call_of pass.old) (state pass.old) }
    ensures own { Stays pass.old pass.new }
    ensures ready { IsReadyAgain (call_of pass.old) (state pass.old) (state pass.new) }
{
    for key in keys {
        agrees(rt, table, pass, map, key);
    }
}

/// Counts a block that has so many bytes in it.
fn count_block(blocks: &mut [u32; CLASSES], len: usize) {
    if let Some(class) = class_of(len) {
        let class = class.number();
        blocks[class] = blocks[class].wrapping_add(1);
    }
}

/// The blocks of each class that hold the keys and the values of the map.
fn blocks_of(map: &Plain) -> [u32; CLASSES] {
    let mut blocks = [0; CLASSES];
    for (key, value) in map.iter() {
        count_block(&mut blocks, key.bytes().len());
        count_block(&mut blocks, value.bytes().len());
    }
    blocks
}

/// What was used is what the map needs.
fn is_used_for(rt: &impl Abort, usage: Usage, map: &Plain) {
    assert!(rt; usage.blocks == blocks_of(map));
    number_is(rt, "headers", u64::from(usage.headers), map.len() as u64);
}

/// The table is settled and closed. It holds what the map has, and what is used is counted off the map.
pub(crate) fn ends_as<R: Abort + Wait>(
    rt: &R,
    table: OakTable,
    mut pass: Pass,
    map: &Plain,
    keys: &[Key],
)
    requires own { IsPassOf table pass }
    requires ready { IsReady (call_of pass) (state pass) }
    requires alone { IsAlone (state pass) }
{
    settle(rt, &table, &mut pass);
    all_agree(rt, &table, &mut pass, map, keys);
    is_used_for(rt, table.close(pass).usage(), map);
}
