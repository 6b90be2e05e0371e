//! Looks at the keys with which a map was filled.
ghost use Rattle.std.specs.Prelude.{◌≡◌};
ghost use Rattle.oak_model.specs.Key.{IsKey};
ghost use Rattle.oak_core.specs.PassState.{HoldsNothing};
ghost use Rattle.oak_core.specs.Passes.{IsPassOf, Stays, state as table_state};
ghost use Rattle.oak_core.specs.Scratch.{StaysButSlots};
ghost use Rattle.value_ops.specs.Reading.{IsReading, ReadsOn};
ghost use Rattle.oak_map.specs.Maps.{IsReady, state, table_of};

use crate::keys::key_of;
use crate::scan::rounds::first;
use oak_core::Pass;
use oak_map::{Lent, MapPass, OakMap, Reading, get_of};
use std::sync::Wait;

/// The number that a value is, or 0 where it has not eight bytes.
fn number_in(reading: &mut Reading<'_>) -> u64
    requires { IsReading reading.old }
    ensures same_reference { reading.new.pass.ghost_name ≡ reading.old.pass.ghost_name }
    ensures reads { ReadsOn reading.old reading.new }
{
    if reading.len() == 8 {
        reading.eight(0)
    } else {
        0
    }
}

/// The number that the value of a key is, where it has one.
fn get<R: Wait + Drop + Send>(rt: &R, map: &OakMap<R>, pass: &mut Pass, key: &[u8]) -> Option<u64>
    requires own { IsPassOf (table_of map.now) pass.old }
    requires idle { HoldsNothing (table_state pass.old) }
    requires key { IsKey key.now }
    ensures own { Stays pass.old pass.new }
    ensures idle { HoldsNothing (table_state pass.new) }
    ensures numbers { (table_state pass.new).numbers ≡ (table_state pass.old).numbers }
{
    match get_of(pass, rt, map, key) {
        Lent::Absent { at: _ } => None,
        Lent::Present(mut reading) => {
            let number = number_in(&mut reading);
            reading.done();
            Some(number)
        }
    }
}

/// The least key behind one of eight bytes.
fn behind(key: [u8; 8]) -> [u8; 9] {
    let mut next = [0; 9];
    next[..8].copy_from_slice(&key);
    next
}

/// Which value is read, and how.
#[derive(Clone, Copy)]
pub enum Look {
    /// That of the key, by a get.
    Get,
    /// That of the next key, as the first pair of a scan up from behind the key.
    Next,
}

/// The number that the value of the key of a number is, or of the next key, where there is one.
fn value_for<R: Wait + Drop + Send>(
    rt: &R,
    map: &OakMap<R>,
    pass: &mut Pass,
    number: u32,
    which: Look,
) -> Option<u64>
    requires own { IsPassOf (table_of map.now) pass.old }
    requires idle { HoldsNothing (table_state pass.old) }
    ensures own { StaysButSlots pass.old pass.new }
    ensures idle { HoldsNothing (table_state pass.new) }
    ensures numbers { (table_state pass.new).numbers ≡ (table_state pass.old).numbers }
{
    let key = key_of(number);
    match which {
        Look::Get => get(rt, map, pass, &key),
        Look::Next => first(rt, map, pass, &behind(key)),
    }
}

/// Looks so at the keys of so many numbers: how many values there are, and the values, added up.
pub fn look_all<R: Wait + Drop + Send>(
    rt: &R,
    map: &OakMap<R>,
    pass: &mut MapPass,
    keys: u32,
    which: Look,
) -> (u64, u64)
    requires own { IsReady map.now pass.old }
    ensures own { IsReady map.now pass.new }
    ensures numbers { (state pass.new).numbers ≡ (state pass.old).numbers }
{
    let mut pairs = 0u64;
    let mut sum = 0u64;
    for number in 0..keys {
        if let Some(value) = value_for(rt, map, pass.pass_mut(), number, which) {
            pairs = pairs.wrapping_add(1);
            sum = sum.wrapping_add(value);
        }
    }
    (pairs, sum)
}
