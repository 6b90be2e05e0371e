//! A value's way into a map and out of it.
ghost use Rattle.std.specs.Prelude.{◌≡◌, ◌<◌};
ghost use Rattle.oak_model.specs.Key.{IsKey};
ghost use Rattle.oak_model.specs.Value.{IsValue};
ghost use Rattle.oak_core.specs.MayWrite.{IsNewCall};
ghost use Rattle.oak_core.specs.PassState.{HoldsNothing};
ghost use Rattle.oak_core.specs.Passes.{IsPassOf, Stays, call_of, state};

use crate::told::Told;
use oak_core::{OakTable, Pass};
use oak_map::{NoValue, Wrote, bare};
use oak_model::Shape;
use std::alloc::Global;

/// How often a call tries before it gives up.
const LOOKS: u32 = 64;

/// Why a value was not put and got.
#[derive(Clone, Copy)]
pub enum NoTrip {
    OutOfMemory,
    Full,
    Busy,
}

/// A value that was got: its stamp, its length, and its first eight bytes as a number.
#[derive(Clone, Copy)]
struct Got {
    at: u64,
    length: usize,
    first: u64,
}

/// Gets the value of the key; one that is absent has no bytes.
fn get(table: &OakTable, pass: &mut Pass, key: &[u8]) -> Result<Got, NoTrip>
    requires own { IsPassOf table.now pass.old }
    requires idle { HoldsNothing (state pass.old) }
    requires key { IsKey key.now }
    ensures own { Stays pass.old pass.new }
    ensures idle { HoldsNothing (state pass.new) }
    ensures numbers { (state pass.new).numbers ≡ (state pass.old).numbers }
{
    match bare::try_get(pass, table, key, LOOKS) {
        Err(NoValue::Busy) => Err(NoTrip::Busy),
        Err(NoValue::Absent { at }) => Ok(Got {
            at,
            length: 0,
            first: 0,
        }),
        Ok(mut reading) => {
            let at = reading.at();
            let length = reading.len();
            let first = if length < 8 { 0 } else { reading.eight(0) };
            reading.done();
            Ok(Got { at, length, first })
        }
    }
}

/// Puts the value of the key, and tells the number of the write.
fn put(table: &OakTable, pass: &mut Pass, key: &[u8], value: &[u8]) -> Result<u64, NoTrip>
    requires own { IsPassOf table.now pass.old }
    requires idle { HoldsNothing (state pass.old) }
    requires key { IsKey key.now }
    requires value { IsValue value.now }
    requires turn { IsNewCall (call_of pass.old) (state pass.old) }
    ensures own { IsPassOf table.now pass.new }
    ensures idle { HoldsNothing (state pass.new) }
    ensures numbers { (state pass.new).numbers ≡ (state pass.old).numbers }
{
    match bare::try_put(table, pass, key, value, LOOKS) {
        Err(_) => Err(NoTrip::Busy),
        Ok(Wrote::Full(_)) => Err(NoTrip::Full),
        Ok(
            Wrote::New { at }
            | Wrote::Over { at }
            | Wrote::Kept { at }
            | Wrote::Done { at }
            | Wrote::Removed { at }
            | Wrote::Absent { at },
        ) => Ok(at),
    }
}

/// Puts the value of the key into a map of the usual shape and gets it.
pub fn put_and_get(alloc: Global, key: &[u8], value: &[u8]) -> Result<Told, NoTrip>
    requires key { IsKey key.now }
    requires value { IsValue value.now }
{
    let shape = Shape::standard(1);
    let Ok((table, mut pass)) = OakTable::create(alloc, &shape) else {
        return Err(NoTrip::OutOfMemory);
    };
    pass.turn(1);
    let put_at = put(&table, &mut pass, key, value);
    let got = get(&table, &mut pass, key);
    let used = table.close(pass).usage();
    let Got { at, length, first } = got?;
    Ok(Told {
        put_at: put_at?,
        got_at: at,
        length: length as u64,
        first,
        headers: used.headers,
        chunks: used.chunks,
    })
}
