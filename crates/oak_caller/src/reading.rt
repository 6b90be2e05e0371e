//! Values, copied and read as numbers.
ghost use Rattle.std.specs.Prelude.{◌≡◌, ℕ, ◌<◌, ◌≤◌, ◌++◌, List, MatchOption, drop, length};
ghost use Rattle.std.specs.Fn.{FnOnceReturnsAt};
ghost use Rattle.oak_model.specs.Key.{IsKey};
ghost use Rattle.oak_core.specs.PassState.{HoldsNothing};
ghost use Rattle.oak_core.specs.Passes.{IsPassOf, Stays, call_of as table_call, state as table_state};
ghost use Rattle.value_ops.specs.Reading.{IsReading, ReadsOn, value};
ghost use Rattle.oak_map.specs.Maps.{sizes, table_of};
ghost use Rattle.oak_caller.specs.declared.reading.Copied.TheVariants as copies;
ghost use Rattle.oak_caller.specs.Callers.{CallsOn, KeepsViews, PassKeepsViews, last_of, sizes_of, state_of};
ghost use Rattle.oak_caller.specs.Reads.{CopyFits, LiesIn, NumberFits, ReadsNone, ReadsValue};

use crate::caller::Caller;
use oak_core::Pass;
use oak_map::{Lent, OakMap, Reading, get_of};
use oak_model::GREATEST_VALUE;
use std::sync::Wait;

/// What a copy of a key's value came to. A value has `len` bytes, and `at` is the stamp of its write; an absent key was
/// absent at the number `at`.
#[derive(Clone, Copy, Debug, PartialEq, Eq)]
pub enum Copied {
    Absent { at: u64 },
    /// All its bytes lie at the begin of the place for them.
    Whole { len: usize, at: u64 },
    /// It is longer than the place for it, in which nothing was changed.
    TooLong { len: usize, at: u64 },
}

/// The number that a key's value is, with its stamp; an absent key was absent at the number `at`.
#[derive(Clone, Copy, Debug, PartialEq, Eq)]
pub enum Number {
    Absent { at: u64 },
    /// The value has eight bytes, the first of which is the highest of the number.
    Eight { number: u64, at: u64 },
    /// The value has `len` bytes, which are not eight.
    Other { len: usize, at: u64 },
}

impl<R: Wait + Drop + Send> Caller<'_, R> {
    /// Copies the value of a key to the begin of `out`. One that does not fit there is not copied, and its length told.
    pub fn get_into(&mut self, rt: &R, key: &[u8], out: &mut [u8]) -> Copied
        requires key { IsKey key.now }
        ensures on { CallsOn Stays self.old self.new }
        ensures views { KeepsViews self.old self.new }
        ensures copied { CopyFits result (sizes_of self.old) (last_of self.old) key.now out.old out.new (state_of self.old) (state_of self.new) }
        ensures within { LiesIn result out.new }
    {
        copy_of(rt, self.map, self.pass.pass_mut(), key, out)
    }

    /// The number that the eight bytes of a key's value are.
    pub fn get_u64(&mut self, rt: &R, key: &[u8]) -> Number
        requires key { IsKey key.now }
        ensures on { CallsOn Stays self.old self.new }
        ensures views { KeepsViews self.old self.new }
        ensures number { NumberFits result (sizes_of self.old) (last_of self.old) key.now (state_of self.old) (state_of self.new) }
    {
        number_of(rt, self.map, self.pass.pass_mut(), key)
    }

    /// Gives the closure the bytes of a key's value, once, and hands on what it makes of them; none where the key is
    /// absent, and the closure is not called then.
    pub fn read<T, F: FnOnce(&[u8]) -> T + Drop>(&mut self, rt: &R, key: &[u8], f: F) -> Option<T>
        requires key { IsKey key.now }
        requires calls { F.IsAlwaysCallable f }
        ensures on { CallsOn Stays self.old self.new }
        ensures views { KeepsViews self.old self.new }
        ensures read { MatchOption result ((at : ℕ) × ReadsNone (sizes_of self.old) (last_of self.old) key.now at
            (state_of self.old) (state_of self.new))
            (λ y. (bytes : List ℕ) × (at : ℕ) × ReadsValue (sizes_of self.old) (last_of self.old) key.now bytes at
            (state_of self.old) (state_of self.new) × FnOnceReturnsAt F.FnOnce f bytes y) }
    {
        let mut bytes = [0; GREATEST_VALUE];
        match copy_of(rt, self.map, self.pass.pass_mut(), key, &mut bytes) {
            Copied::Absent { at: _ } => None,
            Copied::Whole { len, at: _ } => Some(f(&bytes[..len])),
            Copied::TooLong { len: _, at: _ } => unreachable!(),
        }
    }
}

/// Copies the value to the begin of `out` if it fits there, and tells its length.
pub(crate) fn copy_reading(reading: &mut Reading<'_>, out: &mut [u8]) -> usize
    requires { IsReading reading.old }
    ensures same_reference { reading.new.pass.ghost_name ≡ reading.old.pass.ghost_name }
    ensures reads { ReadsOn reading.old reading.new }
    ensures len { length (value reading.old) ≡ result }
    ensures fits { result ≤ length out.old → out.new ≡ value reading.old ++ drop result out.old }
    ensures long { length out.old < result → out.new ≡ out.old }
{
    let len = reading.len();
    if len <= out.len() {
        reading.copy_into(&mut out[..len]);
    }
    len
}

/// What a copy came to of so many bytes to a place for so many.
pub(crate) fn told_copy(len: usize, place: usize, at: u64) -> Copied
    ensures whole { len ≤ place → result ≡ copies.Whole len at }
    ensures long { place < len → result ≡ copies.TooLong len at }
{
    if len <= place {
        Copied::Whole { len, at }
    } else {
        Copied::TooLong { len, at }
    }
}

/// [`Caller::get_into`] by the pass on the map's table.
pub(crate) fn copy_of<R: Wait + Drop + Send>(
    rt: &R,
    map: &OakMap<R>,
    pass: &mut Pass,
    key: &[u8],
    out: &mut [u8],
) -> Copied
    requires own { IsPassOf (table_of map.now) pass.old }
    requires idle { HoldsNothing (table_state pass.old) }
    requires key { IsKey key.now }
    ensures own { Stays pass.old pass.new }
    ensures idle { HoldsNothing (table_state pass.new) }
    ensures views { PassKeepsViews (sizes map.now) pass.old pass.new }
    ensures mine { (table_state pass.new).knowledge.mine ≡ (table_state pass.old).knowledge.mine }
    ensures copied { CopyFits result (sizes map.now) (table_call pass.old) key.now out.old out.new (table_state pass.old) (table_state pass.new) }
    ensures within { LiesIn result out.new }
{
    match get_of(pass, rt, map, key) {
        Lent::Absent { at } => Copied::Absent { at },
        Lent::Present(mut reading) => {
            let at = reading.at();
            let len = copy_reading(&mut reading, out);
            reading.done();
            told_copy(len, out.len(), at)
        }
    }
}

/// [`Caller::get_u64`] by the pass on the map's table.
fn number_of<R: Wait + Drop + Send>(rt: &R, map: &OakMap<R>, pass: &mut Pass, key: &[u8]) -> Number
    requires own { IsPassOf (table_of map.now) pass.old }
    requires idle { HoldsNothing (table_state pass.old) }
    requires key { IsKey key.now }
    ensures own { Stays pass.old pass.new }
    ensures idle { HoldsNothing (table_state pass.new) }
    ensures views { PassKeepsViews (sizes map.now) pass.old pass.new }
    ensures mine { (table_state pass.new).knowledge.mine ≡ (table_state pass.old).knowledge.mine }
    ensures number { NumberFits result (sizes map.now) (table_call pass.old) key.now (table_state pass.old) (table_state pass.new) }
{
    let mut eight = [0u8; 8];
    match copy_of(rt, map, pass, key, &mut eight) {
        Copied::Absent { at } => Number::Absent { at },
        Copied::Whole { len, at } => {
            if len == 8 {
                Number::Eight {
                    number: u64::from_be_bytes(eight),
                    at,
                }
            } else {
                Number::Other { len, at }
            }
        }
        Copied::TooLong { len, at } => Number::Other { len, at },
    }
}
