//! Readings: the bytes of a value under a good pin.
ghost use Rattle.std.specs.Prelude.{◌≡◌, ◌+◌, ◌*◌, ◌<◌, ◌≤◌, ◌↔◌, ◌++◌, IfOk, IsTrue, ℕ, List, length, take, drop, min, slice_index, slice_range};
ghost use Rattle.std.specs.Int.{w64, from_be_bytes};
ghost use Rattle.header_core.specs.declared.holds.PinnedHeader.{PinnedHeader};
ghost use Rattle.oak_core.specs.Passes.{IsPassOf, Stays, state, key, call_of};
ghost use Rattle.value_ops.specs.Pinning.{HasPin, EndsPin, KnowsLife};
ghost use Rattle.value_ops.specs.PinnedValues.{FindsStamp, LearnsByLoads, ReadsLife};
ghost use Rattle.value_ops.specs.Reading.{IsReading, ReadsOn, value, stamp, header};

use crate::pinned_value::PinnedValue;
use crate::pinning::HeaderPin;
use oak_core::{OakTable, Pass};
use oak_model::OutOfMemory;
use std::alloc::Global;
use std::fmt::{self, Debug, Formatter};

/// A value that is read under a good pin. It borrows the pass until [`Reading::done`] undoes the pin,
/// and can't be dropped. Its calls load words of the value's block, and change nothing.
pub struct Reading<'p> {
    table: &'p OakTable,
    pass: &'p mut Pass,
    value: PinnedValue,
}

impl Debug for Reading<'_> {
    fn fmt<W: fmt::Write>(&self, f: &mut Formatter<W>) -> fmt::Result {
        f.debug_struct("Reading")
            .field("value", &self.value)
            .finish_non_exhaustive()
    }
}

impl HeaderPin {
    /// Reads the value that the header had at the pin. It makes loads alone.
    pub fn reading<'p>(self, table: &'p OakTable, pass: &'p mut Pass) -> Reading<'p>
        requires own { IsPassOf table.now pass.old }
        requires pinned { (p : PinnedHeader) × HasPin (key table.now) self.header self.generation p (state pass.old) }
        ensures same_reference { result.pass.ghost_name ≡ pass.entry.ghost_name }
        ensures table { result.table ≡ table.entry }
        ensures reading { IsReading result }
        ensures own { Stays pass.old result.pass.now }
        ensures only { LearnsByLoads (key table.now) (call_of pass.old) (state pass.old) (state result.pass.now) }
        ensures reads { (of : List ℕ) → KnowsLife self.header self.generation of (state pass.old).knowledge
            → ReadsLife self.header self.generation of (stamp result) (value result) (state pass.old)
            (state result.pass.now) }
        ensures found { FindsStamp (key table.now) (call_of pass.old) self.header (stamp result) (state pass.old) (state result.pass.now) }
    {
        let value = self.value(table, pass);
        Reading { table, pass, value }
    }
}

impl Reading<'_> {
    /// The length of the value in bytes.
    pub fn len(&self) -> usize
        requires { IsReading self.now }
        ensures { result ≡ length (value self.now) }
    {
        self.value.len()
    }

    /// The stamp of the write that made the value.
    pub fn at(&self) -> u64
        requires { IsReading self.now }
        ensures { result ≡ stamp self.now }
    {
        self.value.at()
    }

    /// The byte at `i`.
    pub fn byte(&mut self, i: usize) -> u8
        requires reading { IsReading self.old }
        requires inside { i < length (value self.old) }
        ensures same_reference { self.new.pass.ghost_name ≡ self.old.pass.ghost_name }
        ensures reads { ReadsOn self.old self.new }
        ensures byte { result ≡ slice_index (value self.old) i }
    {
        self.value.byte(self.table, self.pass, i)
    }

    /// The bytes from `8 * i` to `8 * i + 7`, the first of which is the highest of the number.
    pub fn eight(&mut self, i: usize) -> u64
        requires reading { IsReading self.old }
        requires inside { 8 * i + 8 ≤ length (value self.old) }
        ensures same_reference { self.new.pass.ghost_name ≡ self.old.pass.ghost_name }
        ensures reads { ReadsOn self.old self.new }
        ensures eight { result ≡ from_be_bytes w64 (slice_range (value self.old) (8 * i) (8 * i + 8)) }
    {
        self.value.eight(self.table, self.pass, i)
    }

    /// Whether the value has exactly these bytes. Each word of the value is loaded once, up to the first
    /// that differs, and none where the lengths differ.
    pub fn same(&mut self, other: &[u8]) -> bool
        requires { IsReading self.old }
        ensures same_reference { self.new.pass.ghost_name ≡ self.old.pass.ghost_name }
        ensures reads { ReadsOn self.old self.new }
        ensures same { IsTrue result ↔ other.now ≡ value self.old }
    {
        self.value.same(self.table, self.pass, other)
    }

    /// Copies the value to `out`, which is as long. Each word of the value is loaded once.
    pub fn copy_into(&mut self, out: &mut [u8])
        requires reading { IsReading self.old }
        requires long { length out.old ≡ length (value self.old) }
        ensures same_reference { self.new.pass.ghost_name ≡ self.old.pass.ghost_name }
        ensures reads { ReadsOn self.old self.new }
        ensures copied { out.new ≡ value self.old }
    {
        self.value.copy_into(self.table, self.pass, out);
    }

    /// Copies the front of the value to the front of `out`, as many bytes as both have: how many. Each word in which they
    /// stand is loaded once.
    pub fn copy_prefix(&mut self, out: &mut [u8]) -> usize
        requires { IsReading self.old }
        ensures same_reference { self.new.pass.ghost_name ≡ self.old.pass.ghost_name }
        ensures reads { ReadsOn self.old self.new }
        ensures many { result ≡ min (length out.old) (length (value self.old)) }
        ensures copied { out.new ≡ take result (value self.old) ++ drop result out.old }
    {
        self.value.copy_prefix(self.table, self.pass, out)
    }

    /// A copy of the value.
    pub fn to_vec(&mut self, alloc: Global) -> Result<Vec<u8>, OutOfMemory>
        requires { IsReading self.old }
        ensures same_reference { self.new.pass.ghost_name ≡ self.old.pass.ghost_name }
        ensures reads { ReadsOn self.old self.new }
        ensures copied { IfOk result (λ v. v.items ≡ value self.old) }
    {
        let mut bytes = vec![in alloc; 0u8; self.len()]?;
        self.copy_into(bytes.as_mut_slice());
        Ok(bytes)
    }

    /// Undoes the pin. It makes no other step, and takes no block.
    pub fn done(self)
        requires { IsReading self }
        ensures own { Stays self.entry.pass.now self.exit.1.0.now }
        ensures undone { EndsPin (key self.entry.table.now) (call_of self.entry.pass.now) (header self.entry)
            (state self.entry.pass.now) (state self.exit.1.0.now) }
    {
        let Reading { table, pass, value } = self;
        value.unpin(table, pass);
    }
}
