//! The scratch in which a recipe changes the bytes of a value.
ghost use Rattle.std.specs.Prelude.{◌≡◌, ℕ, ◌<◌, ◌≤◌, ◌↔◌, IsTrue, [], IfOk, slice_index, slice_set, length, take};
ghost use Rattle.std.specs.List.{refill};
ghost use Rattle.std.specs.Borrow.{Lends, Array, sem, u8 as byte};
ghost use Rattle.oak_core.specs.contracts.writing.Writing.{the_row};

use oak_model::{GREATEST_VALUE, OutOfMemory};
use std::alloc::Global;
use std::marker::Model;

/// A scratch for the bytes of one value, which a pass has since it was made: a list of at most
/// [`GREATEST_VALUE`] bytes.
#[derive(Debug, Drop)]
pub struct Writing {
    bytes: Vec<u8>,
    len: usize,
}

impl Model for Writing {
    ghost use Rattle.std.specs.Prelude.{List, ℕ, take, ◌≡◌, ◌≤◌, length};
    ghost use Rattle.oak_model.specs.declared.limits.TheConstants.{GREATEST_VALUE};

    ghost Value = { List ℕ };

    ghost view = { λ w. take w.len w.bytes.items };

    ghost invariant = { λ w. (length w.bytes.items ≡ GREATEST_VALUE) × (w.len ≤ GREATEST_VALUE) };
}

/// The same bytes, which are numbers below 256.
fn as_bytes(bytes: &[u8]) -> &[u8]
    ensures same { result.now ≡ bytes.now }
    ensures small { (k : ℕ) → slice_index bytes.now k < 256 }
{
    bytes
}

impl Writing {
    /// An empty one: that of a new pass, or one to try a recipe on.
    pub fn make(alloc: Global) -> Result<Writing, OutOfMemory>
        ensures { IfOk result (λ w. w ≡ []) }
    {
        let bytes = vec![in alloc; 0u8; GREATEST_VALUE]?;
        Ok(Writing { bytes, len: 0 })
    }

    /// How many bytes it has.
    pub fn len(&self) -> usize
        ensures { result ≡ length self.now }
    {
        self.len
    }

    /// Whether it has no byte.
    pub fn is_empty(&self) -> bool
        ensures { IsTrue result ↔ (self.now ≡ []) }
    {
        self.len == 0
    }

    /// Byte `i`.
    pub fn byte(&self, i: usize) -> u8
        requires { i < length self.now }
        ensures { result ≡ slice_index self.now i }
    {
        self.bytes[i]
    }

    /// All of its bytes.
    pub fn bytes(&self) -> &[u8]
        ensures bytes { result.now ≡ self.now }
        ensures small { (k : ℕ) → slice_index self.now k < 256 }
    {
        as_bytes(&self.bytes[..self.len])
    }

    /// All of its bytes, to be changed in place.
    pub fn bytes_mut(&mut self) -> &mut [u8]
        ensures* writes_back { sem 𝓛 (Lends the_row (Array byte 0) self.entry result
            (refill (length self.old) self.old)) }
        ensures value { result.now ≡ self.old }
    {
        let len = self.len;
        self.bytes.slice_mut(..len)
    }

    /// Byte `i` becomes `b`.
    pub fn set(&mut self, i: usize, b: u8)
        requires { i < length self.old }
        ensures { self.new ≡ slice_set self.old i b }
    {
        self.bytes[i] = b;
    }

    /// It becomes `len` bytes long. The bytes that it had are its first ones, as many as it keeps, and
    /// those behind them are any.
    pub fn set_len(&mut self, len: usize)
        requires { len ≤ GREATEST_VALUE }
        ensures long { length self.new ≡ len }
        ensures kept { take (length self.old) self.new ≡ take len self.old }
    {
        self.len = len;
    }
}
