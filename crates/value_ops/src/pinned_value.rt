//! Values under a good pin.
ghost use Rattle.std.specs.Prelude.{◌≡◌, ◌≢◌, ◌+◌, ◌*◌, ◌<◌, ◌≤◌, ◌++◌, ◌↔◌, IsTrue, MatchBool, ℕ, List, length, take, drop, min, slice_index, slice_range};
ghost use Rattle.std.specs.Int.{w64, from_be_bytes};
ghost use Rattle.arena_core.specs.Words.{bytes_in};
ghost use Rattle.header_core.specs.declared.holds.PinnedHeader.{PinnedHeader};
ghost use Rattle.oak_core.specs.Passes.{IsPassOf, Stays, state, key, call_of};
ghost use Rattle.value_ops.specs.Pinning.{HasPin, EndsPin, KnowsLife};
ghost use Rattle.value_ops.specs.PinnedValues.{IsPinnedValue, FindsStamp, LearnsByLoads, ReadsLife, ReadsPinned, stamp_under, value_under, words_under};

use crate::pinning::{HeaderPin, unpin};
use arena_core::place::{block_in, class_in, length_in};
use arena_core::words::{WORD, is_word};
use arena_ops::{full_word, put_full_word, put_last_word};
use oak_core::{OakTable, Pass, load};

/// Where the value lies that a pass has pinned, with its length and stamp: plain numbers, which say something while the
/// pin lasts. Its calls load words of the value's block, and change nothing.
#[derive(Clone, Copy, Debug)]
pub struct PinnedValue {
    header: u32,
    /// The number of the block's first word.
    block: u32,
    length: usize,
    stamp: u64,
}

impl HeaderPin {
    /// Loads where the value lies that the header had at the pin. It makes loads alone.
    #[inline(always)] // once for each pair of a scan
    pub fn value(self, table: &OakTable, pass: &mut Pass) -> PinnedValue
        requires own { IsPassOf table.now pass.old }
        requires pinned { (p : PinnedHeader) × HasPin (key table.now) self.header self.generation p (state pass.old) }
        ensures own { Stays pass.old pass.new }
        ensures pinned { IsPinnedValue (key table.now) result (state pass.new) }
        ensures header { result.header ≡ self.header }
        ensures only { LearnsByLoads (key table.now) (call_of pass.old) (state pass.old) (state pass.new) }
        ensures reads { (of : List ℕ) → KnowsLife self.header self.generation of (state pass.old).knowledge
            → ReadsLife self.header self.generation of (stamp_under (state pass.new)) (value_under (state pass.new))
            (state pass.old) (state pass.new) }
        ensures found { FindsStamp (key table.now) (call_of pass.old) self.header (stamp_under (state pass.new)) (state pass.old) (state pass.new) }
    {
        let HeaderPin {
            header,
            generation: _,
        } = self;
        let place = load(table, pass, table.place_at(header));
        let stamp = load(table, pass, table.stamp_at(header));
        let block = table.bytes_at(class_in(place), block_in(place), 0);
        PinnedValue {
            header,
            block,
            length: length_in(place),
            stamp,
        }
    }
}

impl PinnedValue {
    /// The length of the value in bytes.
    pub fn len(&self) -> usize
        ensures { result ≡ self.now.length }
    {
        self.length
    }

    /// The stamp of the write that made the value.
    pub fn at(&self) -> u64
        ensures { result ≡ self.now.stamp }
    {
        self.stamp
    }

    /// Loads the word in which the bytes from `8 * i` on stand, the last of which may be none of the
    /// value's.
    fn word(self, table: &OakTable, pass: &mut Pass, i: usize) -> u64
        requires own { IsPassOf table.now pass.old }
        requires pinned { IsPinnedValue (key table.now) self (state pass.old) }
        requires inside { WORD * i < length (value_under (state pass.old)) }
        ensures reads { ReadsPinned (key table.now) self pass.old pass.new }
        ensures word { result ≡ slice_index (words_under (state pass.old)) i }
    {
        load(table, pass, self.block + i as u32)
    }

    /// The byte at `i`.
    pub fn byte(self, table: &OakTable, pass: &mut Pass, i: usize) -> u8
        requires own { IsPassOf table.now pass.old }
        requires pinned { IsPinnedValue (key table.now) self (state pass.old) }
        requires inside { i < length (value_under (state pass.old)) }
        ensures reads { ReadsPinned (key table.now) self pass.old pass.new }
        ensures byte { result ≡ slice_index (value_under (state pass.old)) i }
    {
        self.word(table, pass, i / WORD).to_be_bytes()[i % WORD]
    }

    /// The bytes from `8 * i` to `8 * i + 7`, the first of which is the highest of the number.
    pub fn eight(self, table: &OakTable, pass: &mut Pass, i: usize) -> u64
        requires own { IsPassOf table.now pass.old }
        requires pinned { IsPinnedValue (key table.now) self (state pass.old) }
        requires inside { 8 * i + 8 ≤ length (value_under (state pass.old)) }
        ensures reads { ReadsPinned (key table.now) self pass.old pass.new }
        ensures eight { result ≡ from_be_bytes w64 (slice_range (value_under (state pass.old)) (8 * i) (8 * i + 8)) }
    {
        self.word(table, pass, i)
    }

    /// Whether the eight bytes of the value in word `i` are those that `other` has there.
    #[inline(always)]
    fn same_in_full_word(self, table: &OakTable, pass: &mut Pass, other: &[u8], i: usize) -> bool
        requires own { IsPassOf table.now pass.old }
        requires pinned { IsPinnedValue (key table.now) self (state pass.old) }
        requires long { length other.now ≡ length (value_under (state pass.old)) }
        requires inside { WORD * i + WORD ≤ length other.now }
        ensures reads { ReadsPinned (key table.now) self pass.old pass.new }
        ensures same { MatchBool result (bytes_in i other.now ≡ bytes_in i (value_under (state pass.old)))
            (bytes_in i other.now ≢ bytes_in i (value_under (state pass.old))) }
    {
        full_word(other, i) == self.word(table, pass, i)
    }

    /// Whether the bytes of the value in word `i`, which may be fewer than eight, are those that `other` has there.
    fn same_in_word(self, table: &OakTable, pass: &mut Pass, other: &[u8], i: usize) -> bool
        requires own { IsPassOf table.now pass.old }
        requires pinned { IsPinnedValue (key table.now) self (state pass.old) }
        requires long { length other.now ≡ length (value_under (state pass.old)) }
        requires inside { WORD * i < length (value_under (state pass.old)) }
        ensures reads { ReadsPinned (key table.now) self pass.old pass.new }
        ensures same { MatchBool result (bytes_in i other.now ≡ bytes_in i (value_under (state pass.old)))
            (bytes_in i other.now ≢ bytes_in i (value_under (state pass.old))) }
    {
        is_word(other, i, self.word(table, pass, i))
    }

    /// Whether the value has exactly these bytes. Each word of the value is loaded once, up to the first
    /// that differs, and none where the lengths differ.
    pub fn same(self, table: &OakTable, pass: &mut Pass, other: &[u8]) -> bool
        requires own { IsPassOf table.now pass.old }
        requires pinned { IsPinnedValue (key table.now) self (state pass.old) }
        ensures reads { ReadsPinned (key table.now) self pass.old pass.new }
        ensures same { IsTrue result ↔ other.now ≡ value_under (state pass.old) }
    {
        if other.len() != self.length {
            return false;
        }
        let full = other.len() / WORD;
        for i in 0..full {
            if !self.same_in_full_word(table, pass, other, i) {
                return false;
            }
        }
        if WORD * full < other.len() {
            return self.same_in_word(table, pass, other, full);
        }
        true
    }

    /// Copies the front of the value to `out`, as many bytes as it has places. Each word in which they stand is loaded
    /// once.
    #[inline(always)]
    fn copy_front(self, table: &OakTable, pass: &mut Pass, out: &mut [u8])
        requires own { IsPassOf table.now pass.old }
        requires pinned { IsPinnedValue (key table.now) self (state pass.old) }
        requires front { length out.old ≤ length (value_under (state pass.old)) }
        ensures reads { ReadsPinned (key table.now) self pass.old pass.new }
        ensures copied { out.new ≡ take (length out.old) (value_under (state pass.old)) }
    {
        let full = out.len() / WORD;
        for i in 0..full {
            put_full_word(out, i, self.word(table, pass, i));
        }
        if WORD * full < out.len() {
            put_last_word(out, full, self.word(table, pass, full));
        }
    }

    /// Copies the value to `out`, which is as long. Each word of the value is loaded once.
    pub fn copy_into(self, table: &OakTable, pass: &mut Pass, out: &mut [u8])
        requires own { IsPassOf table.now pass.old }
        requires pinned { IsPinnedValue (key table.now) self (state pass.old) }
        requires long { length out.old ≡ length (value_under (state pass.old)) }
        ensures reads { ReadsPinned (key table.now) self pass.old pass.new }
        ensures copied { out.new ≡ value_under (state pass.old) }
    {
        self.copy_front(table, pass, out);
    }

    /// Copies the front of the value to the front of `out`, as many bytes as both have: how many.
    pub fn copy_prefix(self, table: &OakTable, pass: &mut Pass, out: &mut [u8]) -> usize
        requires own { IsPassOf table.now pass.old }
        requires pinned { IsPinnedValue (key table.now) self (state pass.old) }
        ensures reads { ReadsPinned (key table.now) self pass.old pass.new }
        ensures many { result ≡ min (length out.old) (length (value_under (state pass.old))) }
        ensures copied { out.new ≡ take result (value_under (state pass.old)) ++ drop result out.old }
    {
        let many = out.len().min(self.length);
        self.copy_front(table, pass, &mut out[..many]);
        many
    }

    /// Undoes the pin. It makes no other step, and takes no block.
    pub fn unpin(self, table: &OakTable, pass: &mut Pass)
        requires own { IsPassOf table.now pass.old }
        requires pinned { IsPinnedValue (key table.now) self (state pass.old) }
        ensures own { Stays pass.old pass.new }
        ensures undone { EndsPin (key table.now) (call_of pass.old) self.header (state pass.old) (state pass.new) }
    {
        unpin(table, pass, self.header);
    }
}
