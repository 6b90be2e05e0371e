//! Blocks as those that hold them see them, and where the words of a table's blocks lie.
ghost use Rattle.std.specs.Prelude.{◌≡◌, ◌<◌, ◌≤◌, ◌/◌, slice_index, slice_set};
ghost use Rattle.oak_model.specs.Class.{class_number};
ghost use Rattle.arena_core.specs.Arena.{at_bits, at_bytes, bit_words, block_words, blocks};
ghost use Rattle.oak_core.specs.Memory.{in_arena, index};
ghost use Rattle.oak_core.specs.Passes.{TriesStay, key, state, call_of, searches, header_search};

use crate::table::{OakTable, Pass};
use arena_core::layout::{bit_words, block_words};
use oak_model::Class;

/// A block that a pass holds. It is given back or handed on, and can't be dropped.
#[derive(Debug)]
pub struct Block {
    pub class: Class,
    pub number: u32,
}

impl OakTable {
    /// How many blocks of a class the table has.
    pub fn blocks(&self, class: Class) -> u32
        ensures { result ≡ blocks (key self.now) (class_number class) }
    {
        self.shape.blocks[class.number()]
    }

    /// How many words have the bits of a class.
    pub fn bit_words(&self, class: Class) -> u32
        ensures is { result ≡ bit_words (key self.now) (class_number class) }
        ensures small { result ≤ 1024 }
    {
        bit_words(&self.shape, class.number()) as u32
    }

    /// The number of word `i` of the bits of a class.
    pub fn bits_at(&self, class: Class, i: u32) -> u32
        requires { i < bit_words (key self.now) (class_number class) }
        ensures { result ≡ index (key self.now) (in_arena (at_bits (class_number class) i)) }
    {
        self.offsets.bits[class.number()] + i
    }

    /// The number of word `i` of a block.
    pub fn bytes_at(&self, class: Class, block: u32, i: u32) -> u32
        requires block { block < blocks (key self.now) (class_number class) }
        requires inside { i < block_words (class_number class) }
        ensures { result ≡ index (key self.now) (in_arena (at_bytes (class_number class) block i)) }
    {
        let place = block * block_words(class) as u32 + i;
        self.offsets.bytes[class.number()] + place
    }
}

impl Pass {
    /// The block at which the pass's next search for one of the class begins.
    pub fn search(&self, class: Class) -> u32
        ensures { result ≡ slice_index (searches self.now) (class_number class) }
    {
        self.searches[class.number()]
    }

    /// Sets the block at which the pass's next search for one of the class begins.
    pub fn search_from(&mut self, class: Class, block: u32)
        ensures search { searches self.new ≡ slice_set (searches self.old) (class_number class) block }
        ensures same { (self.new.seat.table_id ≡ self.old.seat.table_id) × (self.new.seat.id ≡ self.old.seat.id)
            × (state self.new ≡ state self.old) × (call_of self.new ≡ call_of self.old)
            × (header_search self.new ≡ header_search self.old) × (self.new.scratch ≡ self.old.scratch)
            × (self.new.sorting ≡ self.old.sorting) }
        ensures tries { TriesStay self.old self.new }
    {
        self.searches[class.number()] = block;
    }
}
