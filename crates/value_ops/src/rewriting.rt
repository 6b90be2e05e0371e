//! The bytes of a value, changed in place under its lock.
ghost use Rattle.std.specs.Prelude.{ℕ, ◌≡◌, ◌<◌, ◌≤◌, ◌+◌, ◌-◌, ◌*◌, ◌^◌, length, slice_index, Some};
ghost use Rattle.oak_model.specs.declared.classes.Class.{Class};
ghost use Rattle.oak_model.specs.Class.{class_number, class_of};
ghost use Rattle.oak_model.specs.Recipe.{recipe_result};
ghost use Rattle.arena_core.specs.Place.{class_in, length_in};
ghost use Rattle.header_core.specs.HeaderHolds.{place_held};
ghost use Rattle.header_core.specs.HeaderStep.{reworded};
ghost use Rattle.oak_core.specs.AloneWords.{Runs};
ghost use Rattle.oak_core.specs.Finding.{LoadsMore};
ghost use Rattle.oak_core.specs.Passes.{IsPassOf, Stays, state, key, call_of, scratch_of};
ghost use Rattle.oak_core.specs.Scratch.{StaysButScratch};
ghost use Rattle.value_ops.specs.Pinning.{WordsStay};
ghost use Rattle.arena_ops.specs.PutWords.{PutsWord, PutsBytes};
ghost use Rattle.value_ops.specs.AloneLocks.{AppliesTo, RefillsWords};
ghost use Rattle.value_ops.specs.Rewriting.{HasWords};
ghost use Rattle.value_ops.specs.HeldValue.{words_in, value_held};
ghost use Rattle.value_ops.specs.UnderLock.{HasLock, ComesTo, Rewrites, Refills, words_over, with_words};

use crate::locking::Locked;
use crate::recipes::{Recipe, apply_once};
use arena_core::place::{block_in, class_in, length_in, place_word};
use arena_core::words::{WORD, put_word, word_from};
use arena_ops::full_word;
use oak_core::{OakTable, Pass, load, steps};

impl Locked {
    /// Loads word `i` of the value's block, of which `first` is the first word.
    fn load_word(&self, table: &OakTable, pass: &mut Pass, first: u32, i: usize) -> u64
        requires own { IsPassOf table.now pass.old }
        requires words { HasWords (key table.now) self.now.header self.now.generation first (state pass.old) }
        requires inside { i < length (words_in self.now.header (state pass.old).headers.held) }
        ensures own { Stays pass.old pass.new }
        ensures met { LoadsMore (key table.now) (call_of pass.old) (state pass.old) (state pass.new) }
        ensures word { result ≡ slice_index (words_in self.now.header (state pass.old).headers.held) i }
        ensures alone { Runs WordsStay (state pass.old) (state pass.new) }
    {
        load(table, pass, first + i as u32)
    }

    /// Stores to word `i` of the value's block, of which `first` is the first word.
    fn store_word(&self, table: &OakTable, pass: &mut Pass, first: u32, i: usize, word: u64)
        requires own { IsPassOf table.now pass.old }
        requires words { HasWords (key table.now) self.now.header self.now.generation first (state pass.old) }
        requires inside { i < length (words_in self.now.header (state pass.old).headers.held) }
        ensures own { Stays pass.old pass.new }
        ensures stored { ComesTo (key table.now) (call_of pass.old) (state pass.old).blocks.held
            (reworded self.now.header i word (state pass.old).headers.held) (state pass.old) (state pass.new) }
        ensures alone { Runs (PutsWord (first + i) word) (state pass.old) (state pass.new) }
    {
        steps::store_word(table, pass, first + i as u32, word);
    }

    /// Loads the bytes of the value, of which there are `len`, into the pass's scratch.
    fn load_value(&self, table: &OakTable, pass: &mut Pass, first: u32, len: usize)
        requires own { IsPassOf table.now pass.old }
        requires words { HasWords (key table.now) self.now.header self.now.generation first (state pass.old) }
        requires long { len ≡ length_in (place_held self.now.header (state pass.old).headers.held) }
        ensures own { StaysButScratch pass.old pass.new }
        ensures met { LoadsMore (key table.now) (call_of pass.old) (state pass.old) (state pass.new) }
        ensures value { scratch_of pass.new ≡ value_held self.now.header (state pass.old).headers.held }
        ensures alone { Runs WordsStay (state pass.old) (state pass.new) }
    {
        pass.scratch_mut().set_len(len);
        for i in 0..len.div_ceil(WORD) {
            let word = self.load_word(table, pass, first, i);
            put_word(pass.scratch_mut().bytes_mut(), i, word);
        }
    }

    /// Stores the bytes of the pass's scratch, which are as many as the value's, in the value's block.
    fn store_scratch(&self, table: &OakTable, pass: &mut Pass, first: u32)
        requires own { IsPassOf table.now pass.old }
        requires words { HasWords (key table.now) self.now.header self.now.generation first (state pass.old) }
        requires long { length (scratch_of pass.old) ≡ length_in (place_held self.now.header (state pass.old).headers.held) }
        ensures own { Stays pass.old pass.new }
        ensures stored { Rewrites (key table.now) (call_of pass.old) self.now.header (scratch_of pass.old) (state pass.old) (state pass.new) }
        ensures alone { Runs (PutsBytes first (scratch_of pass.old)) (state pass.old) (state pass.new) }
    {
        for i in 0..pass.scratch().bytes().len().div_ceil(WORD) {
            let word = word_from(pass.scratch().bytes(), i);
            self.store_word(table, pass, first, i, word);
        }
    }

    /// Stores the bytes in the value's block.
    fn store_bytes(&self, table: &OakTable, pass: &mut Pass, first: u32, bytes: &[u8])
        requires own { IsPassOf table.now pass.old }
        requires words { HasWords (key table.now) self.now.header self.now.generation first (state pass.old) }
        requires room { length bytes.now ≤ 8 * length (words_in self.now.header (state pass.old).headers.held) }
        ensures own { Stays pass.old pass.new }
        ensures stored { ComesTo (key table.now) (call_of pass.old) (state pass.old).blocks.held
            (with_words self.now.header (words_over bytes.now
            (words_in self.now.header (state pass.old).headers.held)) (state pass.old).headers.held) (state pass.old)
            (state pass.new) }
        ensures alone { Runs (PutsBytes first bytes.now) (state pass.old) (state pass.new) }
    {
        let full = bytes.len() / WORD;
        for i in 0..full {
            self.store_word(table, pass, first, i, full_word(bytes, i));
        }
        if WORD * full < bytes.len() {
            self.store_word(table, pass, first, full, word_from(bytes, full));
        }
    }

    /// Makes the recipe's bytes of the value's, in place: they are loaded into the pass's scratch, the
    /// recipe is called once, on them, and the bytes are stored back. The length stays.
    pub fn apply(&mut self, table: &OakTable, pass: &mut Pass, recipe: &mut Box<dyn Recipe + Send>)
        requires own { IsPassOf table.now pass.old }
        requires locked { HasLock (key table.now) self.old.header self.old.generation (state pass.old) }
        requires few { calls recipe.old < 2 ^ 64 - 1 }
        ensures own { StaysButScratch pass.old pass.new }
        ensures same { self.new ≡ self.old }
        ensures locked { HasLock (key table.now) self.new.header self.new.generation (state pass.new) }
        ensures applied { Rewrites (key table.now) (call_of pass.old) self.old.header
            (recipe_result (told_kind recipe.old) (told_argument recipe.old)
            (value_held self.old.header (state pass.old).headers.held)) (state pass.old) (state pass.new) }
        ensures alone { Runs (AppliesTo (key table.now) self.old.header (told_kind recipe.old)
            (told_argument recipe.old)) (state pass.old) (state pass.new) }
        ensures once { calls recipe.new ≡ calls recipe.old + 1 }
        ensures fed { fed recipe.new (value_held self.old.header (state pass.old).headers.held) }
        ensures kind { told_kind recipe.new ≡ told_kind recipe.old }
        ensures argument { told_argument recipe.new ≡ told_argument recipe.old }
    {
        let place = self.place(table, pass);
        let first = table.bytes_at(class_in(place), block_in(place), 0);
        self.load_value(table, pass, first, length_in(place));
        apply_once(recipe, pass.scratch_mut());
        self.store_scratch(table, pass, first);
    }

    /// Stores the bytes in place of the value, in the same block, whose class must be that of their
    /// length. The place word is stored to only where the length is another.
    pub fn fill(&mut self, table: &OakTable, pass: &mut Pass, bytes: &[u8])
        requires own { IsPassOf table.now pass.old }
        requires locked { HasLock (key table.now) self.old.header self.old.generation (state pass.old) }
        requires fits { (c : Class) × (class_of (length bytes.now) ≡ Some c)
            × (class_in (place_held self.old.header (state pass.old).headers.held) ≡ class_number c) }
        ensures own { Stays pass.old pass.new }
        ensures same { self.new ≡ self.old }
        ensures locked { HasLock (key table.now) self.new.header self.new.generation (state pass.new) }
        ensures filled { (c : Class) × (b : ℕ) × Refills (key table.now) (call_of pass.old) self.old.header c b
            bytes.now (state pass.old) (state pass.new) }
        ensures alone { Runs (RefillsWords (key table.now) self.old.header bytes.now) (state pass.old) (state pass.new) }
    {
        let place = self.place(table, pass);
        let class = class_in(place);
        let number = block_in(place);
        self.store_bytes(table, pass, table.bytes_at(class, number, 0), bytes);
        let named = place_word(class, number, bytes.len() as u16);
        // Most values keep their length, and a store of the same word would only cost a step.
        if named == place {
            return;
        }
        steps::store_field(table, pass, table.place_at(self.header), named);
    }
}
