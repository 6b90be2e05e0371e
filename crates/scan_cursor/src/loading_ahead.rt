//! What a scan loads ahead of its pairs.
ghost use Rattle.std.specs.Prelude.{◌≡◌, ◌<◌, ◌≤◌, IfSome, length};
ghost use Rattle.oak_model.specs.declared.limits.TheConstants.{GREATEST_ENTRIES};
ghost use Rattle.oak_model.specs.Class.{class_number};
ghost use Rattle.arena_core.specs.Arena.{at_bytes, blocks};
ghost use Rattle.oak_core.specs.Memory.{in_arena, index};
ghost use Rattle.oak_core.specs.Passes.{IsPassOf, Stays, state, key as sizes, call_of};
ghost use Rattle.chunk_ops.specs.PinRecords.{OnlyMeets};
ghost use Rattle.scan_cursor.specs.LoadingAhead.{AreBlocks, ArePlainWords, IsPlainWord};

use arena_core::layout::block_words;
use arena_core::place::{block_in, class_in, place_word};
use chunk_core::value_word::header_in;
use oak_core::{OakTable, Pass, SortSlot, load};
use oak_model::{Class, GREATEST_ENTRIES};

/// The blocks of a class, as one comparison tells whether a place word names one of them: the least such word, how far
/// above it others may be, the number of the first block's first word, and how many words each block has.
#[derive(Clone, Copy)]
struct Blocks {
    least: u64,
    span: u64,
    first: u32,
    words: u32,
}

/// The number of the first word of a class's blocks, which are so many; any number where there are none.
fn first_of(table: &OakTable, class: Class, many: u32) -> u32
    requires { many ≡ blocks (sizes table.now) (class_number class) }
    ensures { 0 < many → result ≡ index (sizes table.now) (in_arena (at_bytes (class_number class) 0 0)) }
{
    if many > 0 {
        table.bytes_at(class, 0, 0)
    } else {
        0
    }
}

/// The blocks of a class.
fn blocks_of(table: &OakTable, class: Class) -> Blocks
    ensures { AreBlocks (sizes table.now) result }
{
    let many = table.blocks(class);
    Blocks {
        least: place_word(class, 0, 0),
        span: place_word(Class::B16, many, 0),
        first: first_of(table, class, many),
        words: block_words(class) as u32,
    }
}

/// The number of the first word of the block that a place word names, where it is one of these.
#[inline(always)] // once for each pair of a scan
fn start_among(table: &OakTable, blocks: &Blocks, place: u64) -> Option<u32>
    requires { AreBlocks (sizes table.now) blocks.now }
    ensures { IfSome result (IsPlainWord (sizes table.now)) }
{
    let above = place.wrapping_sub(blocks.least);
    if above >= blocks.span {
        return None;
    }
    Some(blocks.first + block_in(above) * blocks.words)
}

/// The number of the first word of the block that a place word names. Mostly it is of the same class as that of the pair
/// before, whose blocks are kept: else those of its own class are. Where no block has the place, that of word 0.
#[inline(always)] // once for each pair of a scan
fn start_of_block(table: &OakTable, near: &mut Blocks, place: u64) -> u32
    requires { AreBlocks (sizes table.now) near.old }
    ensures blocks { AreBlocks (sizes table.now) near.new }
    ensures word { IsPlainWord (sizes table.now) result }
{
    if let Some(start) = start_among(table, near, place) {
        return start;
    }
    *near = blocks_of(table, class_in(place));
    start_among(table, near, place).unwrap_or(0)
}

/// Puts the number of the word that says where its value lies in the place of each slot; that of word 0 where it names no
/// header.
fn put_places(table: &OakTable, slots: &[SortSlot], words: &mut [u32])
    requires slots { length words.old ≤ length slots.now }
    requires words { ArePlainWords (sizes table.now) words.old }
    ensures { ArePlainWords (sizes table.now) words.new }
{
    for i in 0..words.len() {
        let header = header_in(slots[i].value);
        if header < table.headers() {
            words[i] = table.place_at(header);
        }
    }
}

/// Loads where each value lies, and puts the number of its first word there.
fn follow_places(table: &OakTable, pass: &mut Pass, words: &mut [u32])
    requires own { IsPassOf table.now pass.old }
    requires words { ArePlainWords (sizes table.now) words.old }
    ensures own { Stays pass.old pass.new }
    ensures only { OnlyMeets (call_of pass.old) (state pass.old) (state pass.new) }
    ensures words { ArePlainWords (sizes table.now) words.new }
{
    let mut near = blocks_of(table, Class::B16);
    for i in 0..words.len() {
        let place = load(table, pass, words[i]);
        words[i] = start_of_block(table, &mut near, place);
    }
}

/// Loads these words.
fn load_all(table: &OakTable, pass: &mut Pass, words: &[u32])
    requires own { IsPassOf table.now pass.old }
    requires words { ArePlainWords (sizes table.now) words.now }
    ensures own { Stays pass.old pass.new }
    ensures only { OnlyMeets (call_of pass.old) (state pass.old) (state pass.new) }
{
    for &word in words {
        load(table, pass, word);
    }
}

/// Loads ahead what the pairs of the first slots are read from, as many as there are numbers of words, in whose places it
/// keeps those that it goes by.
fn load_slots_ahead(table: &OakTable, pass: &mut Pass, words: &mut [u32])
    requires own { IsPassOf table.now pass.old }
    requires few { length words.old ≤ GREATEST_ENTRIES }
    requires words { ArePlainWords (sizes table.now) words.old }
    ensures own { Stays pass.old pass.new }
    ensures only { OnlyMeets (call_of pass.old) (state pass.old) (state pass.new) }
{
    put_places(table, pass.sorting().slots(), words);
    follow_places(table, pass, words);
    load_all(table, pass, words);
}

/// How many numbers a short array has: room for the first batch of a scan, and mostly for the second.
const SHORT: usize = 8;

/// How many a longer one has, for a few batches more.
const LONGER: usize = 64;

/// Loads ahead what the pairs of the first so many slots are read from: where each header's value lies, and the first word
/// there, for the processor's caches alone. Nothing is asked of the header, and what is found is told to nobody. A pin
/// waits for all loads before it, and no load behind it begins sooner, so the first loads of pairs that are pinned one
/// behind another never overlap; those made here do. They stand in loops of their own, with the numbers of their words in
/// an array, since the less there is to do between two such loads, the more of them overlap. All of an array is cleared
/// first, so a batch of few pairs has a short one.
pub(crate) fn load_batch_ahead(table: &OakTable, pass: &mut Pass, filled: usize)
    requires own { IsPassOf table.now pass.old }
    requires few { filled ≤ GREATEST_ENTRIES }
    ensures own { Stays pass.old pass.new }
    ensures only { OnlyMeets (call_of pass.old) (state pass.old) (state pass.new) }
{
    if filled <= SHORT {
        load_slots_ahead(table, pass, &mut [0; SHORT][..filled]);
    } else if filled <= LONGER {
        load_slots_ahead(table, pass, &mut [0; LONGER][..filled]);
    } else {
        load_slots_ahead(table, pass, &mut [0; GREATEST_ENTRIES as usize][..filled]);
    }
}
