//! The search for a block whose bit is clear.
ghost use Rattle.std.specs.Prelude.{◌≡◌, ◌≤◌, ◌<◌, ◌+◌, ◌*◌, ◌/◌, ◌%◌, ℕ, true, false, MatchBool, IfSome, IfNone, slice_index};
ghost use Rattle.std.specs.Int.{bit_at};
ghost use Rattle.oak_model.specs.Class.{class_number};
ghost use Rattle.arena_core.specs.Arena.{blocks, bit_words};
ghost use Rattle.oak_core.specs.ArenaCalls.{Sets};
ghost use Rattle.oak_core.specs.Passes.{IsPassOf, Stays, state, key, call_of, searches};
ghost use Rattle.arena_ops.specs.Looking.{Looked};
ghost use Rattle.arena_ops.specs.Taking.{Takes, FindsNone};

use oak_core::steps::take_bit;
use oak_core::{OakTable, Pass, load};
use oak_model::Class;

/// The bits of a word.
const BITS: u32 = 64;

fn is_set(word: u64, bit: u32) -> bool
    requires { bit < BITS }
    ensures { MatchBool result (bit_at word bit ≡ 1) (bit_at word bit ≡ 0) }
{
    word >> bit & 1 == 1
}

/// The bits of word `i` that are those of blocks, of which there are `count`.
#[tactic(auto, using(crate::proofs::MaskFacts::low_bit, crate::proofs::MaskFacts::high_bit, crate::proofs::MaskFacts::all_bits))]
fn bits_of_blocks(count: u32, i: u32) -> u64
    requires { i * BITS < count }
    ensures blocks { (k : ℕ) → k < BITS → i * BITS + k < count → bit_at result k ≡ 1 }
    ensures others { (k : ℕ) → k < BITS → count ≤ i * BITS + k → bit_at result k ≡ 0 }
{
    let left = count - i * BITS;
    if left < BITS {
        (1 << left) - 1
    } else {
        u64::MAX
    }
}

/// Sets the bit of a block, and gives the word of bits that was found.
fn set_bit(table: &OakTable, pass: &mut Pass, class: Class, block: u32) -> u64
    requires own { IsPassOf table.now pass.old }
    requires inside { block < blocks (key table.now) (class_number class) }
    ensures own { Stays pass.old pass.new }
    ensures told { Sets (key table.now) (call_of pass.old) class block (state pass.old) result (state pass.new) }
{
    let word = table.bits_at(class, block / BITS);
    take_bit(table, pass, word, 1 << (block % BITS))
}

/// Takes this block, if its bit is clear.
fn take_one(table: &OakTable, pass: &mut Pass, class: Class, block: u32) -> bool
    requires own { IsPassOf table.now pass.old }
    requires inside { block < blocks (key table.now) (class_number class) }
    ensures own { Stays pass.old pass.new }
    ensures taken { result ≡ true → Takes (key table.now) (call_of pass.old) class block (state pass.old) (state pass.new) }
    ensures set { result ≡ false → Looked (key table.now) (call_of pass.old) class (state pass.old) (state pass.new) (λ b. b ≡ block) }
{
    let found = set_bit(table, pass, class, block);
    !is_set(found, block % BITS)
}

/// Takes the block at which the pass's search begins, if there is one and its bit is clear.
fn take_next(table: &OakTable, pass: &mut Pass, class: Class) -> Option<u32>
    requires own { IsPassOf table.now pass.old }
    ensures own { Stays pass.old pass.new }
    ensures taken { IfSome result (λ b. Takes (key table.now) (call_of pass.old) class b (state pass.old) (state pass.new)) }
    ensures here { IfSome result (λ b. b ≡ slice_index (searches pass.old) (class_number class)) }
    ensures none { IfNone result (Looked (key table.now) (call_of pass.old) class (state pass.old) (state pass.new)
        (λ b. b ≡ slice_index (searches pass.old) (class_number class))) }
{
    let next = pass.search(class);
    if next >= table.blocks(class) {
        return None;
    }
    if !take_one(table, pass, class, next) {
        return None;
    }
    Some(next)
}

/// Takes a block of word `i` of the bits of the class. Each try finds one bit more set, so there are at
/// most as many as the word has bits.
fn take_in_word(table: &OakTable, pass: &mut Pass, class: Class, i: u32) -> Option<u32>
    requires own { IsPassOf table.now pass.old }
    requires inside { i < bit_words (key table.now) (class_number class) }
    ensures own { Stays pass.old pass.new }
    ensures taken { IfSome result (λ b. Takes (key table.now) (call_of pass.old) class b (state pass.old) (state pass.new)) }
    ensures here { IfSome result (λ b. b / BITS ≡ i) }
    ensures none { IfNone result (Looked (key table.now) (call_of pass.old) class (state pass.old) (state pass.new) (λ b. b / BITS ≡ i)) }
{
    let word = table.bits_at(class, i);
    let mut clear = bits_of_blocks(table.blocks(class), i) & !load(table, pass, word);
    while clear != 0 {
        let block = i * BITS + clear.trailing_zeros();
        let found = set_bit(table, pass, class, block);
        if !is_set(found, block % BITS) {
            return Some(block);
        }
        clear &= !found;
    }
    None
}

/// Takes a block of the words from `from` on, and below `to`. Few searches come to it.
#[inline(never)]
fn take_between(table: &OakTable, pass: &mut Pass, class: Class, from: u32, to: u32) -> Option<u32>
    requires own { IsPassOf table.now pass.old }
    requires inside { to ≤ bit_words (key table.now) (class_number class) }
    ensures own { Stays pass.old pass.new }
    ensures taken { IfSome result (λ b. Takes (key table.now) (call_of pass.old) class b (state pass.old) (state pass.new)) }
    ensures here { IfSome result (λ b. (from ≤ b / BITS) × (b / BITS < to)) }
    ensures none { IfNone result (Looked (key table.now) (call_of pass.old) class (state pass.old) (state pass.new)
        (λ b. (from ≤ b / BITS) × (b / BITS < to))) }
{
    for i in from..to {
        if let Some(block) = take_in_word(table, pass, class, i) {
            return Some(block);
        }
    }
    None
}

/// Takes a block of the class. The search begins where the pass's last one ended, with the block
/// behind the one taken there, and goes round once.
#[inline(always)] // an answer goes through memory at a call
pub(crate) fn search(table: &OakTable, pass: &mut Pass, class: Class) -> Option<u32>
    requires own { IsPassOf table.now pass.old }
    ensures own { Stays pass.old pass.new }
    ensures taken { IfSome result (λ b. Takes (key table.now) (call_of pass.old) class b (state pass.old) (state pass.new)) }
    ensures none { IfNone result (FindsNone (key table.now) (call_of pass.old) class (state pass.old) (state pass.new)) }
{
    let words = table.bit_words(class);
    let first = (pass.search(class) / BITS).min(words);
    if let Some(block) = take_next(table, pass, class) {
        return Some(block);
    }
    if let Some(block) = take_between(table, pass, class, first, words) {
        return Some(block);
    }
    take_between(table, pass, class, 0, first)
}
