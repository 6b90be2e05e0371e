//! How a key compares with that of an entry.
ghost use Rattle.std.specs.Prelude.{◌≡◌, ℕ, ◌*◌, ◌<◌, [], ◌∷◌, length};
ghost use Rattle.std.specs.Ordering.{nat_cmp};
ghost use Rattle.oak_model.specs.Key.{key_cmp};
ghost use Rattle.chunk_ops.specs.Comparing.{AreTied, Loaded};
ghost use Rattle.chunk_ops.specs.Reads.{Reads, LoadsKey, Compares, met_block};
ghost use Rattle.chunk_ops.specs.Room.{HasFound, key_at};
ghost use Rattle.arena_core.specs.Words.{word_at};

use crate::room::SearchedRoom;
use arena_core::place::length_in;
use arena_core::words::{WORD, first_bytes, word_from};
use std::cmp::Ordering;

/// Compares the bytes in word `i`, as numbers, with zeros behind the last bytes.
#[inline(always)]
fn compare_word<R: SearchedRoom>(room: &mut R, key: &[u8], place: u64, i: usize) -> Ordering
    requires pinned { R.pinned room.old }
    requires ours { WORD * i < length key.now }
    requires theirs { (e : ℕ) × HasFound (R.room room.old) e × (place ≡ (R.room room.old).place e)
        × (WORD * i < length (key_at (R.room room.old) e)) }
    ensures pinned { R.pinned room.new }
    ensures same { R.room room.new ≡ R.room room.old }
    ensures order { (e : ℕ) → HasFound (R.room room.old) e → place ≡ (R.room room.old).place e
        → result ≡ nat_cmp (word_at key.now i) (word_at (key_at (R.room room.old) e) i) }
    ensures meets { (n : ℕ) × R.meets room.old room.new (met_block place i n ∷ []) }
{
    let left = length_in(place) - WORD * i;
    let word = first_bytes(room.block_word(place, i), left);
    word_from(key, i).cmp(&word)
}

/// The first word of a key, with zeros behind its last byte.
pub(crate) fn head_of(key: &[u8]) -> u64
    ensures { 0 < length key.now → result ≡ word_at key.now 0 }
{
    if key.is_empty() {
        return 0;
    }
    word_from(key, 0)
}

/// How the key compares with that of an entry, of which this is the key word and whose first `from` words are the key's too.
/// It stands out of line, as few keys are compared that far.
#[inline(never)]
fn compare_behind<R: SearchedRoom>(room: &mut R, key: &[u8], place: u64, from: usize) -> Ordering
    requires pinned { R.pinned room.old }
    requires tied { (e : ℕ) × HasFound (R.room room.old) e × (place ≡ (R.room room.old).place e)
        × AreTied from key.now (key_at (R.room room.old) e) }
    ensures pinned { R.pinned room.new }
    ensures same { R.room room.new ≡ R.room room.old }
    ensures order { (e : ℕ) → HasFound (R.room room.old) e → place ≡ (R.room room.old).place e
        → AreTied from key.now (key_at (R.room room.old) e) → result ≡ key_cmp key.now (key_at (R.room room.old) e) }
    ensures loads { (s : _) (e : ℕ) → HasFound (R.room room.old) e → place ≡ (R.room room.old).place e
        → AreTied from key.now (key_at (R.room room.old) e) → Loaded R.meets e place from s room.old
        → LoadsKey R.meets e key.now (key_at (R.room room.old) e) s room.new }
{
    let length = length_in(place);
    for i in from..key.len().min(length).div_ceil(WORD) {
        let order = compare_word(room, key, place, i);
        if order.is_ne() {
            return order;
        }
    }
    key.len().cmp(&length)
}

/// The first word of the key of an entry of which this is the key word, with zeros behind the key's last byte.
#[inline(always)]
fn first_word<R: SearchedRoom>(room: &mut R, place: u64) -> u64
    requires pinned { R.pinned room.old }
    requires theirs { (e : ℕ) × HasFound (R.room room.old) e × (place ≡ (R.room room.old).place e)
        × (0 < length (key_at (R.room room.old) e)) }
    ensures pinned { R.pinned room.new }
    ensures same { R.room room.new ≡ R.room room.old }
    ensures word { (e : ℕ) → HasFound (R.room room.old) e → place ≡ (R.room room.old).place e
        → result ≡ word_at (key_at (R.room room.old) e) 0 }
    ensures meets { (n : ℕ) × R.meets room.old room.new (met_block place 0 n ∷ []) }
{
    let length = length_in(place);
    first_bytes(room.block_word(place, 0), length)
}

/// How the key, whose first word is `head`, compares with that of an entry. Each word of the entry's key is loaded at most
/// once, and none behind the first that differs. Most keys have eight bytes: there one word of each decides, with no
/// step more.
#[inline(always)]
pub(crate) fn compare<R: SearchedRoom>(room: &mut R, key: &[u8], head: u64, entry: u32) -> Ordering
    requires pinned { R.pinned room.old }
    requires found { HasFound (R.room room.old) entry }
    requires head { 0 < length key.now → head ≡ word_at key.now 0 }
    ensures reads { Reads R.pinned R.room R.meets (Compares key.now) 1 room.old room.new }
    ensures order { result ≡ key_cmp key.now (key_at (R.room room.old) entry) }
    ensures meets { LoadsKey R.meets entry key.now (key_at (R.room room.old) entry) room.old room.new }
{
    let place = room.key_word(entry);
    let length = length_in(place);
    if key.is_empty() || length < WORD {
        return compare_behind(room, key, place, 0);
    }
    let word = first_word(room, place);
    if head < word {
        return Ordering::Less;
    }
    if word < head {
        return Ordering::Greater;
    }
    if key.len() == WORD && length == WORD {
        return Ordering::Equal;
    }
    compare_behind(room, key, place, 1)
}
