//! A key that was loaded whole.
ghost use Rattle.std.specs.Prelude.{◌≡◌, ℕ, List};
ghost use Rattle.oak_model.specs.Key.{IsKey, key_cmp};
ghost use Rattle.chunk_ops.specs.Stored.{IsStored};

use arena_core::words::{WORD, word_from};
use oak_model::GREATEST_KEY;
use std::cmp::Ordering;

/// The words of the longest key.
pub const KEY_WORDS: usize = GREATEST_KEY / WORD;

/// A key as its words, with zeros behind the last byte, and its length. Their order is that of the keys.
#[derive(Clone, Copy, Debug, PartialEq, Eq, PartialOrd, Ord)]
pub struct StoredKey {
    words: [u64; KEY_WORDS],
    length: usize,
}

impl StoredKey {
    /// The key that has these bytes.
    pub fn of(key: &[u8]) -> StoredKey
        requires { IsKey key.now }
        ensures { IsStored result key.now }
    {
        let mut words = [0; KEY_WORDS];
        for i in 0..key.len().div_ceil(WORD) {
            words[i] = word_from(key, i);
        }
        StoredKey {
            words,
            length: key.len(),
        }
    }

    /// The key of these words and of this length.
    pub fn from_words(words: [u64; KEY_WORDS], length: usize) -> StoredKey
        ensures { result ≡ record { words = words; length = length } }
    {
        StoredKey { words, length }
    }

    /// Its length in bytes, and its words.
    pub fn parts(&self) -> (usize, [u64; KEY_WORDS])
        ensures { result ≡ record { 0 = self.now.length; 1 = self.now.words } }
    {
        (self.length, self.words)
    }

    /// How the key compares with another.
    pub fn order(&self, other: &StoredKey) -> Ordering
        ensures { (a b : List ℕ) → IsStored self.now a → IsStored other.now b → result ≡ key_cmp a b }
    {
        self.cmp(other)
    }
}
