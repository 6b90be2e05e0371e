//! The bytes of a key.
ghost use Rattle.std.specs.Prelude.{◌≡◌, ℕ, ◌≤◌, List, [], ◌∷◌, replicate, take};
ghost use Rattle.oak_model.specs.declared.limits.TheConstants.{GREATEST_KEY};
ghost use Rattle.oak_model.specs.Key.{IsKey};
ghost use Rattle.oak_model.specs.WordBytes.{bytes_of};
ghost use Rattle.chunk_ops.specs.Stored.{IsStored};

use crate::stored::{KEY_WORDS, StoredKey};
use arena_core::words::{WORD, key_in_place, put_word};
use oak_model::GREATEST_KEY;
use std::marker::Model;

/// The bytes of a key, one behind the other: a list of at most [`GREATEST_KEY`] bytes.
#[derive(Debug, Drop)]
pub struct KeyBytes {
    bytes: [u8; GREATEST_KEY],
    len: usize,
}

impl Model for KeyBytes {
    ghost use Rattle.std.specs.Prelude.{List, ℕ, take, ◌≡◌, ◌≤◌, length};
    ghost use Rattle.oak_model.specs.declared.limits.TheConstants.{GREATEST_KEY};

    ghost Value = { List ℕ };

    ghost view = { λ k. take k.len k.bytes };

    ghost invariant = { λ k. (length k.bytes ≡ GREATEST_KEY) × (k.len ≤ GREATEST_KEY) };
}

impl KeyBytes {
    /// The bytes of a stored key.
    pub fn of(key: &StoredKey) -> KeyBytes
        requires { key.now.length ≤ GREATEST_KEY }
        ensures { (b : List ℕ) → IsStored key.now b → result ≡ b }
    {
        let (len, words) = key.parts();
        KeyBytes::from_words(words, len)
    }

    /// The first `len` bytes that stand in these words.
    pub fn from_words(words: [u64; KEY_WORDS], len: usize) -> KeyBytes
        requires { len ≤ GREATEST_KEY }
        ensures { result ≡ take len (bytes_of words) }
    {
        let mut bytes = [0; GREATEST_KEY];
        for i in 0..len.div_ceil(WORD) {
            put_word(&mut bytes, i, words[i]);
        }
        KeyBytes { bytes, len }
    }

    /// Becomes the first `len` bytes that stand in these words. No more words are stored than have one of them.
    #[inline(always)]
    pub fn set_words(&mut self, words: &[u64; KEY_WORDS], len: usize)
        requires { len ≤ GREATEST_KEY }
        ensures { self.new ≡ take len (bytes_of words.now) }
    {
        for i in 0..len.div_ceil(WORD) {
            put_word(&mut self.bytes, i, words[i]);
        }
        self.len = len;
    }

    /// The bytes of a key, copied.
    pub fn from_key(key: &[u8]) -> KeyBytes
        requires { IsKey key.now }
        ensures { result ≡ key.now }
    {
        KeyBytes {
            bytes: key_in_place(key),
            len: key.len(),
        }
    }

    /// The bytes of the least key: the one byte 0.
    pub fn least() -> KeyBytes
        ensures { result ≡ 0 ∷ [] }
    {
        KeyBytes {
            bytes: [0; GREATEST_KEY],
            len: 1,
        }
    }

    /// The bytes of the greatest key: as many as a key may have, each 255.
    pub fn greatest() -> KeyBytes
        ensures { result ≡ replicate GREATEST_KEY 255 }
    {
        KeyBytes {
            bytes: [255; GREATEST_KEY],
            len: GREATEST_KEY,
        }
    }

    /// All of them.
    pub fn as_slice(&self) -> &[u8]
        ensures { result.now ≡ self.now }
    {
        &self.bytes[..self.len]
    }
}
