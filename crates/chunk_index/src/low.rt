//! The minimum of a chunk, with the chunk's room.
ghost use Rattle.std.specs.Prelude.{◌≡◌, true};
ghost use Rattle.std.specs.declared.cmp.Ordering.TheVariants.{Less, Greater};
ghost use Rattle.oak_model.specs.Key.{IsKey, key_cmp};
ghost use Rattle.chunk_index.specs.Heads.{key_head};
ghost use Rattle.chunk_index.specs.Lows.{comes, is_apart};

use crate::heads::head_of;
use oak_model::{GREATEST_KEY, cmp_keys};
use std::cmp::Ordering;
use std::marker::Model;

/// The minimum of a chunk, 1 to [`GREATEST_KEY`] bytes, with its head, and its room. The bytes stand in line, so a
/// second one takes no memory.
#[derive(Drop)]
pub struct Low {
    head: u64,
    room: u32,
    length: usize,
    bytes: [u8; GREATEST_KEY],
}

impl Model for Low {
    ghost use Rattle.std.specs.Prelude.{◌≡◌, ◌≤◌, take};
    ghost use Rattle.oak_model.specs.declared.limits.TheConstants.{GREATEST_KEY};
    ghost use Rattle.oak_model.specs.Key.{AreBytes};
    ghost use Rattle.chunk_index.specs.Heads.{key_head};
    ghost use Rattle.chunk_index.specs.Lows.{Low as Pair};

    ghost Value = { Pair };

    ghost view = { λ l. (take l.length l.bytes, l.room) };

    ghost invariant = { λ l. (l.length ≤ GREATEST_KEY) × AreBytes (take l.length l.bytes) × (l.head ≡ key_head (take l.length l.bytes)) };
}

impl Low {
    /// The pair of a minimum and a room.
    pub fn new(minimum: &[u8], room: u32) -> Low
        requires { IsKey minimum.now }
        ensures { result ≡ (minimum.now, room) }
    {
        let mut bytes = [0; GREATEST_KEY];
        bytes[..minimum.len()].copy_from_slice(minimum);
        Low {
            head: head_of(minimum),
            bytes,
            length: minimum.len(),
            room,
        }
    }

    /// The same pair a second time.
    pub fn copy(&self) -> Low
        ensures { result ≡ self.now }
    {
        Low {
            head: self.head,
            bytes: self.bytes,
            length: self.length,
            room: self.room,
        }
    }

    /// The bytes of the minimum.
    pub fn minimum(&self) -> &[u8]
        ensures { result.now ≡ self.now.0 }
    {
        &self.bytes[..self.length]
    }

    /// The head of the minimum.
    pub fn head(&self) -> u64
        ensures { result ≡ key_head self.now.0 }
    {
        self.head
    }

    /// The room of the chunk.
    pub fn room(&self) -> u32
        ensures { result ≡ self.now.1 }
    {
        self.room
    }

    /// The order of the minimum and a key with this head. The bytes are compared only where the heads are the same.
    pub fn cmp_key(&self, head: u64, key: &[u8]) -> Ordering
        requires { head ≡ key_head key.now }
        ensures { result ≡ key_cmp self.now.0 key.now }
    {
        match self.head.cmp(&head) {
            Ordering::Equal => cmp_keys(self.minimum(), key),
            apart => apart,
        }
    }

    /// Whether the heads alone tell that the minimum comes before a key with this head.
    pub fn is_below(&self, head: u64, key: &[u8]) -> bool
        requires { head ≡ key_head key.now }
        ensures { result ≡ true → key_cmp self.now.0 key.now ≡ Less }
    {
        self.head < head
    }

    /// Whether the heads alone tell that the minimum comes behind a key with this head.
    pub fn is_above(&self, head: u64, key: &[u8]) -> bool
        requires { head ≡ key_head key.now }
        ensures { result ≡ true → key_cmp self.now.0 key.now ≡ Greater }
    {
        self.head > head
    }

    /// Whether the minimum comes before a key with this head, or is the key, where that is asked.
    pub fn comes(&self, head: u64, key: &[u8], equal: bool) -> bool
        requires { head ≡ key_head key.now }
        ensures { result ≡ comes equal key.now self.now }
    {
        let order = self.cmp_key(head, key);
        if equal { order.is_le() } else { order.is_lt() }
    }

    /// Whether the other has neither this room nor this minimum.
    pub fn is_apart(&self, other: &Low) -> bool
        ensures { result ≡ is_apart self.now other.now }
    {
        other.room != self.room && other.cmp_key(self.head, self.minimum()) != Ordering::Equal
    }
}
