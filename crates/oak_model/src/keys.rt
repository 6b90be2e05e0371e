//! Keys and their order.
ghost use Rattle.std.specs.Prelude.{◌≡◌, ◌↔◌, nat_eq, IfOk, IsTrue};
ghost use Rattle.std.proofs.Common.{rules};
ghost use Rattle.std.specs.Ordering.{as_partial_cmp};
ghost use Rattle.std.specs.Cmp.Rules.{comparing};
ghost use Rattle.std.specs.Cmp.Lexicographic.{pointwise, nat_list_cmp_total};
ghost use Rattle.oak_model.specs.Key.{IsKey, is_key, key_cmp};

use crate::limits::GREATEST_KEY;
use crate::memory::OutOfMemory;
use std::alloc::Global;
use std::cmp::Ordering;
use std::marker::Model;

/// The order of keys: byte by byte as unsigned numbers, and a proper prefix comes first.
pub fn cmp_keys(a: &[u8], b: &[u8]) -> Ordering
    ensures { result ≡ key_cmp a.now b.now }
{
    a.cmp(b)
}

/// Whether the bytes can be a key: 1 to [`GREATEST_KEY`] of them.
pub fn is_key(bytes: &[u8]) -> bool
    ensures test { result ≡ is_key bytes.now }
    ensures key { IsTrue result ↔ IsKey bytes.now }
{
    !bytes.is_empty() && bytes.len() <= GREATEST_KEY
}

/// The bytes of a key, 1 to [`GREATEST_KEY`] of them.
#[derive(Debug, Drop)]
pub struct Key {
    bytes: Vec<u8>,
}

impl Model for Key {
    ghost use Rattle.std.specs.Prelude.{List, ℕ};
    ghost use Rattle.oak_model.specs.Key.{IsKey};

    ghost Value = { List ℕ };

    ghost view = { λ k. k.bytes.items };

    ghost invariant = { λ k. IsKey k.bytes.items };
}

impl Key {
    /// A key of these bytes.
    pub fn make(alloc: Global, bytes: &[u8]) -> Result<Key, OutOfMemory>
        requires { IsKey bytes.now }
        ensures { IfOk result (λ k. k ≡ bytes.now) }
    {
        let bytes = Vec::from_slice(alloc, bytes)?;
        Ok(Key { bytes })
    }

    /// The bytes of the key.
    pub fn bytes(&self) -> &[u8]
        ensures value { result.now ≡ self.now }
        ensures key { IsKey self.now }
    {
        self.bytes.as_slice()
    }

    /// A second key of the same bytes.
    pub fn copy(&self, alloc: Global) -> Result<Key, OutOfMemory>
        ensures { IfOk result (λ k. k ≡ self.now) }
    {
        Key::make(alloc, self.bytes.as_slice())
    }
}

impl PartialEq for Key {
    ghost eq = { pointwise nat_eq };

    ghost laws = { Prim.search (comparing, rules) };

    fn eq(&self, other: &Key) -> bool {
        self.bytes == other.bytes
    }
}

impl Eq for Key {
    ghost laws = { Prim.search (comparing, rules) };
}

impl Ord for Key {
    ghost cmp = { key_cmp };

    ghost total = { nat_list_cmp_total };

    ghost matches_partial_cmp = { Prim.search (comparing, rules) };

    ghost matches_eq = { Prim.search (comparing, rules) };

    fn cmp(&self, other: &Key) -> Ordering {
        self.bytes.cmp(&other.bytes)
    }
}

impl PartialOrd for Key {
    ghost partial_cmp = { as_partial_cmp key_cmp };

    ghost laws = { Prim.search (comparing, rules) };

    fn partial_cmp(&self, other: &Key) -> Option<Ordering> {
        Some(self.cmp(other))
    }
}
