//! The minima of the chunks, in their order.
ghost use Rattle.std.specs.Prelude.{◌≡◌, ◌≤◌, ◌<◌, ◌-◌, IfOk, MatchOption, MatchResult, Bool, true, false, filter, length, []};
ghost use Rattle.std.specs.List.{HoldsAt, slice_index_or};
ghost use Rattle.std.specs.Option.{option_copied};
ghost use Rattle.std.specs.declared.cmp.Ordering.TheVariants.{Less, Greater};
ghost use Rattle.std.specs.List.Sorted.{IsPartitionPoint};
ghost use Rattle.std.specs.Vec.{vec_len, vec_capacity};
ghost use Rattle.oak_model.specs.Key.{key_cmp};
ghost use Rattle.chunk_index.specs.Heads.{key_head};
ghost use Rattle.chunk_index.specs.Lows.{Low as Pair, IsRising, NamesGreatest, comes, comes_under, comes_upto, is_apart, set_low};

use crate::heads::{Heads, head_of};
use crate::low::Low;
use left_right::Absorb;
use oak_model::Hint;
use std::alloc::{AllocError, Global};
use std::marker::Model;

/// The minima of all chunks but the lowest, in the order of keys, each once and with its room. No two have one room. A
/// search goes over their heads, which lie side by side, and then looks at the two minima beside the place.
#[derive(Drop)]
pub struct Lows {
    lows: Vec<Low>,
    heads: Heads,
}

impl Model for Lows {
    ghost use Rattle.std.specs.Prelude.{List};
    ghost use Rattle.chunk_index.specs.Lows.{Low as Pair, IsOnePerRoom, IsRising};

    ghost Value = { List Pair };

    ghost view = { λ s. s.lows.items };

    ghost invariant = { λ s. IsRising s.lows.items × IsOnePerRoom s.lows.items };
}

/// Takes out the pair of this room, and that of this minimum. No memory is given back.
fn keep_apart(lows: &mut Vec<Low>, low: &Low)
    ensures kept { lows.new.items ≡ filter (is_apart low.now) lows.old.items }
    ensures fewer { vec_len lows.new ≤ vec_len lows.old }
    ensures capacity { vec_capacity lows.new ≡ vec_capacity lows.old }
{
    lows.retain(|other| low.is_apart(other));
}

impl Lows {
    /// None yet, with memory for so many.
    pub fn new(alloc: Global, chunks: u32) -> Result<Lows, AllocError>
        ensures { IfOk result (λ s. s ≡ []) }
    {
        let lows = Vec::with_capacity(alloc, chunks as usize)?;
        let heads = Heads::new(alloc, chunks)?;
        Ok(Lows { lows, heads })
    }

    /// How many minima come before a key with this head, or are not above it, where `equal`.
    fn count(&self, head: u64, key: &[u8], equal: bool) -> usize
        requires head { head ≡ key_head key.now }
        ensures few { result ≤ length self.now }
        ensures point { IsPartitionPoint (λ p. comes equal key.now p ≡ true) (λ p. comes equal key.now p ≡ false) self.now result }
    {
        self.lows.partition_point(|low| low.comes(head, key, equal))
    }

    /// Whether the last of the first so many minima, where there is one, comes before a key with this head, or is not
    /// above it, where `equal`.
    fn comes_last(&self, head: u64, key: &[u8], equal: bool, count: usize) -> bool
        requires head { head ≡ key_head key.now }
        requires few { count ≤ length self.now }
        ensures { result ≡ true → 0 < count → (d : Pair) → comes equal key.now (slice_index_or self.now (count - 1) d) ≡ true }
    {
        if count == 0 {
            return true;
        }
        self.lows[count - 1].comes(head, key, equal)
    }

    /// Whether the minimum behind the first so many, where there is one, does not come before a key with this head, or
    /// is above it, where `equal`.
    fn stays_behind(&self, head: u64, key: &[u8], equal: bool, count: usize) -> bool
        requires head { head ≡ key_head key.now }
        requires few { count ≤ length self.now }
        ensures { result ≡ true → count < length self.now → (d : Pair) → comes equal key.now (slice_index_or self.now count d) ≡ false }
    {
        if count == self.lows.len() {
            return true;
        }
        !self.lows[count].comes(head, key, equal)
    }

    /// Whether just so many minima come before a key with this head, or are not above it, where `equal`.
    fn parts(&self, head: u64, key: &[u8], equal: bool, count: usize) -> bool
        requires head { head ≡ key_head key.now }
        ensures few { result ≡ true → count ≤ length self.now }
        ensures point { result ≡ true → IsPartitionPoint (λ p. comes equal key.now p ≡ true) (λ p. comes equal key.now p ≡ false) self.now count }
    {
        if count > self.lows.len() {
            return false;
        }
        if !self.comes_last(head, key, equal, count) {
            return false;
        }
        self.stays_behind(head, key, equal, count)
    }

    /// Whether the heads alone tell that the last of the first so many minima, where there is one, comes before a key with
    /// this head.
    fn is_last_below(&self, head: u64, key: &[u8], count: usize) -> bool
        requires head { head ≡ key_head key.now }
        requires few { count ≤ length self.now }
        ensures { result ≡ true → 0 < count → (d : Pair) → key_cmp (slice_index_or self.now (count - 1) d).0 key.now ≡ Less }
    {
        if count == 0 {
            return true;
        }
        self.lows[count - 1].is_below(head, key)
    }

    /// Whether the heads alone tell that the minimum behind the first so many, where there is one, comes behind a key with
    /// this head.
    fn is_next_above(&self, head: u64, key: &[u8], count: usize) -> bool
        requires head { head ≡ key_head key.now }
        requires few { count ≤ length self.now }
        ensures { result ≡ true → count < length self.now → (d : Pair) → key_cmp (slice_index_or self.now count d).0 key.now ≡ Greater }
    {
        if count == self.lows.len() {
            return true;
        }
        self.lows[count].is_above(head, key)
    }

    /// Whether the heads alone tell that just so many minima come before a key with this head, and that it is none of them.
    fn parts_by_heads(&self, head: u64, key: &[u8], count: usize) -> bool
        requires head { head ≡ key_head key.now }
        ensures few { result ≡ true → count ≤ length self.now }
        ensures point { result ≡ true → (equal : Bool)
            → IsPartitionPoint (λ p. comes equal key.now p ≡ true) (λ p. comes equal key.now p ≡ false) self.now count }
    {
        if count > self.lows.len() {
            return false;
        }
        if !self.is_last_below(head, key, count) {
            return false;
        }
        self.is_next_above(head, key, count)
    }

    /// How many minima come before a key with this head, or are not above it, where `equal`, by their bytes: those beside
    /// so many are looked at, and beside the next, before those of all are halved.
    fn count_from(&self, head: u64, key: &[u8], equal: bool, near: usize) -> usize
        requires head { head ≡ key_head key.now }
        ensures few { result ≤ length self.now }
        ensures point { IsPartitionPoint (λ p. comes equal key.now p ≡ true) (λ p. comes equal key.now p ≡ false) self.now result }
    {
        if self.parts(head, key, equal, near) {
            return near;
        }
        let next = if equal {
            near.saturating_add(1)
        } else {
            near.saturating_sub(1)
        };
        if self.parts(head, key, equal, next) {
            return next;
        }
        self.count(head, key, equal)
    }

    /// How many minima come before a key with this head, or are not above it, where `equal`, as [`Lows::count_from`] tells
    /// it. It is tried first whether just so many do.
    #[inline(never)]
    fn count_by_bytes(&self, head: u64, key: &[u8], equal: bool, count: usize, near: usize) -> usize
        requires head { head ≡ key_head key.now }
        ensures few { result ≤ length self.now }
        ensures point { IsPartitionPoint (λ p. comes equal key.now p ≡ true) (λ p. comes equal key.now p ≡ false) self.now result }
    {
        if self.parts(head, key, equal, count) {
            return count;
        }
        self.count_from(head, key, equal, near)
    }

    /// How many minima come before the key, or are not above it, where `equal`. The heads tell it, but where one of them
    /// is the key's too.
    #[inline(never)]
    fn count_near(&self, key: &[u8], equal: bool, near: usize) -> usize
        ensures few { result ≤ length self.now }
        ensures point { IsPartitionPoint (λ p. comes equal key.now p ≡ true) (λ p. comes equal key.now p ≡ false) self.now result }
    {
        let head = head_of(key);
        let upto = if equal { head } else { head.saturating_sub(1) };
        let count = self.heads.count_by_heads(upto, near);
        if self.parts_by_heads(head, key, count) {
            return count;
        }
        self.count_by_bytes(head, key, equal, count, near)
    }

    /// How many minima come before the bound; without one all do.
    fn count_under(&self, bound: Option<&[u8]>, near: usize) -> usize
        ensures few { result ≤ length self.now }
        ensures point { IsPartitionPoint (λ p. comes_under (option_copied bound.entry) p ≡ true)
            (λ p. comes_under (option_copied bound.entry) p ≡ false) self.now result }
    {
        match bound {
            Some(key) => self.count_near(key, false, near),
            None => self.lows.len(),
        }
    }

    /// The heads of the minima, with their rooms.
    pub fn heads(&self) -> &Heads {
        &self.heads
    }

    /// The room of the last of the first so many minima.
    fn room_before(&self, count: usize) -> Option<u32>
        requires { count ≤ length self.now }
        ensures room { MatchOption result (count ≡ 0) (λ r. (0 < count) × HoldsAt (λ p. p.1 ≡ r) self.now (count - 1)) }
        ensures rising { IsRising self.now }
    {
        self.lows[..count].last().map(|low| low.room())
    }

    /// The room of the greatest minimum that is not above the key. It is looked for first where the search before it
    /// ended, behind so many minima, and it is told where this one did.
    pub fn hint(&self, key: &[u8], near: usize) -> (Hint, usize)
        ensures { NamesGreatest (comes_upto key.now) self.now result.0.room }
    {
        let count = self.count_near(key, true, near);
        let room = self.room_before(count);
        (Hint { room }, count)
    }

    /// The room of the greatest minimum that comes before the bound, and without a bound that of the greatest one. It is
    /// looked for first where the search before it ended, as in [`Lows::hint`].
    pub fn hint_under(&self, bound: Option<&[u8]>, near: usize) -> (Hint, usize)
        ensures { NamesGreatest (comes_under (option_copied bound.entry)) self.now result.0.room }
    {
        let count = self.count_under(bound, near);
        let room = self.room_before(count);
        (Hint { room }, count)
    }

    /// Sets a pair: those of its room and of its minimum are taken out, and it stands at its place. Where there is no
    /// memory all stays.
    fn set(&mut self, low: Low) -> Result<(), AllocError>
        ensures { MatchResult result (λ _. self.new ≡ set_low self.old low) (λ _. self.new ≡ self.old) }
    {
        self.lows.reserve(1)?;
        keep_apart(&mut self.lows, &low);
        let place = self.count(low.head(), low.minimum(), false);
        let set = self.lows.insert(place, low).map_err(|_| AllocError);
        self.heads.take(self.lows.as_slice(), place);
        set
    }
}

impl Absorb<Low> for Lows {
    type State = Lows;

    ghost state = { λ s. s };

    ghost applied = { set_low };

    fn absorb_first(&mut self, operation: &Low, _other: &Lows) -> Result<(), AllocError> {
        self.set(operation.copy())
    }
}
