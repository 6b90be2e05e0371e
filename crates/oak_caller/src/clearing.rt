//! Ranges of keys, removed.
ghost use Rattle.std.specs.Prelude.{◌≡◌, ◌-◌, ◌^◌, IfErr, IfOk, IfSome, OnErr, OnOk};
ghost use Rattle.oak_model.specs.Key.{IsKey};
ghost use Rattle.chunk_ops.specs.AskedRanges.{bytes_in_option};
ghost use Rattle.oak_caller.specs.Callers.{KeepsViews, last_of};
ghost use Rattle.oak_caller.specs.Clearing.{CallsMany, ClearsAll, ClearsPiece, FailsIn, FailsPiece, LastIf, RemovesAll, RemovesKey, WearsOut, at_count, removals};

use crate::caller::Caller;
use crate::turns::WornOut;
use oak_model::{Key, Wrote};
use std::sync::Wait;
use thiserror::Error;

/// How many keys are listed at a time.
const PIECE: usize = 64;

/// Why a range was not cleared to its end. So many of its keys were removed, and stay so.
#[derive(Clone, Copy, Debug, PartialEq, Eq, Error)]
pub enum NotCleared {
    #[error("the caller made as many writing calls as it may, and removed {removed} keys")]
    WornOut { removed: u64 },
    #[error("out of memory, behind {removed} removed keys")]
    OutOfMemory { removed: u64 },
}

impl<R: Wait + Drop + Send> Caller<'_, R> {
    /// Removes the keys between the bounds, and tells how many it removed; none is no bound. It is not one moment of the
    /// map: a few keys at a time are listed, in rising order, each read at a moment of its own, and then each of them is
    /// removed by a call of its own. A key that another caller puts meanwhile may stay, or be removed too. It takes memory
    /// for the keys that are listed at a time. The count stands still at 2^64 - 1.
    pub fn clear(
        &mut self,
        rt: &R,
        low: Option<&[u8]>,
        high: Option<&[u8]>,
    ) -> Result<u64, NotCleared>
    where
        R: AllocGlobal,
        requires low { IfSome low (λ k. IsKey k.now) }
        requires high { IfSome high (λ k. IsKey k.now) }
        ensures on { CallsMany self.old self.new }
        ensures views { KeepsViews self.old self.new }
        ensures cleared { IfOk result (λ n. ClearsAll (bytes_in_option low.entry) (bytes_in_option high.entry)
            (at_count 0 self.old) (at_count n self.new)) }
        ensures failed { IfErr result (λ e. FailsIn e (bytes_in_option low.entry) (bytes_in_option high.entry)
            (at_count 0 self.old) self.new) }
    {
        let mut removed = 0u64;
        let mut last = self.clear_piece(rt, low, high, &mut removed)?;
        for _ in rt.forever() {
            let Some(key) = last else {
                return Ok(removed);
            };
            last = self.clear_piece(rt, Some(key.bytes()), high, &mut removed)?;
        }
        unreachable!()
    }

    /// Lists the first keys of a range and removes them: the last of them, or none where there were no more.
    fn clear_piece(
        &mut self,
        rt: &R,
        low: Option<&[u8]>,
        high: Option<&[u8]>,
        removed: &mut u64,
    ) -> Result<Option<Key>, NotCleared>
    where
        R: AllocGlobal,
        requires low { IfSome low (λ k. IsKey k.now) }
        requires high { IfSome high (λ k. IsKey k.now) }
        ensures on { CallsMany self.old self.new }
        ensures views { KeepsViews self.old self.new }
        ensures cleared { IfOk result (λ o. ClearsPiece o (bytes_in_option low.entry) (bytes_in_option high.entry)
            (at_count removed.old self.old) (at_count removed.new self.new)) }
        ensures failed { IfErr result (λ e. FailsPiece e (bytes_in_option low.entry) (bytes_in_option high.entry)
            (at_count removed.old self.old) self.new) }
    {
        let mut keys = Vec::new(rt.alloc());
        let Ok(all) = self.add_keys(rt, low, high, PIECE, &mut keys) else {
            return Err(NotCleared::OutOfMemory { removed: *removed });
        };
        let Ok(()) = self.remove_all(rt, &keys, removed) else {
            return Err(NotCleared::WornOut { removed: *removed });
        };
        Ok(last_if(all, &mut keys))
    }

    /// Removes each of the keys.
    fn remove_all(&mut self, rt: &R, keys: &[Key], removed: &mut u64) -> Result<(), WornOut>
        ensures on { CallsMany self.old self.new }
        ensures views { KeepsViews self.old self.new }
        ensures removes { OnOk result (RemovesAll (at_count removed.old self.old) keys.now (at_count removed.new self.new)) }
        ensures worn { OnErr result (WearsOut (at_count removed.old self.old) keys.now (at_count removed.new self.new)) }
    {
        for key in keys {
            self.remove_one(rt, key.bytes(), removed)?;
        }
        Ok(())
    }

    /// Removes a key, and counts it where it was present.
    fn remove_one(&mut self, rt: &R, key: &[u8], removed: &mut u64) -> Result<(), WornOut>
        requires key { IsKey key.now }
        ensures removes { OnOk result (RemovesKey (at_count removed.old self.old) key.now (at_count removed.new self.new)) }
        ensures worn { OnErr result (last_of self.old ≡ 2 ^ 32 - 1) }
        ensures nothing { OnErr result (self.new ≡ self.old) }
        ensures same { OnErr result (removed.new ≡ removed.old) }
    {
        let said = self.remove(rt, key)?;
        *removed = removed.saturating_add(removals(said));
        Ok(())
    }
}

/// How many keys a removal took out.
fn removals(said: Wrote) -> u64
    ensures { result ≡ removals said }
{
    match said {
        Wrote::Removed { at: _ } => 1,
        _ => 0,
    }
}

/// The last of the keys, which is taken off, or none where these were all.
fn last_if(all: bool, keys: &mut Vec<Key>) -> Option<Key>
    ensures { LastIf all keys.old.items result }
{
    if all { None } else { keys.pop() }
}
