//! The slots in which a pass puts the entries of a room in order.
ghost use Rattle.std.specs.Prelude.{◌≡◌, ◌<◌, ◌≤◌, slice_set, length, take};
ghost use Rattle.std.specs.List.{refill};
ghost use Rattle.std.specs.Borrow.{Lends, Array, sem};
ghost use Rattle.oak_model.specs.declared.limits.TheConstants.{GREATEST_ENTRIES};
ghost use Rattle.oak_core.specs.contracts.sorting.Sorting.{the_row};
ghost use Rattle.oak_core.specs.contracts.sorting.SortSlot.{the_row as slot_row};

use chunk_core::layout::BOUND_WORDS;
use oak_model::{GREATEST_ENTRIES, OutOfMemory};
use std::alloc::Global;
use std::marker::Model;

/// The words of the longest key.
const KEY_WORDS: usize = BOUND_WORDS - 1;

/// An entry with its key: the words of the key, with zeros behind its last byte, the key's length, and
/// the entry's key word and value word. Slots are in the order of their keys, where these differ.
#[derive(Clone, Copy, Debug, PartialEq, Eq, PartialOrd, Ord)]
pub struct SortSlot {
    pub words: [u64; KEY_WORDS],
    pub length: usize,
    pub key: u64,
    pub value: u64,
}

/// Slots for the entries of one room, which a pass has since it was made, to sort them in.
#[derive(Debug, Drop)]
pub struct Sorting {
    slots: Vec<SortSlot>,
}

impl Model for Sorting {
    ghost use Rattle.std.specs.Prelude.{List, ◌≡◌, length};
    ghost use Rattle.oak_model.specs.declared.limits.TheConstants.{GREATEST_ENTRIES};
    ghost use Rattle.oak_core.specs.declared.sorting.SortSlot.{SortSlot};

    ghost Value = { List SortSlot };

    ghost view = { λ s. s.slots.items };

    ghost invariant = { λ s. length s.slots.items ≡ GREATEST_ENTRIES };
}

impl Sorting {
    /// Slots of which each is as any other.
    pub(crate) fn make(alloc: Global) -> Result<Sorting, OutOfMemory> {
        let empty = SortSlot {
            words: [0; KEY_WORDS],
            length: 0,
            key: 0,
            value: 0,
        };
        let slots = vec![in alloc; empty; GREATEST_ENTRIES as usize]?;
        Ok(Sorting { slots })
    }

    /// All slots, as many as the largest room has entries.
    pub fn slots(&self) -> &[SortSlot]
        ensures slots { result.now ≡ self.now }
        ensures many { length result.now ≡ GREATEST_ENTRIES }
    {
        &self.slots
    }

    /// Slot `i` becomes `slot`.
    pub fn set(&mut self, i: usize, slot: SortSlot)
        requires { i < GREATEST_ENTRIES }
        ensures { self.new ≡ slice_set self.old i slot }
    {
        self.slots[i] = slot;
    }

    /// The first `n` slots, to be changed in place.
    pub fn front_mut(&mut self, n: usize) -> &mut [SortSlot]
        requires { n ≤ GREATEST_ENTRIES }
        ensures* writes_back { sem 𝓛 (Lends the_row (Array slot_row 0) self.entry result (refill (length self.old) self.old)) }
        ensures value { result.now ≡ take n self.old }
    {
        self.slots.slice_mut(..n)
    }
}
