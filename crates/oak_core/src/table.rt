//! The table, and the passes that step on it.
ghost use Rattle.std.specs.Prelude.{◌≡◌, ◌<◌, ◌^◌, [], false};
ghost use Rattle.oak_core.specs.Memory.{word_count};
ghost use Rattle.oak_core.specs.Offsets.{offsets_of};

use crate::offsets::Offsets;
use crate::sorting::Sorting;
use crate::states::PassState;
use crate::writing::Writing;
use atomic_table::{Seat, Table, TableRule};
use chunk_index::IndexReader;
use oak_model::{CLASSES, Shape};
use std::alloc::Global;

/// How a table was opened: its sizes, and the generation at which its headers began.
#[derive(Clone, Copy, Debug)]
pub struct Opened {
    pub(crate) shape: Shape,
    pub(crate) generation: u32,
}

/// The rule under which the words stand: that of the definitions, for every state of the running table.
#[derive(Debug)]
pub struct OakRule;

impl TableRule<(), PassState, Opened> for OakRule {
    ghost use Rattle.oak_core.specs.Running.{Holds};
    ghost use Rattle.oak_core.specs.Opening.{first_state};

    ghost holds = { λ o. Holds o.shape o.generation };

    ghost first = { λ o. first_state o.shape o.generation };
}

/// A table of words, shared by its passes. One that is dropped gives back its words; what stood in them is told to
/// nobody, and passes of it may be left later.
#[derive(Drop)]
pub struct OakTable {
    pub(crate) table: Table<(), PassState, Opened, OakRule, Global>,
    pub(crate) shape: Shape,
    pub(crate) offsets: Offsets,
    ghost shape_is: { shape ≡ table.shared.key.shape },
    ghost offsets_are: { offsets ≡ offsets_of shape },
    ghost few: { word_count shape < 2 ^ 32 },
    ghost counted: { table.shared.table_id.words ≡ word_count shape },
    ghost bare: { table.shared.table_id.slots ≡ 0 },
}

/// A caller's token for a table. It is spent by [`Pass::join`], [`OakTable::close`] or [`Pass::leave`], and can't be
/// dropped.
pub struct Pass {
    pub(crate) seat: Seat<(), PassState>,
    pub(crate) call: u32,
    pub(crate) scratch: Writing,
    pub(crate) sorting: Sorting,
    pub(crate) searches: [u32; CLASSES],
    pub(crate) header_search: u32,
    pub(crate) tries: u64,
    pub(crate) reader: IndexReader,
    ghost idle: { seat.me.1 ≡ [] },
    ghost going: { seat.me.0.numbers.spent ≡ false },
}

impl OakTable {
    ghost use Rattle.std.specs.Prelude.{◌≤◌};
    ghost use Rattle.oak_model.specs.declared.limits.TheConstants.{GREATEST_PASSES};
    ghost use Rattle.oak_model.specs.Limits.{IsInLimits};
    ghost use Rattle.oak_core.specs.Passes.{key};

    /// The sizes of the table, which are within their limits.
    pub(crate) fn sizes(&self) -> &Shape
        ensures is { result.now ≡ key self.now }
        ensures limits { IsInLimits result.now }
    {
        // Reading a field shows that they are.
        let _passes = self.shape.passes;
        &self.shape
    }

    /// How many passes the table may have.
    pub fn passes(&self) -> u32
        ensures is { result ≡ (key self.now).passes }
        ensures some { 0 < result }
        ensures few { result ≤ GREATEST_PASSES }
    {
        self.shape.passes
    }
}
