//! A table that no pass steps on any more.
ghost use Rattle.std.specs.Prelude.{◌≡◌, ◌<◌};
ghost use Rattle.std.specs.Slots.{slots_len, IsFull};
ghost use Rattle.oak_core.specs.Memory.{word_count};

use crate::table::{OakTable, Pass};
use oak_model::Shape;
use std::alloc::Global;
use std::snapshot::Snapshot;

/// A closed table: its words, and what its last pass has seen, done and taken over from the others.
pub struct Closed {
    pub(crate) table: atomic_table::Closed<(), Global>,
    pub(crate) shape: Shape,
    pub(crate) last: Snapshot<Pass>,
    ghost full: { IsFull table.words },
    ghost counted: { slots_len table.words ≡ word_count shape },
    ghost bare: { slots_len table.slots ≡ 0 },
}

impl Drop for Closed {
    fn drop(self) {
        let Closed {
            table,
            shape: _,
            last: _,
        } = self;
        table.free();
    }
}

impl OakTable {
    ghost use Rattle.oak_core.specs.PassState.{HoldsNothing, IsAlone};
    ghost use Rattle.oak_core.specs.Passes.{IsPassOf, state, key, opened_at};
    ghost use Rattle.oak_core.specs.Closing.{closed_key, closed_state, closed_words, EndsFrom, FullsLacked, IsUnworn};
    ghost use Rattle.oak_core.specs.KnownPlaces.{PlacesStand};
    ghost use Rattle.oak_core.specs.Splitting.{Ends};

    /// Closes the table with its last pass: every other was joined into it, or into one that was. What
    /// the pass knows to be the place of a number among a key's writes is its place in the closed
    /// history. The closed table is the end of a schedule from its opening, and where nothing was removed each
    /// header is at the generation of the opening still.
    pub fn close(self, pass: Pass) -> Closed
        requires own { IsPassOf self pass }
        requires alone { IsAlone (state pass) }
        requires idle { HoldsNothing (state pass) }
        ensures key { closed_key result ≡ key self }
        ensures state { closed_state result ≡ state pass }
        ensures ends { Ends (key self) (closed_words result) (state pass) }
        ensures noted { FullsLacked result }
        ensures places { PlacesStand result }
        ensures reached { EndsFrom (opened_at self) result }
        ensures unworn { IsUnworn (opened_at self) result }
    {
        let OakTable {
            table,
            shape,
            offsets: _,
        } = self;
        let last = Snapshot::of(&pass);
        let Pass {
            seat,
            call: _,
            scratch: _,
            sorting: _,
            searches: _,
            header_search: _,
            tries: _,
            reader: _,
        } = pass;
        Closed {
            table: table.close_with(seat),
            shape,
            last,
        }
    }
}
