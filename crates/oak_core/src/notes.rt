//! Calls of the map that are refused for want of something, as their passes note them.
ghost use Rattle.std.specs.Prelude.{◌≡◌, ℕ, ◌<◌, length, Option};
ghost use Rattle.atomic_table.specs.Table.{Allows};
ghost use Rattle.oak_core.specs.AloneWords.{Runs};
ghost use Rattle.oak_core.specs.Lack.{Lacks};
ghost use Rattle.oak_core.specs.Noting.{Notes};
ghost use Rattle.oak_core.specs.Passes.{IsPassOf, Stays, SearchesStay, TriesStay, state, key, opened_at, call_of};
ghost use Rattle.oak_core.specs.Running.{Holds, KeepsSeat};

use crate::atoms::{Said, load_said};
use crate::table::{OakTable, Pass};
use oak_model::Lack;
use std::marker::Brand;

/// Loads word 0. What this tells is picked by what the call lacks.
fn note_said<T: Said>(table: &OakTable, pass: &mut Pass, _lack: Lack)
    requires own { IsPassOf table.now pass.old }
    requires inside { 0 < table.now.table.shared.table_id.words }
    requires rule { Allows (Holds (key table.now) (opened_at table.now)) table.now.table.shared.table_id.slots
        pass.old.seat.id pass.old.seat.me 0 (λ n. n) (λ n m. T.told n m.0 × KeepsSeat pass.old.seat.me m) }
    ensures own { Stays pass.old pass.new }
    ensures searches { SearchesStay pass.old pass.new }
    ensures tries { TriesStay pass.old pass.new }
    ensures told { (n : ℕ) × T.told n (state pass.new) }
{
    load_said::<T>(table, pass, 0);
}

impl Pass {
    /// Notes the present call as one that lacks something: ranges that it swept cover every key, and
    /// behind these it found nothing free of what it lacks. It loads word 0, so to a pass that is alone
    /// the words stay.
    pub fn note_full(&mut self, table: &OakTable, lack: Lack)
        requires own { IsPassOf table.now self.old }
        requires lacks { (spare : Option ℕ) × (began : ℕ) × Lacks (key table.now) (call_of self.old) lack spare began
            (length (state self.old).findings.met) (state self.old).findings }
        ensures own { Stays self.old self.new }
        ensures searches { SearchesStay self.old self.new }
        ensures tries { TriesStay self.old self.new }
        ensures noted { Notes (key table.now) (call_of self.old) lack (state self.old) (state self.new) }
        ensures runs { Runs (λ a b. b ≡ a) (state self.old) (state self.new) }
    {
        note_said::<Brand>(table, self, lack);
    }
}
