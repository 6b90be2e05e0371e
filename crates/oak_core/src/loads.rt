//! Loads of words of the table.
ghost use Rattle.std.specs.Prelude.{◌≡◌, ◌<◌, slice_index};
ghost use Rattle.oak_core.specs.AloneWords.{Runs};
ghost use Rattle.oak_core.specs.Memory.{word_count};
ghost use Rattle.oak_core.specs.Passes.{IsPassOf, Stays, SearchesStay, TriesStay, state, key, call_of};
ghost use Rattle.oak_core.specs.Splitting.{Loads};

use crate::atoms::load_said;
use crate::table::{OakTable, Pass};
use std::marker::Brand;

/// Loads one word of the table, by its number. To a pass that is alone it is the word of the list that
/// it left, which stays.
pub fn load(table: &OakTable, pass: &mut Pass, word: u32) -> u64
    requires own { IsPassOf table.now pass.old }
    requires inside { word < word_count (key table.now) }
    ensures own { Stays pass.old pass.new }
    ensures searches { SearchesStay pass.old pass.new }
    ensures tries { TriesStay pass.old pass.new }
    ensures loaded { Loads (key table.now) (call_of pass.old) word (state pass.old) result (state pass.new) }
    ensures runs { Runs (λ a b. (result ≡ slice_index a word) × (b ≡ a)) (state pass.old) (state pass.new) }
{
    load_said::<Brand>(table, pass, word as usize)
}
