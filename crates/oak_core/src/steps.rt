//! One call for each kind of step on a word of the table. Each makes that one step by the word's
//! number and the operand, and answers the number found; a store answers nothing.
ghost use Rattle.std.specs.Prelude.{◌<◌, ℕ};
ghost use Rattle.oak_model.specs.declared.classes.Class.{Class};
ghost use Rattle.oak_model.specs.Class.{class_number};
ghost use Rattle.arena_core.specs.Blocks.{HoldsBlock};
ghost use Rattle.oak_core.specs.ArenaCalls.{NamesBit, NamesMask, NamesWord, BlockOwner, MayStoreTo, Sets, Clears, Writes};
ghost use Rattle.oak_core.specs.Passes.{IsPassOf, Stays, state, key, call_of};

use crate::atoms::{and_said, or_said, store_said};
pub use crate::header_steps::{
    claim_header, lock_header, mark_dead, open_header, pin_header, release_header, store_field,
    take_back, unlock_header, unpin_header,
};
pub use crate::room_steps::{
    claim_entry, claim_room, freeze, hold_room, link, open_room, own_entry, pin_room, retire_room,
    set_value, store_room, thaw_room, unlink, unpin_room,
};
use crate::table::{OakTable, Pass};
use std::marker::Brand;

/// Sets the bit of a block: `word` is the word of bits that has it, and `operand` that bit alone. The
/// pass holds the block where the bit was found clear.
pub fn take_bit(table: &OakTable, pass: &mut Pass, word: u32, operand: u64) -> u64
    requires own { IsPassOf table.now pass.old }
    requires names { (c : Class) × (b : ℕ) × NamesBit (key table.now) c b word operand }
    ensures own { Stays pass.old pass.new }
    ensures told { (c : Class) (b : ℕ) → NamesBit (key table.now) c b word operand
        → Sets (key table.now) (call_of pass.old) c b (state pass.old) result (state pass.new) }
{
    or_said::<Brand>(table, pass, word as usize, operand)
}

/// Clears the bit of a block that the pass holds: `word` is the word of bits that has it, and
/// `operand` all bits but that one. The pass holds the block no more.
pub fn clear_bit(table: &OakTable, pass: &mut Pass, word: u32, operand: u64) -> u64
    requires own { IsPassOf table.now pass.old }
    requires names { (c : Class) × (b : ℕ) × NamesMask (key table.now) c b word operand × HoldsBlock (key table.now)
        (class_number c) b (state pass.old).blocks }
    ensures own { Stays pass.old pass.new }
    ensures told { (c : Class) (b : ℕ) → NamesMask (key table.now) c b word operand → Clears (key table.now)
        (call_of pass.old) c b (state pass.old) result (state pass.new) }
{
    and_said::<Brand>(table, pass, word as usize, operand)
}

/// Stores a number to `word`, one of a block that the pass holds, or of that of a header which it has
/// locked.
pub fn store_word(table: &OakTable, pass: &mut Pass, word: u32, value: u64)
    requires own { IsPassOf table.now pass.old }
    requires names { (o : BlockOwner) × (c : Class) × (b : ℕ) × (k : ℕ) × NamesWord (key table.now) c b k word
        × MayStoreTo (key table.now) o c b (state pass.old) }
    ensures own { Stays pass.old pass.new }
    ensures told { (o : BlockOwner) (c : Class) (b k : ℕ) → NamesWord (key table.now) c b k word
        → MayStoreTo (key table.now) o c b (state pass.old) → Writes (key table.now) (call_of pass.old) o c b k value
        (state pass.old) (state pass.new) }
{
    store_said::<Brand>(table, pass, word as usize, value);
}
