//! The steps on the words of the headers, which callers find in [`crate::steps`].
ghost use Rattle.std.specs.Prelude.{◌≡◌, ℕ};
ghost use Rattle.header_core.specs.declared.holds.HeldAs.{HeldAs};
ghost use Rattle.pin_word.specs.PinWord.{STATE};
ghost use Rattle.header_core.specs.HeaderStep.{open_header, pin_header, unpin_header, release_header, lock_header, unlock_header, mark_dead, take_back};
ghost use Rattle.oak_core.specs.HeaderCalls.{HeaderField, field_step, NamesPin, NamesClaim, NamesField, NamesRelease, NamesLock, Claims, StoresField, Opens, Pins, Unpins, Releases, Locks, Unlocks, MarksDead, TakesBack};
ghost use Rattle.oak_core.specs.MayWrite.{MayEnd};
ghost use Rattle.oak_core.specs.Step.{MayOnHeaders};
ghost use Rattle.oak_core.specs.Passes.{IsPassOf, Stays, state, key, call_of};

use crate::atoms::{add_said, add_wanted, exchange_said, store_said, sub_of_kind, sub_said};
use crate::table::{OakTable, Pass};
use oak_model::Kind;
use std::marker::Brand;

/// Claims a free header, where its pin word is still `old`: `word` is that word, and `new` is `old`
/// with the state owned. The pass owns the header where `old` was found.
pub fn claim_header(table: &OakTable, pass: &mut Pass, word: u32, old: u64, new: u64) -> u64
    requires own { IsPassOf table.now pass.old }
    requires names { (h : ℕ) × NamesClaim (key table.now) h word old new }
    ensures own { Stays pass.old pass.new }
    ensures told { (h : ℕ) → NamesClaim (key table.now) h word old new → Claims (key table.now)
        (call_of pass.old) h old (state pass.old) result (state pass.new) }
{
    exchange_said::<Brand>(table, pass, word as usize, old, new)
}

/// Stores a number to `word`, the place or the stamp word of a header that the pass owns or has locked.
/// Where the place word of a locked header comes to name another block, the two are exchanged: the pass
/// held the new one, and holds the old one then.
pub fn store_field(table: &OakTable, pass: &mut Pass, word: u32, value: u64)
    requires own { IsPassOf table.now pass.old }
    requires names { (f : HeaderField) × (h : ℕ) × NamesField (key table.now) f h word × MayOnHeaders (key table.now)
        (field_step f h value) (state pass.old) }
    ensures own { Stays pass.old pass.new }
    ensures told { (f : HeaderField) (h : ℕ) → NamesField (key table.now) f h word → MayOnHeaders (key table.now)
        (field_step f h value) (state pass.old) → StoresField (key table.now) (call_of pass.old) f h value
        (state pass.old) (state pass.new) }
{
    store_said::<Brand>(table, pass, word as usize, value);
}

/// Opens a header that the pass owns, with the block that its place word names: `word` is its pin word,
/// and `operand` one state more. The pass has the header fresh, and the block with it.
pub fn open_header(table: &OakTable, pass: &mut Pass, word: u32, operand: u64) -> u64
    requires own { IsPassOf table.now pass.old }
    requires names { (h : ℕ) × NamesPin (key table.now) h word × (operand ≡ STATE) × MayOnHeaders (key table.now) (open_header h) (state pass.old) }
    ensures own { Stays pass.old pass.new }
    ensures told { (h : ℕ) → NamesPin (key table.now) h word → Opens (key table.now) (call_of pass.old) h (state pass.old) result (state pass.new) }
{
    add_said::<Brand>(table, pass, word as usize, operand)
}

/// Pins a header that the pass knows at the generation that it wants, and sees what stands there:
/// `word` is its pin word, and `operand` one pin. A pass has one pin at most.
pub fn pin_header(
    table: &OakTable,
    pass: &mut Pass,
    word: u32,
    operand: u64,
    generation: u64,
) -> u64
    requires own { IsPassOf table.now pass.old }
    requires names { (h : ℕ) × NamesPin (key table.now) h word × (operand ≡ 1) × MayOnHeaders (key table.now)
        (pin_header h generation) (state pass.old) }
    ensures own { Stays pass.old pass.new }
    ensures told { (h : ℕ) → NamesPin (key table.now) h word → Pins (key table.now) (call_of pass.old) h generation
        (state pass.old) result (state pass.new) }
{
    add_wanted::<Brand>(table, pass, word as usize, operand, generation)
}

/// Undoes the pass's pin: `word` is the pin word of its header, and `operand` one pin.
pub fn unpin_header(table: &OakTable, pass: &mut Pass, word: u32, operand: u64) -> u64
    requires own { IsPassOf table.now pass.old }
    requires names { (h : ℕ) × NamesPin (key table.now) h word × (operand ≡ 1) × MayOnHeaders (key table.now) (unpin_header h) (state pass.old) }
    ensures own { Stays pass.old pass.new }
    ensures told { (h : ℕ) → NamesPin (key table.now) h word → Unpins (key table.now) (call_of pass.old) h (state pass.old) result (state pass.new) }
{
    sub_said::<Brand>(table, pass, word as usize, operand)
}

/// Frees a header that the pass owns or has fresh: `word` is its pin word, and `operand` the state that
/// it is in. The pass holds the header no more, and holds the block of a fresh one again.
pub fn release_header(table: &OakTable, pass: &mut Pass, word: u32, operand: u64) -> u64
    requires own { IsPassOf table.now pass.old }
    requires names { (h : ℕ) × (s : HeldAs) × NamesRelease (key table.now) h s word operand
        × MayOnHeaders (key table.now) (release_header h s) (state pass.old) }
    ensures own { Stays pass.old pass.new }
    ensures told { (h : ℕ) (s : HeldAs) → NamesRelease (key table.now) h s word operand → Releases (key table.now)
        (call_of pass.old) h s (state pass.old) result (state pass.new) }
{
    let pin_word = word as usize;
    sub_said::<Brand>(table, pass, pin_word, operand)
}

/// Locks a live header without a pin, which the pass knows other than as its fresh one, where its pin
/// word is still `old`: `word` is that word, and `new` is `old` with the state locked. The pass has the
/// header locked where `old` was found.
pub fn lock_header(table: &OakTable, pass: &mut Pass, word: u32, old: u64, new: u64) -> u64
    requires own { IsPassOf table.now pass.old }
    requires names { (h : ℕ) × NamesLock (key table.now) h word old new × MayOnHeaders (key table.now) (lock_header h old) (state pass.old) }
    ensures own { Stays pass.old pass.new }
    ensures told { (h : ℕ) → NamesLock (key table.now) h word old new → Locks (key table.now) (call_of pass.old) h old
        (state pass.old) result (state pass.new) }
{
    let pin_word = word as usize;
    exchange_said::<Brand>(table, pass, pin_word, old, new)
}

/// Unlocks a header that the pass has locked: `word` is its pin word, and `operand` one state. Where its
/// stamp was raised under the lock, this is a write of the kind, and the bytes that stand in its block
/// are those that a call of the kind makes of those at the lock. Else all of it is as it was at the lock.
pub fn unlock_header(table: &OakTable, pass: &mut Pass, word: u32, operand: u64, kind: Kind) -> u64
    requires own { IsPassOf table.now pass.old }
    requires names { (h : ℕ) × NamesPin (key table.now) h word × (operand ≡ STATE) × MayOnHeaders (key table.now)
        (unlock_header h kind) (state pass.old) × MayEnd (call_of pass.old) (unlock_header h kind) (state pass.old) }
    ensures own { Stays pass.old pass.new }
    ensures told { (h : ℕ) → NamesPin (key table.now) h word → Unlocks (key table.now) (call_of pass.old) h kind
        (state pass.old) result (state pass.new) }
{
    sub_of_kind::<Brand>(table, pass, word as usize, operand, kind)
}

/// Marks a header dead that the pass has locked, and whose stamp it raised by one: `word` is its pin
/// word, and `operand` one state. This is the removal. The pass buries the header then.
pub fn mark_dead(table: &OakTable, pass: &mut Pass, word: u32, operand: u64) -> u64
    requires own { IsPassOf table.now pass.old }
    requires names { (h : ℕ) × NamesPin (key table.now) h word × (operand ≡ STATE) × MayOnHeaders (key table.now)
        (mark_dead h) (state pass.old) × MayEnd (call_of pass.old) (mark_dead h) (state pass.old) }
    ensures own { Stays pass.old pass.new }
    ensures told { (h : ℕ) → NamesPin (key table.now) h word → MarksDead (key table.now) (call_of pass.old) h
        (state pass.old) result (state pass.new) }
{
    let pin_word = word as usize;
    add_said::<Brand>(table, pass, pin_word, operand)
}

/// Takes a header back that the pass buries, and that no entry names any more: `word` is its pin word, and `operand` what makes it free at
/// the next generation, or retired where that is the last. The pass holds its block again.
pub fn take_back(table: &OakTable, pass: &mut Pass, word: u32, operand: u64) -> u64
    requires own { IsPassOf table.now pass.old }
    requires names { (h : ℕ) × NamesPin (key table.now) h word × MayOnHeaders (key table.now) (take_back h operand)
        (state pass.old) × MayEnd (call_of pass.old) (take_back h operand) (state pass.old) }
    ensures own { Stays pass.old pass.new }
    ensures told { (h : ℕ) → NamesPin (key table.now) h word → TakesBack (key table.now) (call_of pass.old) h operand
        (state pass.old) result (state pass.new) }
{
    let header_word = word as usize;
    add_said::<Brand>(table, pass, header_word, operand)
}
