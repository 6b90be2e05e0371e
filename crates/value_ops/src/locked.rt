//! The calls on a header of which the pass has the lock.
ghost use Rattle.std.specs.Prelude.{◌≡◌, ◌+◌, ℕ, List, true, None, Some};
ghost use Rattle.oak_model.specs.declared.writes.Kind.TheVariants.{Remove};
ghost use Rattle.oak_model.specs.declared.classes.Class.{Class};
ghost use Rattle.oak_model.specs.Class.{class_number, class_of};
ghost use Rattle.oak_model.specs.Limits.{IsInLimits};
ghost use Rattle.arena_core.specs.Blocks.{HoldsBlock};
ghost use Rattle.arena_core.specs.Place.{class_in, place_word};
ghost use Rattle.header_core.specs.HeaderHolds.{place_held};
ghost use Rattle.header_core.specs.HeaderStep.{stamped_at};
ghost use Rattle.header_core.specs.Headers.{at_place, at_stamp};
ghost use Rattle.oak_core.specs.AloneWords.{Runs};
ghost use Rattle.oak_core.specs.CallWrites.{MakesWrite, Writes};
ghost use Rattle.oak_core.specs.HeldRows.{BuriesLife};
ghost use Rattle.oak_core.specs.MayWrite.{IsNewCall};
ghost use Rattle.oak_core.specs.Memory.{in_headers, index};
ghost use Rattle.oak_core.specs.Finding.{LoadsMore};
ghost use Rattle.oak_core.specs.Passes.{IsPassOf, Stays, state, key, call_of};
ghost use Rattle.oak_core.specs.Splitting.{Loads};
ghost use Rattle.value_ops.specs.AloneLocks.{FindsWord, FindsClass, ChangesWord, WritesWords, BuriesWords, UnlocksPin};
ghost use Rattle.value_ops.specs.HeldValue.{stamp_held, value_held, value_locked};
ghost use Rattle.value_ops.specs.LockHistories.{LockOf};
ghost use Rattle.value_ops.specs.UnderLock.{HasBlock, HasLock, HasBuried, IsUnchanged, next_stamp, ComesTo, LoadsPlace, Exchanges, StoresNext, WritesOver, GivesUp, Buries};

use crate::burying::Buried;
use crate::claiming::STATE;
use crate::locking::Locked;
use arena_core::place::{block_in, class_in, place_word};
use oak_core::{Block, OakTable, Pass, load, steps};
use oak_model::{Class, Kind};

impl Locked {
    /// The stamp of the write that made the value, or that was stored under the lock.
    pub fn stamp(&self, table: &OakTable, pass: &mut Pass) -> u64
        requires own { IsPassOf table.now pass.old }
        requires locked { HasLock (key table.now) self.now.header self.now.generation (state pass.old) }
        ensures own { Stays pass.old pass.new }
        ensures met { LoadsMore (key table.now) (call_of pass.old) (state pass.old) (state pass.new) }
        ensures loaded { Loads (key table.now) (call_of pass.old)
            (index (key table.now) (in_headers (at_stamp self.now.header))) (state pass.old) result (state pass.new) }
        ensures stamp { result ≡ stamp_held self.now.header (state pass.old).headers.held }
        ensures alone { Runs (FindsWord (key table.now) (in_headers (at_stamp self.now.header)) result) (state pass.old) (state pass.new) }
    {
        load(table, pass, table.stamp_at(self.header))
    }

    /// The class of the value's block.
    pub fn class(&self, table: &OakTable, pass: &mut Pass) -> Class
        requires own { IsPassOf table.now pass.old }
        requires locked { HasLock (key table.now) self.now.header self.now.generation (state pass.old) }
        ensures own { Stays pass.old pass.new }
        ensures met { LoadsMore (key table.now) (call_of pass.old) (state pass.old) (state pass.new) }
        ensures class { class_number result ≡ class_in (place_held self.now.header (state pass.old).headers.held) }
        ensures alone { Runs (FindsClass (key table.now) self.now.header result) (state pass.old) (state pass.new) }
    {
        let place = self.place(table, pass);
        class_in(place)
    }

    /// Loads the place word.
    pub(crate) fn place(&self, table: &OakTable, pass: &mut Pass) -> u64
        requires own { IsPassOf table.now pass.old }
        requires locked { HasLock (key table.now) self.now.header self.now.generation (state pass.old) }
        ensures own { Stays pass.old pass.new }
        ensures met { LoadsMore (key table.now) (call_of pass.old) (state pass.old) (state pass.new) }
        ensures loaded { LoadsPlace (key table.now) (call_of pass.old) self.now.header (state pass.old) (state pass.new) }
        ensures place { result ≡ place_held self.now.header (state pass.old).headers.held }
        ensures block { HasBlock (key table.now) self.now.header result (state pass.old).headers.held }
        ensures limits { IsInLimits (key table.now) }
        ensures alone { Runs (FindsWord (key table.now) (in_headers (at_place self.now.header)) result) (state pass.old) (state pass.new) }
    {
        load(table, pass, table.place_at(self.header))
    }

    /// Exchanges the value's block for one that the pass holds, in which `len` bytes stand, at most
    /// 1,024, and hands the old one back.
    pub fn change(&mut self, table: &OakTable, pass: &mut Pass, block: Block, len: usize) -> Block
        requires own { IsPassOf table.now pass.old }
        requires locked { HasLock (key table.now) self.old.header self.old.generation (state pass.old) }
        requires held { HoldsBlock (key table.now) (class_number block.class) block.number (state pass.old).blocks }
        requires fits { class_of len ≡ Some block.class }
        ensures own { Stays pass.old pass.new }
        ensures same { self.new ≡ self.old }
        ensures locked { HasLock (key table.now) self.new.header self.new.generation (state pass.new) }
        ensures held { HoldsBlock (key table.now) (class_number result.class) result.number (state pass.new).blocks }
        ensures changed { Exchanges (key table.now) (call_of pass.old) self.old.header block.class block.number len
            result.class result.number (state pass.old) (state pass.new) }
        ensures alone { Runs (ChangesWord (key table.now) self.old.header block.class block.number len result.class
            result.number) (state pass.old) (state pass.new) }
    {
        let Block { class, number } = block;
        let old = self.place(table, pass);
        let place_at = table.place_at(self.header);
        steps::store_field(table, pass, place_at, place_word(class, number, len as u16));
        Block {
            class: class_in(old),
            number: block_in(old),
        }
    }

    /// Stores the stamp of a write behind the present one. It stands still at its type's end.
    fn store_next_stamp(&self, table: &OakTable, pass: &mut Pass) -> u64
        requires own { IsPassOf table.now pass.old }
        requires locked { HasLock (key table.now) self.now.header self.now.generation (state pass.old) }
        ensures own { Stays pass.old pass.new }
        ensures stamp { result ≡ next_stamp (stamp_held self.now.header (state pass.old).headers.held) }
        ensures next { StoresNext (key table.now) (call_of pass.old) self.now.header result (state pass.old) (state pass.new) }
        ensures stored { ComesTo (key table.now) (call_of pass.old) (state pass.old).blocks.held
            (stamped_at self.now.header result (state pass.old).headers.held) (state pass.old) (state pass.new) }
    {
        let stamp = self.stamp(table, pass).saturating_add(1);
        steps::store_field(table, pass, table.stamp_at(self.header), stamp);
        stamp
    }

    /// Unlocks the header, which is the write of this kind: its stamp is one more than the value's was.
    /// The step that makes the header live is the write, and the answer is its stamp. A call of the kind
    /// must make the bytes that stand now of those at the lock, and the pass must have made no write in
    /// its present call.
    pub fn unlock(self, table: &OakTable, pass: &mut Pass, kind: Kind) -> u64
        requires own { IsPassOf table.now pass.old }
        requires locked { HasLock (key table.now) self.header self.generation (state pass.old) }
        requires new_call { IsNewCall (call_of pass.old) (state pass.old) }
        requires makes { MakesWrite kind (Some (value_locked self.header (state pass.old).headers.held))
            (Some (value_held self.header (state pass.old).headers.held)) }
        ensures own { Stays pass.old pass.new }
        ensures stamp { result ≡ stamp_held self.header (state pass.old).headers.held + 1 }
        ensures wrote { (of before : List ℕ) (stamp : ℕ)
            → LockOf (key table.now) of self.header self.generation before stamp (state pass.old)
            → Writes (call_of pass.old) of kind (Some before)
            (Some (value_held self.header (state pass.old).headers.held)) result (state pass.old) (state pass.new) }
        ensures unlocked { WritesOver (key table.now) (call_of pass.old) self.header self.generation kind result (state pass.old) (state pass.new) }
        ensures alone { Runs (WritesWords (key table.now) self.header self.generation result) (state pass.old) (state pass.new) }
    {
        let written = self.store_next_stamp(table, pass);
        let Locked {
            header,
            generation: _,
        } = self;
        steps::unlock_header(table, pass, table.pin_at(header), STATE, kind);
        written
    }

    /// Marks the header dead, which is the removal: its stamp is one more than the value's was. The pass
    /// must have made no write in its present call, and buries the header then.
    pub fn bury(self, table: &OakTable, pass: &mut Pass) -> Buried
        requires own { IsPassOf table.now pass.old }
        requires locked { HasLock (key table.now) self.header self.generation (state pass.old) }
        requires new_call { IsNewCall (call_of pass.old) (state pass.old) }
        ensures own { Stays pass.old pass.new }
        ensures wrote { (of before : List ℕ) (stamp : ℕ)
            → LockOf (key table.now) of self.header self.generation before stamp (state pass.old)
            → Writes (call_of pass.old) of Remove (Some before) None result.stamp (state pass.old) (state pass.new) }
        ensures buries { (of before : List ℕ) (stamp : ℕ)
            → LockOf (key table.now) of self.header self.generation before stamp (state pass.old)
            → BuriesLife of result.header result.generation result.stamp true (state pass.new) }
        ensures header { (result.header ≡ self.header) × (result.generation ≡ self.generation) }
        ensures has { HasBuried (key table.now) result.header result.generation result.stamp (state pass.new) }
        ensures stamp { result.stamp ≡ stamp_held self.header (state pass.old).headers.held + 1 }
        ensures buried { Buries (key table.now) (call_of pass.old) self.header self.generation result.stamp (state pass.old) (state pass.new) }
        ensures alone { Runs (BuriesWords (key table.now) self.header self.generation result.stamp) (state pass.old) (state pass.new) }
    {
        let stamp = self.store_next_stamp(table, pass);
        let Locked { header, generation } = self;
        steps::mark_dead(table, pass, table.pin_at(header), STATE);
        Buried {
            header,
            generation,
            stamp,
        }
    }

    /// Unlocks the header without a write. Nothing may have been applied, filled or changed under the
    /// lock.
    pub fn give_up(self, table: &OakTable, pass: &mut Pass)
        requires own { IsPassOf table.now pass.old }
        requires locked { HasLock (key table.now) self.header self.generation (state pass.old) }
        requires unchanged { IsUnchanged self.header (state pass.old).headers.held }
        ensures own { Stays pass.old pass.new }
        ensures unlocked { GivesUp (key table.now) (call_of pass.old) self.header self.generation
            (stamp_held self.header (state pass.old).headers.held) (state pass.old) (state pass.new) }
        ensures alone { Runs (UnlocksPin (key table.now) self.header self.generation) (state pass.old) (state pass.new) }
    {
        let Locked {
            header,
            generation: _,
        } = self;
        // Where nothing was changed, the step is no write, and the kind says nothing.
        steps::unlock_header(table, pass, table.pin_at(header), STATE, Kind::Put);
    }
}
