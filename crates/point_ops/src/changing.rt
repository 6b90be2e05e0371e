//! Changes of a present value, under the lock of its header.
ghost use Rattle.std.specs.Prelude.{◌≡◌, ◌<◌, ◌+◌, ◌-◌, ◌^◌, ℕ, List, length, IfOk, IfErr, None, Some, ◌⊎◌};
ghost use Rattle.oak_model.specs.declared.writes.Kind.TheVariants as kinds;
ghost use Rattle.oak_model.specs.Recipe.{recipe_result};
ghost use Rattle.oak_model.specs.Value.{IsValue};
ghost use Rattle.arena_core.specs.HeldBlocks.{no_blocks};
ghost use Rattle.header_core.specs.HeaderHolds.{no_headers};
ghost use Rattle.oak_core.specs.CallSteps.{Learns, Stands};
ghost use Rattle.oak_core.specs.CallWrites.{MakesWrite};
ghost use Rattle.oak_core.specs.Known.{knows_life};
ghost use Rattle.oak_core.specs.MayWrite.{IsNewCall};
ghost use Rattle.oak_core.specs.Passes.{IsPassOf, Stays, state, key as sizes, call_of};
ghost use Rattle.oak_core.specs.Scratch.{StaysButScratch};
ghost use Rattle.chunk_ops.specs.PinRecords.{HasEntry, HasRoomPin, OnlyMeets};
ghost use Rattle.value_ops.specs.OneHeader.{IsOneBlock};
ghost use Rattle.value_ops.specs.Pinning.{KnowsLife};
ghost use Rattle.value_ops.specs.Recipes.{SaysTheSame};
ghost use Rattle.point_ops.specs.Changes.{NoLockBy, OverHalts};
ghost use Rattle.point_ops.specs.Counted.{FedReplaced};
ghost use Rattle.oak_core.specs.AloneWords.{Runs};
ghost use Rattle.point_ops.specs.LoneLeft.{RemovesIn, RewritesIn};
ghost use Rattle.point_ops.specs.LonePutLeft.{OverIn, SwapsIn};
ghost use Rattle.point_ops.specs.LoneLives.{KeepsButLife, OverHaltsIn, RefusesLock, UnfreeIn};
ghost use Rattle.point_ops.specs.Parts.{KeepsHeld, WritesAt};
ghost use Rattle.point_ops.specs.declared.halts.Halt.TheVariants as halts;
ghost use Rattle.value_ops.specs.declared.locking.NoLock.TheVariants as no_lock;
ghost use Rattle.arena_ops.specs.Storing.{HasBytes};

use crate::halts::Halt;
use crate::inserting::{class_for, make_block};
use arena_ops::give;
use chunk_ops::{EntryNo, RoomPin, clear_value};
use oak_core::{Block, OakTable, Pass};
use oak_model::{Class, Kind};
use value_ops::{Home, Locked, NoLock, Recipe, lock};

/// Computes the value of a life anew, by one call of the recipe under the lock, on the bytes that the key
/// held. The answer is the stamp of the write.
pub(crate) fn compute_life(
    table: &OakTable,
    pass: &mut Pass,
    home: Home,
    recipe: &mut Box<dyn Recipe + Send>,
    kind: Kind,
) -> Result<u64, NoLock>
    requires own { IsPassOf table.now pass.old }
    requires inside { home.header < (sizes table.now).headers }
    requires known { 0 < knows_life home.header home.generation (state pass.old).knowledge }
    requires life { (k : List ℕ) × KnowsLife home.header home.generation k (state pass.old).knowledge }
    requires none { (state pass.old).headers ≡ no_headers }
    requires turn { IsNewCall (call_of pass.old) (state pass.old) }
    requires few { calls recipe.old < 2 ^ 64 - 1 }
    requires kind { (b : List ℕ) → MakesWrite kind (Some b) (Some (recipe_result (told_kind recipe.old) (told_argument recipe.old) b)) }
    ensures own { StaysButScratch pass.old pass.new }
    ensures held { KeepsHeld (state pass.old) (state pass.new) }
    ensures wrote { IfOk result (λ at. (k : List ℕ) → KnowsLife home.header home.generation k
        (state pass.old).knowledge → (b : List ℕ) × WritesAt (call_of pass.old) k kind (Some b)
        (Some (recipe_result (told_kind recipe.old) (told_argument recipe.old) b)) at (state pass.old)
        (state pass.new)) }
    ensures counted { IfOk result (λ _. calls recipe.new ≡ calls recipe.old + 1) }
    ensures uncounted { IfErr result (λ _. calls recipe.new ≡ calls recipe.old) }
    ensures fed { IfOk result (λ _. (k : List ℕ) → KnowsLife home.header home.generation k (state pass.old).knowledge
        → FedReplaced k (fed recipe.new) (state pass.new)) }
    ensures unfed { IfErr result (λ _. SaysTheSame (fed recipe.old) (fed recipe.new)) }
    ensures told { (told_kind recipe.new ≡ told_kind recipe.old) × (told_argument recipe.new ≡ told_argument recipe.old) }
    ensures only { IfErr result (λ _. OnlyMeets (call_of pass.old) (state pass.old) (state pass.new)) }
    ensures refused { IfErr result (λ why. NoLockBy why (sizes table.now)
        (call_of pass.old) home.header home.generation (state pass.old) (state pass.new)) }
    ensures alone { IfErr result (λ _. Runs (RefusesLock (sizes table.now) home.header home.generation
        (state pass.old)) (state pass.old) (state pass.new)) }
    ensures alone_kept { IfOk result (λ _. Runs (KeepsButLife (sizes table.now) home.header) (state pass.old)
        (state pass.new)) }
    ensures alone_rewrites { IfOk result (λ at. Runs (RewritesIn (sizes table.now) home.header at) (state pass.old)
        (state pass.new)) }
{
    let mut locked = lock(table, pass, home.header, home.generation)?;
    locked.apply(table, pass, recipe);
    Ok(locked.unlock(table, pass, kind))
}

/// Puts the bytes of a block in place of those of the locked header, and gives the old block back. The
/// answer is the stamp of the write.
fn exchange(
    table: &OakTable,
    pass: &mut Pass,
    home: Home,
    block: Block,
    value: &[u8],
) -> Result<u64, Halt>
    requires own { IsPassOf table.now pass.old }
    requires inside { home.header < (sizes table.now).headers }
    requires known { 0 < knows_life home.header home.generation (state pass.old).knowledge }
    requires life { (k : List ℕ) × KnowsLife home.header home.generation k (state pass.old).knowledge }
    requires block { HasBytes (sizes table.now) block.class block.number value.now (state pass.old) }
    requires one { IsOneBlock block.class block.number (state pass.old).blocks }
    requires none { (state pass.old).headers ≡ no_headers }
    requires turn { IsNewCall (call_of pass.old) (state pass.old) }
    ensures own { Stays pass.old pass.new }
    ensures blocks { (state pass.new).blocks ≡ no_blocks }
    ensures headers { (state pass.new).headers ≡ no_headers }
    ensures rooms { (state pass.new).rooms ≡ (state pass.old).rooms }
    ensures wrote { IfOk result (λ at. (k : List ℕ) → KnowsLife home.header home.generation k
        (state pass.old).knowledge → (b : List ℕ) × WritesAt (call_of pass.old) k kinds.Put (Some b)
        (Some value.now) at (state pass.old) (state pass.new)) }
    ensures stands { IfErr result (λ _. Stands (call_of pass.old) (state pass.old) (state pass.new)) }
    ensures refused { IfErr result (λ why. (why ≡ halts.Busy)
        × (NoLockBy no_lock.Busy (sizes table.now) (call_of pass.old) home.header home.generation (state pass.old)
        (state pass.new) ⊎ NoLockBy no_lock.Dead (sizes table.now) (call_of pass.old) home.header home.generation
        (state pass.old) (state pass.new))) }
    ensures alone { IfErr result (λ _. Runs (UnfreeIn (sizes table.now) home.header home.generation) (state pass.old)
        (state pass.new)) }
    ensures alone_kept { IfOk result (λ _. Runs (KeepsButLife (sizes table.now) home.header) (state pass.old)
        (state pass.new)) }
    ensures alone_swaps { IfOk result (λ at. Runs (SwapsIn (sizes table.now) home.header block.class block.number
        (length value.now) at) (state pass.old) (state pass.new)) }
{
    let Ok(mut locked) = lock(table, pass, home.header, home.generation) else {
        give(table, pass, block);
        return Err(Halt::Busy);
    };
    let old = locked.change(table, pass, block, value.len());
    let at = locked.unlock(table, pass, Kind::Put);
    give(table, pass, old);
    Ok(at)
}

/// Puts a value in place of that of a life: in its block, where the classes agree, else in another, which is
/// taken before the header is locked again. The answer is the stamp of the write.
pub(crate) fn overwrite(
    table: &OakTable,
    pass: &mut Pass,
    home: Home,
    value: &[u8],
) -> Result<u64, Halt>
    requires own { IsPassOf table.now pass.old }
    requires value { IsValue value.now }
    requires inside { home.header < (sizes table.now).headers }
    requires known { 0 < knows_life home.header home.generation (state pass.old).knowledge }
    requires life { (k : List ℕ) × KnowsLife home.header home.generation k (state pass.old).knowledge }
    requires blocks { (state pass.old).blocks ≡ no_blocks }
    requires headers { (state pass.old).headers ≡ no_headers }
    requires turn { IsNewCall (call_of pass.old) (state pass.old) }
    ensures own { Stays pass.old pass.new }
    ensures held { KeepsHeld (state pass.old) (state pass.new) }
    ensures wrote { IfOk result (λ at. (k : List ℕ) → KnowsLife home.header home.generation k
        (state pass.old).knowledge → (b : List ℕ) × WritesAt (call_of pass.old) k kinds.Put (Some b)
        (Some value.now) at (state pass.old) (state pass.new)) }
    ensures learns { IfErr result (λ _. Learns (call_of pass.old) (state pass.old) (state pass.new)) }
    ensures halted { IfErr result (λ why. OverHalts why (sizes table.now)
        (call_of pass.old) home.header home.generation value.now (state pass.old) (state pass.new)) }
    ensures alone { IfErr result (λ why. (r : ℕ) → HasRoomPin (sizes table.now) r (state pass.old)
        → Runs (OverHaltsIn why (sizes table.now) home.header home.generation value.now (state pass.old))
        (state pass.old) (state pass.new)) }
    ensures alone_kept { IfOk result (λ _. (r : ℕ) → HasRoomPin (sizes table.now) r (state pass.old)
        → Runs (KeepsButLife (sizes table.now) home.header) (state pass.old) (state pass.new)) }
    ensures alone_over { IfOk result (λ at. (r : ℕ) → HasRoomPin (sizes table.now) r (state pass.old)
        → Runs (OverIn (sizes table.now) home.header at value.now) (state pass.old) (state pass.new)) }
{
    let class = class_for(value.len());
    let Ok(mut locked) = lock(table, pass, home.header, home.generation) else {
        return Err(Halt::Busy);
    };
    if locked.class(table, pass) == class {
        locked.fill(table, pass, value);
        return Ok(locked.unlock(table, pass, Kind::Put));
    }
    locked.give_up(table, pass);
    let block = make_block(table, pass, class, value)?;
    exchange(table, pass, home, block, value)
}

/// Removes a life that the entry names. The answer is the stamp of the removal.
pub(crate) fn remove_life(
    table: &OakTable,
    pass: &mut Pass,
    pin: &RoomPin,
    entry: EntryNo,
    home: Home,
) -> Result<u64, NoLock>
    requires own { IsPassOf table.now pass.old }
    requires pinned { HasRoomPin (sizes table.now) pin.now.room (state pass.old) }
    requires inside { home.header < (sizes table.now).headers }
    requires known { 0 < knows_life home.header home.generation (state pass.old).knowledge }
    requires life { (k : List ℕ) × KnowsLife home.header home.generation k (state pass.old).knowledge
        × HasEntry pin.now.room entry.0 k (state pass.old) }
    requires blocks { (state pass.old).blocks ≡ no_blocks }
    requires headers { (state pass.old).headers ≡ no_headers }
    requires turn { IsNewCall (call_of pass.old) (state pass.old) }
    ensures own { Stays pass.old pass.new }
    ensures held { KeepsHeld (state pass.old) (state pass.new) }
    ensures wrote { IfOk result (λ at. (k : List ℕ) → KnowsLife home.header home.generation k
        (state pass.old).knowledge → HasEntry pin.now.room entry.0 k (state pass.old) → (b : List ℕ)
        × WritesAt (call_of pass.old) k kinds.Remove (Some b) None at (state pass.old) (state pass.new)) }
    ensures only { IfErr result (λ _. OnlyMeets (call_of pass.old) (state pass.old) (state pass.new)) }
    ensures refused { IfErr result (λ why. NoLockBy why (sizes table.now)
        (call_of pass.old) home.header home.generation (state pass.old) (state pass.new)) }
    ensures alone { IfErr result (λ _. Runs (RefusesLock (sizes table.now) home.header home.generation
        (state pass.old)) (state pass.old) (state pass.new)) }
    ensures alone_removes { IfOk result (λ at. Runs
        (RemovesIn (sizes table.now) pin.now.room entry.0 home.header home.generation at) (state pass.old)
        (state pass.new)) }
{
    let locked = lock(table, pass, home.header, home.generation)?;
    let buried = locked.bury(table, pass);
    let at = buried.stamp();
    clear_value(table, pass, pin, entry, at);
    let block = buried.take_back(table, pass);
    give(table, pass, block);
    Ok(at)
}
