//! Computes, with a recipe or by a sum.
ghost use Rattle.std.specs.Prelude.{◌≡◌, ◌+◌, ◌-◌, ◌^◌, Err, IfOk, Ok, OnErr, OnOk};
ghost use Rattle.std.specs.Int.{w64, to_be_bytes};
ghost use Rattle.oak_model.specs.declared.cells.CellCall.TheVariants.{Compute, Upsert};
ghost use Rattle.oak_model.specs.declared.recipes.RecipeKind.TheVariants.{Add};
ghost use Rattle.oak_model.specs.Key.{IsKey};
ghost use Rattle.oak_model.specs.Value.{IsValue};
ghost use Rattle.oak_core.specs.PassState.{IsAlone};
ghost use Rattle.oak_core.specs.Scratch.{StaysButScratch};
ghost use Rattle.point_ops.specs.Counted.{Feeds, FeedsAlone, times_done};
ghost use Rattle.oak_map.specs.Putting.{StaysButRoom};
ghost use Rattle.oak_caller.specs.Callers.{CallsNext, KeepsViews, last_of, sizes_of, state_of};
ghost use Rattle.oak_caller.specs.Puts.{Changes, Puts};
ghost use Rattle.oak_caller.specs.declared.computing.NotAdded.TheVariants as refusals;
ghost use Rattle.oak_caller.specs.declared.turns.WornOut.TheVariants as worn;

use crate::caller::Caller;
use crate::turns::{WornOut, next_call};
use oak_model::{RecipeKind, Wrote};
use std::alloc::AllocFailed;
use std::sync::Wait;
use thiserror::Error;
use value_ops::{Recipe, StepRecipe};

/// Why nothing was added.
#[derive(Clone, Copy, Debug, PartialEq, Eq, Error)]
pub enum NotAdded {
    #[error("{0}")]
    WornOut(WornOut),
    #[error("out of memory")]
    OutOfMemory,
}

impl From<WornOut> for NotAdded {
    ghost from_gives = { λ w e. e ≡ refusals.WornOut w };

    fn from(worn: WornOut) -> NotAdded {
        NotAdded::WornOut(worn)
    }
}

impl<T: Drop> From<AllocFailed<T>> for NotAdded {
    ghost from_gives = { λ _ e. e ≡ refusals.OutOfMemory };

    fn from(_e: AllocFailed<T>) -> NotAdded {
        NotAdded::OutOfMemory
    }
}

impl<R: Wait + Drop + Send> Caller<'_, R> {
    /// Computes the value of a key anew: `Done` where it was present, by exactly one call of the recipe on the bytes
    /// that the key held right before, and `Absent` where it was not.
    pub fn compute(
        &mut self,
        rt: &R,
        key: &[u8],
        recipe: &mut Box<dyn Recipe + Send>,
    ) -> Result<Wrote, WornOut>
        requires key { IsKey key.now }
        ensures next { OnOk result (CallsNext StaysButScratch self.old self.new) }
        ensures views { OnOk result (KeepsViews self.old self.new) }
        ensures changes { IfOk result (λ y. Changes y (sizes_of self.old) (last_of self.old + 1) key.now
            (Compute (told_kind recipe.old) (told_argument recipe.old)) (state_of self.old) (state_of self.new)) }
        ensures counted { IfOk result (λ y. calls recipe.new ≡ calls recipe.old + times_done (Ok y)) }
        ensures fed { IfOk result (λ y. Feeds (Ok y) key.now (fed recipe.old) (fed recipe.new) (state_of self.new)) }
        ensures alone_fed { IsAlone (state_of self.old) → IfOk result (λ y. FeedsAlone (Ok y) key.now (fed recipe.new) (state_of self.old)) }
        ensures told { (told_kind recipe.new ≡ told_kind recipe.old) × (told_argument recipe.new ≡ told_argument recipe.old) }
        ensures worn { result ≡ Err worn.Caller → last_of self.old ≡ 2 ^ 32 - 1 }
        ensures worn_recipe { result ≡ Err worn.Recipe → calls recipe.old ≡ 2 ^ 64 - 1 }
        ensures nothing { OnErr result (self.new ≡ self.old) }
        ensures not_applied { OnErr result (recipe.new ≡ recipe.old) }
    {
        if recipe.calls() == u64::MAX {
            return Err(WornOut::Recipe);
        }
        next_call(&mut self.pass, &mut self.last)?;
        Ok(self.map.compute(rt, &mut self.pass, key, recipe))
    }

    /// Computes the value of a key anew, as [`Caller::compute`] does, or puts one where it was absent: `Done` or `New`,
    /// and `Full` as for [`Caller::put`].
    pub fn upsert(
        &mut self,
        rt: &R,
        key: &[u8],
        value: &[u8],
        recipe: &mut Box<dyn Recipe + Send>,
    ) -> Result<Wrote, WornOut>
        requires key { IsKey key.now }
        requires value { IsValue value.now }
        ensures next { OnOk result (CallsNext StaysButRoom self.old self.new) }
        ensures views { OnOk result (KeepsViews self.old self.new) }
        ensures puts { IfOk result (λ y. Puts y (sizes_of self.old) (last_of self.old + 1) key.now
            (Upsert value.now (told_kind recipe.old) (told_argument recipe.old)) (state_of self.old)
            (state_of self.new)) }
        ensures counted { IfOk result (λ y. calls recipe.new ≡ calls recipe.old + times_done (Ok y)) }
        ensures fed { IfOk result (λ y. Feeds (Ok y) key.now (fed recipe.old) (fed recipe.new) (state_of self.new)) }
        ensures alone_fed { IsAlone (state_of self.old) → IfOk result (λ y. FeedsAlone (Ok y) key.now (fed recipe.new) (state_of self.old)) }
        ensures told { (told_kind recipe.new ≡ told_kind recipe.old) × (told_argument recipe.new ≡ told_argument recipe.old) }
        ensures worn { result ≡ Err worn.Caller → last_of self.old ≡ 2 ^ 32 - 1 }
        ensures worn_recipe { result ≡ Err worn.Recipe → calls recipe.old ≡ 2 ^ 64 - 1 }
        ensures nothing { OnErr result (self.new ≡ self.old) }
        ensures not_applied { OnErr result (recipe.new ≡ recipe.old) }
    {
        if recipe.calls() == u64::MAX {
            return Err(WornOut::Recipe);
        }
        next_call(&mut self.pass, &mut self.last)?;
        Ok(self.map.upsert(rt, &mut self.pass, key, value, recipe))
    }

    /// Adds a number to the one that the first eight bytes of a key's value are, modulo 2^64, or puts it as the eight
    /// bytes of a value where the key was absent: `Done` or `New`, and `Full` as for [`Caller::put`]. A value of fewer
    /// bytes stays as it is.
    pub fn add(&mut self, rt: &R, key: &[u8], number: u64) -> Result<Wrote, NotAdded>
    where
        R: AllocGlobal,
        requires key { IsKey key.now }
        ensures next { OnOk result (CallsNext StaysButRoom self.old self.new) }
        ensures views { OnOk result (KeepsViews self.old self.new) }
        ensures puts { IfOk result (λ y. Puts y (sizes_of self.old) (last_of self.old + 1) key.now
            (Upsert (to_be_bytes w64 number) Add number) (state_of self.old) (state_of self.new)) }
        ensures worn { result ≡ Err (refusals.WornOut worn.Caller) → last_of self.old ≡ 2 ^ 32 - 1 }
        ensures nothing { OnErr result (self.new ≡ self.old) }
    {
        let mut recipe: Box<dyn Recipe + Send> = Box::new(rt.alloc(), StepRecipe::make())?;
        recipe.tell(RecipeKind::Add, number);
        Ok(self.upsert(rt, key, &number.to_be_bytes(), &mut recipe)?)
    }
}
