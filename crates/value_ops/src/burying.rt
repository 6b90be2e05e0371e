//! Headers whose life was removed, until they are taken back.
ghost use Rattle.std.specs.Prelude.{◌≡◌};
ghost use Rattle.oak_model.specs.Class.{class_number};
ghost use Rattle.arena_core.specs.Blocks.{HoldsBlock};
ghost use Rattle.header_core.specs.HeaderStep.{renewal};
ghost use Rattle.oak_core.specs.AloneWords.{Runs};
ghost use Rattle.oak_core.specs.MayWrite.{IsUnnamed};
ghost use Rattle.oak_core.specs.Passes.{IsPassOf, Stays, state, key, call_of};
ghost use Rattle.value_ops.specs.AloneLocks.{RenewsPin};
ghost use Rattle.value_ops.specs.UnderLock.{HasBuried, Renews};

use crate::claiming::STATE;
use arena_core::place::{block_in, class_in};
use header_core::{DEAD, LAST_GENERATION};
use oak_core::{Block, OakTable, Pass, load, steps};

/// A header that the pass marked dead, with the stamp of the removal. It must be spent: it is taken
/// back, and can't be dropped.
#[derive(Debug)]
pub struct Buried {
    pub header: u32,
    pub generation: u32,
    pub stamp: u64,
}

/// What is added to the word of a dead header at this generation: it is free at the next one, or retired
/// where that is the last.
fn renewal(generation: u32) -> u64
    ensures { result ≡ renewal generation }
{
    if generation == LAST_GENERATION - 1 {
        (1 << 32) + STATE
    } else {
        (1 << 32) - u64::from(DEAD) * STATE
    }
}

impl Buried {
    /// The stamp of the removal.
    pub fn stamp(&self) -> u64
        ensures { result ≡ self.now.stamp }
    {
        self.stamp
    }

    /// Takes the header back, with a raised generation, and hands back its block, which the pass holds
    /// again. No entry may name the header any more. A header that comes to the last generation is retired, and never free again.
    pub fn take_back(self, table: &OakTable, pass: &mut Pass) -> Block
        requires own { IsPassOf table.now pass.old }
        requires buried { HasBuried (key table.now) self.header self.generation self.stamp (state pass.old) }
        requires unnamed { IsUnnamed self.header (state pass.old).headers }
        ensures own { Stays pass.old pass.new }
        ensures held { HoldsBlock (key table.now) (class_number result.class) result.number (state pass.new).blocks }
        ensures renewed { Renews (key table.now) (call_of pass.old) self.header self.generation result.class
            result.number (state pass.old) (state pass.new) }
        ensures alone { Runs (RenewsPin (key table.now) self.header self.generation result.class result.number) (state pass.old) (state pass.new) }
    {
        let Buried {
            header,
            generation,
            stamp: _,
        } = self;
        let place = load(table, pass, table.place_at(header));
        steps::take_back(table, pass, table.pin_at(header), renewal(generation));
        Block {
            class: class_in(place),
            number: block_in(place),
        }
    }
}
