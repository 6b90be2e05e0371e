//! The calls on blocks.
ghost use Rattle.std.specs.Prelude.{◌≡◌, ◌<◌, IfOk, IfErr, OnErr};
ghost use Rattle.oak_model.specs.Class.{class_number};
ghost use Rattle.arena_core.specs.Arena.{block_words};
ghost use Rattle.arena_core.specs.Blocks.{HoldsBlock};
ghost use Rattle.oak_core.specs.Passes.{IsPassOf, Stays, state, key, call_of};
ghost use Rattle.arena_ops.specs.Taking.{Takes, FindsNone, NoneClear, Gives, Stores};

use crate::searching::search;
use oak_core::steps::{clear_bit, store_word};
use oak_core::{Block, OakTable, Pass};
use oak_model::Class;
use thiserror::Error;

/// No block of the class was found free.
#[derive(Clone, Copy, Debug, PartialEq, Eq, Error)]
#[error("no block of class {0:?} is free")]
pub struct NoBlock(pub Class);

/// Takes a block that had no owner, one whose bit was found clear, and no other. `NoBlock` comes only where
/// every bit of the class was found set in this call; to a pass that is alone all of them are set then.
#[inline(always)] // an answer goes through memory at a call
pub fn take(table: &OakTable, pass: &mut Pass, class: Class) -> Result<Block, NoBlock>
    requires own { IsPassOf table.now pass.old }
    ensures own { Stays pass.old pass.new }
    ensures taken { IfOk result (λ b. (b.class ≡ class) × Takes (key table.now) (call_of pass.old) class b.number (state pass.old) (state pass.new)) }
    ensures none { IfErr result (λ e. (e.0 ≡ class) × FindsNone (key table.now) (call_of pass.old) class (state pass.old) (state pass.new)) }
    ensures alone { OnErr result (NoneClear (key table.now) class (state pass.old) (state pass.new)) }
{
    match search(table, pass, class) {
        Some(number) => {
            pass.search_from(class, number + 1);
            Ok(Block { class, number })
        }
        None => Err(NoBlock(class)),
    }
}

/// Gives back a block that the pass holds. No owner has it then.
pub fn give(table: &OakTable, pass: &mut Pass, block: Block)
    requires own { IsPassOf table.now pass.old }
    requires held { HoldsBlock (key table.now) (class_number block.class) block.number (state pass.old).blocks }
    ensures own { Stays pass.old pass.new }
    ensures given { Gives (key table.now) (call_of pass.old) block.class block.number (state pass.old) (state pass.new) }
{
    let Block { class, number } = block;
    let word = table.bits_at(class, number / 64);
    clear_bit(table, pass, word, !(1 << (number % 64)));
}

/// Stores a word of a block that the pass holds. No other word of the table changes by it.
pub fn store(table: &OakTable, pass: &mut Pass, block: &Block, word: u32, value: u64)
    requires own { IsPassOf table.now pass.old }
    requires held { HoldsBlock (key table.now) (class_number block.now.class) block.now.number (state pass.old).blocks }
    requires inside { word < block_words (class_number block.now.class) }
    ensures own { Stays pass.old pass.new }
    ensures stored { Stores (key table.now) (call_of pass.old) block.now.class block.now.number word value (state pass.old) (state pass.new) }
{
    let place = table.bytes_at(block.class, block.number, word);
    store_word(table, pass, place, value);
}
