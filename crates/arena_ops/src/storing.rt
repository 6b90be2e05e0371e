//! Bytes stored in blocks by whole words.
ghost use Rattle.std.specs.Prelude.{◌≡◌, length, Some};
ghost use Rattle.oak_model.specs.Class.{class_number, class_of};
ghost use Rattle.arena_core.specs.Blocks.{HoldsBlock, holds};
ghost use Rattle.oak_core.specs.Passes.{IsPassOf, Stays, state, key, call_of};
ghost use Rattle.arena_ops.specs.Storing.{StoresBytes};

use crate::taking::store;
use crate::words::full_word;
use arena_core::words::{WORD, word_from};
use oak_core::{Block, OakTable, Pass};

/// Stores bytes in a block that the pass holds, of the class that they have: they are the first of the
/// block from then on, and it is held as often as before. Each word is stored once, with zeros behind the
/// last byte, and no block is taken. To a pass that is alone no other word of the table changes by it.
pub fn store_bytes(table: &OakTable, pass: &mut Pass, block: &Block, bytes: &[u8])
    requires own { IsPassOf table.now pass.old }
    requires held { HoldsBlock (key table.now) (class_number block.now.class) block.now.number (state pass.old).blocks }
    requires fits { class_of (length bytes.now) ≡ Some block.now.class }
    ensures own { Stays pass.old pass.new }
    ensures times { holds (class_number block.now.class) block.now.number (state pass.new).blocks ≡ holds
        (class_number block.now.class) block.now.number (state pass.old).blocks }
    ensures stored { StoresBytes (key table.now) (call_of pass.old) block.now.class block.now.number bytes.now (state pass.old) (state pass.new) }
{
    let full = bytes.len() / WORD;
    for i in 0..full {
        store(table, pass, block, i as u32, full_word(bytes, i));
    }
    if WORD * full < bytes.len() {
        store(table, pass, block, full as u32, word_from(bytes, full));
    }
}
