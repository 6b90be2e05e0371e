//! The calls on a header of the pass's own.
ghost use Rattle.std.specs.Prelude.{◌≡◌, ◌<◌, take, Some, None};
ghost use Rattle.oak_model.specs.Class.{class_number, class_of};
ghost use Rattle.oak_model.specs.WordBytes.{bytes_of};
ghost use Rattle.arena_core.specs.Blocks.{HoldsBlock, words_held};
ghost use Rattle.header_core.specs.declared.states.TheConstants.{OWNED};
ghost use Rattle.header_core.specs.HeaderHolds.{in_state, IsFreshAt};
ghost use Rattle.oak_core.specs.HeldRows.{HasFresh};
ghost use Rattle.oak_core.specs.Passes.{IsPassOf, Stays, state, key, call_of};
ghost use Rattle.value_ops.specs.Filling.{ReleasesOwned, Fills, Withdraws};

use crate::claiming::{Owned, STATE};
use arena_core::place::{block_in, class_in, place_word};
use header_core::{LIVE, OWNED};
use oak_core::steps::{open_header, release_header, store_field};
use oak_core::{Block, Fresh, OakTable, Pass, load};

/// Frees a header that the pass owns. It stays at its generation.
pub fn release(table: &OakTable, pass: &mut Pass, owned: Owned)
    requires own { IsPassOf table.now pass.old }
    requires inside { owned.header < (key table.now).headers }
    requires owned { 0 < in_state owned.header OWNED (state pass.old).headers }
    ensures own { Stays pass.old pass.new }
    ensures released { ReleasesOwned (key table.now) (call_of pass.old) owned.header (state pass.old) (state pass.new) }
{
    let Owned { header } = owned;
    let word = table.pin_at(header);
    release_header(table, pass, word, u64::from(OWNED) * STATE);
}

/// Fills a header that the pass owns with a block that it holds, in which `len` bytes stand, at most
/// 1,024, and with a stamp, and opens it. The pass has the header fresh then, with the block's words,
/// and holds the block no more.
pub fn fill(
    table: &OakTable,
    pass: &mut Pass,
    owned: Owned,
    block: Block,
    len: usize,
    stamp: u64,
) -> Fresh
    requires own { IsPassOf table.now pass.old }
    requires inside { owned.header < (key table.now).headers }
    requires owned { 0 < in_state owned.header OWNED (state pass.old).headers }
    requires held { HoldsBlock (key table.now) (class_number block.class) block.number (state pass.old).blocks }
    requires fits { class_of len ≡ Some block.class }
    ensures own { Stays pass.old pass.new }
    ensures header { result.header ≡ owned.header }
    ensures stamp { result.stamp ≡ stamp }
    ensures fresh { IsFreshAt result.header result.generation (state pass.new).headers }
    ensures has { HasFresh (key table.now) result.header result.generation stamp
        (take len (bytes_of (words_held (class_number block.class) block.number (state pass.old).blocks.held)))
        (state pass.new) }
    ensures filled { Fills (key table.now) (call_of pass.old) owned.header block.class block.number len stamp
        result.generation (state pass.old) (state pass.new) }
{
    let Owned { header } = owned;
    let Block { class, number } = block;
    let place = table.place_at(header);
    store_field(table, pass, place, place_word(class, number, len as u16));
    let stamped = table.stamp_at(header);
    store_field(table, pass, stamped, stamp);
    let word = table.pin_at(header);
    let found = open_header(table, pass, word, STATE);
    Fresh {
        header,
        generation: pin_word::generation(found),
        stamp,
    }
}

/// Frees a fresh header, and hands back its block, which the pass holds again. The pass may have no pin
/// then. The header stays at its generation.
pub fn withdraw(table: &OakTable, pass: &mut Pass, fresh: Fresh) -> Block
    requires own { IsPassOf table.now pass.old }
    requires inside { fresh.header < (key table.now).headers }
    requires fresh { IsFreshAt fresh.header fresh.generation (state pass.old).headers }
    requires unpinned { (state pass.old).headers.pin ≡ None }
    ensures own { Stays pass.old pass.new }
    ensures held { HoldsBlock (key table.now) (class_number result.class) result.number (state pass.new).blocks }
    ensures withdrawn { Withdraws (key table.now) (call_of pass.old) fresh.header result.class result.number (state pass.old) (state pass.new) }
{
    let Fresh {
        header,
        generation: _,
        stamp: _,
    } = fresh;
    let place = table.place_at(header);
    let named = load(table, pass, place);
    let word = table.pin_at(header);
    release_header(table, pass, word, u64::from(LIVE) * STATE);
    Block {
        class: class_in(named),
        number: block_in(named),
    }
}
