//! Tests of headers that are claimed, filled, withdrawn and released.
ghost use Rattle.std.specs.Prelude.{◌≡◌, ◌<◌};
ghost use Rattle.oak_model.specs.declared.classes.Class.TheVariants.{B16};
ghost use Rattle.oak_model.specs.Class.{class_number};
ghost use Rattle.arena_core.specs.Blocks.{HoldsBlock};
ghost use Rattle.arena_core.specs.HeldBlocks.{no_blocks};
ghost use Rattle.header_core.specs.declared.states.TheConstants.{OWNED};
ghost use Rattle.header_core.specs.HeaderHolds.{no_headers, in_state};
ghost use Rattle.oak_core.specs.Passes.{IsPassOf, Stays, state, key};
ghost use Rattle.value_ops.specs.OneHeader.{IsOneHeader, IsOneBlock, KeepsElse};

use crate::found::{is_unused, word_is};
use arena_ops::{give, take};
use oak_core::{Block, OakTable, Pass};
use oak_model::{Class, Shape};
use std::process::Abort;
use std::test::Fail;
use value_ops::{NoHeader, Owned, claim, fill, release, withdraw};

/// Claims a header, which is free.
fn claim_one(rt: &impl Abort, table: &OakTable, pass: &mut Pass) -> Owned
    requires own { IsPassOf table.now pass.old }
    requires none { (state pass.old).headers ≡ no_headers }
    ensures own { Stays pass.old pass.new }
    ensures rest { KeepsElse (state pass.old) (state pass.new) }
    ensures kept_blocks { (state pass.new).blocks ≡ (state pass.old).blocks }
    ensures inside { result.header < (key table.now).headers }
    ensures owned { 0 < in_state result.header OWNED (state pass.new).headers }
    ensures one { IsOneHeader result.header (state pass.new).headers }
{
    claim(table, pass).expect(rt, "a header is free")
}

/// Takes a block, which is free.
fn take_one(rt: &impl Abort, table: &OakTable, pass: &mut Pass) -> Block
    requires own { IsPassOf table.now pass.old }
    requires none { (state pass.old).blocks ≡ no_blocks }
    ensures own { Stays pass.old pass.new }
    ensures rest { KeepsElse (state pass.old) (state pass.new) }
    ensures headers { (state pass.new).headers ≡ (state pass.old).headers }
    ensures class { result.class ≡ B16 }
    ensures held { HoldsBlock (key table.now) (class_number result.class) result.number (state pass.new).blocks }
    ensures one { IsOneBlock result.class result.number (state pass.new).blocks }
{
    take(table, pass, Class::B16).expect(rt, "a block is free")
}

/// No header is left.
pub(crate) fn none_left(rt: &impl Abort, table: &OakTable, pass: &mut Pass)
    requires own { IsPassOf table.now pass.old }
    ensures own { Stays pass.old pass.new }
    ensures rest { KeepsElse (state pass.old) (state pass.new) }
    ensures kept_blocks { (state pass.new).blocks ≡ (state pass.old).blocks }
    ensures headers { (state pass.new).headers ≡ (state pass.old).headers }
{
    match claim(table, pass) {
        Ok(Owned { header: _ }) => panic!(rt; "a header is left"),
        Err(NoHeader) => {}
    }
}

/// The one header is claimed, refused to a second claim, and released.
fn claim_and_release(rt: &impl Abort, table: &OakTable, pass: &mut Pass)
    requires own { IsPassOf table.now pass.old }
    requires none { (state pass.old).headers ≡ no_headers }
    ensures own { Stays pass.old pass.new }
    ensures rest { KeepsElse (state pass.old) (state pass.new) }
    ensures kept_blocks { (state pass.new).blocks ≡ (state pass.old).blocks }
    ensures no_header { (state pass.new).headers ≡ no_headers }
{
    let owned = claim_one(rt, table, pass);
    none_left(rt, table, pass);
    release(table, pass, owned);
}

/// The block is of the class and the number with which it was taken.
fn is_taken(rt: &impl Abort, block: &Block, number: u32) {
    assert!(rt; block.class == Class::B16);
    word_is(rt, "number", u64::from(block.number), u64::from(number));
}

/// A header is claimed, filled with a block, and withdrawn: it hands that block back.
fn fill_and_withdraw(rt: &impl Abort, table: &OakTable, pass: &mut Pass)
    requires own { IsPassOf table.now pass.old }
    requires no_block { (state pass.old).blocks ≡ no_blocks }
    requires no_header { (state pass.old).headers ≡ no_headers }
    ensures own { Stays pass.old pass.new }
    ensures rest { KeepsElse (state pass.old) (state pass.new) }
    ensures no_block { (state pass.new).blocks ≡ no_blocks }
    ensures no_header { (state pass.new).headers ≡ no_headers }
{
    let owned = claim_one(rt, table, pass);
    let block = take_one(rt, table, pass);
    let number = block.number;
    let fresh = fill(table, pass, owned, block, 5, 7);
    word_is(rt, "stamp", fresh.stamp, 7);
    none_left(rt, table, pass);
    let back = withdraw(table, pass, fresh);
    is_taken(rt, &back, number);
    give(table, pass, back);
}

#[test]
fn one_header(rt: HostRuntime) -> Result<(), Fail> {
    let shape = Shape::make(1, 1, 4, 1, [1, 0, 0, 0])?;
    let (table, mut pass) = OakTable::create(rt.alloc(), &shape)?;
    claim_and_release(&rt, &table, &mut pass);
    fill_and_withdraw(&rt, &table, &mut pass);
    is_unused(&rt, table.close(pass).usage());
    Ok(())
}
