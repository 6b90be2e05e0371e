//! Tests of taking blocks and giving them back.
ghost use Rattle.std.specs.Prelude.{◌≡◌, ◌<◌, suc, [], length, slice_index};
ghost use Rattle.oak_model.specs.Class.{class_number};
ghost use Rattle.arena_core.specs.Arena.{block_words};
ghost use Rattle.oak_core.specs.Passes.{IsPassOf, Stays, state, key};
ghost use Rattle.arena_ops.specs.Stack.{IsStack, KeepsRest};

use crate::found::{counts, is_unused};
use arena_ops::{NoBlock, give, store, take};
use oak_core::{Block, OakTable, Pass};
use oak_model::{Class, Shape};
use std::process::Abort;
use std::test::Fail;

/// The refusal is of this class.
fn is_of(rt: &impl Abort, found: Class, class: Class) {
    assert!(rt; found == class);
}

/// No block of the class is left.
fn none_left(rt: &impl Abort, table: &OakTable, pass: &mut Pass, class: Class)
    requires own { IsPassOf table.now pass.old }
    ensures own { Stays pass.old pass.new }
    ensures rest { KeepsRest (state pass.old) (state pass.new) }
    ensures same { (state pass.new).blocks ≡ (state pass.old).blocks }
{
    match take(table, pass, class) {
        Ok(
            Block {
                class: _,
                number: _,
            },
        ) => panic!(rt; "a block is left"),
        Err(NoBlock(found)) => is_of(rt, found, class),
    }
}

/// Takes the block that gets the place `i` among those taken.
fn take_at(
    rt: &impl Abort,
    table: &OakTable,
    pass: &mut Pass,
    class: Class,
    numbers: &mut [u32],
    i: usize,
)
    requires own { IsPassOf table.now pass.old }
    requires inside { i < length numbers.old }
    requires stack { IsStack (key table.now) class (λ k. slice_index numbers.old k) i (state pass.old).blocks.held }
    ensures own { Stays pass.old pass.new }
    ensures rest { KeepsRest (state pass.old) (state pass.new) }
    ensures long { length numbers.new ≡ length numbers.old }
    ensures stack { IsStack (key table.now) class (λ k. slice_index numbers.new k) (suc i) (state pass.new).blocks.held }
{
    let Ok(block) = take(table, pass, class) else {
        panic!(rt; "no block is left");
    };
    let Block { class: _, number } = block;
    numbers[i] = number;
}

/// Gives back the block of the place `i`, the last one taken.
fn give_at(table: &OakTable, pass: &mut Pass, class: Class, numbers: &[u32], i: usize)
    requires own { IsPassOf table.now pass.old }
    requires inside { i < length numbers.now }
    requires stack { IsStack (key table.now) class (λ k. slice_index numbers.now k) (suc i) (state pass.old).blocks.held }
    ensures own { Stays pass.old pass.new }
    ensures rest { KeepsRest (state pass.old) (state pass.new) }
    ensures stack { IsStack (key table.now) class (λ k. slice_index numbers.now k) i (state pass.new).blocks.held }
{
    let number = numbers[i];
    give(table, pass, Block { class, number });
}

/// Stores a word of the last block taken.
fn store_at(
    table: &OakTable,
    pass: &mut Pass,
    class: Class,
    numbers: &[u32],
    i: usize,
    word: u32,
    value: u64,
)
    requires own { IsPassOf table.now pass.old }
    requires inside { i < length numbers.now }
    requires word { word < block_words (class_number class) }
    requires stack { IsStack (key table.now) class (λ k. slice_index numbers.now k) (suc i) (state pass.old).blocks.held }
    ensures own { Stays pass.old pass.new }
    ensures rest { KeepsRest (state pass.old) (state pass.new) }
    ensures stack { IsStack (key table.now) class (λ k. slice_index numbers.now k) (suc i) (state pass.new).blocks.held }
{
    let number = numbers[i];
    let block = Block { class, number };
    store(table, pass, &block, word, value);
    let Block {
        class: _,
        number: _,
    } = block;
}

/// Takes as many blocks as there are numbers.
fn take_all(rt: &impl Abort, table: &OakTable, pass: &mut Pass, class: Class, numbers: &mut [u32])
    requires own { IsPassOf table.now pass.old }
    requires empty { (state pass.old).blocks.held ≡ [] }
    ensures own { Stays pass.old pass.new }
    ensures rest { KeepsRest (state pass.old) (state pass.new) }
    ensures long { length numbers.new ≡ length numbers.old }
    ensures stack { IsStack (key table.now) class (λ k. slice_index numbers.new k) (length numbers.old) (state pass.new).blocks.held }
{
    for i in 0..numbers.len() {
        take_at(rt, table, pass, class, numbers, i);
    }
}

/// Gives back all of them.
fn give_all(table: &OakTable, pass: &mut Pass, class: Class, numbers: &[u32])
    requires own { IsPassOf table.now pass.old }
    requires stack { IsStack (key table.now) class (λ k. slice_index numbers.now k) (length numbers.now) (state pass.old).blocks.held }
    ensures own { Stays pass.old pass.new }
    ensures rest { KeepsRest (state pass.old) (state pass.new) }
    ensures empty { (state pass.new).blocks.held ≡ [] }
{
    let mut left = numbers.len();
    while left > 0 {
        left -= 1;
        give_at(table, pass, class, numbers, left);
    }
}

/// Takes all blocks of a class, and gives them back.
fn take_and_give_all(
    rt: &impl Abort,
    table: &OakTable,
    pass: &mut Pass,
    class: Class,
    numbers: &mut [u32],
)
    requires own { IsPassOf table.now pass.old }
    requires empty { (state pass.old).blocks.held ≡ [] }
    ensures own { Stays pass.old pass.new }
    ensures rest { KeepsRest (state pass.old) (state pass.new) }
    ensures long { length numbers.new ≡ length numbers.old }
    ensures empty { (state pass.new).blocks.held ≡ [] }
{
    take_all(rt, table, pass, class, numbers);
    none_left(rt, table, pass, class);
    give_all(table, pass, class, numbers);
}

/// The blocks of these numbers are two.
fn differ(rt: &impl Abort, a: u32, b: u32) {
    assert!(rt; a != b);
}

/// Two blocks of one class are taken, and a third is refused until one is given back.
fn two_blocks(rt: &impl Abort, table: &OakTable, pass: &mut Pass)
    requires own { IsPassOf table.now pass.old }
    requires empty { (state pass.old).blocks.held ≡ [] }
    ensures own { Stays pass.old pass.new }
    ensures rest { KeepsRest (state pass.old) (state pass.new) }
    ensures empty { (state pass.new).blocks.held ≡ [] }
{
    let class = Class::B16;
    let mut numbers = [0; 2];
    take_at(rt, table, pass, class, &mut numbers, 0);
    store_at(table, pass, class, &numbers, 0, 1, 7);
    take_at(rt, table, pass, class, &mut numbers, 1);
    differ(rt, numbers[0], numbers[1]);
    none_left(rt, table, pass, class);
    give_at(table, pass, class, &numbers, 1);
    take_at(rt, table, pass, class, &mut numbers, 1);
    none_left(rt, table, pass, Class::B64);
    give_at(table, pass, class, &numbers, 1);
    give_at(table, pass, class, &numbers, 0);
}

#[test]
fn a_shape_of_two_blocks(rt: HostRuntime) -> Result<(), Fail> {
    let shape = Shape::make(2, 1, 4, 1, [2, 0, 0, 0])?;
    let (table, mut pass) = OakTable::create(rt.alloc(), &shape)?;
    two_blocks(&rt, &table, &mut pass);
    is_unused(&rt, table.close(pass).usage());
    Ok(())
}

/// The same blocks are taken and given back again.
fn take_and_give_twice(
    rt: &impl Abort,
    table: &OakTable,
    pass: &mut Pass,
    class: Class,
    numbers: &mut [u32],
)
    requires own { IsPassOf table.now pass.old }
    requires empty { (state pass.old).blocks.held ≡ [] }
    ensures own { Stays pass.old pass.new }
    ensures rest { KeepsRest (state pass.old) (state pass.new) }
    ensures empty { (state pass.new).blocks.held ≡ [] }
{
    take_and_give_all(rt, table, pass, class, numbers);
    take_and_give_all(rt, table, pass, class, numbers);
}

/// In time that grows as the number of blocks, as each search goes on where the last one ended.
#[test]
fn all_blocks_of_a_class_twice(rt: HostRuntime) -> Result<(), Fail> {
    let shape = Shape::make(1, 1, 4, 1, [65_536, 0, 0, 0])?;
    let mut numbers = vec![in rt.alloc(); 0u32; 65_536]?;
    let (table, mut pass) = OakTable::create(rt.alloc(), &shape)?;
    take_and_give_twice(&rt, &table, &mut pass, Class::B16, numbers.as_mut_slice());
    let usage = table.close(pass).usage();
    counts(&rt, "blocks", usage.blocks[0] as usize, 0);
    Ok(())
}
