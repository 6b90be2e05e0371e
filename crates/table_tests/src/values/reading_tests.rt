//! Tests of readings.
ghost use Rattle.std.specs.Prelude.{◌≡◌, ◌<◌, ◌≤◌, None, Some, IfSome, IfNone, length};
ghost use Rattle.oak_model.specs.declared.classes.Class.TheVariants.{B16};
ghost use Rattle.oak_model.specs.Class.{class_number, class_of};
ghost use Rattle.arena_core.specs.Blocks.{HoldsBlock};
ghost use Rattle.arena_core.specs.HeldBlocks.{no_blocks};
ghost use Rattle.header_core.specs.declared.states.TheConstants.{OWNED};
ghost use Rattle.header_core.specs.HeaderHolds.{no_headers, in_state, IsFreshAt};
ghost use Rattle.oak_core.specs.PassState.{HoldsNothing, IsAlone};
ghost use Rattle.oak_core.specs.Passes.{IsPassOf, Stays, state, key, call_of};
ghost use Rattle.value_ops.specs.OneHeader.{IsOneHeader, IsOneBlock, KeepsElse};
ghost use Rattle.value_ops.specs.Pinning.{OnlyLearns};
ghost use Rattle.value_ops.specs.Reading.{IsReading, ReadsOn, value};

use crate::found::{bytes_are, counts, is_so, is_unused, word_is};
use crate::values::claiming_tests::none_left;
use arena_ops::{NoBlock, give, store, take};
use oak_core::{Block, Fresh, OakTable, Pass};
use oak_model::{Class, Shape};
use std::alloc::Global;
use std::process::Abort;
use std::test::Fail;
use std::thread::{Threads, join_mut};
use value_ops::{NoHeader, Owned, Reading, claim, fill, pin_at, release, withdraw};

/// The reading is of exactly these bytes, as a whole.
fn same_is(rt: &impl Abort, reading: &mut Reading<'_>, bytes: &[u8])
    requires { IsReading reading.old }
    ensures same_reference { reading.new.pass.ghost_name ≡ reading.old.pass.ghost_name }
    ensures reads { ReadsOn reading.old reading.new }
{
    let same = reading.same(bytes);
    is_so(rt, "the same", same);
}

/// It has this byte at `i`.
fn byte_is(rt: &impl Abort, reading: &mut Reading<'_>, i: usize, byte: u8)
    requires reading { IsReading reading.old }
    requires inside { i < length (value reading.old) }
    ensures same_reference { reading.new.pass.ghost_name ≡ reading.old.pass.ghost_name }
    ensures reads { ReadsOn reading.old reading.new }
{
    let found = reading.byte(i);
    counts(rt, "byte", usize::from(found), usize::from(byte));
}

/// Its eight bytes in front are this number.
fn eight_is(rt: &impl Abort, reading: &mut Reading<'_>, front: u64)
    requires reading { IsReading reading.old }
    requires inside { 8 ≤ length (value reading.old) }
    ensures same_reference { reading.new.pass.ghost_name ≡ reading.old.pass.ghost_name }
    ensures reads { ReadsOn reading.old reading.new }
{
    let found = reading.eight(0);
    word_is(rt, "front", found, front);
}

/// They are, where it has eight bytes at all.
fn front_is(rt: &impl Abort, reading: &mut Reading<'_>, front: u64)
    requires { IsReading reading.old }
    ensures same_reference { reading.new.pass.ghost_name ≡ reading.old.pass.ghost_name }
    ensures reads { ReadsOn reading.old reading.new }
{
    if reading.len() >= 8 {
        eight_is(rt, reading, front);
    }
}

/// A copy of it is these bytes.
fn copies_to(rt: &impl Abort, reading: &mut Reading<'_>, copy: &mut [u8], bytes: &[u8])
    requires reading { IsReading reading.old }
    requires long { length copy.old ≡ length (value reading.old) }
    ensures same_reference { reading.new.pass.ghost_name ≡ reading.old.pass.ghost_name }
    ensures reads { ReadsOn reading.old reading.new }
{
    reading.copy_into(copy);
    bytes_are(rt, "copy", copy, bytes);
}

/// A copy is, where it has three or eight bytes.
fn copy_is(rt: &impl Abort, reading: &mut Reading<'_>, bytes: &[u8])
    requires { IsReading reading.old }
    ensures same_reference { reading.new.pass.ghost_name ≡ reading.old.pass.ghost_name }
    ensures reads { ReadsOn reading.old reading.new }
{
    let mut copy = [0; 8];
    let len = reading.len();
    if len == 3 || len == 8 {
        copies_to(rt, reading, &mut copy[..len], bytes);
    }
}

/// So many bytes of a copy are those at the front of these, at most five, and behind them it has the byte 7.
fn is_front(rt: &impl Abort, copy: &[u8; 5], many: usize, bytes: &[u8]) {
    counts(rt, "bytes of the front", many, bytes.len().min(5));
    for i in 0..5 {
        let wanted = if i < many && i < bytes.len() {
            bytes[i]
        } else {
            7
        };
        counts(rt, "byte", usize::from(copy[i]), usize::from(wanted));
    }
}

/// A copy of its front, of at most five bytes, is that of these bytes, and the place behind it stays as it was.
fn prefix_is(rt: &impl Abort, reading: &mut Reading<'_>, bytes: &[u8])
    requires { IsReading reading.old }
    ensures same_reference { reading.new.pass.ghost_name ≡ reading.old.pass.ghost_name }
    ensures reads { ReadsOn reading.old reading.new }
{
    let mut copy = [7; 5];
    let many = reading.copy_prefix(&mut copy);
    is_front(rt, &copy, many, bytes);
}

/// A copy of it in a vector is these bytes.
fn vector_is(rt: &impl Abort, alloc: Global, reading: &mut Reading<'_>, bytes: &[u8])
    requires { IsReading reading.old }
    ensures same_reference { reading.new.pass.ghost_name ≡ reading.old.pass.ghost_name }
    ensures reads { ReadsOn reading.old reading.new }
{
    let Ok(copy) = reading.to_vec(alloc) else {
        panic!(rt; "no memory");
    };
    bytes_are(rt, "vector", copy.as_slice(), bytes);
}

/// It is shown by where its value lies.
fn is_shown(rt: &impl Abort, alloc: Global, reading: &Reading<'_>) {
    let Ok(shown) = format!(in alloc; "{reading:?}") else {
        panic!(rt; "no memory");
    };
    let begins = shown.starts_with("Reading { value: PinnedValue { header: 0, ");
    is_so(rt, "shown", begins);
}

/// It is exactly these bytes, as a whole and in its parts.
fn whole_is<R: Abort + AllocGlobal>(rt: &R, reading: &mut Reading<'_>, bytes: &[u8], front: u64)
    requires { IsReading reading.old }
    ensures same_reference { reading.new.pass.ghost_name ≡ reading.old.pass.ghost_name }
    ensures reads { ReadsOn reading.old reading.new }
{
    same_is(rt, reading, bytes);
    front_is(rt, reading, front);
    copy_is(rt, reading, bytes);
    prefix_is(rt, reading, bytes);
    vector_is(rt, rt.alloc(), reading, bytes);
    is_shown(rt, rt.alloc(), reading);
}

/// Its third byte is that of these bytes, where they are three or more.
fn third_is(rt: &impl Abort, reading: &mut Reading<'_>, bytes: &[u8])
    requires reading { IsReading reading.old }
    requires long { length bytes.now ≡ length (value reading.old) }
    ensures same_reference { reading.new.pass.ghost_name ≡ reading.old.pass.ghost_name }
    ensures reads { ReadsOn reading.old reading.new }
{
    if bytes.len() > 2 {
        byte_is(rt, reading, 2, bytes[2]);
    }
}

/// Reads the value of a fresh header: exactly these bytes, at this stamp, which is also the number that
/// the first eight of eight make.
fn value_is<R: Abort + AllocGlobal>(
    rt: &R,
    table: &OakTable,
    pass: &mut Pass,
    at: (u32, u32),
    bytes: &[u8],
    stamp: u64,
)
    requires own { IsPassOf table.now pass.old }
    requires inside { at.0 < (key table.now).headers }
    requires fresh { IsFreshAt at.0 at.1 (state pass.old).headers }
    requires unpinned { (state pass.old).headers.pin ≡ None }
    ensures own { Stays pass.old pass.new }
    ensures learns { OnlyLearns (key table.now) (call_of pass.old) (state pass.old) (state pass.new) }
{
    let Ok(pin) = pin_at(table, pass, at.0, at.1) else {
        panic!(rt; "no pin");
    };
    let mut reading = pin.reading(table, pass);
    word_is(rt, "stamp", reading.at(), stamp);
    assert!(rt; reading.len() == bytes.len());
    third_is(rt, &mut reading, bytes);
    whole_is(rt, &mut reading, bytes, stamp);
    reading.done();
}

/// Claims the header, if it is free.
fn try_claim(table: &OakTable, pass: &mut Pass) -> Option<Owned>
    requires own { IsPassOf table.now pass.old }
    requires none { (state pass.old).headers ≡ no_headers }
    ensures own { Stays pass.old pass.new }
    ensures rest { KeepsElse (state pass.old) (state pass.new) }
    ensures kept_blocks { (state pass.new).blocks ≡ (state pass.old).blocks }
    ensures inside { IfSome result (λ o. o.header < (key table.now).headers) }
    ensures owned { IfSome result (λ o. 0 < in_state o.header OWNED (state pass.new).headers) }
    ensures one { IfSome result (λ o. IsOneHeader o.header (state pass.new).headers) }
    ensures none { IfNone result ((state pass.new).headers ≡ no_headers) }
{
    match claim(table, pass) {
        Ok(owned) => Some(owned),
        Err(NoHeader) => None,
    }
}

/// Takes the block, if it is free.
fn try_take(table: &OakTable, pass: &mut Pass) -> Option<Block>
    requires own { IsPassOf table.now pass.old }
    requires none { (state pass.old).blocks ≡ no_blocks }
    ensures own { Stays pass.old pass.new }
    ensures rest { KeepsElse (state pass.old) (state pass.new) }
    ensures headers { (state pass.new).headers ≡ (state pass.old).headers }
    ensures class { IfSome result (λ b. b.class ≡ B16) }
    ensures held { IfSome result (λ b. HoldsBlock (key table.now) (class_number b.class) b.number (state pass.new).blocks) }
    ensures one { IfSome result (λ b. IsOneBlock b.class b.number (state pass.new).blocks) }
    ensures none { IfNone result ((state pass.new).blocks ≡ no_blocks) }
{
    match take(table, pass, Class::B16) {
        Ok(block) => Some(block),
        Err(NoBlock(_)) => None,
    }
}

/// Stores the two words of the block.
fn store_both(table: &OakTable, pass: &mut Pass, block: &Block, words: (u64, u64))
    requires own { IsPassOf table.now pass.old }
    requires class { block.now.class ≡ B16 }
    requires held { HoldsBlock (key table.now) (class_number block.now.class) block.now.number (state pass.old).blocks }
    requires one { IsOneBlock block.now.class block.now.number (state pass.old).blocks }
    ensures own { Stays pass.old pass.new }
    ensures rest { KeepsElse (state pass.old) (state pass.new) }
    ensures headers { (state pass.new).headers ≡ (state pass.old).headers }
    ensures held { HoldsBlock (key table.now) (class_number block.now.class) block.now.number (state pass.new).blocks }
    ensures one { IsOneBlock block.now.class block.now.number (state pass.new).blocks }
{
    store(table, pass, block, 0, words.0);
    store(table, pass, block, 1, words.1);
}

/// Fills the one header with the one block.
fn fill_one(
    table: &OakTable,
    pass: &mut Pass,
    owned: Owned,
    block: Block,
    len: usize,
    stamp: u64,
) -> Fresh
    requires own { IsPassOf table.now pass.old }
    requires inside { owned.header < (key table.now).headers }
    requires owned { 0 < in_state owned.header OWNED (state pass.old).headers }
    requires held { HoldsBlock (key table.now) (class_number block.class) block.number (state pass.old).blocks }
    requires fits { class_of len ≡ Some block.class }
    requires header { IsOneHeader owned.header (state pass.old).headers }
    requires block { IsOneBlock block.class block.number (state pass.old).blocks }
    ensures own { Stays pass.old pass.new }
    ensures rest { KeepsElse (state pass.old) (state pass.new) }
    ensures inside { result.header < (key table.now).headers }
    ensures fresh { IsFreshAt result.header result.generation (state pass.new).headers }
    ensures one { IsOneHeader result.header (state pass.new).headers }
    ensures none { (state pass.new).blocks ≡ no_blocks }
{
    fill(table, pass, owned, block, len, stamp)
}

/// Withdraws the one header, and gives its block back.
fn hand_back(table: &OakTable, pass: &mut Pass, fresh: Fresh)
    requires own { IsPassOf table.now pass.old }
    requires inside { fresh.header < (key table.now).headers }
    requires fresh { IsFreshAt fresh.header fresh.generation (state pass.old).headers }
    requires header { IsOneHeader fresh.header (state pass.old).headers }
    requires none { (state pass.old).blocks ≡ no_blocks }
    ensures own { Stays pass.old pass.new }
    ensures rest { KeepsElse (state pass.old) (state pass.new) }
    ensures blocks { (state pass.new).blocks ≡ no_blocks }
    ensures headers { (state pass.new).headers ≡ no_headers }
{
    let back = withdraw(table, pass, fresh);
    give(table, pass, back);
}

/// Reads the one fresh header's value, and hands back all.
fn read_back<R: Abort + AllocGlobal>(
    rt: &R,
    table: &OakTable,
    pass: &mut Pass,
    fresh: Fresh,
    bytes: &[u8],
    stamp: u64,
)
    requires own { IsPassOf table.now pass.old }
    requires inside { fresh.header < (key table.now).headers }
    requires fresh { IsFreshAt fresh.header fresh.generation (state pass.old).headers }
    requires header { IsOneHeader fresh.header (state pass.old).headers }
    requires none { (state pass.old).blocks ≡ no_blocks }
    ensures own { Stays pass.old pass.new }
    ensures rest { KeepsElse (state pass.old) (state pass.new) }
    ensures blocks { (state pass.new).blocks ≡ no_blocks }
    ensures headers { (state pass.new).headers ≡ no_headers }
{
    let at = (fresh.header, fresh.generation);
    value_is(rt, table, pass, at, bytes, stamp);
    hand_back(table, pass, fresh);
}

/// Claims, fills, reads and withdraws, as far as a header and a block are free.
fn round<R: Abort + AllocGlobal>(rt: &R, table: &OakTable, pass: &mut Pass, front: u64)
    requires own { IsPassOf table.now pass.old }
    requires blocks { (state pass.old).blocks ≡ no_blocks }
    requires headers { (state pass.old).headers ≡ no_headers }
    ensures own { Stays pass.old pass.new }
    ensures rest { KeepsElse (state pass.old) (state pass.new) }
    ensures blocks { (state pass.new).blocks ≡ no_blocks }
    ensures headers { (state pass.new).headers ≡ no_headers }
{
    let Some(owned) = try_claim(table, pass) else {
        return;
    };
    let Some(block) = try_take(table, pass) else {
        release(table, pass, owned);
        return;
    };
    store_both(table, pass, &block, (front, front));
    let fresh = fill_one(table, pass, owned, block, 8, front);
    read_back(rt, table, pass, fresh, &front.to_be_bytes(), front);
}

/// As many rounds as are said, each with a value of its own.
fn rounds<R: Abort + AllocGlobal>(rt: &R, table: &OakTable, pass: &mut Pass, first: u64, count: u64)
    requires own { IsPassOf table.now pass.old }
    requires blocks { (state pass.old).blocks ≡ no_blocks }
    requires headers { (state pass.old).headers ≡ no_headers }
    ensures own { Stays pass.old pass.new }
    ensures rest { KeepsElse (state pass.old) (state pass.new) }
    ensures blocks { (state pass.new).blocks ≡ no_blocks }
    ensures headers { (state pass.new).headers ≡ no_headers }
{
    for i in 0..count {
        round(rt, table, pass, first.wrapping_add(i));
    }
}

/// Two passes work in two threads, over one header and one block.
fn rounds_together<R: Threads + Abort + Sync + AllocGlobal>(
    rt: &R,
    table: &OakTable,
    a: &mut Pass,
    b: &mut Pass,
)
    requires own { IsPassOf table.now a.old × IsPassOf table.now b.old }
    requires blocks { ((state a.old).blocks ≡ no_blocks) × ((state b.old).blocks ≡ no_blocks) }
    requires headers { ((state a.old).headers ≡ no_headers) × ((state b.old).headers ≡ no_headers) }
    ensures own { Stays a.old a.new × Stays b.old b.new }
    ensures rest { KeepsElse (state a.old) (state a.new) × KeepsElse (state b.old) (state b.new) }
    ensures blocks { ((state a.new).blocks ≡ no_blocks) × ((state b.new).blocks ≡ no_blocks) }
    ensures headers { ((state a.new).headers ≡ no_headers) × ((state b.new).headers ≡ no_headers) }
{
    join_mut(
        rt,
        &mut || rounds(rt, table, a, 0x0102_0304_0506_0708, 3000),
        &mut || rounds(rt, table, b, 0x8182_8384_8586_8788, 3000),
    );
}

/// The one header is claimed, filled with three bytes, read and withdrawn, and may be claimed again.
fn three_bytes<R: Abort + AllocGlobal>(rt: &R, table: &OakTable, pass: &mut Pass)
    requires own { IsPassOf table.now pass.old }
    requires blocks { (state pass.old).blocks ≡ no_blocks }
    requires headers { (state pass.old).headers ≡ no_headers }
    ensures own { Stays pass.old pass.new }
    ensures rest { KeepsElse (state pass.old) (state pass.new) }
    ensures blocks { (state pass.new).blocks ≡ no_blocks }
    ensures headers { (state pass.new).headers ≡ no_headers }
{
    let owned = try_claim(table, pass).expect(rt, "the header is free");
    none_left(rt, table, pass);
    let block = try_take(table, pass).expect(rt, "a block is free");
    store_both(table, pass, &block, (0x0102_0300_0000_0000, 0));
    let fresh = fill_one(table, pass, owned, block, 3, 1);
    counts(rt, "header", fresh.header as usize, 0);
    counts(rt, "generation", fresh.generation as usize, 0);
    read_back(rt, table, pass, fresh, &[1, 2, 3], 1);
    let again = try_claim(table, pass).expect(rt, "the header is free again");
    release(table, pass, again);
}

#[test]
fn one_value(rt: HostRuntime) -> Result<(), Fail> {
    let shape = Shape::make(1, 1, 4, 1, [1, 0, 0, 0])?;
    let (table, mut pass) = OakTable::create(rt.alloc(), &shape)?;
    three_bytes(&rt, &table, &mut pass);
    let usage = table.close(pass).usage();
    counts(&rt, "headers", usage.headers as usize, 0);
    Ok(())
}

/// The pass is split, both work, and the other is taken in again.
fn rounds_in_two_threads<R: Threads + Abort + Sync + AllocGlobal>(
    rt: &R,
    alloc: Global,
    table: &OakTable,
    pass: &mut Pass,
)
    requires own { IsPassOf table.now pass.old }
    requires idle { HoldsNothing (state pass.old) }
    requires alone { IsAlone (state pass.old) }
    ensures own { Stays pass.old pass.new }
    ensures idle { HoldsNothing (state pass.new) }
    ensures alone { IsAlone (state pass.new) }
{
    let Ok(mut other) = pass.split(alloc, table) else {
        return;
    };
    rounds_together(rt, table, pass, &mut other);
    pass.join(table, other);
}

/// One header and one block are too few for two passes: each of them is refused now and then, every
/// value read is the one that its pass wrote, and at the end all is free.
#[test]
fn two_passes_over_one_header(rt: HostRuntime) -> Result<(), Fail> {
    let shape = Shape::make(2, 1, 4, 1, [1, 0, 0, 0])?;
    let (table, mut pass) = OakTable::create(rt.alloc(), &shape)?;
    rounds_in_two_threads(&rt, rt.alloc(), &table, &mut pass);
    is_unused(&rt, table.close(pass).usage());
    Ok(())
}
