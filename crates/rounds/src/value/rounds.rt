//! The rounds that are timed: a value is claimed, filled, read and given back.
ghost use Rattle.std.specs.Prelude.{◌≡◌, ◌<◌, None, Some, IfSome, IfNone, length};
ghost use Rattle.oak_model.specs.declared.classes.Class.TheVariants.{B16};
ghost use Rattle.oak_model.specs.Class.{class_number};
ghost use Rattle.arena_core.specs.Blocks.{HoldsBlock};
ghost use Rattle.arena_core.specs.HeldBlocks.{no_blocks};
ghost use Rattle.header_core.specs.declared.states.TheConstants.{OWNED};
ghost use Rattle.header_core.specs.HeaderHolds.{no_headers, in_state, IsFreshAt};
ghost use Rattle.header_core.specs.declared.holds.PinnedHeader.{PinnedHeader};
ghost use Rattle.oak_core.specs.declared.states.PassState.{PassState};
ghost use Rattle.oak_core.specs.Passes.{IsPassOf, Stays, state, key, call_of};
ghost use Rattle.value_ops.specs.OneHeader.{IsOneHeader, IsOneBlock, KeepsElse};
ghost use Rattle.value_ops.specs.Pinning.{HasPin, MeetsMore, OnlyLearns, with_pin};
ghost use Rattle.value_ops.specs.PinnedValues.{OnlyLoads};
ghost use Rattle.value_ops.specs.Reading.{IsReading, ReadsOn, value};

use arena_ops::{give, store, take};
use oak_core::{Block, Fresh, OakTable, Pass};
use oak_model::Class;
use value_ops::{HeaderPin, Owned, Reading, claim, fill, pin_at, release, withdraw};

/// Claims a header, if one is free.
fn claim_free(table: &OakTable, pass: &mut Pass) -> Option<Owned>
    requires own { IsPassOf table.now pass.old }
    requires none { (state pass.old).headers ≡ no_headers }
    ensures own { Stays pass.old pass.new }
    ensures rest { KeepsElse (state pass.old) (state pass.new) }
    ensures blocks { (state pass.new).blocks ≡ (state pass.old).blocks }
    ensures inside { IfSome result (λ o. o.header < (key table.now).headers) }
    ensures owned { IfSome result (λ o. 0 < in_state o.header OWNED (state pass.new).headers) }
    ensures one { IfSome result (λ o. IsOneHeader o.header (state pass.new).headers) }
    ensures none { IfNone result ((state pass.new).headers ≡ no_headers) }
{
    match claim(table, pass) {
        Ok(owned) => Some(owned),
        Err(_) => None,
    }
}

/// Takes a block of 16 bytes, if one is free.
fn take_free(table: &OakTable, pass: &mut Pass) -> Option<Block>
    requires own { IsPassOf table.now pass.old }
    requires none { (state pass.old).blocks ≡ no_blocks }
    ensures own { Stays pass.old pass.new }
    ensures rest { KeepsElse (state pass.old) (state pass.new) }
    ensures headers { (state pass.new).headers ≡ (state pass.old).headers }
    ensures class { IfSome result (λ b. b.class ≡ B16) }
    ensures held { IfSome result (λ b. HoldsBlock (key table.now) (class_number b.class) b.number (state pass.new).blocks) }
    ensures one { IfSome result (λ b. IsOneBlock b.class b.number (state pass.new).blocks) }
    ensures none { IfNone result ((state pass.new).blocks ≡ no_blocks) }
{
    match take(table, pass, Class::B16) {
        Ok(block) => Some(block),
        Err(_) => None,
    }
}

/// Stores the two words of the block.
fn store_both(table: &OakTable, pass: &mut Pass, block: &Block, words: (u64, u64))
    requires own { IsPassOf table.now pass.old }
    requires class { block.now.class ≡ B16 }
    requires held { HoldsBlock (key table.now) (class_number block.now.class) block.now.number (state pass.old).blocks }
    requires one { IsOneBlock block.now.class block.now.number (state pass.old).blocks }
    ensures own { Stays pass.old pass.new }
    ensures rest { KeepsElse (state pass.old) (state pass.new) }
    ensures headers { (state pass.new).headers ≡ (state pass.old).headers }
    ensures held { HoldsBlock (key table.now) (class_number block.now.class) block.now.number (state pass.new).blocks }
    ensures one { IsOneBlock block.now.class block.now.number (state pass.new).blocks }
{
    store(table, pass, block, 0, words.0);
    store(table, pass, block, 1, words.1);
}

/// Fills the one header with the first eight bytes of the one block.
fn fill_eight(table: &OakTable, pass: &mut Pass, owned: Owned, block: Block, stamp: u64) -> Fresh
    requires own { IsPassOf table.now pass.old }
    requires inside { owned.header < (key table.now).headers }
    requires owned { 0 < in_state owned.header OWNED (state pass.old).headers }
    requires class { block.class ≡ B16 }
    requires held { HoldsBlock (key table.now) (class_number block.class) block.number (state pass.old).blocks }
    requires header { IsOneHeader owned.header (state pass.old).headers }
    requires block { IsOneBlock block.class block.number (state pass.old).blocks }
    ensures own { Stays pass.old pass.new }
    ensures rest { KeepsElse (state pass.old) (state pass.new) }
    ensures inside { result.header < (key table.now).headers }
    ensures fresh { IsFreshAt result.header result.generation (state pass.new).headers }
    ensures one { IsOneHeader result.header (state pass.new).headers }
    ensures none { (state pass.new).blocks ≡ no_blocks }
{
    fill(table, pass, owned, block, 8, stamp)
}

/// Reads a value of eight bytes in each way, and adds up what was read: its last byte, whether it is
/// these bytes, the number that it makes, a byte of its copy, and its stamp.
fn read_parts(reading: &mut Reading<'_>, bytes: [u8; 8]) -> u64
    requires reading { IsReading reading.old }
    requires eight { length (value reading.old) ≡ 8 }
    ensures same_reference { reading.new.pass.ghost_name ≡ reading.old.pass.ghost_name }
    ensures reads { ReadsOn reading.old reading.new }
{
    let last = u64::from(reading.byte(7));
    let same = u64::from(reading.same(&bytes));
    let eight = reading.eight(0);
    let mut copy = [0; 8];
    reading.copy_into(&mut copy);
    let of_copy = u64::from(copy[6]);
    let bytes_read = (last + same + of_copy).wrapping_add(eight);
    bytes_read.wrapping_add(reading.at())
}

/// Reads a value of which eight bytes are wanted: 0 where it has another length.
fn read_eight(reading: &mut Reading<'_>, number: u64) -> u64
    requires { IsReading reading.old }
    ensures same_reference { reading.new.pass.ghost_name ≡ reading.old.pass.ghost_name }
    ensures reads { ReadsOn reading.old reading.new }
{
    if reading.len() != 8 {
        return 0;
    }
    read_parts(reading, number.to_be_bytes())
}

/// Reads the value under the pin, and undoes the pin.
fn read_pinned(pin: HeaderPin, table: &OakTable, pass: &mut Pass, number: u64) -> u64
    requires own { IsPassOf table.now pass.old }
    requires pinned { (p : PinnedHeader) × HasPin (key table.now) pin.header pin.generation p (state pass.old) }
    ensures own { Stays pass.old pass.new }
    ensures undone { (first : PassState) × (last : PassState) × OnlyLearns (key table.now) (call_of pass.old)
        (state pass.old) first × OnlyLoads (key table.now) (call_of pass.old) first last × MeetsMore (key table.now)
        (call_of pass.old) (with_pin None last) (state pass.new) }
{
    let mut reading = pin.reading(table, pass);
    let read = read_eight(&mut reading, number);
    reading.done();
    read
}

/// Pins the fresh header, and reads its value.
fn read_fresh(table: &OakTable, pass: &mut Pass, at: (u32, u32), number: u64) -> u64
    requires own { IsPassOf table.now pass.old }
    requires inside { at.0 < (key table.now).headers }
    requires fresh { IsFreshAt at.0 at.1 (state pass.old).headers }
    requires unpinned { (state pass.old).headers.pin ≡ None }
    ensures own { Stays pass.old pass.new }
    ensures learns { OnlyLearns (key table.now) (call_of pass.old) (state pass.old) (state pass.new) }
{
    match pin_at(table, pass, at.0, at.1) {
        Ok(pin) => read_pinned(pin, table, pass, number),
        Err(_) => 0,
    }
}

/// Withdraws the one header, and gives its block back.
fn hand_back(table: &OakTable, pass: &mut Pass, fresh: Fresh)
    requires own { IsPassOf table.now pass.old }
    requires inside { fresh.header < (key table.now).headers }
    requires fresh { IsFreshAt fresh.header fresh.generation (state pass.old).headers }
    requires header { IsOneHeader fresh.header (state pass.old).headers }
    requires none { (state pass.old).blocks ≡ no_blocks }
    ensures own { Stays pass.old pass.new }
    ensures rest { KeepsElse (state pass.old) (state pass.new) }
    ensures blocks { (state pass.new).blocks ≡ no_blocks }
    ensures headers { (state pass.new).headers ≡ no_headers }
{
    let block = withdraw(table, pass, fresh);
    give(table, pass, block);
}

/// Reads the one fresh header's value, and hands back all.
fn read_back(table: &OakTable, pass: &mut Pass, fresh: Fresh, number: u64) -> u64
    requires own { IsPassOf table.now pass.old }
    requires inside { fresh.header < (key table.now).headers }
    requires fresh { IsFreshAt fresh.header fresh.generation (state pass.old).headers }
    requires header { IsOneHeader fresh.header (state pass.old).headers }
    requires none { (state pass.old).blocks ≡ no_blocks }
    ensures own { Stays pass.old pass.new }
    ensures rest { KeepsElse (state pass.old) (state pass.new) }
    ensures blocks { (state pass.new).blocks ≡ no_blocks }
    ensures headers { (state pass.new).headers ≡ no_headers }
{
    let read = read_fresh(table, pass, (fresh.header, fresh.generation), number);
    hand_back(table, pass, fresh);
    read
}

/// One value goes through all its calls: a header is claimed and a block taken, the number is stored as
/// eight bytes, read under a pin, and all is given back. Where no header or no block is free, nothing is
/// read. It takes 19 atomic steps.
fn round(table: &OakTable, pass: &mut Pass, number: u64) -> u64
    requires own { IsPassOf table.now pass.old }
    requires blocks { (state pass.old).blocks ≡ no_blocks }
    requires headers { (state pass.old).headers ≡ no_headers }
    ensures own { Stays pass.old pass.new }
    ensures rest { KeepsElse (state pass.old) (state pass.new) }
    ensures blocks { (state pass.new).blocks ≡ no_blocks }
    ensures headers { (state pass.new).headers ≡ no_headers }
{
    let Some(owned) = claim_free(table, pass) else {
        return 0;
    };
    let Some(block) = take_free(table, pass) else {
        release(table, pass, owned);
        return 0;
    };
    store_both(table, pass, &block, (number, 0));
    let fresh = fill_eight(table, pass, owned, block, number);
    read_back(table, pass, fresh, number)
}

/// As many rounds as are said, each with a value of its own; what they read, added up.
pub fn rounds(table: &OakTable, pass: &mut Pass, count: u64) -> u64
    requires own { IsPassOf table.now pass.old }
    requires blocks { (state pass.old).blocks ≡ no_blocks }
    requires headers { (state pass.old).headers ≡ no_headers }
    ensures own { Stays pass.old pass.new }
    ensures rest { KeepsElse (state pass.old) (state pass.new) }
    ensures blocks { (state pass.new).blocks ≡ no_blocks }
    ensures headers { (state pass.new).headers ≡ no_headers }
{
    let mut sum = 0u64;
    for number in 0..count {
        sum = sum.wrapping_add(round(table, pass, number));
    }
    sum
}
