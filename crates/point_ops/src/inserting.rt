//! Insertion: a value is made, the key gets an entry where it has none, and the entry the value. What was
//! taken is given back where a step is refused.
ghost use Rattle.std.specs.Prelude.{◌≡◌, ◌<◌, ◌≤◌, ◌+◌, ◌^◌, ℕ, List, length, IfOk, IfErr, None, Some};
ghost use Rattle.oak_model.specs.declared.classes.Class.{Class};
ghost use Rattle.oak_model.specs.declared.limits.TheConstants.{GREATEST_VALUE};
ghost use Rattle.oak_model.specs.Class.{class_of};
ghost use Rattle.oak_model.specs.Key.{IsKey};
ghost use Rattle.oak_model.specs.Value.{IsValue};
ghost use Rattle.arena_core.specs.HeldBlocks.{no_blocks};
ghost use Rattle.chunk_core.specs.PinnedRooms.{span_of};
ghost use Rattle.header_core.specs.HeaderHolds.{no_headers};
ghost use Rattle.arena_ops.specs.Looking.{AllSet};
ghost use Rattle.oak_core.specs.AloneWords.{Runs};
ghost use Rattle.oak_core.specs.CallSteps.{Learns, Stands};
ghost use Rattle.oak_core.specs.CallWrites.{MakesWrite, Writes};
ghost use Rattle.oak_core.specs.Finding.{IsOf};
ghost use Rattle.oak_core.specs.HeldRows.{HasFresh};
ghost use Rattle.oak_core.specs.KeyReads.{home_of};
ghost use Rattle.oak_core.specs.MayWrite.{IsNewCall};
ghost use Rattle.oak_core.specs.Passes.{IsPassOf, Stays, state, key as sizes, call_of};
ghost use Rattle.oak_core.specs.QuietSteps.{MetOnly, Quiet};
ghost use Rattle.chunk_ops.specs.AskedRanges.{CoversKey};
ghost use Rattle.chunk_ops.specs.Finds.{BelongsBehind, LiesBefore};
ghost use Rattle.chunk_ops.specs.PinRecords.{HasEntry, HasRoomPin, UnderPin, room_pin};
ghost use Rattle.chunk_ops.specs.Setting.{FoundSet, SetsIn};
ghost use Rattle.value_ops.specs.OneHeader.{IsOneHeader};
ghost use Rattle.point_ops.specs.Halting.{AllTaken, SetWith};
ghost use Rattle.point_ops.specs.Inserts.{AddingHalts, GivesAllBack, InsertHalts, MakesBlock, MakesFresh, MakingHalts, TakesOnly, halt_of};
ghost use Rattle.point_ops.specs.LoneInserts.{AddingHaltsIn, FindsOther, GivesBackIn, MakesBlockIn, MakesBlockUnder, MakesFreshUnder, MakingHaltsIn, NamesBlock};
ghost use Rattle.point_ops.specs.LoneLives.{FloorIsBase};
ghost use Rattle.point_ops.specs.LonePuts.{EntersFor, InsertsFor};
ghost use Rattle.point_ops.specs.LonePutLeft.{GetsFor, InsertsKeyFor};
ghost use Rattle.point_ops.specs.Parts.{KeepsUnder};
ghost use Rattle.point_ops.specs.Spots.{IsPlaceOf, entry_in};
ghost use Rattle.point_ops.specs.declared.halts.Halt.TheVariants as halts;

use crate::halts::Halt;
use arena_ops::{NoBlock, give, store_bytes, take};
use chunk_ops::{AddHalt, EntryNo, Found, NotAdded, RoomPin, add, set_value};
use oak_core::{Block, Fresh, OakTable, Pass};
use oak_model::{Class, Kind, class_of};
use value_ops::{NoHeader, claim, fill, withdraw};

/// The class of so many bytes.
pub(crate) fn class_for(len: usize) -> Class
    requires { len ≤ GREATEST_VALUE }
    ensures { class_of len ≡ Some result }
{
    match class_of(len) {
        Some(class) => class,
        None => Class::B1024,
    }
}

/// Takes a block of the class, and stores bytes of it there, beside what the pass has of headers.
fn take_block(table: &OakTable, pass: &mut Pass, class: Class, bytes: &[u8]) -> Result<Block, Halt>
    requires own { IsPassOf table.now pass.old }
    requires fits { class_of (length bytes.now) ≡ Some class }
    requires none { (state pass.old).blocks ≡ no_blocks }
    ensures own { Stays pass.old pass.new }
    ensures made { IfOk result (λ b. (b.class ≡ class) × MakesBlock (sizes table.now)
        (call_of pass.old) b.class b.number bytes.now (state pass.old) (state pass.new)) }
    ensures back { IfErr result (λ _. GivesAllBack (call_of pass.old) (state pass.old) (state pass.new)) }
    ensures quiet { IfErr result (λ _. Quiet (state pass.old) (state pass.new)) }
    ensures refused { IfErr result (λ why. (why ≡ halts.NoBlock class) × SetWith (sizes table.now)
        (call_of pass.old) class (state pass.old) (state pass.old) (state pass.new)) }
    ensures alone { IfOk result (λ b. (r : ℕ) → HasRoomPin (sizes table.now) r (state pass.old)
        → Runs (MakesBlockIn (sizes table.now) r b.class b.number) (state pass.old) (state pass.new)) }
    ensures alone_under { IfOk result (λ b. (r : ℕ) → HasRoomPin (sizes table.now) r (state pass.old)
        → Runs (MakesBlockUnder (sizes table.now) r (span_of (room_pin (state pass.old))) b.class b.number)
        (state pass.old) (state pass.new)) }
    ensures alone_refused { IfErr result (λ _. Runs (AllSet (sizes table.now) class (λ b. Unit {0})) (state pass.old) (state pass.new)) }
{
    match take(table, pass, class) {
        Ok(block) => {
            store_bytes(table, pass, &block, bytes);
            Ok(block)
        }
        Err(NoBlock(class)) => Err(Halt::NoBlock(class)),
    }
}

/// Takes a block of the class, and stores bytes of it there.
pub(crate) fn make_block(
    table: &OakTable,
    pass: &mut Pass,
    class: Class,
    bytes: &[u8],
) -> Result<Block, Halt>
    requires own { IsPassOf table.now pass.old }
    requires fits { class_of (length bytes.now) ≡ Some class }
    requires none { (state pass.old).blocks ≡ no_blocks }
    requires bare { (state pass.old).headers ≡ no_headers }
    ensures own { Stays pass.old pass.new }
    ensures made { IfOk result (λ b. (b.class ≡ class) × MakesBlock (sizes table.now)
        (call_of pass.old) b.class b.number bytes.now (state pass.old) (state pass.new)) }
    ensures back { IfErr result (λ _. GivesAllBack (call_of pass.old) (state pass.old) (state pass.new)) }
    ensures quiet { IfErr result (λ _. Quiet (state pass.old) (state pass.new)) }
    ensures refused { IfErr result (λ why. (why ≡ halts.NoBlock class) × AllTaken (sizes table.now)
        (call_of pass.old) class None (state pass.old) (state pass.new)) }
    ensures alone { IfOk result (λ b. (r : ℕ) → HasRoomPin (sizes table.now) r (state pass.old)
        → Runs (MakesBlockIn (sizes table.now) r b.class b.number) (state pass.old) (state pass.new)) }
    ensures alone_under { IfOk result (λ b. (r : ℕ) → HasRoomPin (sizes table.now) r (state pass.old)
        → Runs (MakesBlockUnder (sizes table.now) r (span_of (room_pin (state pass.old))) b.class b.number)
        (state pass.old) (state pass.new)) }
    ensures alone_refused { IfErr result (λ _. Runs (AllSet (sizes table.now) class (λ b. Unit {0})) (state pass.old) (state pass.new)) }
{
    take_block(table, pass, class, bytes)
}

/// Gives a value back that was made.
fn give_back(table: &OakTable, pass: &mut Pass, fresh: Fresh)
    requires own { IsPassOf table.now pass.old }
    requires fresh { (bytes : List ℕ) × HasFresh (sizes table.now) fresh.header fresh.generation fresh.stamp bytes (state pass.old) }
    requires one { IsOneHeader fresh.header (state pass.old).headers }
    requires none { (state pass.old).blocks ≡ no_blocks }
    ensures own { Stays pass.old pass.new }
    ensures stands { Stands (call_of pass.old) (state pass.old) (state pass.new) }
    ensures blocks { (state pass.new).blocks ≡ no_blocks }
    ensures headers { (state pass.new).headers ≡ no_headers }
    ensures rooms { (state pass.new).rooms ≡ (state pass.old).rooms }
    ensures front { MetOnly (IsOf (sizes table.now) (call_of pass.old)) (state pass.old) (state pass.new) }
    ensures alone { (c : Class) → (b : ℕ) → NamesBlock fresh.header c b (state pass.old)
        → Runs (GivesBackIn (sizes table.now) fresh.header c b) (state pass.old) (state pass.new) }
{
    let block = withdraw(table, pass, fresh);
    give(table, pass, block);
}

/// Makes a value with a stamp, in a block and a header of its own.
fn make_fresh(
    table: &OakTable,
    pass: &mut Pass,
    class: Class,
    value: &[u8],
    stamp: u64,
) -> Result<Fresh, Halt>
    requires own { IsPassOf table.now pass.old }
    requires fits { class_of (length value.now) ≡ Some class }
    requires blocks { (state pass.old).blocks ≡ no_blocks }
    requires headers { (state pass.old).headers ≡ no_headers }
    ensures own { Stays pass.old pass.new }
    ensures made { IfOk result (λ f. (f.stamp ≡ stamp) × MakesFresh (sizes table.now)
        (call_of pass.old) f.header f.generation stamp value.now (state pass.old) (state pass.new)) }
    ensures takes { IfOk result (λ f. (b : ℕ) × NamesBlock f.header class b (state pass.new)
        × MetOnly (TakesOnly (sizes table.now) class b) (state pass.old) (state pass.new)) }
    ensures back { IfErr result (λ _. GivesAllBack (call_of pass.old) (state pass.old) (state pass.new)) }
    ensures halted { IfErr result (λ why. MakingHalts why (sizes table.now) (call_of pass.old) class (state pass.old) (state pass.new)) }
    ensures alone { IfOk result (λ f. (b : ℕ) × NamesBlock f.header class b (state pass.new)
        × ((r : ℕ) → HasRoomPin (sizes table.now) r (state pass.old)
        → Runs (MakesFreshUnder (sizes table.now) r (span_of (room_pin (state pass.old))) f.header class b)
        (state pass.old) (state pass.new))) }
    ensures alone_halted { IfErr result (λ why. (r : ℕ) → HasRoomPin (sizes table.now) r (state pass.old)
        → Runs (MakingHaltsIn why (sizes table.now) class) (state pass.old) (state pass.new)) }
{
    let block = make_block(table, pass, class, value)?;
    match claim(table, pass) {
        Ok(owned) => Ok(fill(table, pass, owned, block, value.len(), stamp)),
        Err(NoHeader) => {
            give(table, pass, block);
            Err(Halt::NoHeader)
        }
    }
}

/// Why a call is given up for which no entry was added.
fn halt_of(why: AddHalt) -> Halt
    ensures { result ≡ halt_of why }
{
    match why {
        AddHalt::Crowded => Halt::Crowded,
        AddHalt::Busy => Halt::Busy,
    }
}

/// Gives the key an entry in the pinned room, which belongs behind the one that was found so, where the link
/// that was found leads over the key.
fn add_entry(
    table: &OakTable,
    pass: &mut Pass,
    pin: &RoomPin,
    key: &[u8],
    behind: Option<EntryNo>,
    link: u32,
) -> Result<EntryNo, Halt>
    requires own { IsPassOf table.now pass.old }
    requires key { IsKey key.now }
    requires covers { CoversKey key.now (span_of (room_pin (state pass.old))) }
    requires pinned { HasRoomPin (sizes table.now) pin.now.room (state pass.old) }
    requires claim { (state pass.old).rooms.claim ≡ None }
    requires none { (state pass.old).blocks ≡ no_blocks }
    requires behind { BelongsBehind pin.now.room behind key.now (state pass.old) }
    requires before { LiesBefore pin.now.room link key.now (state pass.old) }
    ensures own { Stays pass.old pass.new }
    ensures under { UnderPin (sizes table.now) (call_of pass.old) pin.now.room (state pass.old) (state pass.new) }
    ensures added { IfOk result (λ i. HasEntry pin.now.room i.0 key.now (state pass.new)) }
    ensures halted { IfErr result (λ why. AddingHalts why (sizes table.now) (call_of pass.old) key.now (state pass.old) (state pass.new)) }
    ensures alone { IfOk result (λ i. (floor : ℕ) → FloorIsBase None floor (state pass.old)
        → Runs (EntersFor (sizes table.now) pin.now.room None floor key.now i) (state pass.old) (state pass.new)) }
    ensures alone_gets { IfOk result (λ i. (floor : ℕ)
        → Runs (GetsFor None floor (sizes table.now) pin.now.room i key.now) (state pass.old) (state pass.new)) }
    ensures alone_halted { IfErr result (λ why. Runs (AddingHaltsIn why (sizes table.now) pin.now.room key.now) (state pass.old) (state pass.new)) }
{
    let block = take_block(table, pass, class_for(key.len()), key)?;
    match add(table, pass, pin, key, block, behind, link) {
        Ok(entry) => Ok(entry),
        Err(NotAdded { why, block }) => {
            give(table, pass, block);
            Err(halt_of(why))
        }
    }
}

/// The entry of the key, which is added where it has none.
fn entry_for(
    table: &OakTable,
    pass: &mut Pass,
    pin: &RoomPin,
    entry: Found,
    key: &[u8],
) -> Result<EntryNo, Halt>
    requires own { IsPassOf table.now pass.old }
    requires key { IsKey key.now }
    requires covers { CoversKey key.now (span_of (room_pin (state pass.old))) }
    requires pinned { HasRoomPin (sizes table.now) pin.now.room (state pass.old) }
    requires claim { (state pass.old).rooms.claim ≡ None }
    requires none { (state pass.old).blocks ≡ no_blocks }
    requires entry { IsPlaceOf pin.now.room entry key.now (state pass.old) }
    ensures own { Stays pass.old pass.new }
    ensures under { UnderPin (sizes table.now) (call_of pass.old) pin.now.room (state pass.old) (state pass.new) }
    ensures added { IfOk result (λ i. HasEntry pin.now.room i.0 key.now (state pass.new)) }
    ensures halted { IfErr result (λ why. (entry_in entry ≡ None) × AddingHalts why (sizes table.now)
        (call_of pass.old) key.now (state pass.old) (state pass.new)) }
    ensures alone { IfOk result (λ i. (floor : ℕ) → FloorIsBase (entry_in entry) floor (state pass.old)
        → Runs (EntersFor (sizes table.now) pin.now.room (entry_in entry) floor key.now i) (state pass.old) (state pass.new)) }
    ensures alone_gets { IfOk result (λ i. (floor : ℕ)
        → Runs (GetsFor (entry_in entry) floor (sizes table.now) pin.now.room i key.now) (state pass.old) (state pass.new)) }
    ensures alone_halted { IfErr result (λ why. Runs (AddingHaltsIn why (sizes table.now) pin.now.room key.now) (state pass.old) (state pass.new)) }
{
    match entry {
        Found::Entry(entry) => Ok(entry),
        Found::Missing { behind, link } => add_entry(table, pass, pin, key, behind, link),
    }
}

/// Sets the value that was made as that of the entry, or gives it back.
fn set_fresh(
    table: &OakTable,
    pass: &mut Pass,
    pin: &RoomPin,
    entry: EntryNo,
    floor: u64,
    fresh: Fresh,
    kind: Kind,
) -> Result<u64, Halt>
    requires own { IsPassOf table.now pass.old }
    requires pinned { HasRoomPin (sizes table.now) pin.now.room (state pass.old) }
    requires entry { (k : List ℕ) × HasEntry pin.now.room entry.0 k (state pass.old) }
    requires floor { floor < 2 ^ 63 }
    requires next { fresh.stamp ≡ floor + 1 }
    requires fresh { (bytes : List ℕ) × HasFresh (sizes table.now) fresh.header fresh.generation fresh.stamp bytes
        (state pass.old) × MakesWrite kind None (Some bytes) }
    requires one { IsOneHeader fresh.header (state pass.old).headers }
    requires none { (state pass.old).blocks ≡ no_blocks }
    requires turn { IsNewCall (call_of pass.old) (state pass.old) }
    ensures own { Stays pass.old pass.new }
    ensures blocks { (state pass.new).blocks ≡ no_blocks }
    ensures headers { (state pass.new).headers ≡ no_headers }
    ensures rooms { (state pass.new).rooms ≡ (state pass.old).rooms }
    ensures stamp { IfOk result (λ s. s ≡ floor + 1) }
    ensures wrote { IfOk result (λ s. (k bytes : List ℕ) → HasEntry pin.now.room entry.0 k (state pass.old)
        → HasFresh (sizes table.now) fresh.header fresh.generation fresh.stamp bytes (state pass.old)
        → Writes (call_of pass.old) k kind None (Some bytes) s (state pass.old) (state pass.new)) }
    ensures stands { IfErr result (λ _. Stands (call_of pass.old) (state pass.old) (state pass.new)) }
    ensures halted { IfErr result (λ why. (why ≡ halts.Busy)
        × ((k : List ℕ) → HasEntry pin.now.room entry.0 k (state pass.old) → FoundSet (sizes table.now)
        (call_of pass.old) pin.now.room entry.0 floor k (state pass.old) (state pass.new))) }
    ensures alone { IfOk result (λ _. Runs (SetsIn (sizes table.now) pin.now.room entry.0 floor
        (home_of fresh.header fresh.generation)) (state pass.old) (state pass.new)) }
    ensures alone_halted { IfErr result (λ _. (c : Class) → (b : ℕ) → NamesBlock fresh.header c b (state pass.old)
        → Runs (FindsOther (sizes table.now) pin.now.room entry.0 floor) (state pass.old) (state pass.new)) }
{
    match set_value(table, pass, pin, entry, floor, fresh, kind) {
        Ok(stamp) => Ok(stamp),
        Err(fresh) => {
            give_back(table, pass, fresh);
            Err(Halt::Busy)
        }
    }
}

/// Inserts a value for a key that was read absent at the floor of its entry, or without an entry at the base
/// of the room. The answer is the stamp of the write.
pub(crate) fn insert(
    table: &OakTable,
    pass: &mut Pass,
    pin: &RoomPin,
    entry: Found,
    floor: u64,
    key: &[u8],
    value: &[u8],
    kind: Kind,
) -> Result<u64, Halt>
    requires own { IsPassOf table.now pass.old }
    requires key { IsKey key.now }
    requires value { IsValue value.now }
    requires covers { CoversKey key.now (span_of (room_pin (state pass.old))) }
    requires pinned { HasRoomPin (sizes table.now) pin.now.room (state pass.old) }
    requires claim { (state pass.old).rooms.claim ≡ None }
    requires blocks { (state pass.old).blocks ≡ no_blocks }
    requires headers { (state pass.old).headers ≡ no_headers }
    requires entry { IsPlaceOf pin.now.room entry key.now (state pass.old) }
    requires floor { floor < 2 ^ 63 }
    requires kind { MakesWrite kind None (Some value.now) }
    requires turn { IsNewCall (call_of pass.old) (state pass.old) }
    ensures own { Stays pass.old pass.new }
    ensures held { KeepsUnder (sizes table.now) pin.now.room (state pass.old) (state pass.new) }
    ensures stamp { IfOk result (λ s. s ≡ floor + 1) }
    ensures wrote { IfOk result (λ s. Writes (call_of pass.old) key.now kind None (Some value.now) s (state pass.old) (state pass.new)) }
    ensures learns { IfErr result (λ _. Learns (call_of pass.old) (state pass.old) (state pass.new)) }
    ensures halted { IfErr result (λ why. InsertHalts why (sizes table.now) (call_of pass.old) key.now value.now
        (entry_in entry) floor (state pass.old) (state pass.new)) }
    ensures alone { FloorIsBase (entry_in entry) floor (state pass.old)
        → Runs (InsertsFor result (sizes table.now) pin.now.room (entry_in entry) floor key.now value.now) (state pass.old)
        (state pass.new) }
    ensures alone_inserts { IfOk result (λ _. Runs
        (InsertsKeyFor (sizes table.now) pin.now.room (entry_in entry) floor key.now value.now) (state pass.old)
        (state pass.new)) }
{
    let fresh = make_fresh(table, pass, class_for(value.len()), value, floor + 1)?;
    match entry_for(table, pass, pin, entry, key) {
        Ok(entry) => set_fresh(table, pass, pin, entry, floor, fresh, kind),
        Err(halt) => {
            give_back(table, pass, fresh);
            Err(halt)
        }
    }
}
