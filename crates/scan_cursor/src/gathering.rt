//! The entries of a pinned room, loaded once into the slots of the pass, along the room's links, in batches.
ghost use Rattle.std.specs.Prelude.{◌≡◌, ◌+◌, ◌<◌, ◌≤◌, ℕ, List, MatchOption, true, false};
ghost use Rattle.std.specs.Ordering.{is_lt};
ghost use Rattle.oak_model.specs.declared.limits.TheConstants.{GREATEST_ENTRIES};
ghost use Rattle.oak_model.specs.Key.{IsKey, is_key, key_cmp};
ghost use Rattle.arena_core.specs.Words.{word_at};
ghost use Rattle.chunk_core.specs.Rooms.{at_key};
ghost use Rattle.oak_core.specs.AloneWords.{Runs};
ghost use Rattle.oak_core.specs.Memory.{in_rooms, index};
ghost use Rattle.oak_core.specs.Passes.{IsPassOf, Stays, state, key as sizes, call_of, slots_of};
ghost use Rattle.oak_core.specs.Scratch.{StaysButSlots};
ghost use Rattle.chunk_ops.specs.PinRecords.{HasEntry, HasRoomPin, OnlyLearns, OnlyMeets, WordsStay};
ghost use Rattle.chunk_ops.specs.Stored.{IsStored};
ghost use Rattle.scan_cursor.specs.Batches.{IsFull, Starts, end_bound};
ghost use Rattle.scan_cursor.specs.Gathered.{IsGathered, slots_ahead};
ghost use Rattle.scan_cursor.specs.Holding.{Covers, HasRoom, IsAhead, IsRoom, ahead_from, ahead_past, bound_in, cut_room, room_at};
ghost use Rattle.scan_cursor.specs.Loading.{IsBehind, LoadsEntry, ReadsSlot};
ghost use Rattle.scan_cursor.specs.Views.{Later, view_of};

use crate::ways::Way;
use arena_core::words::WORD;
use chunk_ops::{
    Content, EntryNo, KEY_WORDS, KeyBytes, RoomPin, StoredKey, content_of, entry_at, entry_key,
    entry_key_at, first_key_at, next_entry, next_entry_at, prefix_below, value_word_at,
};
use oak_core::{OakTable, Pass, SortSlot};

/// How many slots a batch has filled, and its bound in the direction of the scan: none is the room's own.
#[derive(Debug, Drop)]
pub(crate) struct Batch {
    pub(crate) filled: usize,
    pub(crate) bound: Option<KeyBytes>,
}

/// The entry that a batch loads first, and its bound where it goes down: none is the room's own.
#[derive(Debug, Drop)]
struct Start {
    first: Option<EntryNo>,
    near: Option<KeyBytes>,
}

/// The first word of a key, with zeros behind its last byte.
#[inline(always)]
fn first_word(key: &StoredKey) -> u64
    ensures { (k : List ℕ) → IsStored key.now k → result ≡ word_at k 0 }
{
    key.parts().1[0]
}

/// Whether the first key comes before the second. Most keys differ in the first word. The whole comparison stands in line
/// too: a key that is lent to a call has to stand in memory, also where the first words tell.
#[inline(always)] // once for each pair of a scan
fn is_below(a: &StoredKey, b: &StoredKey) -> bool
    ensures { (k q : List ℕ) → IsStored a.now k → IsStored b.now q → result ≡ is_lt (key_cmp k q) }
{
    let ours = first_word(a);
    let theirs = first_word(b);
    if ours < theirs {
        return true;
    }
    if theirs < ours {
        return false;
    }
    a.order(b).is_lt()
}

/// Whether `key` lies behind `from` in the direction of the scan.
#[inline(always)] // once for each pair of a scan
fn is_behind(key: &StoredKey, from: &StoredKey, way: Way) -> bool
    ensures { (k q : List ℕ) → IsStored from.now k → IsStored key.now q → IsKey k → IsKey q
        → (result ≡ true → IsBehind way k q) × (result ≡ false → IsBehind way k q → ⊥) }
{
    match way {
        Way::Up => is_below(from, key),
        Way::Down => is_below(key, from),
    }
}

/// Which slot an entry fills, whether the batch has as many pairs as it wants before it, and the direction of the scan.
#[derive(Clone, Copy)]
struct Aim {
    slot: usize,
    full: bool,
    way: Way,
}

/// What an entry came to: the batch ends before it; it was passed, since its key does not lie ahead or has no value; or it
/// stands in its slot.
#[derive(Clone, Copy)]
enum Outcome {
    Ends,
    Passed,
    Kept,
}

/// Whether a batch ends before an entry whose key lies ahead: one up that has as many pairs as it wants.
fn ends_full(full: bool, way: Way) -> bool
    ensures { result ≡ true → (way ≡ Way.Up) × (full ≡ true) }
{
    match way {
        Way::Up => full,
        Way::Down => false,
    }
}

/// Loads the value word of an entry of this key, with the number of its key word: the slot of one that has a value. A scan
/// needs no key words, so none is kept in its slots.
fn load_slot(
    table: &OakTable,
    pass: &mut Pass,
    pin: &RoomPin,
    entry: EntryNo,
    at: u32,
    key: &StoredKey,
) -> Option<SortSlot>
    requires own { IsPassOf table.now pass.old }
    requires pinned { HasRoomPin (sizes table.now) pin.now.room (state pass.old) }
    requires entry { (q : List ℕ) × HasEntry pin.now.room entry.0 q (state pass.old) }
    requires number { at ≡ index (sizes table.now) (in_rooms (at_key pin.now.room entry.0)) }
    requires key { (q : List ℕ) → HasEntry pin.now.room entry.0 q (state pass.old) → IsStored key.now q × IsKey q }
    ensures own { Stays pass.old pass.new }
    ensures only { OnlyLearns (call_of pass.old) (state pass.old) (state pass.new) }
    ensures reads { let z = sizes table.now in let call = call_of pass.old in (q : List ℕ)
        → HasEntry pin.now.room entry.0 q (state pass.old) → ReadsSlot result q
        (view_of z call (state pass.old)) (view_of z call (state pass.new)) }
{
    let value = value_word_at(table, pass, pin, entry, at);
    match content_of(value) {
        Content::Floor { stamp: _ } => None,
        Content::Value {
            header: _,
            generation: _,
        } => {
            let (length, words) = key.parts();
            Some(SortSlot {
                words,
                length,
                key: 0,
                value,
            })
        }
    }
}

/// Goes on at an entry of this key: a batch up ends before it where it has as many pairs as it wants, and one down where
/// the key does not lie below that which it began at. An entry whose key lies ahead is loaded into its slot.
#[inline(always)] // once for each pair of a scan
fn load_known(
    table: &OakTable,
    pass: &mut Pass,
    pin: &RoomPin,
    entry: EntryNo,
    at: u32,
    key: &StoredKey,
    from: &StoredKey,
    aim: Aim,
) -> Outcome
    requires own { IsPassOf table.now pass.old }
    requires pinned { HasRoomPin (sizes table.now) pin.now.room (state pass.old) }
    requires entry { (q : List ℕ) × HasEntry pin.now.room entry.0 q (state pass.old) }
    requires number { at ≡ index (sizes table.now) (in_rooms (at_key pin.now.room entry.0)) }
    requires key { (q : List ℕ) → HasEntry pin.now.room entry.0 q (state pass.old) → IsStored key.now q × IsKey q }
    requires slot { aim.slot < GREATEST_ENTRIES }
    ensures own { StaysButSlots pass.old pass.new }
    ensures only { OnlyLearns (call_of pass.old) (state pass.old) (state pass.new) }
    ensures loads { let z = sizes table.now in let call = call_of pass.old in (k q : List ℕ) → IsStored from.now k
        → IsKey k → HasEntry pin.now.room entry.0 q (state pass.old) → LoadsEntry result aim k q (slots_of pass.old)
        (slots_of pass.new) (view_of z call (state pass.old)) (view_of z call (state pass.new)) }
{
    if !is_behind(key, from, aim.way) {
        return match aim.way {
            Way::Up => Outcome::Passed,
            Way::Down => Outcome::Ends,
        };
    }
    if ends_full(aim.full, aim.way) {
        return Outcome::Ends;
    }
    match load_slot(table, pass, pin, entry, at, key) {
        Some(slot) => {
            pass.sorting_mut().set(aim.slot, slot);
            Outcome::Kept
        }
        None => Outcome::Passed,
    }
}

/// Goes on at an entry of this key as [`load_known`] does. A key of one word, as most are, is taken apart: so its other
/// words are known to be zero, and none of it goes through memory.
#[inline(always)] // once for each pair of a scan
fn load_found(
    table: &OakTable,
    pass: &mut Pass,
    pin: &RoomPin,
    entry: EntryNo,
    at: u32,
    key: &StoredKey,
    from: &StoredKey,
    aim: Aim,
) -> Outcome
    requires own { IsPassOf table.now pass.old }
    requires pinned { HasRoomPin (sizes table.now) pin.now.room (state pass.old) }
    requires entry { (q : List ℕ) × HasEntry pin.now.room entry.0 q (state pass.old) }
    requires number { at ≡ index (sizes table.now) (in_rooms (at_key pin.now.room entry.0)) }
    requires key { (q : List ℕ) → HasEntry pin.now.room entry.0 q (state pass.old) → IsStored key.now q × IsKey q }
    requires slot { aim.slot < GREATEST_ENTRIES }
    ensures own { StaysButSlots pass.old pass.new }
    ensures only { OnlyLearns (call_of pass.old) (state pass.old) (state pass.new) }
    ensures loads { let z = sizes table.now in let call = call_of pass.old in (k q : List ℕ) → IsStored from.now k
        → IsKey k → HasEntry pin.now.room entry.0 q (state pass.old) → LoadsEntry result aim k q (slots_of pass.old)
        (slots_of pass.new) (view_of z call (state pass.old)) (view_of z call (state pass.new)) }
{
    let (length, words) = key.parts();
    if length <= WORD {
        let mut only = [0; KEY_WORDS];
        only[0] = words[0];
        let short = StoredKey::from_words(only, length);
        return load_known(table, pass, pin, entry, at, &short, from, aim);
    }
    load_known(table, pass, pin, entry, at, key, from, aim)
}

/// The bound of a batch that ends before an entry.
fn entry_bound(
    table: &OakTable,
    pass: &mut Pass,
    pin: &RoomPin,
    entry: EntryNo,
    near: Option<KeyBytes>,
    way: Way,
) -> Option<KeyBytes>
    requires own { IsPassOf table.now pass.old }
    requires pinned { HasRoomPin (sizes table.now) pin.now.room (state pass.old) }
    requires entry { (q : List ℕ) × HasEntry pin.now.room entry.0 q (state pass.old) }
    ensures own { Stays pass.old pass.new }
    ensures only { OnlyMeets (call_of pass.old) (state pass.old) (state pass.new) }
    ensures bound { (q : List ℕ) → HasEntry pin.now.room entry.0 q (state pass.old) → result ≡ end_bound way q near }
{
    match way {
        Way::Up => {
            let key = entry_key(table, pass, pin, entry);
            Some(KeyBytes::of(&key))
        }
        Way::Down => near,
    }
}

/// The entry so many places before this one of a prefix, if it has so many.
fn before(place: u32, many: u32) -> Option<EntryNo>
    ensures { MatchOption result (place < many) (λ i. i.0 + many ≡ place) }
{
    if place < many {
        None
    } else {
        Some(EntryNo(place - many))
    }
}

/// Where a batch up begins: behind the last entry of the sorted prefix that lies below the key, or at the room's first
/// link.
fn start_up(table: &OakTable, pass: &mut Pass, pin: &RoomPin, key: &[u8]) -> Start
    requires own { IsPassOf table.now pass.old }
    requires key { is_key key.now ≡ true }
    requires ahead { IsAhead (sizes table.now) pin.now.room Way.Up true key.now (state pass.old) }
    ensures own { Stays pass.old pass.new }
    ensures starts { Starts (sizes table.now) (call_of pass.old) pin.now.room Way.Up key.now result.near result.first (state pass.old) (state pass.new) }
{
    let below = prefix_below(table, pass, pin, key);
    let from = before(below, 1);
    let first = next_entry(table, pass, pin, from);
    Start { first, near: None }
}

/// Where a batch down begins: at the entry of the sorted prefix so many places before the key, which is its bound, so that
/// the entries appended behind it are loaded too; at the room's first link where the prefix has no such entry.
fn start_down(table: &OakTable, pass: &mut Pass, pin: &RoomPin, key: &[u8], many: u32) -> Start
    requires own { IsPassOf table.now pass.old }
    requires key { is_key key.now ≡ true }
    requires some { 0 < many }
    requires ahead { IsAhead (sizes table.now) pin.now.room Way.Down true key.now (state pass.old) }
    ensures own { Stays pass.old pass.new }
    ensures starts { Starts (sizes table.now) (call_of pass.old) pin.now.room Way.Down key.now result.near result.first (state pass.old) (state pass.new) }
{
    let below = prefix_below(table, pass, pin, key);
    match before(below, many) {
        Some(entry) => {
            let least = entry_key(table, pass, pin, entry);
            let bound = KeyBytes::of(&least);
            Start {
                first: Some(entry),
                near: Some(bound),
            }
        }
        None => {
            let first = next_entry(table, pass, pin, None);
            Start { first, near: None }
        }
    }
}

/// Where a batch begins.
fn start_of(
    table: &OakTable,
    pass: &mut Pass,
    pin: &RoomPin,
    key: &[u8],
    many: u32,
    way: Way,
) -> Start
    requires own { IsPassOf table.now pass.old }
    requires key { is_key key.now ≡ true }
    requires some { 0 < many }
    requires ahead { IsAhead (sizes table.now) pin.now.room way true key.now (state pass.old) }
    ensures own { Stays pass.old pass.new }
    ensures starts { Starts (sizes table.now) (call_of pass.old) pin.now.room way key.now result.near result.first (state pass.old) (state pass.new) }
{
    match way {
        Way::Up => start_up(table, pass, pin, key),
        Way::Down => start_down(table, pass, pin, key, many),
    }
}

/// Loads the next of the entries of the pinned room whose keys lie behind this one in the direction of the scan, each
/// with its key, and of those that lie behind it its value word, into the first slots, those with a value alone. It goes
/// along the room's links, so the keys of the slots rise. A batch up ends before the entry behind so many pairs; one down
/// has the entries from so many places of the sorted prefix on. None is told twice, and none left out up to the bound.
#[inline(always)] // so that its loop is compiled for each direction
pub(crate) fn gather(
    table: &OakTable,
    pass: &mut Pass,
    pin: &RoomPin,
    key: &[u8],
    many: u32,
    way: Way,
) -> Batch
    requires own { IsPassOf table.now pass.old }
    requires key { is_key key.now ≡ true }
    requires some { 0 < many }
    requires ahead { IsAhead (sizes table.now) pin.now.room way true key.now (state pass.old) }
    ensures own { StaysButSlots pass.old pass.new }
    ensures few { result.filled ≤ GREATEST_ENTRIES }
    ensures full { IsFull way many result.bound result.filled }
    ensures has { HasRoom (sizes table.now) pin.now.room (state pass.new) }
    ensures room { room_at (state pass.new) ≡ room_at (state pass.old) }
    ensures later { let z = sizes table.now in let call = call_of pass.old in Later (view_of z call (state pass.old))
        (view_of z call (state pass.new)) }
    ensures real { IsRoom (cut_room way (room_at (state pass.old)) result.bound) }
    ensures covers { Covers way true key.now (cut_room way (room_at (state pass.old)) result.bound) }
    ensures gathered { let z = sizes table.now in let call = call_of pass.old in let bound = bound_in way
        (cut_room way (room_at (state pass.old)) result.bound) in IsGathered way (view_of z call (state pass.old))
        (view_of z call (state pass.new)) (ahead_from way key.now bound) (ahead_past way key.now bound)
        (slots_ahead way 0 result.filled (slots_of pass.new)) }
    ensures still { Runs WordsStay (state pass.old) (state pass.new) }
{
    // Reading the slots shows how many there are.
    let _slots = pass.sorting().slots();
    let from = StoredKey::of(key);
    let start = start_of(table, pass, pin, key, many, way);
    let first = first_key_at(table, pin.room);
    let mut next = start.first;
    let mut passed = 0u32;
    let mut filled = 0;
    loop {
        let Some(entry) = next else {
            let bound = start.near;
            return Batch { filled, bound };
        };
        let at = entry_at(table, pin.room, first, entry.0);
        let this = entry_key_at(table, pass, pin, entry, at);
        let aim = Aim {
            slot: filled,
            full: filled >= many as usize,
            way,
        };
        match load_found(table, pass, pin, entry, at, &this, &from, aim) {
            Outcome::Ends => {
                let bound = entry_bound(table, pass, pin, entry, start.near, way);
                return Batch { filled, bound };
            }
            Outcome::Passed => {}
            Outcome::Kept => filled += 1,
        }
        next = next_entry_at(table, pass, pin, entry, at);
        passed += 1;
    }
}
