//! The real table as a room whose entries are linked.
ghost use Rattle.std.specs.Prelude.{◌≡◌};
ghost use Rattle.chunk_core.specs.LinkWords.{link_spot};
ghost use Rattle.chunk_core.specs.Rooms.{IsInRooms, at_key, at_next, at_value};
ghost use Rattle.oak_core.specs.Memory.{in_rooms, index};
ghost use Rattle.oak_core.specs.Passes.{key as sizes};
ghost use Rattle.chunk_ops.specs.ClaimLaws.{claim_apart, claims_still, holds_still};
ghost use Rattle.chunk_ops.specs.LinkedTable.{ClaimsKey, FreesClaim, HoldsKey, IsLone, MeetsInTable, PointsTo, most_of};
ghost use Rattle.chunk_ops.specs.FoundNumbers.{table_room};
ghost use Rattle.chunk_ops.specs.OwnLinks.{own_link};
ghost use Rattle.chunk_ops.specs.RoomLoads.{IsFirstKey, IsPinnedTable, LoadsInTable, loads_nothing, loads_then, room_of, view_of};
ghost use Rattle.chunk_ops.specs.TableLaws.{lone_still, meets_nothing, meets_then, most_stays, own_count, table_few};

use crate::comparing::{compare, head_of};
use crate::entry_numbers::entry_at;
use crate::finding::search_sorted;
use crate::key_blocks::key_block_at;
use crate::room::SearchedRoom;
use chunk_core::count_word::entries_in;
use link_search::{LinkedRoom, Sorted};
use oak_core::{OakTable, Pass, load, steps};
use std::cmp::Ordering;

/// A pinned room of the table, with the number of its first entry's key word, behind which the words of its
/// entries lie. Where an entry is to be added, the room's base, which is the entry's floor, and the key word
/// that names the block of the key.
#[derive(Drop)]
pub(crate) struct PinnedTable<'p> {
    pub(crate) table: &'p OakTable,
    pub(crate) pass: &'p mut Pass,
    pub(crate) room: u32,
    pub(crate) first: u32,
    pub(crate) base: u64,
    pub(crate) place: u64,
}

impl PinnedTable<'_> {
    /// The number of an entry's key word.
    fn key_at(&self, entry: u32) -> u32
        requires first { IsFirstKey self.now }
        requires inside { IsInRooms (sizes self.now.table.now) (at_key self.now.room entry) }
        ensures { result ≡ index (sizes self.now.table.now) (in_rooms (at_key self.now.room entry)) }
    {
        entry_at(self.table, self.room, self.first, entry)
    }

    /// The number of an entry's value word.
    fn value_at(&self, entry: u32) -> u32
        requires first { IsFirstKey self.now }
        requires inside { IsInRooms (sizes self.now.table.now) (at_value self.now.room entry) }
        ensures { result ≡ index (sizes self.now.table.now) (in_rooms (at_value self.now.room entry)) }
    {
        self.key_at(entry) + 1
    }

    /// The number of an entry's link.
    fn next_at(&self, entry: u32) -> u32
        requires first { IsFirstKey self.now }
        requires inside { IsInRooms (sizes self.now.table.now) (at_next self.now.room entry) }
        ensures { result ≡ index (sizes self.now.table.now) (in_rooms (at_next self.now.room entry)) }
    {
        self.key_at(entry) + 2
    }

    /// The number of the room's first link, or of an entry's.
    fn link_at(&self, from: Option<u32>) -> u32
        requires first { IsFirstKey self.now }
        requires inside { IsInRooms (sizes self.now.table.now) (link_spot self.now.room from) }
        ensures { result ≡ index (sizes self.now.table.now) (in_rooms (link_spot self.now.room from)) }
    {
        match from {
            None => self.table.first_at(self.room),
            Some(entry) => self.next_at(entry),
        }
    }
}

impl SearchedRoom for PinnedTable<'_> {
    ghost pinned = { IsPinnedTable };

    ghost room = { room_of };

    ghost meets = { LoadsInTable };

    ghost is_room = { table_room };

    ghost meets_none = { loads_nothing };

    ghost meets_both = { loads_then };

    fn key_word(&mut self, entry: u32) -> u64 {
        let word = self.key_at(entry);
        load(self.table, self.pass, word)
    }

    fn block_word(&mut self, place: u64, i: usize) -> u64 {
        let word = key_block_at(self.table, place, i);
        load(self.table, self.pass, word)
    }
}

impl LinkedRoom for PinnedTable<'_> {
    ghost pinned = { IsPinnedTable };

    ghost view = { view_of };

    ghost meets = { MeetsInTable };

    ghost most = { most_of };

    ghost holds = { HoldsKey };

    ghost claims = { ClaimsKey };

    ghost points = { PointsTo };

    ghost free = { FreesClaim };

    ghost lone = { IsLone };

    ghost few = { table_few };

    ghost meets_none = { meets_nothing };

    ghost meets_both = { meets_then };

    ghost most_on = { most_stays };

    ghost holds_on = { holds_still };

    ghost claims_on = { claims_still };

    ghost apart = { claim_apart };

    ghost lone_on = { lone_still };

    ghost own_count = { own_count };

    ghost own_link = { own_link };

    fn count(&mut self) -> u64 {
        let word = self.table.count_at(self.room);
        load(self.table, self.pass, word)
    }

    fn link(&mut self, from: Option<u32>) -> u32 {
        let word = self.link_at(from);
        load(self.table, self.pass, word) as u32
    }

    fn compare(&mut self, key: &[u8], entry: u32) -> Ordering {
        compare(self, key, head_of(key), entry)
    }

    fn search(&mut self, key: &[u8], prefix: u32) -> Sorted {
        match search_sorted(self, key, prefix) {
            Ok(entry) => Sorted::At(entry),
            Err(many) => Sorted::Between(many),
        }
    }

    fn claim(&mut self, key: &[u8], old: u64, link: u32) -> bool {
        let word = self.table.count_at(self.room);
        if steps::claim_entry(self.table, self.pass, word, old, old + 1) != old {
            return false;
        }
        let entry = entries_in(old);
        let value = self.value_at(entry);
        steps::own_entry(self.table, self.pass, value, self.base);
        let next = self.next_at(entry);
        steps::own_entry(self.table, self.pass, next, u64::from(link));
        let place = self.key_at(entry);
        steps::own_entry(self.table, self.pass, place, self.place);
        true
    }

    fn link_to(&mut self, key: &[u8], from: Option<u32>, entry: u32, old: u32) -> bool {
        let word = self.link_at(from);
        let found = steps::link(
            self.table,
            self.pass,
            word,
            u64::from(old),
            u64::from(entry + 1),
        );
        found == u64::from(old)
    }

    fn point(&mut self, key: &[u8], entry: u32, link: u32) {
        let word = self.next_at(entry);
        steps::own_entry(self.table, self.pass, word, u64::from(link));
    }

    fn give_up(&mut self, key: &[u8], entry: u32) {
        let word = self.key_at(entry);
        steps::own_entry(self.table, self.pass, word, 0);
    }
}
