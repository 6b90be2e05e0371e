//! Reads the entries of a held room along its links.
ghost use Rattle.std.specs.Prelude.{◌≡◌, ℕ, ◌<◌, ◌≤◌, List, true};
ghost use Rattle.oak_model.specs.declared.limits.TheConstants.{GREATEST_ENTRIES};
ghost use Rattle.chunk_core.specs.ValueWord.{names_header};
ghost use Rattle.rebalance.specs.Entries.{AreValued};
ghost use Rattle.rebalance.specs.Read.{AreAlong, HasAll};

use crate::held_rooms::{HeldRooms, RoomWord};
use crate::reading::put_slot;
use oak_model::GREATEST_ENTRIES;

/// Reads the first `count` entries of a held room along its links, so that their slots are sorted as the
/// links are. Nothing is left to sort then, so no key is loaded but that at which the upper half of them begins,
/// to which the two are parted where the room is split. `false` where the links don't come to each of these entries, or one has no value; none is
/// dropped then.
pub(crate) fn read_along<H: HeldRooms>(rooms: &mut H, room: u32, count: u32) -> bool
    requires held { H.held rooms.old room }
    requires within { count ≤ H.entries rooms.old }
    requires named { let m = H.rooms rooms.old in (i : ℕ) → i < count → 0 < m.key room i → names_header (m.value room i) ≡ 1
        → H.names rooms.old (m.key room i) }
    ensures stays { H.stays rooms.old rooms.new }
    ensures rooms { H.rooms rooms.new ≡ H.rooms rooms.old }
    ensures ranges { H.ranges rooms.new ≡ H.ranges rooms.old }
    ensures valued { result ≡ true → AreValued (H.rooms rooms.old) room count }
    ensures sees { result ≡ true → (i : ℕ) → i < count → H.sees rooms.old rooms.new room i }
    ensures read { result ≡ true → (keys : ℕ → List ℕ) → let m = H.rooms rooms.old in
        ((i : ℕ) → i < count → 0 < m.key room i → names_header (m.value room i) ≡ 1 → keys (m.key room i) ≡ H.keys rooms.old
        (m.key room i)) → HasAll keys m room count (H.slots rooms.new) }
    ensures along { result ≡ true → AreAlong (H.rooms rooms.old) room count (H.slots rooms.new) }
{
    let middle = count as usize / 2;
    let mut seen = [false; GREATEST_ENTRIES as usize];
    let mut link = rooms.load(room, RoomWord::First);
    for at in 0..count as usize {
        if link == 0 || link > u64::from(count) {
            return false;
        }
        let i = (link - 1) as u32;
        let linked = rooms.load_entry(room, i);
        let entry = linked.entry;
        if seen[i as usize] || entry.place == 0 || !entry.has_value() {
            return false;
        }
        put_slot(rooms, entry, at, at == middle);
        seen[i as usize] = true;
        link = linked.next;
    }
    true
}
