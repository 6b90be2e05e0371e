//! Values of entries are set and cleared.
ghost use Rattle.std.specs.Prelude.{◌≡◌, ◌<◌, ◌+◌, ◌^◌, ℕ, List, true, IfOk, IfErr, Some, None};
ghost use Rattle.chunk_core.specs.ValueWord.{names_header, header_in, generation_in};
ghost use Rattle.oak_core.specs.AloneWords.{Runs};
ghost use Rattle.oak_core.specs.CallWrites.{MakesWrite};
ghost use Rattle.oak_core.specs.HeldRows.{BuriesLife, HasFresh};
ghost use Rattle.oak_core.specs.KeyReads.{home_of};
ghost use Rattle.oak_core.specs.MayWrite.{IsNewCall};
ghost use Rattle.oak_core.specs.Passes.{IsPassOf, Stays, state, key, call_of};
ghost use Rattle.chunk_ops.specs.PinRecords.{HasEntry, HasRoomPin, OnlyMeets};
ghost use Rattle.chunk_ops.specs.Setting.{Clears, ClearsIn, FoundSet, LeavesIn, SetsIn, SetsLife};

use crate::entries::EntryNo;
use crate::room_pins::RoomPin;
use chunk_core::value_word::{HEADER, NAMES};
use oak_core::{Fresh, OakTable, Pass, steps};
use oak_model::Kind;

/// The value word that names the header at the generation.
fn life_word(table: &OakTable, header: u32, generation: u32) -> u64
    requires inside { header < (key table.now).headers }
    ensures is { result ≡ home_of header generation }
    ensures names { names_header result ≡ 1 }
    ensures header { header_in result ≡ header }
    ensures generation { generation_in result ≡ generation }
{
    // A table has so few headers that the word is one of 64 bits.
    let _headers = table.headers();
    NAMES + u64::from(header) * HEADER + u64::from(generation)
}

/// Sets the fresh header as the value of an entry, where the entry has the floor that its stamp follows,
/// and gives that stamp: this is a write of the kind, of the entry's key. `Err` comes exactly where another
/// number than the floor was found in the entry's value word, and hands the header back; then nothing is
/// written.
pub fn set_value(
    table: &OakTable,
    pass: &mut Pass,
    pin: &RoomPin,
    entry: EntryNo,
    floor: u64,
    fresh: Fresh,
    kind: Kind,
) -> Result<u64, Fresh>
    requires own { IsPassOf table.now pass.old }
    requires pinned { HasRoomPin (key table.now) pin.now.room (state pass.old) }
    requires entry { (k : List ℕ) × HasEntry pin.now.room entry.0 k (state pass.old) }
    requires floor { floor < 2 ^ 63 }
    requires next { fresh.stamp ≡ floor + 1 }
    requires fresh { (bytes : List ℕ) × HasFresh (key table.now) fresh.header fresh.generation fresh.stamp bytes
        (state pass.old) × MakesWrite kind None (Some bytes) }
    requires call { IsNewCall (call_of pass.old) (state pass.old) }
    ensures own { Stays pass.old pass.new }
    ensures stamp { IfOk result (λ s. s ≡ floor + 1) }
    ensures set { IfOk result (λ s. (k bytes : List ℕ) → HasEntry pin.now.room entry.0 k (state pass.old)
        → HasFresh (key table.now) fresh.header fresh.generation fresh.stamp bytes (state pass.old)
        → SetsLife (call_of pass.old) k fresh.header kind bytes s (state pass.old) (state pass.new)) }
    ensures back { IfErr result (λ f. f ≡ fresh) }
    ensures found { IfErr result (λ f. (k : List ℕ) → HasEntry pin.now.room entry.0 k (state pass.old)
        → FoundSet (key table.now) (call_of pass.old) pin.now.room entry.0 floor k (state pass.old)
        (state pass.new)) }
    ensures only { IfErr result (λ f. OnlyMeets (call_of pass.old) (state pass.old) (state pass.new)) }
    ensures alone { IfOk result (λ s. Runs (SetsIn (key table.now) pin.now.room entry.0 floor
        (home_of fresh.header fresh.generation)) (state pass.old) (state pass.new)) }
    ensures alone_found { IfErr result (λ f. Runs (LeavesIn (key table.now) pin.now.room entry.0 floor) (state pass.old) (state pass.new)) }
{
    let home = life_word(table, fresh.header, fresh.generation);
    let word = table.value_at(pin.room, entry.0);
    if steps::set_value(table, pass, word, floor, home, kind) != floor {
        return Err(fresh);
    }
    let Fresh {
        header: _,
        generation: _,
        stamp,
    } = fresh;
    Ok(stamp)
}

/// Makes the stamp of a removal the floor of the entry of its key, which names the header that the pass
/// buries, and names it no more.
pub fn clear_value(table: &OakTable, pass: &mut Pass, pin: &RoomPin, entry: EntryNo, stamp: u64)
    requires own { IsPassOf table.now pass.old }
    requires pinned { HasRoomPin (key table.now) pin.now.room (state pass.old) }
    requires buries { (k : List ℕ) × (h : ℕ) × (g : ℕ) × HasEntry pin.now.room entry.0 k (state pass.old)
        × BuriesLife k h g stamp true (state pass.old) }
    ensures own { Stays pass.old pass.new }
    ensures cleared { (k : List ℕ) (h g : ℕ) → HasEntry pin.now.room entry.0 k (state pass.old)
        → BuriesLife k h g stamp true (state pass.old) → Clears (call_of pass.old) k h g stamp (state pass.old)
        (state pass.new) }
    ensures alone { Runs (ClearsIn (key table.now) pin.now.room entry.0 stamp) (state pass.old) (state pass.new) }
{
    let word = table.value_at(pin.room, entry.0);
    steps::unlink(table, pass, word, stamp);
}
