//! Rooms under a pin: their bounds, the searches of their entries, the entries added to them, and the values that are
//! set in those and cleared.
#![tactic(auto)]

mod adding;
mod bounds;
mod comparing;
mod entries;
mod entry_numbers;
mod finding;
mod key_blocks;
mod key_bytes;
mod listing;
mod loading;
mod pin_search;
mod pinned_table;
mod prefixes;
mod ranges;
mod room;
mod room_pins;
mod searching;
mod setting;
mod stored;
mod values;

pub use adding::add;
pub use bounds::{high_byte, high_key, high_len, low_byte, low_key, low_len};
pub use entries::{AddHalt, Content, EntryNo, Found, NotAdded};
pub use entry_numbers::{entry_at, first_key_at};
pub use key_blocks::key_block_at;
pub use key_bytes::KeyBytes;
pub use listing::{entry_key, entry_key_at, next_entry, next_entry_at};
pub use loading::{base_of, key_byte, key_len};
pub use pin_search::{Moved, pin_for, pin_hinted, pin_last};
pub use prefixes::prefix_below;
pub use room_pins::{RoomPin, unpin};
pub use searching::{above, below, find};
pub use setting::{clear_value, set_value};
pub use stored::{KEY_WORDS, StoredKey};
pub use values::{content, content_of, value_word_at};
