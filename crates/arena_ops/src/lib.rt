//! Blocks are taken, given back, and written.
#![tactic(auto)]

mod searching;
mod storing;
mod taking;
mod words;

pub use storing::store_bytes;
pub use taking::{NoBlock, give, store, take};
pub use words::{full_word, put_full_word, put_last_word};
