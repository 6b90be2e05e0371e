//! What the words of a run ask for.
ghost use Rattle.std.specs.Prelude.{◌<◌, ◌≤◌};
ghost use Rattle.rounds.specs.declared.keys.TheConstants.{MOST_KEYS};

use crate::keys::MOST_KEYS;
use crate::scan::work::Work;
use oak_model::{DEFAULT_ENTRIES, GREATEST_ENTRIES, LEAST_ENTRIES};
use std::alloc::Global;
use std::env::Args;

/// So many keys, and so many rounds of this work, in a map with so many entries a chunk.
#[derive(Clone, Copy)]
pub struct Asked {
    pub keys: u32,
    pub rounds: u32,
    pub work: Work,
    pub entries: u32,
    ghost few: { keys ≤ MOST_KEYS },
    ghost some: { 0 < entries },
}

/// What the words ask for, where there are not too many keys, and a chunk may have so many entries. Without the last word
/// it has as many as by default.
pub fn asked_by(mut words: Args<Global>) -> Option<Asked> {
    let keys = words.next()?.parse().ok()?;
    let rounds = words.next()?.parse().ok()?;
    let work = Work::named(&words.next()?)?;
    let entries = match words.next() {
        Some(word) => word.parse().ok()?,
        None => DEFAULT_ENTRIES,
    };
    let bad = keys > MOST_KEYS || entries < LEAST_ENTRIES || entries > GREATEST_ENTRIES;
    if bad || words.next().is_some() {
        return None;
    }
    Some(Asked {
        keys,
        rounds,
        work,
        entries,
    })
}
