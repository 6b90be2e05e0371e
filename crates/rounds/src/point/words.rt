//! What the words of a run ask for.
ghost use Rattle.std.specs.Prelude.{◌<◌, ◌≤◌};
ghost use Rattle.oak_model.specs.declared.limits.TheConstants.{GREATEST_ENTRIES};
ghost use Rattle.rounds.specs.declared.point.rounds.TheConstants.{MOST_PUTS};

use crate::point::rounds::MOST_PUTS;
use oak_model::{GREATEST_ENTRIES, LEAST_ENTRIES};
use std::alloc::Global;
use std::env::Args;

/// So many looks at one key, and so many puts over its value.
#[derive(Clone, Copy)]
pub struct Calls {
    pub gets: u32,
    pub puts: u32,
    ghost few: { puts ≤ MOST_PUTS },
}

/// So many tables, each of one chunk with so many entries, into which so many keys are put; and so many looks at each key
/// in the last one.
#[derive(Clone, Copy)]
pub struct Fills {
    pub gets: u32,
    pub fills: u32,
    pub entries: u32,
    pub keys: u32,
    ghost some: { 0 < fills },
    ghost few: { entries ≤ GREATEST_ENTRIES },
    ghost fits: { keys ≤ entries },
}

/// What is done: calls on one key, or chunks filled.
#[derive(Clone, Copy)]
pub enum Asked {
    Key(Calls),
    Chunk(Fills),
}

/// The calls on one key, where there are not too many puts.
fn on_a_key(gets: u32, puts: u32) -> Option<Asked> {
    if puts > MOST_PUTS {
        return None;
    }
    Some(Asked::Key(Calls { gets, puts }))
}

/// The chunks filled, where there is one, it may have so many entries, and the keys fit into it.
fn in_chunks(gets: u32, fills: u32, entries: u32, keys: u32) -> Option<Asked> {
    if fills == 0 || entries < LEAST_ENTRIES || entries > GREATEST_ENTRIES || keys > entries {
        return None;
    }
    Some(Asked::Chunk(Fills {
        gets,
        fills,
        entries,
        keys,
    }))
}

/// What the words ask for, where they are those of rounds on a key or in chunks.
pub fn asked_by(mut words: Args<Global>) -> Option<Asked> {
    let gets = words.next()?.parse().ok()?;
    let count = words.next()?.parse().ok()?;
    let Some(entries) = words.next() else {
        return on_a_key(gets, count);
    };
    let keys = words.next()?.parse().ok()?;
    if words.next().is_some() {
        return None;
    }
    in_chunks(gets, count, entries.parse().ok()?, keys)
}
