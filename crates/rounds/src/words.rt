//! What the words of a run ask for.

use crate::keys::MOST_KEYS;
use crate::{peer, point, scan};
use oak_model::{GREATEST_ENTRIES, LEAST_ENTRIES};
use std::alloc::Global;
use std::env::Args;
use std::io;

/// Rounds of one layer, or a few of each.
#[derive(Clone, Copy)]
pub enum Asked {
    Value(u64),
    Point(point::Asked),
    Scan(scan::Asked),
    Peer(peer::Asked),
    Each,
}

/// So many rounds of values.
fn value_rounds(mut words: Args<Global>) -> Option<Asked> {
    let count = words.next()?.parse().ok()?;
    if words.next().is_some() {
        return None;
    }
    Some(Asked::Value(count))
}

/// What the words ask for, where they are those of a run. The first one is the program's.
pub fn asked_by(mut words: Args<Global>) -> Option<Asked> {
    let layer = words.nth(1)?;
    match layer.as_str() {
        "value" => value_rounds(words),
        "point" => Some(Asked::Point(point::asked_by(words)?)),
        "scan" => Some(Asked::Scan(scan::asked_by(words)?)),
        "peer" => Some(Asked::Peer(peer::asked_by(words)?)),
        "each" => Some(Asked::Each),
        _ => None,
    }
}

/// Prints what the words may be.
pub fn print_usage(rt: &impl Print) -> io::Result<()> {
    println!(rt; "usage: rounds value ROUNDS")?;
    println!(rt;
        "       rounds point GETS PUTS, at most {} puts",
        point::MOST_PUTS
    )?;
    println!(rt;
        "       rounds point GETS FILLS ENTRIES KEYS, at least one fill, {LEAST_ENTRIES} to {GREATEST_ENTRIES} entries, and at most as many keys"
    )?;
    println!(rt;
        "       rounds scan KEYS ROUNDS up|down|get|next|settle [ENTRIES], at most {MOST_KEYS} keys"
    )?;
    println!(rt;
        "       rounds peer add|ingest|get|over|up|down KEYS ROUNDS THREADS [BYTES], with 1 to 16 threads, 8 to 256 bytes, and at most 32768 keys, 65536 from 17 bytes on, 16384 from 65 on"
    )?;
    println!(rt; "       rounds each")
}
