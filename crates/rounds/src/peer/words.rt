//! What the words of a run ask for.
ghost use Rattle.std.specs.Prelude.{◌<◌, ◌≤◌};

use oak_caller::Way;
use std::alloc::Global;
use std::env::Args;

/// What is done with the map.
#[derive(Clone, Copy)]
pub enum Work {
    Add,
    Ingest,
    Get,
    Over,
    Scan(Way),
}

impl Work {
    /// The work that a word names.
    fn named(word: &str) -> Option<Work> {
        match word {
            "add" => Some(Work::Add),
            "ingest" => Some(Work::Ingest),
            "get" => Some(Work::Get),
            "over" => Some(Work::Over),
            "up" => Some(Work::Scan(Way::Up)),
            "down" => Some(Work::Scan(Way::Down)),
            _ => None,
        }
    }

    /// Whether the map has all keys when it begins.
    pub fn needs_keys(self) -> bool {
        matches!(self, Work::Get | Work::Over | Work::Scan(_))
    }
}

/// This work on so many keys with values of so many bytes, in so many rounds by each of so many threads.
#[derive(Clone, Copy)]
pub struct Asked {
    pub work: Work,
    pub keys: u32,
    pub rounds: u32,
    pub threads: u16,
    pub bytes: usize,
    ghost some_threads: { 0 < threads },
    ghost few_threads: { threads ≤ 16 },
    ghost fits: { bytes ≤ 256 },
}

impl Asked {
    /// On so many maps one after the other, and in so many rounds on each.
    pub fn maps_and_rounds(&self) -> (u32, u32) {
        match self.work {
            Work::Ingest => (self.rounds, 1),
            _ => (1, self.rounds),
        }
    }
}

/// How many keys of eight bytes may have values of so many bytes. Each key takes a block of 16 bytes, and its value one of
/// the least class that holds it: of 16 and of 64 bytes there may be 65,536, of 256 bytes 16,384.
fn most_keys(bytes: u16) -> u32 {
    match bytes {
        0..=16 => 32_768,
        17..=64 => 65_536,
        _ => 16_384,
    }
}

/// What the words ask for, where they are those of work on a map.
pub fn asked_by(mut words: Args<Global>) -> Option<Asked> {
    let work = Work::named(&words.next()?)?;
    let keys = words.next()?.parse().ok()?;
    let rounds = words.next()?.parse().ok()?;
    let threads = words.next()?.parse().ok()?;
    let bytes = match words.next() {
        Some(word) => word.parse().ok()?,
        None => 100,
    };
    let many = keys > most_keys(bytes) || threads > 16 || bytes > 256;
    if many || keys == 0 || threads == 0 || bytes < 8 || words.next().is_some() {
        return None;
    }
    Some(Asked {
        work,
        keys,
        rounds,
        threads,
        bytes: usize::from(bytes),
    })
}
