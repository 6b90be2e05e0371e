//! Fills a map with keys that come in a scrambled order, and then scans it whole, looks up each key, or the one behind it,
//! or settles it, again and again: an example of the map's calls, whose time is measured (`bench/time_scans.sh`,
//! `bench/time_chunks.sh`).
ghost use Rattle.std.specs.Prelude.{◌<◌};

mod looks;
mod rounds;
mod words;
mod work;

use oak_map::{OakMap, Way};
use oak_model::{
    BadShape, DEFAULT_BLOCKS, DEFAULT_CHUNKS, DEFAULT_ENTRIES, DEFAULT_HEADERS, GREATEST_CHUNKS,
    Shape, Usage,
};
use rounds::fill;
use std::io;
use std::sync::Wait;
pub use words::{Asked, asked_by};
use work::{Work, go_rounds};

/// What a run came to: the keys that were new, the pairs that all rounds read, the sum of their values, and what is in
/// use.
#[derive(Clone, Copy)]
struct Told {
    keys: u32,
    pairs: u64,
    sum: u64,
    used: Usage,
}

/// The default shape with so many entries a chunk, and so many chunks that it has as many entries in all, if it may.
fn shape_of(entries: u32) -> Result<Shape, BadShape>
    requires { 0 < entries }
{
    let chunks = (DEFAULT_CHUNKS * DEFAULT_ENTRIES / entries).min(GREATEST_CHUNKS);
    Shape::make(1, chunks, entries, DEFAULT_HEADERS, DEFAULT_BLOCKS)
}

/// Makes a map, fills it, does the work on it, and closes it.
fn run<R: Wait + Clone + Drop + Send + AllocGlobal>(rt: &R, asked: &Asked) -> anyhow::Result<Told> {
    let (map, mut pass) = OakMap::create(rt, &shape_of(asked.entries)?)?;
    let keys = fill(rt, &map, &mut pass, asked.keys);
    let (pairs, sum) = go_rounds(rt, &map, &mut pass, asked.keys, asked.work, asked.rounds);
    let used = map.close(pass).usage();
    Ok(Told {
        keys,
        pairs,
        sum,
        used,
    })
}

/// Prints what is in use.
fn print_used(rt: &impl Print, used: &Usage) -> io::Result<()> {
    println!(rt;
        "{} blocks, {} headers and {} chunks in use",
        used.blocks[0], used.headers, used.chunks
    )
}

/// Does what is asked for, and prints what it came to.
pub fn go<R: Wait + Clone + Drop + Send + AllocGlobal + Print>(
    rt: &R,
    asked: &Asked,
) -> anyhow::Result<()> {
    let told = run(rt, asked)?;
    println!(rt; "{} keys", told.keys)?;
    println!(rt; "{} pairs, sum {}", told.pairs, told.sum)?;
    print_used(rt, &told.used)?;
    Ok(())
}

/// Scans a small map a few times.
pub fn go_few<R: Wait + Clone + Drop + Send + AllocGlobal + Print>(rt: &R) -> anyhow::Result<()> {
    let asked = Asked {
        keys: 300,
        rounds: 3,
        work: Work::Scan(Way::Down),
        entries: 16,
    };
    go(rt, &asked)
}
