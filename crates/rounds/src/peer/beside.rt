//! Threads beside each other on one map, and the time that they take.
use crate::peer::told::Told;
use crate::peer::words::Asked;
use crate::peer::worker::Worker;
use oak_caller::{Shape, Store, Way};
use oak_model::{BadShape, GREATEST_BLOCKS, GREATEST_CHUNKS, GREATEST_HEADERS};
use std::sync::Wait;
use std::thread::{Threads, for_each_mut, join_mut};
use std::time::{Clock, Duration, Instant};

/// The entries of a chunk.
const ENTRIES: u32 = 128;

/// What a run came to: the calls of the work, the pairs that the map has behind it, and how long the work alone took.
#[derive(Clone, Copy)]
pub struct Measured {
    pub work: Told,
    pub content: Told,
    pub took: Duration,
}

/// A shape with twice as many headers, and blocks of all classes but the greatest, as there are keys, or counters, and with
/// four times as many entries and least blocks, as far as the limits go; for the threads, and two callers beside them.
fn shape_of(asked: &Asked) -> Result<Shape, BadShape> {
    let twice = asked
        .keys
        .max(1_024)
        .saturating_mul(2)
        .min(GREATEST_HEADERS);
    let [least, small, large, _greatest] = GREATEST_BLOCKS;
    Shape::make(
        u32::from(asked.threads) + 2,
        (twice / (ENTRIES / 2)).min(GREATEST_CHUNKS),
        ENTRIES,
        twice,
        [
            twice.saturating_mul(2).min(least),
            twice.min(small),
            twice.min(large),
            0,
        ],
    )
}

/// So many threads on the map of another one.
fn split_workers<'m, R: Wait + Drop + Send + AllocGlobal>(
    rt: &R,
    first: &mut Worker<'m, R>,
    threads: u16,
) -> anyhow::Result<Vec<Worker<'m, R>>> {
    let mut workers = Vec::new(rt.alloc());
    for number in 0..threads {
        workers.push(first.split(rt, number)?)?;
    }
    Ok(workers)
}

/// Has two of them do the work beside each other.
fn work_as_two<R: Threads + Wait + Drop + Send + Sync + AllocGlobal>(
    rt: &R,
    one: &mut Worker<'_, R>,
    other: &mut Worker<'_, R>,
    asked: &Asked,
) {
    join_mut(
        rt,
        &mut || one.work(rt, asked),
        &mut || other.work(rt, asked),
    );
}

/// Has four of them do the work beside each other, the last in this thread, which starts all others.
fn work_as_four<R: Threads + Wait + Drop + Send + Sync + AllocGlobal>(
    rt: &R,
    one: &mut Worker<'_, R>,
    other: &mut Worker<'_, R>,
    third: &mut Worker<'_, R>,
    fourth: &mut Worker<'_, R>,
    asked: &Asked,
) {
    join_mut(
        rt,
        &mut || one.work(rt, asked),
        &mut || {
            join_mut(
                rt,
                &mut || other.work(rt, asked),
                &mut || { work_as_two(rt, third, fourth, asked) },
            );
        },
    );
}

/// Has each of them do the work, beside the others. Four of them are started by one thread, as the programs that OakMap is
/// compared with start theirs: what `for_each_mut` starts starts others, and Linux most often puts a thread on the
/// processor of the new thread that starts it, while another processor idles.
fn work_each<R: Threads + Wait + Drop + Send + Sync + AllocGlobal>(
    rt: &R,
    workers: &mut [Worker<'_, R>],
    asked: &Asked,
) {
    if workers.len() != 4 {
        let threads = usize::from(asked.threads);
        for_each_mut(rt, workers, threads, &|_, worker| worker.work(rt, asked));
        return;
    }
    let (one, rest) = workers.split_first_mut().unwrap();
    let (other, rest) = rest.split_first_mut().unwrap();
    let (third, rest) = rest.split_first_mut().unwrap();
    let (fourth, _) = rest.split_first_mut().unwrap();
    work_as_four(rt, one, other, third, fourth, asked);
}

/// Has so many threads do the work beside each other: how long it took.
fn work_beside<R: Threads + Wait + Drop + Send + Sync + AllocGlobal + Clock>(
    rt: &R,
    workers: &mut [Worker<'_, R>],
    asked: &Asked,
) -> anyhow::Result<Duration> {
    let begin = Instant::now(rt)?;
    work_each(rt, workers, asked);
    Ok(begin.elapsed(rt)?)
}

/// Makes a map, with all keys where the work needs them, does the work, and looks at what the map has then.
fn measure_map<R: Threads + Wait + Clone + Drop + Send + Sync + AllocGlobal + Clock>(
    rt: &R,
    asked: &Asked,
    measured: &mut Measured,
) -> anyhow::Result<()> {
    let mut store = Store::create(rt, &shape_of(asked)?)?;
    let mut first = Worker::make(0, store.caller(rt)?);
    if asked.work.needs_keys() {
        first.put(rt, asked, 1, 0);
    }
    let mut workers = split_workers(rt, &mut first, asked.threads)?;
    let took = work_beside(rt, workers.as_mut_slice(), asked)?;
    measured.took = measured.took.saturating_add(took);
    for worker in &workers {
        measured.work = measured.work.and(worker.told);
    }
    measured.content = measured.content.and(first.scan(rt, Way::Up));
    Ok(())
}

/// Does what is asked for.
pub fn measure<R: Threads + Wait + Clone + Drop + Send + Sync + AllocGlobal + Clock>(
    rt: &R,
    asked: &Asked,
) -> anyhow::Result<Measured> {
    let mut measured = Measured {
        work: Told::NONE,
        content: Told::NONE,
        took: Duration::ZERO,
    };
    let (maps, _rounds) = asked.maps_and_rounds();
    for _ in 0..maps {
        measure_map(rt, asked, &mut measured)?;
    }
    Ok(measured)
}
