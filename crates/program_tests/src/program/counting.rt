//! Threads that count on one key: each call adds one, and the first of all puts the key.

use crate::program::test_runs::{Used, run_of, used_text, written};
use outside::FreeGate;
use std::alloc::Global;
use std::process::Abort;
use std::str::Lines;
use std::sync::Wait;
use std::test::Fail;
use std::thread::Threads;

/// What is used of a table with one short key and value.
const USED: Used = [2, 0, 0, 0, 1, 1];

/// The script of so many threads with so many calls each.
fn counting(alloc: Global, threads: usize, calls: usize) -> Result<String, Fail> {
    let mut text = String::from_str(alloc, "oak 1/")?;
    for _ in 0..threads {
        text.push_str("thread/")?;
        for _ in 0..calls {
            text.push_str("upsert 6b 0000000000000001 add 1/")?;
        }
    }
    text.push_str("end/")?;
    Ok(text)
}

/// The place that the line of a call tells: the first where it is `new`, a later one where it is `done`.
fn told_place(alloc: Global, line: &str, thread: usize, call: usize) -> Result<usize, Fail> {
    let name = format!(in alloc; "t{thread}.{call} ")?;
    let Some(reply) = line.strip_prefix(name.as_str()) else {
        return Err(Fail::new("the line is another call's"));
    };
    if reply == "new @1" {
        return Ok(1);
    }
    let Some(digits) = reply.strip_prefix("done @") else {
        return Err(Fail::new("the reply is neither new nor done"));
    };
    match digits.parse::<usize>() {
        Ok(place) if place > 1 => Ok(place),
        _ => Err(Fail::new("the place is no later one")),
    }
}

/// Takes a place, which no other line has told.
fn take_place(is_free: &mut [bool], place: usize) -> Result<(), Fail> {
    match is_free.get_mut(place) {
        Some(free) if *free => {
            *free = false;
            Ok(())
        }
        _ => Err(Fail::new("the place was told before, or is beyond the last")),
    }
}

/// Takes the places of a thread from its lines, which rise.
fn take_places(
    alloc: Global,
    lines: &mut Lines<'_>,
    is_free: &mut [bool],
    thread: usize,
    calls: usize,
) -> Result<(), Fail> {
    let mut last = 0;
    for call in 1..=calls {
        let place = told_place(alloc, lines.next().unwrap_or(""), thread, call)?;
        if place <= last {
            return Err(Fail::new("the places of a thread fell"));
        }
        take_place(is_free, place)?;
        last = place;
    }
    Ok(())
}

/// Judges the lines behind the replies, which are these, with a slash between them.
fn judge_rest(lines: &mut Lines<'_>, rest: &str) -> Result<(), Fail> {
    for wanted in rest.split('/') {
        if lines.next() != Some(wanted) {
            return Err(Fail::new("a line behind the replies is another"));
        }
    }
    match lines.next() {
        None => Ok(()),
        Some(_) => Err(Fail::new("the text goes on")),
    }
}

/// Judges the text of a counting script: the places are those from the first to the last, each once, and rise
/// within each thread, so that one reply is `new` and all others are `done`; the rest of the text is this.
fn judge(alloc: Global, text: &[u8], threads: usize, calls: usize, rest: &str) -> Result<(), Fail> {
    let Ok(text) = str::from_utf8(text) else {
        return Err(Fail::new("the text is no text"));
    };
    let mut lines = text.lines();
    let mut is_free = vec![in alloc; true; threads.saturating_mul(calls).saturating_add(1)]?;
    take_place(&mut is_free, 0)?;
    for thread in 1..=threads {
        take_places(alloc, &mut lines, &mut is_free, thread, calls)?;
    }
    judge_rest(&mut lines, rest)
}

/// Judges the text of a counting script with this last value.
fn judge_counts(
    alloc: Global,
    text: &[u8],
    threads: usize,
    calls: usize,
    value: &str,
) -> Result<(), Fail> {
    let map = format!(in alloc; "map 1/6b {value}")?;
    let rest = used_text(alloc, map.as_str(), USED)?;
    judge(alloc, text, threads, calls, rest.as_str())
}

/// Asserts how often two recipes were called together.
fn expect_both(rt: &impl Abort, recipe_calls: &[u64], both: u64) {
    match recipe_calls {
        [first, second] => assert_eq!(rt; first.saturating_add(*second), both),
        _ => assert!(rt; false),
    }
}

#[test]
fn two_threads_count_two_thousand_times(rt: HostRuntime) -> Result<(), Fail> {
    let script = counting(rt.alloc(), 2, 1_000)?;
    let (ran, text) = run_of(&rt, script.as_str(), &FreeGate)?;
    judge_counts(rt.alloc(), &text, 2, 1_000, "00000000000007d0")?;
    expect_both(&rt, &ran.recipe_calls, 1_999);
    Ok(())
}

/// How many threads count, how often each of them, and the last value.
const COUNTS: [(usize, usize, &str); 3] = [
    (4, 60, "00000000000000f0"),
    (16, 20, "0000000000000140"),
    (16, 1, "0000000000000010"),
];

/// Runs so many threads with so many calls each, and judges the text.
fn expect_counts<R: Threads + Wait + Clone + Drop + Send + Sync + AllocGlobal + Abort>(
    rt: &R,
    threads: usize,
    calls: usize,
    value: &str,
) -> Result<(), Fail> {
    let script = counting(rt.alloc(), threads, calls)?;
    let sink = written(rt, script.as_str(), &FreeGate, 0)?;
    judge_counts(rt.alloc(), sink.written(), threads, calls, value)
}

#[test]
fn up_to_sixteen_threads_count(rt: HostRuntime) -> Result<(), Fail> {
    for (threads, calls, value) in &COUNTS {
        expect_counts(&rt, *threads, *calls, value)?;
    }
    Ok(())
}
