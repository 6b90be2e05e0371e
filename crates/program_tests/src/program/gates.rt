//! Runs whose threads are held in turn, so that they can't come to their ends one after another.

use crate::program::test_runs::{
    Used, expect_bytes, expect_under, lines_of, run_of, used_text, written,
};
use outside::{FreeGate, Gate};
use std::alloc::Global;
use std::hint::spin_loop;
use std::process::Abort;
use std::sync::Wait;
use std::sync::atomic::{AtomicBool, AtomicU32, Ordering};
use std::test::Fail;
use std::thread::Threads;

/// How often a thread that is held looks whether it may go on, before it gives up.
const LOOKS: u32 = 100_000_000;

/// A thread's number and that of a call of it.
type Asked = (u32, u32);

/// A gate that holds a thread before a call until another thread has come to one.
#[derive(Drop)]
struct HoldingGate {
    held: Asked,
    until: Asked,
    was_held: AtomicBool,
    has_come: AtomicBool,
    gave_up: AtomicBool,
}

impl HoldingGate {
    fn make(held: Asked, until: Asked) -> HoldingGate {
        HoldingGate {
            held,
            until,
            was_held: AtomicBool::new(false),
            has_come: AtomicBool::new(false),
            gave_up: AtomicBool::new(false),
        }
    }

    /// Waits for the other thread.
    fn hold(&self) {
        self.was_held.store(true, Ordering::SeqCst);
        for _ in 0..LOOKS {
            if self.has_come.load(Ordering::SeqCst) {
                return;
            }
            spin_loop();
        }
        self.gave_up.store(true, Ordering::SeqCst);
    }

    /// Whether the thread was held, and let go since the other had come.
    fn has_held(&self) -> bool {
        self.was_held.load(Ordering::SeqCst)
            && self.has_come.load(Ordering::SeqCst)
            && !self.gave_up.load(Ordering::SeqCst)
    }
}

impl Gate for HoldingGate {
    fn pass_by(&self, thread: u32, call: u32) {
        if (thread, call) == self.until {
            self.has_come.store(true, Ordering::SeqCst);
        }
        if (thread, call) == self.held {
            self.hold();
        }
    }
}

/// Each thread's one call waits for the end of the other thread. No order of the threads, the one behind the
/// other, passes both gates.
const GATES: [(Asked, Asked); 2] = [((1, 1), (2, 2)), ((2, 1), (1, 2))];

/// Runs the script under the gate that holds so, and asserts that it did, and the text of the run.
fn expect_held<R: Threads + Wait + Clone + Drop + Send + Sync + AllocGlobal + Abort>(
    rt: &R,
    text: &str,
    (held, until): (Asked, Asked),
    says: &str,
) -> Result<(), Fail> {
    let wanted = lines_of(rt.alloc(), says)?;
    let gate = HoldingGate::make(held, until);
    let (_ran, text) = run_of(rt, text, &gate)?;
    expect_bytes(rt, &text, &wanted, says);
    assert!(rt; gate.has_held(), "{says}");
    Ok(())
}

#[test]
fn threads_run_beside_each_other(rt: HostRuntime) -> Result<(), Fail> {
    let lines = "t1.1 new @1/t2.1 new @1/map 2/61 01/62 02";
    let says = used_text(rt.alloc(), lines, [4, 0, 0, 0, 2, 1])?;
    for gate in &GATES {
        let text = "oak 1/thread/put 61 01/thread/put 62 02/end/";
        expect_held(&rt, text, *gate, says.as_str())?;
    }
    Ok(())
}

/// A put beside a scan.
const SCAN: &str = "oak 1/thread/put 61 01/thread/scan - -/end/";

/// The two lawful texts of it: the scan is before the put, or behind it.
const SCANS: [&str; 2] = [
    "t1.1 new @1/t2.1 pairs 0/map 1/61 01",
    "t1.1 new @1/t2.1 pairs 1/+ 61 01 @1/map 1/61 01",
];

const USED_BY_SCAN: Used = [2, 0, 0, 0, 1, 1];

/// Whether the text is that of the scan where the lines up to the final map are these.
fn is_scan(alloc: Global, text: &[u8], lines: &str) -> Result<bool, Fail> {
    let says = used_text(alloc, lines, USED_BY_SCAN)?;
    Ok(text == lines_of(alloc, says.as_str())?.as_slice())
}

#[test]
fn a_scan_beside_a_put_has_two_texts(rt: HostRuntime) -> Result<(), Fail> {
    let sink = written(&rt, SCAN, &FreeGate, 0)?;
    let mut lawful = false;
    for lines in &SCANS {
        lawful = lawful || is_scan(rt.alloc(), sink.written(), lines)?;
    }
    assert!(rt; lawful);
    Ok(())
}

#[test]
fn a_scan_that_is_held_or_waited_for_has_one_text(rt: HostRuntime) -> Result<(), Fail> {
    for (gate, says) in GATES.into_iter().zip(SCANS) {
        let says = used_text(rt.alloc(), says, USED_BY_SCAN)?;
        expect_held(&rt, SCAN, gate, says.as_str())?;
    }
    Ok(())
}

/// Two gates, each of which holds a thread once.
#[derive(Drop)]
struct BothGates(HoldingGate, HoldingGate);

impl Gate for BothGates {
    fn pass_by(&self, thread: u32, call: u32) {
        self.0.pass_by(thread, call);
        self.1.pass_by(thread, call);
    }
}

#[test]
fn a_view_is_gone_behind_the_removal_of_another_thread(rt: HostRuntime) -> Result<(), Fail> {
    let alloc = rt.alloc();
    // the removal waits for the hold, and the look for the removal
    let gates = BothGates(
        HoldingGate::make((2, 1), (1, 3)),
        HoldingGate::make((1, 3), (2, 2)),
    );
    let text = "oak 1/thread/put 6b 01/hold a 6b/look a/thread/remove 6b/end/";
    let lines = "t1.1 new @1/t1.2 held @1/t1.3 gone/t2.1 removed @2/map 0";
    let says = used_text(alloc, lines, [0, 0, 0, 0, 0, 1])?;
    expect_under(&rt, text, &gates, 0, says.as_str())?;
    assert!(rt; gates.0.has_held() && gates.1.has_held());
    Ok(())
}

/// A gate that counts how often it is asked, and keeps for each of two threads which of its calls it was asked
/// for.
#[derive(Drop)]
struct CountingGate {
    asks: AtomicU32,
    first: AtomicU32,
    second: AtomicU32,
}

impl CountingGate {
    fn make() -> CountingGate {
        CountingGate {
            asks: AtomicU32::new(0),
            first: AtomicU32::new(0),
            second: AtomicU32::new(0),
        }
    }
}

impl Gate for CountingGate {
    fn pass_by(&self, thread: u32, call: u32) {
        self.asks.fetch_add(1, Ordering::SeqCst);
        let calls = match thread {
            1 => &self.first,
            2 => &self.second,
            _ => return,
        };
        if call < 32 {
            calls.fetch_or(1 << call, Ordering::SeqCst);
        }
    }
}

/// Scripts, and how often they ask the gate: in all, and for which calls of the first and of the second thread,
/// a bit for each call.
const ASKS: [(&str, u32, u32, u32); 3] = [
    ("oak 1/thread/get 61/get 62/end/", 3, 0b1110, 0),
    ("oak 1/thread/end/", 1, 0b10, 0),
    (
        "oak 1/thread/get 61/get 62/get 63/thread/end/",
        5,
        0b11110,
        0b10,
    ),
];

/// Asserts what a count is in the run of this script.
fn expect_count(rt: &impl Abort, count: &AtomicU32, wanted: u32, text: &str) {
    assert_eq!(rt; count.load(Ordering::SeqCst), wanted, "{text}");
}

#[test]
fn each_call_and_each_end_asks_the_gate(rt: HostRuntime) -> Result<(), Fail> {
    for (text, asks, first, second) in &ASKS {
        let gate = CountingGate::make();
        written(&rt, text, &gate, 0)?;
        expect_count(&rt, &gate.asks, *asks, text);
        expect_count(&rt, &gate.first, *first, text);
        expect_count(&rt, &gate.second, *second, text);
    }
    Ok(())
}
