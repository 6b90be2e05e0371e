//! Scripts of the default shape, each with the text of its run.

use crate::program::test_runs::{Used, expect, expect_used, repeated};
use std::process::Abort;
use std::sync::Wait;
use std::test::Fail;
use std::thread::Threads;

/// A script without its first two lines and its last, the text of its run up to the final map, and what is
/// used at its end; with a slash for a line's end.
const ROWS: [(&str, &str, Used); 16] = [
    (
        "put 6b31 7631/get 6b31",
        "t1.1 new @1/t1.2 = 7631 @1/map 1/6b31 7631",
        [2, 0, 0, 0, 1, 1],
    ),
    (
        "get 6b/remove 6b/compute 6b add 1",
        "t1.1 none @0/t1.2 none @0/t1.3 none @0/map 0",
        [0, 0, 0, 0, 0, 1],
    ),
    (
        "put 6b -/get 6b/scan - -",
        "t1.1 new @1/t1.2 = - @1/t1.3 pairs 1/+ 6b - @1/map 1/6b -",
        [2, 0, 0, 0, 1, 1],
    ),
    (
        "put 6b 61616161616161616161616161616161/put 6b 6161616161616161616161616161616161",
        "t1.1 new @1/t1.2 over @2/map 1/6b 6161616161616161616161616161616161",
        [1, 1, 0, 0, 1, 1],
    ),
    (
        "put 6b 01/hold a 6b/remove 6b/put 6b 02/look a/get 6b",
        "t1.1 new @1/t1.2 held @1/t1.3 removed @2/t1.4 new @3/t1.5 gone/t1.6 = 02 @3/map 1/6b 02",
        [2, 0, 0, 0, 1, 1],
    ),
    (
        "put 6b 01/hold a 6b/put 6b 0203/look a",
        "t1.1 new @1/t1.2 held @1/t1.3 over @2/t1.4 = 0203 @2/map 1/6b 0203",
        [2, 0, 0, 0, 1, 1],
    ),
    (
        "put 61 00/put 63 00/put 65 00/scan 65 61/scan 63 63/scan 62 64/back - 63",
        "t1.1 new @1/t1.2 new @1/t1.3 new @1/t1.4 pairs 0/t1.5 pairs 1/+ 63 00 @1/t1.6 pairs 1/\
         + 63 00 @1/t1.7 pairs 2/+ 63 00 @1/+ 61 00 @1/map 3/61 00/63 00/65 00",
        [6, 0, 0, 0, 3, 1],
    ),
    (
        "put 6bff -/put 6b00 -/put 6c -/put 6b -/scan - -",
        "t1.1 new @1/t1.2 new @1/t1.3 new @1/t1.4 new @1/t1.5 pairs 4/+ 6b - @1/+ 6b00 - @1/\
         + 6bff - @1/+ 6c - @1/map 4/6b -/6b00 -/6bff -/6c -",
        [8, 0, 0, 0, 4, 1],
    ),
    (
        "put 61 ffffffffffffffff/compute 61 add 1/get 61/put 62 010203/compute 62 add 1/get 62",
        "t1.1 new @1/t1.2 done @2/t1.3 = 0000000000000000 @2/t1.4 new @1/t1.5 done @2/\
         t1.6 = 010203 @2/map 2/61 0000000000000000/62 010203",
        [4, 0, 0, 0, 2, 1],
    ),
    (
        "put 6b 01/putnew 6b 02/upsert 6c 0000000000000005 add 2/upsert 6c 0000000000000005 add 2",
        "t1.1 new @1/t1.2 kept @1/t1.3 new @1/t1.4 done @2/map 2/6b 01/6c 0000000000000007",
        [4, 0, 0, 0, 2, 1],
    ),
    ("look a", "t1.1 unheld/map 0", [0, 0, 0, 0, 0, 1]),
    (
        "put 61 0102ff/compute 61 xor 0f/compute 61 rev/get 61",
        "t1.1 new @1/t1.2 done @2/t1.3 done @3/t1.4 = f00d0e @3/map 1/61 f00d0e",
        [2, 0, 0, 0, 1, 1],
    ),
    (
        "upsert 2f696e646578 0000000000000001 add 1/upsert 2f61626f7574 0000000000000001 add 1/\
         upsert 2f696e646578 0000000000000001 add 1/scan - -",
        "t1.1 new @1/t1.2 new @1/t1.3 done @2/t1.4 pairs 2/+ 2f61626f7574 0000000000000001 @1/\
         + 2f696e646578 0000000000000002 @2/map 2/2f61626f7574 0000000000000001/\
         2f696e646578 0000000000000002",
        [4, 0, 0, 0, 2, 1],
    ),
    (
        "hold a 6b/put 6b 01/look a/hold a 6b/look a/hold a 6c/look a",
        "t1.1 none @0/t1.2 new @1/t1.3 unheld/t1.4 held @1/t1.5 = 01 @1/t1.6 none @0/t1.7 unheld/\
         map 1/6b 01",
        [2, 0, 0, 0, 1, 1],
    ),
    (
        "put 61 01/put 61 02/remove 61/get 61/remove 61/compute 61 rev/putnew 61 03/get 61",
        "t1.1 new @1/t1.2 over @2/t1.3 removed @3/t1.4 none @3/t1.5 none @3/t1.6 none @3/\
         t1.7 new @4/t1.8 = 03 @4/map 1/61 03",
        [2, 0, 0, 0, 1, 1],
    ),
    (
        "put 61 01/put 62 02/back - -/remove 61/scan - -/back 62 62",
        "t1.1 new @1/t1.2 new @1/t1.3 pairs 2/+ 62 02 @1/+ 61 01 @1/t1.4 removed @2/t1.5 pairs 1/\
         + 62 02 @1/t1.6 pairs 1/+ 62 02 @1/map 1/62 02",
        [2, 0, 0, 0, 1, 1],
    ),
];

/// Runs a script of one thread of these calls.
fn expect_calls<R: Threads + Wait + Clone + Drop + Send + Sync + AllocGlobal + Abort>(
    rt: &R,
    calls: &str,
    says: &str,
    used: Used,
) -> Result<(), Fail> {
    let text = format!(in rt.alloc(); "oak 1/thread/{calls}/end/")?;
    expect_used(rt, text.as_str(), says, used)
}

#[test]
fn answers_with_ample_memory(rt: HostRuntime) -> Result<(), Fail> {
    for (calls, says, used) in &ROWS {
        expect_calls(&rt, calls, says, *used)?;
    }
    expect_used(&rt, "oak 1/thread/end", "map 0", [0, 0, 0, 0, 0, 1])
}

/// Puts the longest value under the longest key, and gets it.
fn expect_longest<R: Threads + Wait + Clone + Drop + Send + Sync + AllocGlobal + Abort>(
    rt: &R,
    key: &str,
    value: &str,
) -> Result<(), Fail> {
    let calls = format!(in rt.alloc(); "put {key} {value}/get {key}")?;
    let says = format!(in rt.alloc(); "t1.1 new @1/t1.2 = {value} @1/map 1/{key} {value}")?;
    expect_calls(rt, calls.as_str(), says.as_str(), [0, 1, 0, 1, 1, 1])
}

/// Puts an empty value over the longest, and gets it.
fn expect_emptied<R: Threads + Wait + Clone + Drop + Send + Sync + AllocGlobal + Abort>(
    rt: &R,
    key: &str,
    value: &str,
) -> Result<(), Fail> {
    let calls = format!(in rt.alloc(); "put {key} {value}/put {key} -/get {key}")?;
    let says = format!(in rt.alloc(); "t1.1 new @1/t1.2 over @2/t1.3 = - @2/map 1/{key} -")?;
    expect_calls(rt, calls.as_str(), says.as_str(), [1, 1, 0, 0, 1, 1])
}

#[test]
fn takes_the_longest_key_and_value(rt: HostRuntime) -> Result<(), Fail> {
    let key = repeated(rt.alloc(), "", "61", 64, "")?;
    let value = repeated(rt.alloc(), "", "62", 1_024, "")?;
    expect_longest(&rt, key.as_str(), value.as_str())?;
    expect_emptied(&rt, key.as_str(), value.as_str())?;
    let long = format!(in rt.alloc(); "oak 1/thread/put {key}61 -/end/")?;
    expect(&rt, long.as_str(), 3, "oakmap: line 3: key")
}
