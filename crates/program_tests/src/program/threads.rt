//! Scripts of several threads that have one lawful text.

use crate::program::test_runs::expect_used;
use std::alloc::Global;
use std::process::Abort;
use std::sync::Wait;
use std::test::Fail;
use std::thread::Threads;

/// The lines of a thread that works on a key of its own, with its name in hexadecimal digits.
fn own_lines(alloc: Global, name: u8) -> Result<String, Fail> {
    let lines = format!(in alloc;
        "thread/put 6b{name:02x} {name:02x}/hold a 6b{name:02x}/compute 6b{name:02x} xor ff/look a/\
         put 6c{name:02x} -/remove 6c{name:02x}/get 6c{name:02x}/"
    )?;
    Ok(lines)
}

/// The replies to it.
fn own_replies(alloc: Global, name: u8) -> Result<String, Fail> {
    let flipped = !name;
    let lines = format!(in alloc;
        "t{name}.1 new @1/t{name}.2 held @1/t{name}.3 done @2/t{name}.4 = {flipped:02x} @2/\
         t{name}.5 new @1/t{name}.6 removed @2/t{name}.7 none @2/"
    )?;
    Ok(lines)
}

/// The script of so many threads that work on keys of their own.
fn own_script(alloc: Global, threads: u8) -> Result<String, Fail> {
    let mut text = String::from_str(alloc, "oak 1/")?;
    for name in 1..=threads {
        text.push_str(own_lines(alloc, name)?.as_str())?;
    }
    text.push_str("end/")?;
    Ok(text)
}

/// The line of the final map for each thread's key, with a slash before it.
fn own_map(alloc: Global, threads: u8) -> Result<String, Fail> {
    let mut map = String::new(alloc);
    for name in 1..=threads {
        let flipped = !name;
        map.push_str(format!(in alloc; "/6b{name:02x} {flipped:02x}")?.as_str())?;
    }
    Ok(map)
}

/// The text of the run of that script, up to what is used.
fn own_text(alloc: Global, threads: u8) -> Result<String, Fail> {
    let mut says = String::new(alloc);
    for name in 1..=threads {
        says.push_str(own_replies(alloc, name)?.as_str())?;
    }
    let map = own_map(alloc, threads)?;
    says.push_str(format!(in alloc; "map {threads}{map}")?.as_str())?;
    Ok(says)
}

/// Threads that work on keys of their own have one text.
fn expect_own<R: Threads + Wait + Clone + Drop + Send + Sync + AllocGlobal + Abort>(
    rt: &R,
    threads: u8,
) -> Result<(), Fail> {
    let text = own_script(rt.alloc(), threads)?;
    let says = own_text(rt.alloc(), threads)?;
    let keys = u32::from(threads);
    expect_used(
        rt,
        text.as_str(),
        says.as_str(),
        [2 * keys, 0, 0, 0, keys, 1],
    )
}

#[test]
fn threads_without_calls_leave_an_empty_map(rt: HostRuntime) -> Result<(), Fail> {
    expect_used(
        &rt,
        "oak 1/thread/thread/thread/end/",
        "map 0",
        [0, 0, 0, 0, 0, 1],
    )
}

#[test]
fn threads_with_keys_of_their_own_have_one_text(rt: HostRuntime) -> Result<(), Fail> {
    for threads in [2, 4, 16] {
        expect_own(&rt, threads)?;
    }
    Ok(())
}
