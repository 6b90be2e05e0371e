//! Tests of faults.
use oak_model::Shape;
use oak_script::{NoScript, Script, ScriptFault, What, read_script};
use std::alloc::{AllocError, Global};
use std::process::Abort;
use std::test::Fail;

/// A fault, by its line and what it is, or none.
type Fault = Option<(u32, What)>;

/// A front, a piece, how many times the piece stands behind the front, and what stands behind it.
type Repeated = (&'static str, &'static str, usize, &'static str, Fault);

/// Adds the piece so many times.
fn push_times(text: &mut Vec<u8>, piece: &str, times: usize) -> Result<(), AllocError> {
    for _ in 0..times {
        text.extend_from_slice(piece.as_bytes())?;
    }
    Ok(())
}

/// The front, the piece so many times, and the back.
fn repeated(
    alloc: Global,
    front: &str,
    piece: &str,
    times: usize,
    back: &str,
) -> Result<Vec<u8>, AllocError> {
    let mut text = Vec::from_slice(alloc, front.as_bytes())?;
    push_times(&mut text, piece, times)?;
    text.extend_from_slice(back.as_bytes())?;
    Ok(text)
}

/// The fault that is told of a text, or none where it is a script.
fn told(alloc: Global, text: &[u8]) -> Result<Option<ScriptFault>, AllocError> {
    match read_script(alloc, text) {
        Ok(_) => Ok(None),
        Err(NoScript::Fault(fault)) => Ok(Some(fault)),
        Err(NoScript::OutOfMemory) => Err(AllocError),
    }
}

/// This fault was told, or none.
fn expect_told(rt: &impl Abort, told: Option<ScriptFault>, fault: Fault, row: &str) {
    let want = match fault {
        None => None,
        Some((line, what)) => Some(ScriptFault { line, what }),
    };
    assert_eq!(rt; told, want, "{row:?}");
}

/// This fault is told of the text, or none where it is a script.
fn expect_fault(
    rt: &impl Abort,
    alloc: Global,
    text: &[u8],
    fault: Fault,
    row: &str,
) -> Result<(), AllocError> {
    expect_told(rt, told(alloc, text)?, fault, row);
    Ok(())
}

/// Texts that are no scripts, with the line of the first fault and what it is.
const FAULTY: [(&str, u32, What); 27] = [
    ("", 1, What::Head),
    ("oak 1", 2, What::NoEnd),
    ("oak 1\r", 1, What::Head),
    ("oak 1\r\nthread\nend\n", 1, What::Head),
    ("oak 1\nend\n", 2, What::Word),
    ("oak 1\nthread x\nend\n", 2, What::Word),
    ("oak 1\nthread\nend\nend\n", 4, What::AfterEnd),
    ("oak 1\nthread\nend\nthread\nend\n", 4, What::AfterEnd),
    ("oak 1\nthread\nthread x\nend\n", 3, What::Word),
    (
        "oak 1\nthread\nget 6b\nthread\nget 6b3\nend\n",
        5,
        What::Hex,
    ),
    ("oak 1\nthread\nget 6b\nthread\n", 5, What::NoEnd),
    ("oak 1\nthread\nput 6B 01\nend\n", 3, What::Hex),
    ("oak 1\nthread\nput 6b  01\nend\n", 3, What::Word),
    ("oak 1\nthread\nput 6b3 01\nend\n", 3, What::Hex),
    ("oak 1\nthread\nget -\nend\n", 3, What::Hex),
    ("oak 1\nthread\nget 6b\0\nend\n", 3, What::Hex),
    ("oak 1\nthread\n\nend\n", 3, What::Word),
    ("oak 1\nthread\nend\r\n", 3, What::Word),
    ("oak 1\nthread\nupsert 6b 01\nend\n", 3, What::Word),
    ("oak 1\nthread\ncompute 6b add\nend\n", 3, What::Recipe),
    ("oak 1\nthread\ncompute 6b rev 1\nend\n", 3, What::Recipe),
    ("oak 1\nthread\ncompute 6b xor 100\nend\n", 3, What::Recipe),
    ("oak 1\nthread\ncompute 6b add 00\nend\n", 3, What::Recipe),
    (
        "oak 1\nthread\ncompute 6b add 18446744073709551616\nend\n",
        3,
        What::Recipe,
    ),
    ("oak 1\nthread\nhold A 6b\nend\n", 3, What::Name),
    (
        "oak 1\nthread\nlook abcdefghijklmnopq\nend\n",
        3,
        What::Name,
    ),
    ("oak 1\nthread\nget 6b\n", 4, What::NoEnd),
];

#[test]
fn tells_the_first_fault(rt: HostRuntime) -> Result<(), Fail> {
    for (text, line, what) in &FAULTY {
        let fault = Some((*line, *what));
        expect_fault(&rt, rt.alloc(), text.as_bytes(), fault, text)?;
    }
    Ok(())
}

const LAWFUL: [&str; 6] = [
    "oak 1\nthread\nend",
    "oak 1\nthread\nput 6b31 7631\nget 6b31\nend\n",
    "oak 1\nthread\nput 6b -\nputnew 6b 02\nremove 6b\nscan - 6b\nback - -\nend\n",
    "oak 1\nthread\nhold abcdefghijklmnop 6b\nlook a\nend\n",
    "oak 1\nthread\ncompute 6b add 0\ncompute 6b rev\nupsert 6b 01 rev\nupsert 6b - xor 0f\nend\n",
    "oak 1\nthread\ncompute 6b add 18446744073709551615\nend\n",
];

#[test]
fn finds_no_fault_in_a_script(rt: HostRuntime) -> Result<(), Fail> {
    for text in &LAWFUL {
        expect_fault(&rt, rt.alloc(), text.as_bytes(), None, text)?;
    }
    Ok(())
}

/// The row's fault is told of its text.
fn expect_repeated(rt: &impl Abort, alloc: Global, row: &Repeated) -> Result<(), AllocError> {
    let (front, piece, times, back, fault) = row;
    let text = repeated(alloc, front, piece, *times, back)?;
    let row = format!(in alloc; "{front:?}, {times} times {piece:?}, {back:?}")?;
    expect_fault(rt, alloc, &text, *fault, row.as_str())
}

/// So it is of each row.
fn expect_each(rt: &impl Abort, alloc: Global, rows: &[Repeated]) -> Result<(), AllocError> {
    for row in rows {
        expect_repeated(rt, alloc, row)?;
    }
    Ok(())
}

const LONG: [Repeated; 6] = [
    ("oak 1\nthread\nget ", "61", 64, "\nend\n", None),
    (
        "oak 1\nthread\nget ",
        "61",
        65,
        "\nend\n",
        Some((3, What::Key)),
    ),
    ("oak 1\nthread\nput 6b ", "62", 1_024, "\nend\n", None),
    (
        "oak 1\nthread\nput 6b ",
        "62",
        1_025,
        "\nend\n",
        Some((3, What::Value)),
    ),
    (
        "oak 1\nthread\nscan - ",
        "61",
        65,
        "\nend\n",
        Some((3, What::Key)),
    ),
    (
        "oak 1\nthread\nput 6b 62",
        " ",
        100_000,
        "\nend\n",
        Some((3, What::Word)),
    ),
];

#[test]
fn tells_words_that_are_too_long(rt: HostRuntime) -> Result<(), Fail> {
    expect_each(&rt, rt.alloc(), &LONG)?;
    Ok(())
}

const MANY: [Repeated; 4] = [
    ("oak 1\nthread\n", "back - -\n", 32, "end\n", None),
    (
        "oak 1\nthread\n",
        "scan - -\n",
        33,
        "end\n",
        Some((35, What::Scans)),
    ),
    ("oak 1\nthread\n", "get 6b\n", 262_144, "end\n", None),
    (
        "oak 1\nthread\n",
        "get 6b\n",
        262_145,
        "end\n",
        Some((262_147, What::Calls)),
    ),
];

#[test]
fn tells_the_first_call_and_the_first_scan_too_many(rt: HostRuntime) -> Result<(), Fail> {
    expect_each(&rt, rt.alloc(), &MANY)?;
    Ok(())
}

/// The line of a shape, what follows it before `thread`, and the line of the first fault and what it is.
const FAULTY_SHAPES: [(&str, &str, u32, What); 32] = [
    ("shape", "", 2, What::Word),
    ("shape 4 4 16 2 0 0", "", 2, What::Word),
    ("shape 04 4 16 2 0 0", "", 2, What::Word),
    ("shape 4 4 16 2 0 0 0 0", "", 2, What::Word),
    ("shape 4 4 16  2 0 0", "", 2, What::Word),
    ("shape 4 4 16 2 0 0 0 ", "", 2, What::Word),
    ("shapes 4 4 16 2 0 0 0", "", 2, What::Word),
    ("Shape 4 4 16 2 0 0 0", "", 2, What::Word),
    ("shape 04 4 16 2 0 0 0", "", 2, What::Shape),
    ("shape +4 4 16 2 0 0 0", "", 2, What::Shape),
    ("shape 4 -4 16 2 0 0 0", "", 2, What::Shape),
    ("shape 4 4 0x10 2 0 0 0", "", 2, What::Shape),
    ("shape 4 4 16 2 00 0 0", "", 2, What::Shape),
    ("shape 4 4 16 2 0 - 0", "", 2, What::Shape),
    ("shape 4 4 16 2 0 0 0\r", "", 2, What::Shape),
    ("shape 0 4 16 2 0 0 0", "", 2, What::Shape),
    ("shape 1025 4 16 2 0 0 0", "", 2, What::Shape),
    ("shape 4 3 16 2 0 0 0", "", 2, What::Shape),
    ("shape 4 257 16 2 0 0 0", "", 2, What::Shape),
    ("shape 4 4 0 2 0 0 0", "", 2, What::Shape),
    ("shape 4 4 65537 2 0 0 0", "", 2, What::Shape),
    ("shape 4 4 16 65537 0 0 0", "", 2, What::Shape),
    ("shape 4 4 16 2 65537 0 0", "", 2, What::Shape),
    ("shape 4 4 16 2 0 16385 0", "", 2, What::Shape),
    ("shape 4 4 16 2 0 0 4097", "", 2, What::Shape),
    ("shape 4294967300 4 16 2 0 0 0", "", 2, What::Shape),
    (
        "shape 18446744073709551620 4 16 2 0 0 0",
        "",
        2,
        What::Shape,
    ),
    ("shape 0 4 16 2 0 0 0", "end\n", 2, What::Shape),
    ("shape 4 4 16 2 0 0 0", "end\n", 3, What::Word),
    ("shape 4 4 16 2 0 0 0", "get 6b\n", 3, What::Word),
    (
        "shape 4 4 16 2 0 0 0",
        "shape 4 4 16 2 0 0 0\n",
        3,
        What::Word,
    ),
    ("thread", "shape 4 4 16 2 0 0 0\n", 3, What::Word),
];

/// This fault is told of a script with this line of a shape and what follows it.
fn expect_shape_fault(
    rt: &impl Abort,
    alloc: Global,
    shape: &str,
    behind: &str,
    fault: Fault,
) -> Result<(), AllocError> {
    let text = format!(in alloc; "oak 1\n{shape}\n{behind}thread\nend\n")?;
    expect_fault(rt, alloc, text.as_bytes(), fault, text.as_str())
}

#[test]
fn tells_the_first_fault_of_a_shape(rt: HostRuntime) -> Result<(), Fail> {
    for (shape, behind, line, what) in &FAULTY_SHAPES {
        expect_shape_fault(&rt, rt.alloc(), shape, behind, Some((*line, *what)))?;
    }
    let text = "oak 1\nshape 4 4 16 2 0 0 0\n";
    expect_fault(
        &rt,
        rt.alloc(),
        text.as_bytes(),
        Some((3, What::NoEnd)),
        text,
    )?;
    Ok(())
}

/// The shape of the script that a text is, or none where it is no script.
fn shape_of(alloc: Global, text: &[u8]) -> Result<Option<Shape>, AllocError> {
    match read_script(alloc, text) {
        Ok(script) => Ok(Some(script.shape)),
        Err(NoScript::Fault(_)) => Ok(None),
        Err(NoScript::OutOfMemory) => Err(AllocError),
    }
}

/// A script was found, of this shape.
fn expect_same(rt: &impl Abort, found: Option<Shape>, shape: Shape, row: &str) {
    assert_eq!(rt; found, Some(shape), "{row:?}");
}

/// The text is a script of this shape.
fn expect_shape(
    rt: &impl Abort,
    alloc: Global,
    text: &[u8],
    shape: Shape,
    row: &str,
) -> Result<(), AllocError> {
    expect_same(rt, shape_of(alloc, text)?, shape, row);
    Ok(())
}

/// A script with this line of a shape, or none, is of this shape.
fn expect_line(rt: &impl Abort, alloc: Global, line: &str, shape: Shape) -> Result<(), AllocError> {
    let text = format!(in alloc; "oak 1\n{line}thread\nget 6b\nend\n")?;
    expect_shape(rt, alloc, text.as_bytes(), shape, text.as_str())
}

/// The line of a shape, or none, and the chunks, entries, headers and blocks of the shape.
const SHAPES: [(&str, u32, u32, u32, [u32; 4]); 5] = [
    ("", 256, 64, 8_192, [16_384, 4_096, 1_024, 512]),
    (
        "shape 256 64 8192 16384 4096 1024 512\n",
        256,
        64,
        8_192,
        [16_384, 4_096, 1_024, 512],
    ),
    ("shape 9 8 7 66 55 44 33\n", 9, 8, 7, [66, 55, 44, 33]),
    ("shape 1 4 1 0 0 0 0\n", 1, 4, 1, [0, 0, 0, 0]),
    (
        "shape 1024 256 65536 65536 65536 16384 4096\n",
        1_024,
        256,
        65_536,
        [65_536, 65_536, 16_384, 4_096],
    ),
];

#[test]
fn reads_the_shape(rt: HostRuntime) -> Result<(), Fail> {
    for (line, chunks, entries, headers, blocks) in &SHAPES {
        let shape = Shape::make(2, *chunks, *entries, *headers, *blocks)?;
        expect_line(&rt, rt.alloc(), line, shape)?;
    }
    Ok(())
}

/// What stands before the threads, a thread, how many of them there are, and what stands behind them.
const THREADS: [Repeated; 15] = [
    ("oak 1\n", "", 0, "end\n", Some((2, What::Word))),
    (
        "oak 1\nshape 4 4 16 2 0 0 0\n",
        "",
        0,
        "end\n",
        Some((3, What::Word)),
    ),
    ("oak 1\n", "thread\n", 2, "end\n", None),
    ("oak 1\n", "thread\n", 16, "end\n", None),
    ("oak 1\n", "thread\n", 16, "get 6b\nend", None),
    (
        "oak 1\nshape 4 4 16 2 0 0 0\n",
        "thread\n",
        16,
        "end\n",
        None,
    ),
    (
        "oak 1\n",
        "thread\n",
        17,
        "end\n",
        Some((18, What::Threads)),
    ),
    (
        "oak 1\n",
        "thread\n",
        20,
        "end\n",
        Some((18, What::Threads)),
    ),
    (
        "oak 1\nshape 4 4 16 2 0 0 0\n",
        "thread\n",
        17,
        "end\n",
        Some((19, What::Threads)),
    ),
    ("oak 1\n", "thread\nget 6b\n", 16, "end\n", None),
    (
        "oak 1\n",
        "thread\nget 6b\n",
        17,
        "end\n",
        Some((34, What::Threads)),
    ),
    (
        "oak 1\n",
        "thread\n",
        16,
        "thread \nend\n",
        Some((18, What::Word)),
    ),
    (
        "oak 1\n",
        "thread\n",
        16,
        "thread",
        Some((18, What::Threads)),
    ),
    ("oak 1\n", "thread\n", 16, "", Some((18, What::NoEnd))),
    (
        "oak 1\n",
        "thread\n",
        16,
        "end\nthread\n",
        Some((19, What::AfterEnd)),
    ),
];

#[test]
fn tells_one_thread_too_many(rt: HostRuntime) -> Result<(), Fail> {
    expect_each(&rt, rt.alloc(), &THREADS)?;
    Ok(())
}

/// The calls of two threads: a line and how often it stands in the one, and the same of the other.
type Calls = (&'static str, usize, &'static str, usize, Fault);

const CALLS: [Calls; 7] = [
    ("get 6b\n", 131_072, "get 6b\n", 131_072, None),
    (
        "get 6b\n",
        131_072,
        "get 6b\n",
        131_073,
        Some((262_148, What::Calls)),
    ),
    ("get 6b\n", 262_144, "get 6b\n", 0, None),
    (
        "get 6b\n",
        262_144,
        "look a\n",
        1,
        Some((262_148, What::Calls)),
    ),
    ("scan - -\n", 16, "back - -\n", 16, None),
    ("scan - -\n", 16, "back - -\n", 17, Some((36, What::Scans))),
    ("back - -\n", 32, "scan - -\n", 1, Some((36, What::Scans))),
];

/// The script of the row's two threads.
fn two_threads(alloc: Global, row: &Calls) -> Result<Vec<u8>, AllocError> {
    let (first, before, second, behind, _) = row;
    let mut text = repeated(alloc, "oak 1\nthread\n", first, *before, "thread\n")?;
    push_times(&mut text, second, *behind)?;
    text.extend_from_slice(b"end\n")?;
    Ok(text)
}

/// The row's fault is told of a script of its two threads.
fn expect_calls(rt: &impl Abort, alloc: Global, row: &Calls) -> Result<(), AllocError> {
    let (_, _, second, behind, fault) = row;
    let text = two_threads(alloc, row)?;
    let row = format!(in alloc; "{behind} times {second:?}")?;
    expect_fault(rt, alloc, &text, *fault, row.as_str())
}

#[test]
fn counts_the_calls_of_all_threads(rt: HostRuntime) -> Result<(), Fail> {
    for row in &CALLS {
        expect_calls(&rt, rt.alloc(), row)?;
    }
    Ok(())
}

/// How many calls each thread of the script has.
fn counts(alloc: Global, script: &Script) -> Result<Vec<usize>, AllocError> {
    let mut counts = Vec::new(alloc);
    for calls in script.threads.as_slice() {
        counts.push(calls.len())?;
    }
    Ok(counts)
}

/// How many calls each thread of the script that a text is has, or none where it is no script.
fn calls_of(alloc: Global, text: &[u8]) -> Result<Option<Vec<usize>>, AllocError> {
    match read_script(alloc, text) {
        Ok(script) => Ok(Some(counts(alloc, &script)?)),
        Err(NoScript::Fault(_)) => Ok(None),
        Err(NoScript::OutOfMemory) => Err(AllocError),
    }
}

/// The text is a script of this shape, whose threads have so many calls.
fn expect_script(
    rt: &impl Abort,
    alloc: Global,
    text: &[u8],
    counts: Vec<usize>,
    shape: Shape,
) -> Result<(), AllocError> {
    assert_eq!(rt; calls_of(alloc, text)?, Some(counts));
    expect_shape(rt, alloc, text, shape, "the shape")
}

/// So it is of a script of sixteen threads with one call each.
fn expect_sixteen(rt: &impl Abort, alloc: Global, shape: Shape) -> Result<(), AllocError> {
    let front = "oak 1\nshape 9 8 7 6 5 4 3\n";
    let text = repeated(alloc, front, "thread\nget 6b\n", 16, "end\n")?;
    expect_script(rt, alloc, &text, vec![in alloc; 1; 16]?, shape)
}

#[test]
fn gives_each_thread_its_calls(rt: HostRuntime) -> Result<(), Fail> {
    let alloc = rt.alloc();
    let text = b"oak 1\nthread\nput 61 01\nget 61\nthread\nthread\nremove 61\nend\n";
    let shape = Shape::make(4, 256, 64, 8_192, [16_384, 4_096, 1_024, 512])?;
    expect_script(&rt, alloc, text, [2, 0, 1].to_vec(alloc)?, shape)?;
    expect_sixteen(&rt, alloc, Shape::make(17, 9, 8, 7, [6, 5, 4, 3])?)?;
    Ok(())
}

/// What is told of each fault.
const TOLD: [(What, &str); 13] = [
    (What::Head, "line 7: head"),
    (What::AfterEnd, "line 7: after end"),
    (What::Word, "line 7: word"),
    (What::Shape, "line 7: shape"),
    (What::Name, "line 7: name"),
    (What::Hex, "line 7: hex"),
    (What::Key, "line 7: key"),
    (What::Value, "line 7: value"),
    (What::Recipe, "line 7: recipe"),
    (What::Threads, "line 7: threads"),
    (What::Calls, "line 7: calls"),
    (What::Scans, "line 7: scans"),
    (What::NoEnd, "line 7: no end"),
];

/// The text is this.
fn expect_text(rt: &impl Abort, text: &str, says: &str) {
    assert_eq!(rt; text, says);
}

/// A fault of the line 7 says this.
fn expect_says(rt: &impl Abort, alloc: Global, what: What, says: &str) -> Result<(), AllocError> {
    let fault = ScriptFault { line: 7, what };
    let told = format!(in alloc; "{fault}")?;
    expect_text(rt, told.as_str(), says);
    Ok(())
}

#[test]
fn a_fault_tells_its_line_and_word(rt: HostRuntime) -> Result<(), Fail> {
    for (what, says) in &TOLD {
        expect_says(&rt, rt.alloc(), *what, says)?;
    }
    Ok(())
}
