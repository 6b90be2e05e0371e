//! Runs of the program in memory: what the tests share.
ghost use Rattle.std.specs.Prelude.{◌≡◌, ◌<◌, ◌^◌, IfOk, length};
ghost use Rattle.std.specs.List.{AllByRecursion};
ghost use Rattle.oak_core.specs.Closing.{FullsLacked};
ghost use Rattle.oak_script.specs.declared.limits.TheConstants.{GREATEST_THREADS};
ghost use Rattle.oak_script.specs.Grammar.{IsScript};

use oak_run::{Ran, run_script};
use oak_script::{GREATEST_THREADS, NoScript, Script, print_run, read_script};
use oakmap::recipes::add;
use oakmap::top;
use outside::{FreeGate, Gate, MemorySink, Sink, Source, SureSource};
use std::alloc::Global;
use std::process::Abort;
use std::sync::Wait;
use std::test::Fail;
use std::thread::Threads;
use value_ops::{Recipe, StepRecipe};

/// The words of a text.
pub(crate) fn words_in(alloc: Global, text: &str) -> Result<Vec<String>, Fail> {
    let mut words = Vec::new(alloc);
    for word in text.split_whitespace() {
        words.push(String::from_str(alloc, word)?)?;
    }
    Ok(words)
}

/// The bytes of a text that has a slash for each line feed.
pub(crate) fn bytes_of(alloc: Global, text: &str) -> Result<Vec<u8>, Fail> {
    let mut bytes = Vec::new(alloc);
    for byte in text.bytes() {
        bytes.push(if byte == b'/' { b'\n' } else { byte })?;
    }
    Ok(bytes)
}

/// The bytes of a text that has a slash between its lines.
pub(crate) fn lines_of(alloc: Global, text: &str) -> Result<Vec<u8>, Fail> {
    let text = format!(in alloc; "{text}/")?;
    bytes_of(alloc, text.as_str())
}

/// A recipe for each thread that a script may have.
pub(crate) fn recipes_of(alloc: Global) -> Result<Vec<Box<dyn Recipe + Send>>, Fail>
    ensures enough { IfOk result (λ v. length v.items ≡ GREATEST_THREADS) }
    ensures counts { IfOk result (λ v. AllByRecursion (λ r. calls r < 2 ^ 63) v.items) }
{
    let mut recipes = Vec::new(alloc);
    for _ in 0..GREATEST_THREADS {
        add(&mut recipes, Box::new(alloc, StepRecipe::make())?)?;
    }
    Ok(recipes)
}

/// The script that a text is, which has a slash for each line feed.
pub(crate) fn script_of(alloc: Global, text: &str) -> Result<Script, Fail>
    ensures { IfOk result IsScript }
{
    match read_script(alloc, &bytes_of(alloc, text)?) {
        Ok(script) => Ok(script),
        Err(NoScript::Fault(fault)) => Err(Fail::new(fault)),
        Err(NoScript::OutOfMemory) => Err(Fail::new("out of memory")),
    }
}

/// The text of pieces that stand so many times behind a front, and of a back.
pub(crate) fn repeated(
    alloc: Global,
    front: &str,
    piece: &str,
    times: usize,
    back: &str,
) -> Result<String, Fail> {
    let mut text = String::from_str(alloc, front)?;
    for _ in 0..times {
        text.push_str(piece)?;
    }
    text.push_str(back)?;
    Ok(text)
}

/// Runs the text's script under the gate: what the run answered, and the text of the run.
pub(crate) fn run_of<R: Threads + Wait + Clone + Drop + Send + Sync + AllocGlobal, G: Gate>(
    rt: &R,
    text: &str,
    gate: &G,
) -> Result<(Ran, Vec<u8>), Fail>
    ensures causes { IfOk result (λ r. FullsLacked r.0.closed) }
{
    let alloc = rt.alloc();
    let script = script_of(alloc, text)?;
    let ran = run_script(rt, &script, gate, recipes_of(alloc)?)?;
    let usage = ran.closed.usage();
    let text = print_run(alloc, &script, &ran.replies, &ran.finals, &usage)?;
    Ok((ran, text))
}

/// A sink with room for more than any text here, which fails at these calls.
pub(crate) fn sink_of(alloc: Global, fails: &[u64]) -> Result<MemorySink, Fail> {
    let room = vec![in alloc; 0u8; 8_192]?;
    Ok(MemorySink::make(room, Vec::from_slice(alloc, fails)?))
}

/// Calls the program with these words, and asserts the status, and that a map was closed exactly with 0 and 5.
pub(crate) fn end<
    R: Threads + Wait + Clone + Drop + Send + Sync + AllocGlobal + Abort,
    S: Source,
    K: Sink,
    G: Gate,
>(rt: &R, words: &str, source: &mut S, sink: &mut K, gate: &G, status: u8) -> Result<(), Fail> {
    let alloc = rt.alloc();
    let words = words_in(alloc, words)?;
    let ended = top(rt, &words, source, sink, gate, recipes_of(alloc)?);
    assert_eq!(rt; ended.status, status);
    assert_eq!(rt; ended.closed.is_some(), matches!(status, 0 | 5));
    Ok(())
}

/// Asserts that these bytes were written in this case.
pub(crate) fn expect_bytes(rt: &impl Abort, written: &[u8], wanted: &[u8], case: &str) {
    assert_eq!(rt; written, wanted, "{case}");
}

/// Asserts that the text was written in this case; it has a slash for each line feed.
pub(crate) fn expect_text(
    rt: &impl Abort,
    alloc: Global,
    written: &[u8],
    says: &str,
    case: &str,
) -> Result<(), Fail> {
    let wanted = bytes_of(alloc, says)?;
    expect_bytes(rt, written, &wanted, case);
    Ok(())
}

/// Calls the program with these words, with a sink that fails at these writes, and asserts the status and the text that
/// was written.
pub(crate) fn expect_end<
    R: Threads + Wait + Clone + Drop + Send + Sync + AllocGlobal + Abort,
    S: Source,
>(rt: &R, words: &str, source: &mut S, fails: &[u64], status: u8, says: &str) -> Result<(), Fail> {
    let mut sink = sink_of(rt.alloc(), fails)?;
    end(rt, words, source, &mut sink, &FreeGate, status)?;
    expect_text(rt, rt.alloc(), sink.written(), says, words)
}

/// Runs `oakmap run` on the text under the gate, and asserts the status: what was written.
pub(crate) fn written<
    R: Threads + Wait + Clone + Drop + Send + Sync + AllocGlobal + Abort,
    G: Gate,
>(rt: &R, text: &str, gate: &G, status: u8) -> Result<MemorySink, Fail> {
    let alloc = rt.alloc();
    let mut source = SureSource::make(bytes_of(alloc, text)?);
    let mut sink = sink_of(alloc, &[])?;
    end(rt, "run", &mut source, &mut sink, gate, status)?;
    Ok(sink)
}

/// Runs `oakmap run` on the text under the gate, and asserts the status and what was written.
pub(crate) fn expect_under<
    R: Threads + Wait + Clone + Drop + Send + Sync + AllocGlobal + Abort,
    G: Gate,
>(rt: &R, text: &str, gate: &G, status: u8, says: &str) -> Result<(), Fail> {
    let wanted = lines_of(rt.alloc(), says)?;
    let sink = written(rt, text, gate, status)?;
    expect_bytes(rt, sink.written(), &wanted, text);
    Ok(())
}

/// The same under a gate that holds no thread.
pub(crate) fn expect<R: Threads + Wait + Clone + Drop + Send + Sync + AllocGlobal + Abort>(
    rt: &R,
    text: &str,
    status: u8,
    says: &str,
) -> Result<(), Fail> {
    expect_under(rt, text, &FreeGate, status, says)
}

/// What is used of a table: blocks of 16, 64, 256 and 1,024 bytes, headers, chunks.
pub(crate) type Used = [u32; 6];

/// The text of a run over a table of the default shape, of which this is used at the end.
pub(crate) fn used_text(alloc: Global, says: &str, used: Used) -> Result<String, Fail> {
    let [b16, b64, b256, b1024, headers, chunks] = used;
    let text = format!(in alloc;
        "{says}/arena/b16 {b16} 16384/b64 {b64} 4096/b256 {b256} 1024/b1024 {b1024} 512/\
         headers {headers} 8192/chunks {chunks} 256"
    )?;
    Ok(text)
}

/// Runs the script, whose text has to end with the table of the default shape.
pub(crate) fn expect_used<R: Threads + Wait + Clone + Drop + Send + Sync + AllocGlobal + Abort>(
    rt: &R,
    text: &str,
    says: &str,
    used: Used,
) -> Result<(), Fail> {
    let says = used_text(rt.alloc(), says, used)?;
    expect(rt, text, 0, says.as_str())
}
