//! The text of a run: a line for each reply, each scan, the final map and the table of the arena.
ghost use Rattle.std.specs.Prelude.{◌≡◌, ◌++◌, map, length, IfOk, OnOk};
ghost use Rattle.std.specs.String.{string_bytes};
ghost use Rattle.oak_script.specs.Words.{value_word};
ghost use Rattle.oak_script.specs.Places.{written_upto};
ghost use Rattle.oak_script.specs.Stamps.{place_among};
ghost use Rattle.oak_script.specs.Text.{RepliesAnswer, class_word, lack_word, place_in, placed_text, full_text, wrote_text, shown_text, read_line, pairs_text, reply_text, call_name, thread_text, threads_text, pair_line, map_text, used_line, class_line, arena_text, run_text};

use crate::places::Stamps;
use crate::scripts::{Call, Script};
use oak_model::{Class, Key, Lack, OutOfMemory, Pair, Reply, Shape, Usage, Value, Wrote};
use std::alloc::{AllocError, Global};

pub fn put(out: &mut Vec<u8>, text: &str) -> Result<(), OutOfMemory>
    ensures { OnOk result (out.new.items ≡ out.old.items ++ text.now) }
{
    out.extend_from_slice(text.as_bytes())?;
    Ok(())
}

fn class_word(class: Class) -> &'static str
    ensures { result.now ≡ class_word class }
{
    match class {
        Class::B16 => "b16",
        Class::B64 => "b64",
        Class::B256 => "b256",
        Class::B1024 => "b1024",
    }
}

fn lack_word(lack: Lack) -> &'static str
    ensures { result.now ≡ lack_word lack }
{
    match lack {
        Lack::Block(class) => class_word(class),
        Lack::Header => "header",
        Lack::Room => "room",
    }
}

fn value_word(alloc: Global, value: &Value) -> Result<String, AllocError>
    ensures { IfOk result (λ s. string_bytes s ≡ value_word value.now) }
{
    let bytes = value.bytes();
    if bytes.is_empty() {
        String::from_str(alloc, "-")
    } else {
        hex::encode(alloc, bytes)
    }
}

/// `WORD @P`
fn placed_text(alloc: Global, word: &str, place: usize) -> Result<String, AllocError>
    ensures { IfOk result (λ s. string_bytes s ≡ placed_text word.now place) }
{
    format!(in alloc; "{word} @{place}\n")
}

/// `full WORD`
fn full_text(alloc: Global, lack: Lack) -> Result<String, AllocError>
    ensures { IfOk result (λ s. string_bytes s ≡ full_text lack) }
{
    let word = lack_word(lack);
    format!(in alloc; "full {word}\n")
}

/// The place of a call's key.
fn place_in(stamps: &Stamps, call: &Call, at: u64) -> usize
    ensures { result ≡ place_in (place_among stamps.now.writes.items) call.now at }
{
    match call.key() {
        Some(key) => stamps.place(key, at),
        None => 0,
    }
}

fn wrote_text(
    alloc: Global,
    stamps: &Stamps,
    call: &Call,
    wrote: &Wrote,
) -> Result<String, AllocError>
    ensures { IfOk result (λ s. string_bytes s ≡ wrote_text (place_among stamps.now.writes.items) call.now wrote.now) }
{
    match wrote {
        Wrote::New { at } => placed_text(alloc, "new", place_in(stamps, call, *at)),
        Wrote::Over { at } => placed_text(alloc, "over", place_in(stamps, call, *at)),
        Wrote::Kept { at } => placed_text(alloc, "kept", place_in(stamps, call, *at)),
        Wrote::Done { at } => placed_text(alloc, "done", place_in(stamps, call, *at)),
        Wrote::Removed { at } => placed_text(alloc, "removed", place_in(stamps, call, *at)),
        Wrote::Absent { at } => placed_text(alloc, "none", place_in(stamps, call, *at)),
        Wrote::Full(lack) => full_text(alloc, *lack),
    }
}

/// `= VALUE @P`
fn shown_text(
    alloc: Global,
    stamps: &Stamps,
    key: &Key,
    value: &Value,
    at: u64,
) -> Result<String, AllocError>
    ensures { IfOk result (λ s. string_bytes s ≡ shown_text (place_among stamps.now.writes.items) key.now value.now at) }
{
    let value = value_word(alloc, value)?;
    let place = stamps.place(key, at);
    format!(in alloc; "= {value} @{place}\n")
}

/// `+ KEY VALUE @P`
fn read_line(alloc: Global, stamps: &Stamps, pair: &Pair) -> Result<String, AllocError>
    ensures { IfOk result (λ s. string_bytes s ≡ read_line (place_among stamps.now.writes.items) pair.now) }
{
    let key = hex::encode(alloc, pair.key.bytes())?;
    let value = value_word(alloc, &pair.value)?;
    let place = stamps.place(&pair.key, pair.at);
    format!(in alloc; "+ {key} {value} @{place}\n")
}

/// `pairs N`, and a line for each pair
fn put_pairs(
    alloc: Global,
    out: &mut Vec<u8>,
    stamps: &Stamps,
    pairs: &[Pair],
) -> Result<(), OutOfMemory>
    ensures { OnOk result (out.new.items ≡ out.old.items ++ pairs_text (place_among stamps.now.writes.items) pairs.now) }
{
    let count = pairs.len();
    let line = format!(in alloc; "pairs {count}\n")?;
    put(out, line.as_str())?;
    for pair in pairs {
        let line = read_line(alloc, stamps, pair)?;
        put(out, line.as_str())?;
    }
    Ok(())
}

/// A reply, with the ends of its lines.
fn put_reply(
    alloc: Global,
    out: &mut Vec<u8>,
    stamps: &Stamps,
    call: &Call,
    reply: &Reply,
) -> Result<(), OutOfMemory>
    ensures { OnOk result (out.new.items ≡ out.old.items ++ reply_text (place_among stamps.now.writes.items) call.now reply.now) }
{
    match reply {
        Reply::Wrote(wrote) => put(out, wrote_text(alloc, stamps, call, wrote)?.as_str()),
        Reply::Value { key, value, at } => {
            put(out, shown_text(alloc, stamps, key, value, *at)?.as_str())
        }
        Reply::Held { at } => {
            let place = place_in(stamps, call, *at);
            put(out, placed_text(alloc, "held", place)?.as_str())
        }
        Reply::Gone => put(out, "gone\n"),
        Reply::Unheld => put(out, "unheld\n"),
        Reply::Pairs(pairs) => put_pairs(alloc, out, stamps, pairs.as_slice()),
    }
}

/// `tT.C ` in front of a reply
fn call_name(alloc: Global, thread: usize, number: usize) -> Result<String, AllocError>
    ensures { IfOk result (λ s. string_bytes s ≡ call_name thread number) }
{
    format!(in alloc; "t{thread}.{number} ")
}

/// The replies to a thread's calls.
fn put_thread(
    alloc: Global,
    out: &mut Vec<u8>,
    stamps: &Stamps,
    thread: usize,
    calls: &[Call],
    replies: &[Reply],
) -> Result<(), OutOfMemory>
    requires { length calls.now ≡ length replies.now }
    ensures { OnOk result (out.new.items ≡ out.old.items ++ thread_text (place_among stamps.now.writes.items) thread 1 calls.now replies.now) }
{
    for (i, call) in calls.iter().enumerate() {
        let name = call_name(alloc, thread, i + 1)?;
        put(out, name.as_str())?;
        put_reply(alloc, out, stamps, call, &replies[i])?;
    }
    Ok(())
}

/// The replies of all threads.
fn put_threads(
    alloc: Global,
    out: &mut Vec<u8>,
    stamps: &Stamps,
    threads: &[Vec<Call>],
    replies: &[Vec<Reply>],
) -> Result<(), OutOfMemory>
    requires { RepliesAnswer (map (λ v. v.items) threads.now) (map (λ v. v.items) replies.now) }
    ensures { OnOk result (out.new.items ≡ out.old.items ++ threads_text (place_among stamps.now.writes.items) 1
        (map (λ v. v.items) threads.now) (map (λ v. v.items) replies.now)) }
{
    for (i, calls) in threads.iter().enumerate() {
        put_thread(
            alloc,
            out,
            stamps,
            i + 1,
            calls.as_slice(),
            replies[i].as_slice(),
        )?;
    }
    Ok(())
}

/// `KEY VALUE`
fn pair_line(alloc: Global, pair: &Pair) -> Result<String, AllocError>
    ensures { IfOk result (λ s. string_bytes s ≡ pair_line pair.now) }
{
    let key = hex::encode(alloc, pair.key.bytes())?;
    let value = value_word(alloc, &pair.value)?;
    format!(in alloc; "{key} {value}\n")
}

/// `map N`, and a line for each key of the final map
fn put_map(alloc: Global, out: &mut Vec<u8>, finals: &[Pair]) -> Result<(), OutOfMemory>
    ensures { OnOk result (out.new.items ≡ out.old.items ++ map_text finals.now) }
{
    let count = finals.len();
    let line = format!(in alloc; "map {count}\n")?;
    put(out, line.as_str())?;
    for pair in finals {
        let line = pair_line(alloc, pair)?;
        put(out, line.as_str())?;
    }
    Ok(())
}

/// `NAME USED LIMIT`
fn put_used(
    alloc: Global,
    out: &mut Vec<u8>,
    name: &str,
    used: u32,
    limit: u32,
) -> Result<(), OutOfMemory>
    ensures { OnOk result (out.new.items ≡ out.old.items ++ used_line name.now used limit) }
{
    let line = format!(in alloc; "{name} {used} {limit}\n")?;
    put(out, line.as_str())
}

/// The taken blocks of a class, and the shape's blocks of it.
fn put_class(
    alloc: Global,
    out: &mut Vec<u8>,
    usage: &Usage,
    shape: &Shape,
    class: Class,
) -> Result<(), OutOfMemory>
    ensures { OnOk result (out.new.items ≡ out.old.items ++ class_line usage.now shape.now class) }
{
    let (used, limit) = (usage.blocks[class.number()], shape.blocks[class.number()]);
    put_used(alloc, out, class_word(class), used, limit)
}

/// `arena`, and what is used of the table, beside the shape's limits
fn put_arena(
    alloc: Global,
    out: &mut Vec<u8>,
    usage: &Usage,
    shape: &Shape,
) -> Result<(), OutOfMemory>
    ensures { OnOk result (out.new.items ≡ out.old.items ++ arena_text usage.now shape.now) }
{
    put(out, "arena\n")?;
    put_class(alloc, out, usage, shape, Class::B16)?;
    put_class(alloc, out, usage, shape, Class::B64)?;
    put_class(alloc, out, usage, shape, Class::B256)?;
    put_class(alloc, out, usage, shape, Class::B1024)?;
    put_used(alloc, out, "headers", usage.headers, shape.headers)?;
    put_used(alloc, out, "chunks", usage.chunks, shape.chunks)?;
    Ok(())
}

/// The text of a run: the reply to each call, the final map, and what is used of the table. A reply's place is the number of
/// the writes of its key, over all threads, whose stamp is at most the reply's `at`. It is refused
/// only for want of memory.
pub fn print_run(
    alloc: Global,
    script: &Script,
    replies: &[Vec<Reply>],
    finals: &[Pair],
    usage: &Usage,
) -> Result<Vec<u8>, OutOfMemory>
    requires { RepliesAnswer script.now.threads (map (λ v. v.items) replies.now) }
    ensures { IfOk result (λ v. v.items ≡ run_text (written_upto script.now.threads (map (λ v. v.items) replies.now))
        script.now.threads (map (λ v. v.items) replies.now) finals.now usage.now script.now.shape) }
{
    let stamps = Stamps::of(alloc, script, replies)?;
    let mut out = Vec::new(alloc);
    put_threads(alloc, &mut out, &stamps, script.threads.as_slice(), replies)?;
    put_map(alloc, &mut out, finals)?;
    put_arena(alloc, &mut out, usage, &script.shape)?;
    Ok(out)
}
