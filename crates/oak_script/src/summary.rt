//! The summary of the run of a workload.
ghost use Rattle.std.specs.Prelude.{◌≡◌, ◌≤◌, ◌*◌, ◌^◌, ◌++◌, map, length, count_by, IfOk, OnOk};
ghost use Rattle.std.specs.String.{string_bytes};
ghost use Rattle.oak_script.specs.Summary.{is_full, fulls_of, pair_number, values_sum, AreNumbers, number_line, gen_line, summary_text};

use crate::text::put;
use oak_model::{Class, OutOfMemory, Pair, Reply, Usage, Wrote};
use std::alloc::{AllocError, Global};

/// Whether the call was refused.
fn is_full(reply: &Reply) -> bool
    ensures { result ≡ is_full reply.now }
{
    matches!(reply, Reply::Wrote(Wrote::Full(_)))
}

/// How many replies of a thread are `full`.
fn count_fulls(replies: &[Reply]) -> usize
    ensures count { result ≡ count_by is_full replies.now }
    ensures few { result ≤ length replies.now }
{
    let mut fulls = 0;
    for reply in replies {
        if is_full(reply) {
            fulls += 1;
        }
    }
    fulls
}

/// How many replies of all threads are `full`.
fn fulls_of(replies: &[Vec<Reply>]) -> u128
    ensures { result ≡ fulls_of (map (λ v. v.items) replies.now) }
{
    let mut fulls: u128 = 0;
    for of_thread in replies {
        fulls += count_fulls(of_thread.as_slice()) as u128;
    }
    fulls
}

/// The value of a pair as a number.
fn pair_number(pair: &Pair) -> u64
    requires { length pair.now.value ≡ 8 }
    ensures { result ≡ pair_number pair.now }
{
    let bytes = pair.value.bytes();
    u64::from_be_bytes([
        bytes[0], bytes[1], bytes[2], bytes[3], bytes[4], bytes[5], bytes[6], bytes[7],
    ])
}

/// The sum of the values as numbers.
fn values_sum(finals: &[Pair]) -> u64
    requires { AreNumbers finals.now }
    ensures { result ≡ values_sum finals.now }
{
    let mut sum = 0;
    for pair in finals {
        sum += pair_number(pair);
    }
    sum
}

/// `WORD N`
fn put_number(alloc: Global, out: &mut Vec<u8>, word: &str, number: u128) -> Result<(), OutOfMemory>
    ensures { OnOk result (out.new.items ≡ out.old.items ++ number_line word.now number) }
{
    let line = format!(in alloc; "{word} {number}\n")?;
    put(out, line.as_str())
}

/// The words of the command, with its three numbers.
fn gen_line(alloc: Global, calls: u32, threads: u32, start: u32) -> Result<String, AllocError>
    ensures { IfOk result (λ s. string_bytes s ≡ gen_line calls threads start) }
{
    format!(in alloc; "gen {calls} {threads} {start}\n")
}

/// The summary of the run of a workload: the command, how many calls were made, how many of them were refused, how many keys
/// are there at the end, the sum of their values, each a number of eight bytes, and how many blocks of 16 bytes
/// are taken. It is refused only for want of memory.
pub fn print_summary(
    alloc: Global,
    calls: u32,
    threads: u32,
    start: u32,
    replies: &[Vec<Reply>],
    finals: &[Pair],
    usage: &Usage,
) -> Result<Vec<u8>, OutOfMemory>
    requires { AreNumbers finals.now }
    ensures { IfOk result (λ v. v.items ≡ summary_text calls threads start (map (λ v. v.items) replies.now) finals.now usage.now) }
{
    let mut out = Vec::new(alloc);
    let line = gen_line(alloc, calls, threads, start)?;
    put(&mut out, line.as_str())?;
    let called = calls as u128 * threads as u128;
    put_number(alloc, &mut out, "calls", called)?;
    put_number(alloc, &mut out, "full", fulls_of(replies))?;
    put_number(alloc, &mut out, "keys", finals.len() as u128)?;
    put_number(alloc, &mut out, "sum", values_sum(finals) as u128)?;
    let b16 = usage.blocks[Class::B16.number()];
    put_number(alloc, &mut out, "b16", b16 as u128)?;
    Ok(out)
}
