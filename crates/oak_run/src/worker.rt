//! The calls of a thread, made on the map by its pass.
ghost use Rattle.std.specs.Prelude.{◌≡◌, ◌<◌, ◌≤◌, ◌+◌, ◌-◌, ◌^◌, [], IfOk, length};
ghost use Rattle.std.specs.List.{AllByRecursion};
ghost use Rattle.oak_script.specs.declared.limits.TheConstants.{GREATEST_CALLS};
ghost use Rattle.oak_core.specs.MayWrite.{IsNewCall};
ghost use Rattle.oak_map.specs.Maps.{IsReady, call_of, sizes, state};
ghost use Rattle.oak_run.specs.Arguments.{HasArguments};
ghost use Rattle.oak_run.specs.CallTurns.{times_told};
ghost use Rattle.oak_run.specs.HeldNames.{CallDid, KeepsViews};
ghost use Rattle.oak_run.specs.LoneCalls.{LoneCalls};
ghost use Rattle.oak_run.specs.Views.{Names};
ghost use Rattle.oak_run.specs.Workers.{AnswersThread};

use crate::asks::{compute, get, put, put_new, remove, upsert};
use crate::looks::{HeldViews, hold, look};
use crate::scans::scanned;
use oak_map::{MapPass, OakMap, Way};
use oak_model::{OutOfMemory, Pairs, Reply, Wrote};
use oak_script::Call;
use outside::Gate;
use std::alloc::Global;
use std::collections::BTreeMap;
use std::sync::Wait;
use value_ops::Recipe;

/// The reply to a call. What a name is to stand for is kept in `holds`.
fn reply_to<R: Wait + Drop + Send>(
    rt: &R,
    alloc: Global,
    map: &OakMap<R>,
    pass: &mut MapPass,
    recipe: &mut Box<dyn Recipe + Send>,
    holds: &mut HeldViews,
    call: &Call,
) -> Result<Reply, OutOfMemory>
    requires ready { IsReady map.now pass.old }
    requires turn { IsNewCall (call_of pass.old) (state pass.old) }
    requires few { calls recipe.old < 2 ^ 64 - 1 }
    requires arguments { HasArguments call.now }
    requires known { (names : Names) × KeepsViews (sizes map.now) holds.old (state pass.old) names }
    ensures ready { IsReady map.now pass.new }
    ensures call { call_of pass.new ≡ call_of pass.old }
    ensures numbers { (state pass.new).numbers ≡ (state pass.old).numbers }
    ensures did { IfOk result (λ y. CallDid (sizes map.now) (call_of pass.old) holds.old holds.new call.now y (state pass.old) (state pass.new)) }
    ensures counted { IfOk result (λ y. calls recipe.new ≡ calls recipe.old + times_told y) }
{
    match call {
        Call::Put { key, value } => Ok(put(rt, map, pass, key, value)),
        Call::Get { key } => get(rt, alloc, map, pass, key),
        Call::PutNew { key, value } => Ok(put_new(rt, map, pass, key, value)),
        Call::Compute {
            key,
            recipe: kind,
            argument,
        } => Ok(compute(rt, map, pass, recipe, key, *kind, *argument)),
        Call::Upsert {
            key,
            value,
            recipe: kind,
            argument,
        } => Ok(upsert(rt, map, pass, recipe, key, value, *kind, *argument)),
        Call::Remove { key } => Ok(remove(rt, map, pass, key)),
        Call::Hold { name, key } => hold(rt, alloc, map, pass, holds, name, key),
        Call::Look { name } => look(rt, alloc, map, pass, holds, name),
        Call::Scan { low, high } => {
            let pairs = scanned(rt, alloc, map, pass, low, high, Way::Up)?;
            Ok(Reply::Pairs(Pairs::of(pairs)))
        }
        Call::Back { low, high } => {
            let pairs = scanned(rt, alloc, map, pass, low, high, Way::Down)?;
            Ok(Reply::Pairs(Pairs::of(pairs)))
        }
    }
}

/// What a thread answered: the reply to each of its calls, and how often its recipe computed.
#[derive(Drop)]
pub struct Answered {
    pub replies: Vec<Reply>,
    pub computed: u64,
}

/// How often a call with this reply computed.
fn times_in(reply: &Reply) -> u64
    ensures { result ≡ times_told reply.now }
{
    match reply {
        Reply::Wrote(Wrote::Done { at: _ }) => 1,
        _ => 0,
    }
}

/// Makes the calls of the thread with this number, one by one, and keeps its replies. The gate is asked
/// before each call, and once behind the last. Where memory is lacking for a reply it stops, and the pass
/// can be joined or closed all the same.
pub fn run_calls<R: Wait + Drop + Send, G: Gate>(
    rt: &R,
    alloc: Global,
    map: &OakMap<R>,
    pass: &mut MapPass,
    recipe: &mut Box<dyn Recipe + Send>,
    gate: &G,
    number: u32,
    thread: &[Call],
) -> Result<Answered, OutOfMemory>
    requires ready { IsReady map.now pass.old }
    requires unused { call_of pass.old ≡ 0 }
    requires unwritten { (state pass.old).knowledge.mine ≡ [] }
    requires counts { calls recipe.old < 2 ^ 63 }
    requires few { length thread.now ≤ GREATEST_CALLS }
    requires arguments { AllByRecursion HasArguments thread.now }
    ensures ready { IsReady map.now pass.new }
    ensures few { call_of pass.new ≤ length thread.now }
    ensures numbers { (state pass.new).numbers ≡ (state pass.old).numbers }
    ensures answers { IfOk result (λ a. AnswersThread (sizes map.now) (state pass.new) thread.now a) }
    ensures rose { IfOk result (λ a. calls recipe.new ≡ calls recipe.old + a.computed) }
    ensures lone { IfOk result (λ a. LoneCalls (sizes map.now) 1 (state pass.old) thread.now a.replies.items (state pass.new)) }
{
    let mut holds = BTreeMap::new(alloc);
    let mut replies = Vec::with_capacity(alloc, thread.len())?;
    let mut computed = 0u64;
    let mut call_number = 0u32;
    for call in thread {
        call_number += 1;
        pass.turn(call_number);
        gate.pass_by(number, call_number);
        let reply = reply_to(rt, alloc, map, pass, recipe, &mut holds, call)?;
        computed += times_in(&reply);
        replies.push(reply)?;
    }
    gate.pass_by(number, call_number + 1);
    Ok(Answered { replies, computed })
}
