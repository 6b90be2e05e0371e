//! A run of one thread, whose pass is alone from its first call on.
ghost use Rattle.std.specs.Prelude.{◌≡◌, ◌+◌, ◌<◌, ◌^◌, ◌∷◌, [], IfOk};
ghost use Rattle.oak_map.specs.Maps.{IsReady, call_of, sizes, state};
ghost use Rattle.oak_run.specs.Reads.{IsOnlyThread};
ghost use Rattle.oak_run.specs.ScriptRun.{RunsThreads};
ghost use Rattle.oak_run.specs.Workers.{CanRun};

use crate::ends::end;
use crate::worker::{Answered, run_calls};
use oak_core::Closed;
use oak_map::{MapPass, OakMap};
use oak_model::{OutOfMemory, Pair, Shape};
use oak_script::Call;
use outside::Gate;
use std::sync::Wait;
use value_ops::Recipe;

/// The number of the call in which the pass settles, scans and closes the map, behind all calls of its
/// thread.
const END: u32 = 262_145;

/// Runs the calls of the one thread: what it answered, the last pairs, and the closed map.
pub fn run_one<R: Wait + Clone + Drop + Send + AllocGlobal, G: Gate>(
    rt: &R,
    shape: &Shape,
    gate: &G,
    thread: &[Call],
    recipe: &mut Box<dyn Recipe + Send>,
) -> Result<(Answered, Vec<Pair>, Closed), OutOfMemory>
    requires passes { shape.now.passes ≡ 2 }
    requires counts { calls recipe.old < 2 ^ 63 }
    requires thread { CanRun thread.now }
    ensures runs { IfOk result (λ r. RunsThreads shape.now (thread.now ∷ []) (r.0 ∷ []) r.1.items r.2) }
    ensures rose { IfOk result (λ r. calls recipe.new ≡ calls recipe.old + r.0.computed) }
{
    let (map, mut pass) = begin(rt, shape)?;
    let answered = run_calls(rt, rt.alloc(), &map, &mut pass, recipe, gate, 1, thread);
    pass.turn(END);
    let ended = end(rt, map, pass);
    let answered = answered?;
    let (finals, closed) = ended?;
    Ok((answered, finals, closed))
}

/// A map without keys, with one pass. It has the number 1, and is alone, as the first pass is joined into
/// it.
fn begin<R: Wait + Clone + Drop + Send + AllocGlobal>(
    rt: &R,
    shape: &Shape,
) -> Result<(OakMap<R>, MapPass), OutOfMemory>
    requires passes { shape.now.passes ≡ 2 }
    ensures sizes { IfOk result (λ t. sizes t.0 ≡ shape.now) }
    ensures ready { IfOk result (λ t. IsReady t.0 t.1) }
    ensures unused { IfOk result (λ t. call_of t.1 ≡ 0) }
    ensures only { IfOk result (λ t. IsOnlyThread (state t.1)) }
    ensures unwritten { IfOk result (λ t. (state t.1).knowledge.mine ≡ []) }
{
    let (map, mut first) = match OakMap::create(rt, shape) {
        Ok(made) => made,
        Err(e) => return Err(e),
    };
    match map.split(rt, &mut first) {
        Ok(mut pass) => {
            map.join(&mut pass, first);
            Ok((map, pass))
        }
        Err(_) => {
            let _closed = map.close(first);
            Err(OutOfMemory)
        }
    }
}
