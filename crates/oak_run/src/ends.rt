//! The end of a run.
ghost use Rattle.std.specs.Prelude.{IfOk};
ghost use Rattle.oak_core.specs.PassState.{IsAlone};
ghost use Rattle.oak_map.specs.Maps.{IsReady, call_of, sizes, state};
ghost use Rattle.oak_run.specs.EndsRun.{EndsRun};

use crate::scans::scanned;
use oak_core::Closed;
use oak_map::{MapPass, OakMap, Way};
use oak_model::{OutOfMemory, Pair};
use std::sync::Wait;

/// Settles the map, scans all of it and closes it, by the pass into which all others were joined.
pub fn end<R: Wait + Drop + Send + AllocGlobal>(
    rt: &R,
    map: OakMap<R>,
    mut pass: MapPass,
) -> Result<(Vec<Pair>, Closed), OutOfMemory>
    requires ready { IsReady map pass }
    requires alone { IsAlone (state pass) }
    ensures ends { IfOk result (λ r. EndsRun (sizes map) (call_of pass) (state pass) r.0.items r.1) }
{
    map.settle(rt, &mut pass);
    let finals = scanned(rt, rt.alloc(), &map, &mut pass, &None, &None, Way::Up);
    let closed = map.close(pass);
    let finals = finals?;
    Ok((finals, closed))
}
