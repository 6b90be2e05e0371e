//! The numbers of a caller's calls.
ghost use Rattle.std.specs.Prelude.{◌≡◌, ◌+◌, ◌-◌, ◌^◌, IfErr, OnErr, OnOk};
ghost use Rattle.oak_core.specs.MayWrite.{IsNewCall};
ghost use Rattle.oak_core.specs.Passes.{Turns};
ghost use Rattle.point_ops.specs.TestStates.{WroteBy};
ghost use Rattle.oak_map.specs.Maps.{call_of, pass_of, state};
ghost use Rattle.oak_caller.specs.declared.turns.WornOut.TheVariants as worn;

use oak_map::MapPass;
use thiserror::Error;

/// Why a call was not made that may write. Nothing was done.
#[derive(Clone, Copy, Debug, PartialEq, Eq, Error)]
pub enum WornOut {
    /// The numbers of the caller's calls are used up: it may read, and write no more.
    #[error("the caller made as many writing calls as it may")]
    Caller,
    /// The recipe was applied as often as it can count.
    #[error("the recipe was applied as often as it can count")]
    Recipe,
}

/// Gives the pass its next call, with a number of its own.
pub(crate) fn next_call(pass: &mut MapPass, last: &mut u32) -> Result<(), WornOut>
    requires call { call_of pass.old ≡ last.old }
    requires wrote { WroteBy last.old (state pass.old) }
    ensures turns { OnOk result (Turns (pass_of pass.old) (pass_of pass.new) (last.old + 1)) }
    ensures last { OnOk result (last.new ≡ last.old + 1) }
    ensures new { OnOk result (IsNewCall (last.old + 1) (state pass.new)) }
    ensures worn { OnErr result (last.old ≡ 2 ^ 32 - 1) }
    ensures why { IfErr result (λ e. e ≡ worn.Caller) }
    ensures same_pass { OnErr result (pass.new ≡ pass.old) }
    ensures same_last { OnErr result (last.new ≡ last.old) }
{
    let Some(call) = last.checked_add(1) else {
        return Err(WornOut::Caller);
    };
    pass.turn(call);
    *last = call;
    Ok(())
}
