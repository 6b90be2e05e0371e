//! Locks of headers.
ghost use Rattle.std.specs.Prelude.{◌≡◌, ◌<◌, IfOk, IfErr, ℕ, List, Some};
ghost use Rattle.oak_core.specs.AloneWords.{Runs};
ghost use Rattle.oak_core.specs.Known.{knows_life};
ghost use Rattle.oak_core.specs.Passes.{IsPassOf, Stays, state, key, call_of};
ghost use Rattle.value_ops.specs.AloneLocks.{LocksPin, RefusesPin};
ghost use Rattle.value_ops.specs.UnderLock.{HasLock, IsUnchanged};
ghost use Rattle.oak_core.specs.LifeKeys.{key_known};
ghost use Rattle.value_ops.specs.LockHistories.{LocksKey};
ghost use Rattle.value_ops.specs.Locking.{LocksHeader, FindsNoLock, may_lock, refusal};

use crate::claiming::STATE;
use header_core::{DEAD, LIVE};
use oak_core::{OakTable, Pass, load, steps};
use thiserror::Error;

/// Why a header was not locked: what its word that was found last says.
#[derive(Clone, Copy, Debug, PartialEq, Eq, Error)]
pub enum NoLock {
    #[error("the header is of another generation, locked or pinned")]
    Busy,
    #[error("the header's life was removed")]
    Dead,
}

/// A header that the pass has locked: no pass reads or changes its value but this one. It must be
/// spent: it is unlocked or buried, and can't be dropped.
#[derive(Debug)]
pub struct Locked {
    pub header: u32,
    pub generation: u32,
}

/// Whether a pin word is that of a live header of this generation, without a pin.
fn may_lock(word: u64, generation: u32) -> bool
    ensures { result ≡ may_lock word generation }
{
    pin_word::state(word) == LIVE
        && pin_word::count(word) == 0
        && pin_word::generation(word) == generation
}

/// Why a header with this word is not locked, that is wanted at a generation.
fn refusal(word: u64, generation: u32) -> NoLock
    ensures { result ≡ refusal word generation }
{
    if pin_word::generation(word) == generation && pin_word::state(word) == DEAD {
        NoLock::Dead
    } else {
        NoLock::Busy
    }
}

/// Locks a live header that the pass knows at this generation, other than as its own fresh one, where
/// no pin stands on it. `Dead` comes exactly where the word found last is of this generation and dead,
/// and `Busy` only where it is of another generation, locked or pinned.
pub fn lock(
    table: &OakTable,
    pass: &mut Pass,
    header: u32,
    generation: u32,
) -> Result<Locked, NoLock>
    requires own { IsPassOf table.now pass.old }
    requires inside { header < (key table.now).headers }
    requires known { 0 < knows_life header generation (state pass.old).knowledge }
    ensures own { Stays pass.old pass.new }
    ensures locked { IfOk result (λ l. (l.header ≡ header) × (l.generation ≡ generation) × LocksHeader (key table.now)
        (call_of pass.old) header generation (state pass.old) (state pass.new)) }
    ensures has { IfOk result (λ l. HasLock (key table.now) l.header l.generation (state pass.new)
        × IsUnchanged l.header (state pass.new).headers.held) }
    ensures keys { IfOk result (λ l. (of : List ℕ) → key_known header generation (state pass.old).knowledge ≡ Some of
        → LocksKey (key table.now) (call_of pass.old) of l.header l.generation (state pass.old) (state pass.new)) }
    ensures alone { IfOk result (λ _. Runs (LocksPin (key table.now) header generation) (state pass.old) (state pass.new)) }
    ensures refused { IfErr result (λ why. FindsNoLock (key table.now) (call_of pass.old) header generation why (state pass.old) (state pass.new)) }
    ensures refused_alone { IfErr result (λ why. Runs (RefusesPin (key table.now) header generation why) (state pass.old) (state pass.new)) }
{
    let word = table.pin_at(header);
    let seen = load(table, pass, word);
    if !may_lock(seen, generation) {
        return Err(refusal(seen, generation));
    }
    let found = steps::lock_header(table, pass, word, seen, seen + STATE);
    if found != seen {
        return Err(refusal(found, generation));
    }
    Ok(Locked { header, generation })
}
