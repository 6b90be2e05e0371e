//! Pins of headers.
ghost use Rattle.std.specs.Prelude.{◌≡◌, ◌<◌, IfOk, IfErr, None};
ghost use Rattle.oak_core.specs.Known.{KnowsHeader};
ghost use Rattle.oak_core.specs.Passes.{IsPassOf, Stays, state, key, call_of};
ghost use Rattle.value_ops.specs.Pinning.{PinsHeader, EndsPin, PinsLive, PinsDud};

use header_core::{LIVE, LOCKED};
use oak_core::{OakTable, Pass, load, steps};
use thiserror::Error;

/// Why a pin was undone at once: what the word that it found says of the header.
#[derive(Clone, Copy, Debug, PartialEq, Eq, Error)]
pub enum BadPin {
    #[error("the header is locked")]
    Locked,
    /// The life was removed, with this stamp.
    #[error("the header's life was removed at {stamp}")]
    Dead { stamp: u64 },
    #[error("the header is of another generation")]
    Other,
}

/// A good pin of the pass. It is spent by [`HeaderPin::reading`], and can't be dropped.
#[derive(Debug)]
pub struct HeaderPin {
    pub header: u32,
    pub generation: u32,
}

/// Undoes the pass's pin, which is one of this header, and takes no block.
pub(crate) fn unpin(table: &OakTable, pass: &mut Pass, header: u32)
    requires own { IsPassOf table.now pass.old }
    requires pinned { PinsHeader (key table.now) header (state pass.old) }
    ensures own { Stays pass.old pass.new }
    ensures undone { EndsPin (key table.now) (call_of pass.old) header (state pass.old) (state pass.new) }
{
    let word = table.pin_at(header);
    steps::unpin_header(table, pass, word, 1);
}

/// Pins a header that the pass knows at this generation. Where the word found says that it is not live
/// at this generation, the pin is undone and the error says why. The steps are the pin, its end and a load
/// alone, and take no block.
pub fn pin_at(
    table: &OakTable,
    pass: &mut Pass,
    header: u32,
    generation: u32,
) -> Result<HeaderPin, BadPin>
    requires own { IsPassOf table.now pass.old }
    requires inside { header < (key table.now).headers }
    requires known { KnowsHeader header generation (state pass.old) }
    requires unpinned { (state pass.old).headers.pin ≡ None }
    ensures own { Stays pass.old pass.new }
    ensures good { IfOk result (λ p. (p.header ≡ header) × (p.generation ≡ generation) × PinsLive (key table.now)
        (call_of pass.old) header generation (state pass.old) (state pass.new)) }
    ensures bad { IfErr result (λ why. PinsDud (key table.now) (call_of pass.old) header generation why (state pass.old) (state pass.new)) }
{
    let word = table.pin_at(header);
    let found = steps::pin_header(table, pass, word, 1, u64::from(generation));
    if pin_word::generation(found) != generation {
        unpin(table, pass, header);
        return Err(BadPin::Other);
    }
    let state = pin_word::state(found);
    if state == LIVE {
        return Ok(HeaderPin { header, generation });
    }
    if state == LOCKED {
        unpin(table, pass, header);
        return Err(BadPin::Locked);
    }
    let stamp = load(table, pass, table.stamp_at(header));
    unpin(table, pass, header);
    Err(BadPin::Dead { stamp })
}
