//! A life that an entry named is looked at under a pin of its header.
ghost use Rattle.std.specs.Prelude.{◌≡◌, ◌<◌, IfOk, IfErr};
ghost use Rattle.header_core.specs.declared.holds.PinnedHeader.{PinnedHeader};
ghost use Rattle.header_core.specs.HeaderHolds.{no_headers};
ghost use Rattle.header_core.specs.Headers.{at_pin};
ghost use Rattle.oak_core.specs.Known.{knows_life};
ghost use Rattle.oak_core.specs.Memory.{in_headers};
ghost use Rattle.oak_core.specs.Passes.{IsPassOf, Stays, state, key as sizes, call_of};
ghost use Rattle.oak_core.specs.QuietSteps.{Quiet};
ghost use Rattle.chunk_ops.specs.PinRecords.{OnlyLearns};
ghost use Rattle.value_ops.specs.Pinning.{HasPin, KnowsMore};
ghost use Rattle.point_ops.specs.FoundWords.{FoundWord};
ghost use Rattle.point_ops.specs.Halting.{IsLockedOut};
ghost use Rattle.oak_core.specs.AloneWords.{Runs};
ghost use Rattle.point_ops.specs.LoneLives.{LifeIn, RefusesLook};
ghost use Rattle.point_ops.specs.Lives.{LooksAt, PinsLife, ReadsUnder, RefusesLife};
ghost use Rattle.point_ops.specs.declared.halts.Halt.TheVariants as halts;

use crate::halts::Halt;
use oak_core::{OakTable, Pass};
use value_ops::{BadPin, HeaderPin, Home, pin_at};

/// What a look at a life found: it goes on, and has the stamp of its last write, or it was removed, with
/// that stamp.
#[derive(Clone, Copy, PartialEq, Eq)]
pub(crate) enum Life {
    Live { at: u64 },
    Dead { at: u64 },
}

/// What a look for the value of a key found: the key is absent at the number `at`; or it has one, whose header is pinned.
#[derive(Debug)]
pub enum Pinned {
    Absent { at: u64 },
    Value(HeaderPin),
}

/// Pins the header of a life that the pass knows. Where the life was removed, it is absent at the stamp of the removal.
/// It is refused only where the header was found locked, or of another generation.
pub(crate) fn pin_life(table: &OakTable, pass: &mut Pass, home: Home) -> Result<Pinned, Halt>
    requires own { IsPassOf table.now pass.old }
    requires inside { home.header < (sizes table.now).headers }
    requires known { 0 < knows_life home.header home.generation (state pass.old).knowledge }
    requires none { (state pass.old).headers ≡ no_headers }
    ensures own { Stays pass.old pass.new }
    ensures rooms { (state pass.new).rooms ≡ (state pass.old).rooms }
    ensures quiet { Quiet (state pass.old) (state pass.new) }
    ensures pinned { IfOk result (λ x. PinsLife x (sizes table.now) (call_of pass.old) home.header home.generation
        (state pass.old) (state pass.new)) }
    ensures refused { IfErr result (λ why. (why ≡ halts.Busy) × RefusesLife (sizes table.now) (call_of pass.old)
        home.header home.generation (state pass.old) (state pass.new)) }
{
    match pin_at(table, pass, home.header, home.generation) {
        Ok(pin) => Ok(Pinned::Value(pin)),
        Err(BadPin::Dead { stamp }) => Ok(Pinned::Absent { at: stamp }),
        Err(BadPin::Locked) => Err(Halt::Busy),
        Err(BadPin::Other) => Err(Halt::Busy),
    }
}

/// The stamp of the header under its pin, which is undone.
fn stamp_under(table: &OakTable, pass: &mut Pass, pin: HeaderPin) -> u64
    requires own { IsPassOf table.now pass.old }
    requires pinned { (p : PinnedHeader) × HasPin (sizes table.now) pin.header pin.generation p (state pass.old) }
    ensures own { Stays pass.old pass.new }
    ensures reads { ReadsUnder (sizes table.now) (call_of pass.old) pin.header pin.generation result (state pass.old) (state pass.new) }
{
    let reading = pin.reading(table, pass);
    let at = reading.at();
    reading.done();
    at
}

/// Looks at a life that the pass knows, and knows still then. It is refused only where the header was found
/// locked, or of another generation.
pub(crate) fn look_at(table: &OakTable, pass: &mut Pass, home: Home) -> Result<Life, Halt>
    requires own { IsPassOf table.now pass.old }
    requires inside { home.header < (sizes table.now).headers }
    requires known { 0 < knows_life home.header home.generation (state pass.old).knowledge }
    requires none { (state pass.old).headers ≡ no_headers }
    ensures own { Stays pass.old pass.new }
    ensures only { OnlyLearns (call_of pass.old) (state pass.old) (state pass.new) }
    ensures knows { KnowsMore (state pass.old).knowledge (state pass.new).knowledge }
    ensures looked { IfOk result (λ x. LooksAt x (sizes table.now) (call_of pass.old) home.header home.generation
        (state pass.old) (state pass.new)) }
    ensures refused { IfErr result (λ why. (why ≡ halts.Busy) × FoundWord (sizes table.now) (call_of pass.old)
        (in_headers (at_pin home.header)) (IsLockedOut home.generation) (state pass.old) (state pass.new)) }
    ensures alone { IfOk result (λ x. Runs (LifeIn x (sizes table.now) home.header home.generation (state pass.old))
        (state pass.old) (state pass.new)) }
    ensures alone_refused { IfErr result (λ _. Runs
        (RefusesLook (sizes table.now) home.header home.generation (state pass.old)) (state pass.old)
        (state pass.new)) }
{
    match pin_life(table, pass, home) {
        Ok(Pinned::Value(pin)) => Ok(Life::Live {
            at: stamp_under(table, pass, pin),
        }),
        Ok(Pinned::Absent { at }) => Ok(Life::Dead { at }),
        Err(halt) => Err(halt),
    }
}
