//! How a call that puts goes on behind a try without an answer.
ghost use Rattle.std.specs.Prelude.{◌≡◌, ◌<◌, true, IfErr, IfOk, IfSome, IfNone, ℕ, Option, length};
ghost use Rattle.oak_model.specs.declared.cells.CellCall.{CellCall};
ghost use Rattle.oak_model.specs.Key.{IsKey};
ghost use Rattle.oak_core.specs.declared.states.PassState.{PassState};
ghost use Rattle.oak_core.specs.Lack.{Lacks};
ghost use Rattle.oak_core.specs.Passes.{IsPassOf, state, key as sizes, call_of};
ghost use Rattle.oak_core.specs.PassState.{HoldsNothing};
ghost use Rattle.oak_core.specs.Scratch.{StaysButSlots};
ghost use Rattle.rebalance.specs.Busy.{GivesUpSettling};
ghost use Rattle.oak_map.specs.MakingRoom.{FindsBusy, FindsWay, IsRefused, MakesWay};
ghost use Rattle.oak_map.specs.Maps.{table_of};
ghost use Rattle.oak_map.specs.Putting.{Going, LastTry};
ghost use Rattle.oak_map.specs.Replying.{AnswersFull, Tries};
ghost use Rattle.oak_map.specs.Stopping.{IsHindered};

use crate::answers::Busy;
use crate::map::OakMap;
use crate::publishing::publish_upper;
use crate::settling::settle_map;
use crate::waiting::LOOKS;
use oak_core::{OakTable, Pass};
use oak_model::Lack;
use point_ops::Halt;
use rebalance::{NoRoom, Split, try_settle, try_split};
use std::sync::Wait;
use std::thread;

/// What was done after a try without an answer, or is to be done.
pub(crate) enum Way {
    /// Another pass was at work on the key, or moved its room.
    Halted,
    /// The chunk of the key was compacted.
    Loosened,
    /// Its range was opened as two, the upper one in `room`.
    Opened { room: u32 },
    /// Nothing is free of what the call lacks.
    Lacks(Lack),
}

/// Makes room in the chunk of the key where the try was refused for want of that. It waits for nobody: `Busy` comes only
/// where another pass had the chunk, as [`try_split`] says.
fn find_way(
    table: &OakTable,
    pass: &mut Pass,
    key: &[u8],
    halt: Halt,
    looks: u32,
) -> Result<Way, Busy>
    requires own { IsPassOf table.now pass.old }
    requires key { IsKey key.now }
    requires idle { HoldsNothing (state pass.old) }
    requires some { 0 < looks }
    ensures own { StaysButSlots pass.old pass.new }
    ensures way { IfOk result (λ x. FindsWay x halt (sizes table.now) (call_of pass.old) key.now (state pass.old) (state pass.new)) }
    ensures busy { IfErr result (λ _. FindsBusy halt (sizes table.now) (call_of pass.old) looks key.now (state pass.old) (state pass.new)) }
{
    match halt {
        Halt::Busy | Halt::Moved => Ok(Way::Halted),
        Halt::Crowded => match try_split(table, pass, key, looks) {
            Ok(Ok(Split::Loosened)) => Ok(Way::Loosened),
            Ok(Ok(Split::Halved { room })) => Ok(Way::Opened { room }),
            Ok(Err(NoRoom)) => Ok(Way::Lacks(Lack::Room)),
            Err(_) => Err(Busy),
        },
        Halt::NoBlock(class) => Ok(Way::Lacks(Lack::Block(class))),
        Halt::NoHeader => Ok(Way::Lacks(Lack::Header)),
    }
}

/// Settles where the call has not settled yet, and else notes it with what it lacks.
fn refuse<R: Wait + Drop + Send>(
    rt: &R,
    map: &OakMap<R>,
    pass: &mut Pass,
    settled: &mut bool,
    lack: Lack,
) -> Option<Lack>
    requires own { IsPassOf (table_of map.now) pass.old }
    requires idle { HoldsNothing (state pass.old) }
    requires lacks { settled.old ≡ true → (spare : Option ℕ) × (began : ℕ) × Lacks (sizes (table_of map.now))
        (call_of pass.old) lack spare began (length (state pass.old).findings.met) (state pass.old).findings }
    ensures own { StaysButSlots pass.old pass.new }
    ensures refused { IsRefused (sizes (table_of map.now)) (call_of pass.old) settled.old settled.new lack result (state pass.old) (state pass.new) }
{
    if *settled {
        pass.note_full(&map.table, lack);
        return Some(lack);
    }
    settle_map(rt, map, pass);
    *settled = true;
    None
}

/// Makes way for another try: it lets other threads run where other passes are at work, makes room in the chunk of the
/// key, or settles. Where that opened a chunk more, the index is told where it begins.
/// Where the call has settled and lacks something still, it is noted, and what it lacks is answered.
pub(crate) fn make_way<R: Wait + Drop + Send>(
    rt: &R,
    map: &OakMap<R>,
    pass: &mut Pass,
    settled: &mut bool,
    key: &[u8],
    halt: Halt,
) -> Option<Lack>
    requires own { IsPassOf (table_of map.now) pass.old }
    requires key { IsKey key.now }
    requires idle { HoldsNothing (state pass.old) }
    requires tried { (ask : CellCall) × (u : PassState) × (v : PassState) × LastTry (sizes (table_of map.now))
        (call_of pass.old) key.now halt settled.old ask u v (state pass.old) }
    ensures own { StaysButSlots pass.old pass.new }
    ensures full { (ask : CellCall) (u v : PassState) → LastTry (sizes (table_of map.now))
        (call_of pass.old) key.now halt settled.old ask u v (state pass.old)
        → IfSome result (λ lack. AnswersFull (sizes (table_of map.now)) (call_of pass.old) key.now ask lack u
        (state pass.new)) }
    ensures going { (ask : CellCall) (u v : PassState) → LastTry (sizes (table_of map.now))
        (call_of pass.old) key.now halt settled.old ask u v (state pass.old)
        → IfNone result (Going (sizes (table_of map.now)) (call_of pass.old) settled.new u (state pass.new)) }
    ensures way { MakesWay halt (sizes (table_of map.now)) (call_of pass.old) key.now settled.old settled.new result
        (state pass.old) (state pass.new) }
{
    match find_way(&map.table, pass, key, halt, LOOKS) {
        Ok(Way::Loosened) => None,
        Ok(Way::Opened { room }) => {
            publish_upper(rt, map, pass, key, room);
            None
        }
        Ok(Way::Lacks(lack)) => refuse(rt, map, pass, settled, lack),
        Ok(Way::Halted) => {
            thread::yield_now();
            None
        }
        Err(_) => {
            thread::yield_now();
            None
        }
    }
}

/// Settles where the call has not settled yet, and else notes it with what it lacks. It waits for nobody: `Busy` comes
/// only where a chunk was busy, as [`try_settle`] says.
fn try_refuse(
    table: &OakTable,
    pass: &mut Pass,
    settled: &mut bool,
    lack: Lack,
    looks: u32,
) -> Result<Option<Lack>, Busy>
    requires own { IsPassOf table.now pass.old }
    requires idle { HoldsNothing (state pass.old) }
    requires lacks { settled.old ≡ true → (spare : Option ℕ) × (began : ℕ) × Lacks (sizes table.now)
        (call_of pass.old) lack spare began (length (state pass.old).findings.met) (state pass.old).findings }
    requires some { 0 < looks }
    ensures own { StaysButSlots pass.old pass.new }
    ensures refused { IfOk result (λ o. IsRefused (sizes table.now) (call_of pass.old) settled.old settled.new lack o
        (state pass.old) (state pass.new)) }
    ensures busy { IfErr result (λ _. GivesUpSettling (sizes table.now) (call_of pass.old) looks (state pass.old) (state pass.new)) }
{
    if *settled {
        pass.note_full(table, lack);
        return Ok(Some(lack));
    }
    match try_settle(table, pass, looks) {
        Ok(()) => {
            *settled = true;
            Ok(None)
        }
        Err(_) => Err(Busy),
    }
}

/// Makes way for another try as [`make_way`] does, but waits for nobody and tells no index. `Busy` comes only where the
/// chunk of the key, or one that was to be settled, was busy.
pub(crate) fn try_make_way(
    table: &OakTable,
    pass: &mut Pass,
    settled: &mut bool,
    key: &[u8],
    halt: Halt,
    looks: u32,
) -> Result<Option<Lack>, Busy>
    requires own { IsPassOf table.now pass.old }
    requires key { IsKey key.now }
    requires idle { HoldsNothing (state pass.old) }
    requires tried { (ask : CellCall) × (u : PassState) × (v : PassState) × LastTry (sizes table.now)
        (call_of pass.old) key.now halt settled.old ask u v (state pass.old) }
    requires some { 0 < looks }
    ensures own { StaysButSlots pass.old pass.new }
    ensures full { (ask : CellCall) (u v : PassState) → LastTry (sizes table.now)
        (call_of pass.old) key.now halt settled.old ask u v (state pass.old)
        → IfOk result (λ o. IfSome o (λ lack. AnswersFull (sizes table.now) (call_of pass.old) key.now ask lack u
        (state pass.new))) }
    ensures going { (ask : CellCall) (u v : PassState) → LastTry (sizes table.now)
        (call_of pass.old) key.now halt settled.old ask u v (state pass.old)
        → IfOk result (λ o. IfNone o (Going (sizes table.now) (call_of pass.old) settled.new u (state pass.new))) }
    ensures way { IfOk result (λ o. MakesWay halt (sizes table.now) (call_of pass.old) key.now settled.old settled.new
        o (state pass.old) (state pass.new)) }
    ensures rest { IfOk result (λ o. IfNone o (Tries (sizes table.now) (call_of pass.old) (state pass.old) (state pass.new))) }
    ensures busy { IfErr result (λ _. IsHindered (sizes table.now) (call_of pass.old) looks key.now (state pass.old) (state pass.new)) }
{
    match find_way(table, pass, key, halt, looks) {
        Ok(Way::Halted) => Ok(None),
        Ok(Way::Loosened) => Ok(None),
        Ok(Way::Opened { room: _ }) => Ok(None),
        Ok(Way::Lacks(lack)) => try_refuse(table, pass, settled, lack, looks),
        Err(busy) => Err(busy),
    }
}
