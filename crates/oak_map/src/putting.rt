//! Puts.
ghost use Rattle.std.specs.Prelude.{◌≡◌, ◌<◌, ◌+◌, ◌-◌, ◌^◌, Ok};
ghost use Rattle.oak_model.specs.declared.cells.CellCall.TheVariants.{Put, PutNew, Upsert};
ghost use Rattle.oak_model.specs.Key.{IsKey};
ghost use Rattle.oak_model.specs.Value.{IsValue};
ghost use Rattle.oak_core.specs.AloneWords.{Runs};
ghost use Rattle.oak_core.specs.MayWrite.{IsNewCall};
ghost use Rattle.oak_core.specs.PassState.{IsAlone};
ghost use Rattle.oak_core.specs.RoomLacks.{ClaimsFull};
ghost use Rattle.oak_core.specs.Scratch.{StaysButSlots};
ghost use Rattle.point_ops.specs.Counted.{Feeds, FeedsAlone, times_done};
ghost use Rattle.oak_map.specs.LonePuts.{PutAlone, PutsAlone, RoomsAlone};
ghost use Rattle.oak_map.specs.Maps.{IsReady, call_of, pass_of, sizes, state};
ghost use Rattle.oak_map.specs.Putting.{StaysButRoom};
ghost use Rattle.oak_map.specs.Replying.{PutFits};

use crate::asking::{PutIfAbsent, PutOver};
use crate::map::{MapPass, OakMap};
use crate::put_loops::wait_to_put;
use oak_model::Wrote;
use std::sync::Wait;
use value_ops::Recipe;

impl<R: Wait + Drop + Send> OakMap<R> {
    /// Puts the value of a key: `New` where it was absent, `Over` where it was present, with the stamp of
    /// the write. It is tried again while other passes are at work on the key or move its room, and its
    /// chunk is split while it has no entry left for the key. `Full` comes only where the call settled the
    /// map, and behind that found nothing free of what it needs; it made no write then, and is noted with
    /// what it lacks. To a pass that is alone `Full` comes exactly where the map lacks that, or where there is
    /// no room for the key; and where its first try is answered the rooms stay, and no range is swept. Each
    /// room that the call claims, it claims while it holds a chunk that was full when it came to hold it. The
    /// pass made no write in this turn.
    pub fn put(&self, rt: &R, pass: &mut MapPass, key: &[u8], value: &[u8]) -> Wrote
        requires ready { IsReady self.now pass.old }
        requires key { IsKey key.now }
        requires turn { IsNewCall (call_of pass.old) (state pass.old) }
        requires value { IsValue value.now }
        ensures own { StaysButSlots (pass_of pass.old) (pass_of pass.new) }
        ensures ready { IsReady self.now pass.new }
        ensures wrote { PutFits result (sizes self.now) (call_of pass.old) key.now (Put value.now) (state pass.old) (state pass.new) }
        ensures claims { ClaimsFull (sizes self.now) (state pass.old) (state pass.new) }
        ensures alone_reply { IsAlone (state pass.old) → PutAlone result (sizes self.now) key.now (Put value.now) (state pass.old) (state pass.new) }
        ensures alone { Runs (PutsAlone (sizes self.now) key.now (Put value.now) (state pass.old) result) (state pass.old) (state pass.new) }
        ensures alone_rooms { IsAlone (state pass.old)
            → Runs (RoomsAlone (sizes self.now) key.now (Put value.now) (state pass.old) (state pass.new))
            (state pass.old) (state pass.new) }
    {
        wait_to_put(rt, self, &mut pass.pass, key, value, &mut PutOver)
    }

    /// Puts the value of a key if it is absent: `New` then, and `Kept` where it was present, with a number
    /// at whose place it was. It is tried again, and answers `Full`, as [`OakMap::put`] does.
    pub fn put_if_absent(&self, rt: &R, pass: &mut MapPass, key: &[u8], value: &[u8]) -> Wrote
        requires ready { IsReady self.now pass.old }
        requires key { IsKey key.now }
        requires turn { IsNewCall (call_of pass.old) (state pass.old) }
        requires value { IsValue value.now }
        ensures own { StaysButSlots (pass_of pass.old) (pass_of pass.new) }
        ensures ready { IsReady self.now pass.new }
        ensures wrote { PutFits result (sizes self.now) (call_of pass.old) key.now (PutNew value.now) (state pass.old) (state pass.new) }
        ensures claims { ClaimsFull (sizes self.now) (state pass.old) (state pass.new) }
        ensures alone_reply { IsAlone (state pass.old) → PutAlone result (sizes self.now) key.now (PutNew value.now)
            (state pass.old) (state pass.new) }
        ensures alone { Runs (PutsAlone (sizes self.now) key.now (PutNew value.now) (state pass.old) result) (state pass.old) (state pass.new) }
        ensures alone_rooms { IsAlone (state pass.old)
            → Runs (RoomsAlone (sizes self.now) key.now (PutNew value.now) (state pass.old) (state pass.new))
            (state pass.old) (state pass.new) }
    {
        wait_to_put(rt, self, &mut pass.pass, key, value, &mut PutIfAbsent)
    }

    /// Computes the value of a key anew, as [`OakMap::compute`] does, or puts one where it was absent:
    /// `Done` or `New`. The recipe's count is one more exactly after `Done`, and then it was fed the bytes that
    /// the key held right before the write. It is tried again, and answers `Full`, as [`OakMap::put`] does.
    pub fn upsert(
        &self,
        rt: &R,
        pass: &mut MapPass,
        key: &[u8],
        value: &[u8],
        recipe: &mut Box<dyn Recipe + Send>,
    ) -> Wrote
        requires ready { IsReady self.now pass.old }
        requires key { IsKey key.now }
        requires turn { IsNewCall (call_of pass.old) (state pass.old) }
        requires value { IsValue value.now }
        requires few { calls recipe.old < 2 ^ 64 - 1 }
        ensures own { StaysButRoom (pass_of pass.old) (pass_of pass.new) }
        ensures ready { IsReady self.now pass.new }
        ensures wrote { PutFits result (sizes self.now) (call_of pass.old) key.now
            (Upsert value.now (told_kind recipe.old) (told_argument recipe.old)) (state pass.old) (state pass.new) }
        ensures claims { ClaimsFull (sizes self.now) (state pass.old) (state pass.new) }
        ensures alone_reply { IsAlone (state pass.old) → PutAlone result (sizes self.now) key.now
            (Upsert value.now (told_kind recipe.old) (told_argument recipe.old)) (state pass.old) (state pass.new) }
        ensures alone { Runs (PutsAlone (sizes self.now) key.now
            (Upsert value.now (told_kind recipe.old) (told_argument recipe.old)) (state pass.old) result)
            (state pass.old) (state pass.new) }
        ensures alone_rooms { IsAlone (state pass.old)
            → Runs (RoomsAlone (sizes self.now) key.now
            (Upsert value.now (told_kind recipe.old) (told_argument recipe.old)) (state pass.old) (state pass.new))
            (state pass.old) (state pass.new) }
        ensures counted { calls recipe.new ≡ calls recipe.old + times_done (Ok result) }
        ensures fed { Feeds (Ok result) key.now (fed recipe.old) (fed recipe.new) (state pass.new) }
        ensures alone_fed { IsAlone (state pass.old) → FeedsAlone (Ok result) key.now (fed recipe.new) (state pass.old) }
        ensures told { (told_kind recipe.new ≡ told_kind recipe.old) × (told_argument recipe.new ≡ told_argument recipe.old) }
    {
        wait_to_put(rt, self, &mut pass.pass, key, value, recipe)
    }
}
