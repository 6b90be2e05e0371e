//! The map and its passes: made, given their calls, split, joined, and at last closed.
ghost use Rattle.std.specs.Prelude.{◌≡◌, ℕ, ◌<◌, IfOk, IfErr, Err, List};
ghost use Rattle.std.specs.Borrow.{Lends, sem};
ghost use Rattle.header_core.specs.declared.states.TheConstants.{LAST_GENERATION};
ghost use Rattle.oak_core.specs.AloneWords.{LeavesWords};
ghost use Rattle.oak_core.specs.Closing.{closed_key, closed_state, closed_words, EndsFrom, FullsLacked, IsUnworn};
ghost use Rattle.oak_core.specs.KnownPlaces.{PlacesStand};
ghost use Rattle.oak_core.specs.Opening.{IsOpened, first_state};
ghost use Rattle.oak_core.specs.Passes.{SearchesStay, Stays, Turns, opened_at, tries};
ghost use Rattle.oak_core.specs.PassState.{IsAlone, both_state};
ghost use Rattle.oak_core.specs.Schedule.{opening};
ghost use Rattle.oak_core.specs.Splitting.{Ends, FindsAllGiven, GivesWords, LeavesSame, LooksAtGiven, SeesLonger, SplitsOff};
ghost use Rattle.oak_core.specs.declared.passes.SplitFault.TheVariants as SplitFault;
ghost use Rattle.rebalance.specs.LoneCalls.{IsSettled};
ghost use Rattle.oak_map.specs.Closings.{UsesJustMap};
ghost use Rattle.oak_core.specs.contracts.table.Pass as table_pass;
ghost use Rattle.oak_map.specs.Maps.{IsReady, call_of, pass_of, sizes, state, table_of};
ghost use Rattle.oak_map.specs.Rests.{with_pass};
ghost use Rattle.oak_map.specs.contracts.map.MapPass.{the_row};

use chunk_index::ChunkIndex;
use oak_core::{Closed, OakTable, Pass, SplitFault};
use oak_model::{OutOfMemory, Shape};
use std::sync::Wait;

/// A map, shared by its passes, with an index of the minima of its chunks. `R` is the handle by which callers wait, of
/// which the index keeps a clone. One that is dropped gives back its words, as an [`OakTable`] does, and its index.
#[derive(Drop)]
pub struct OakMap<R: Wait + Drop + Send> {
    pub(crate) table: OakTable,
    pub(crate) index: ChunkIndex<R>,
}

/// A caller's token for a map. It is spent by [`OakMap::join`], [`OakMap::close`] or [`MapPass::leave`], and can't be
/// dropped.
pub struct MapPass {
    pub(crate) pass: Pass,
}

impl MapPass {
    /// Names the present call of the pass's caller. Each call that may write wants a number above those of
    /// all writes before it.
    pub fn turn(&mut self, call: u32)
        requires { call_of self.old < call }
        ensures { Turns (pass_of self.old) (pass_of self.new) call }
    {
        self.pass.turn(call);
    }

    /// How many rooms the pass has pinned, as [`Pass::tries`] counts them.
    pub fn tries(&self) -> u64
        ensures { result ≡ tries (pass_of self.now) }
    {
        self.pass.tries()
    }

    /// The pass on the map's table.
    pub fn pass_mut(&mut self) -> &mut Pass
        ensures* rests { sem 𝓛 (Lends the_row table_pass.the_row self.entry result (with_pass self.old)) }
        ensures pass { result.now ≡ self.old.pass }
    {
        &mut self.pass
    }
}

impl<R: Wait + Drop + Send> OakMap<R> {
    /// The table of the map, on which its passes are: what the calls of [`bare`](crate::bare) and of the crates below take.
    pub fn table(&self) -> &OakTable
        ensures { result.now ≡ table_of self.now }
    {
        &self.table
    }

    /// An empty map of this shape with its first pass, which has the number 0. The pass is alone, holds
    /// nothing, and has met the making of the map.
    pub fn create(rt: &R, shape: &Shape) -> Result<(OakMap<R>, MapPass), OutOfMemory>
    where
        R: Clone + AllocGlobal,
        ensures key { IfOk result (λ t. sizes t.0 ≡ shape.now) }
        ensures generation { IfOk result (λ t. opened_at (table_of t.0) ≡ 0) }
        ensures ready { IfOk result (λ t. IsReady t.0 t.1) }
        ensures first { IfOk result (λ t. (state t.1 ≡ first_state (sizes t.0) 0) × (call_of t.1 ≡ 0)) }
        ensures words { IfOk result (λ t. LeavesWords (opening (sizes t.0) 0).words (state t.1)) }
        ensures opened { IfOk result (λ t. IsOpened (sizes t.0) 0 (opening (sizes t.0) 0).words) }
    {
        OakMap::create_aged(rt, shape, 0)
    }

    /// A map as [`OakMap::create`] makes it, but for the headers of its table: each is free at this generation, which
    /// is not the last one. Each removal takes its key's header to the next generation, and at the last one the header
    /// is retired.
    pub fn create_aged(
        rt: &R,
        shape: &Shape,
        generation: u32,
    ) -> Result<(OakMap<R>, MapPass), OutOfMemory>
    where
        R: Clone + AllocGlobal,
        requires early { generation < LAST_GENERATION }
        ensures key { IfOk result (λ t. sizes t.0 ≡ shape.now) }
        ensures generation { IfOk result (λ t. opened_at (table_of t.0) ≡ generation) }
        ensures ready { IfOk result (λ t. IsReady t.0 t.1) }
        ensures first { IfOk result (λ t. (state t.1 ≡ first_state (sizes t.0) generation) × (call_of t.1 ≡ 0)) }
        ensures words { IfOk result (λ t. LeavesWords (opening (sizes t.0) generation).words (state t.1)) }
        ensures opened { IfOk result (λ t. IsOpened (sizes t.0) generation (opening (sizes t.0) generation).words) }
    {
        let index = ChunkIndex::create(rt, shape.chunks, shape.passes)?;
        let (table, mut pass) = OakTable::create_aged(rt.alloc(), shape, generation)?;
        pass.set_reader(index.reader(rt));
        Ok((OakMap { table, index }, MapPass { pass }))
    }

    /// Splits off a pass for another caller, with the least number that no pass has. It has seen what
    /// this one has seen, and holds nothing. `Limit` comes exactly where one load found all numbers of the
    /// shape given. Where the pass is alone only the bit of that number changed in the words, and none where it is
    /// refused.
    pub fn split(&self, rt: &R, pass: &mut MapPass) -> Result<MapPass, SplitFault>
    where
        R: AllocGlobal,
        requires ready { IsReady self.now pass.old }
        ensures own { Stays (pass_of pass.old) (pass_of pass.new) }
        ensures searches { SearchesStay (pass_of pass.old) (pass_of pass.new) }
        ensures ready { IsReady self.now pass.new }
        ensures new { IfOk result (λ p. IsReady self.now p × (call_of p ≡ 0)) }
        ensures split { IfOk result (λ p. SplitsOff (sizes self.now) (call_of pass.old) (state pass.old) (state pass.new) (state p)) }
        ensures refused { IfErr result (λ _. LooksAtGiven (call_of pass.old) (state pass.old) (state pass.new)) }
        ensures limit { (made : ℕ) → result ≡ Err (SplitFault.Limit made) → (made ≡ (sizes self.now).passes)
            × FindsAllGiven (sizes self.now) (call_of pass.old) (state pass.old) (state pass.new) }
        ensures memory { result ≡ Err SplitFault.OutOfMemory → state pass.new ≡ state pass.old }
        ensures alone_given { IfOk result (λ p. GivesWords (state p).numbers.number (state pass.old) (state pass.new)) }
        ensures alone_refused { IfErr result (λ _. LeavesSame (state pass.old) (state pass.new)) }
    {
        match pass.pass.split(rt.alloc(), &self.table) {
            Ok(mut pass) => {
                pass.set_reader(self.index.reader(rt));
                Ok(MapPass { pass })
            }
            Err(fault) => Err(fault),
        }
    }

    /// Takes the other pass into the first: of each key the longer of what the two have seen is seen, and
    /// what the other wrote, met and noted is kept under its number.
    pub fn join(&self, pass: &mut MapPass, other: MapPass)
        requires ready { IsReady self.now pass.old }
        requires other { IsReady self.now other }
        ensures own { Stays (pass_of pass.old) (pass_of pass.new) }
        ensures searches { SearchesStay (pass_of pass.old) (pass_of pass.new) }
        ensures ready { IsReady self.now pass.new }
        ensures joined { state pass.new ≡ both_state (state pass.old) (state other) }
        ensures seen { (k : ℕ) → SeesLonger (state pass.old) (state other) (state pass.new) k }
    {
        let MapPass { pass: other } = other;
        pass.pass.join(&self.table, other);
    }

    /// Closes the map with its last pass: every other was joined into it, or into one that was. What the
    /// pass knows to be the place of a number among a key's writes is its place in the closed history. Where
    /// the pass left the map settled, just the keys and values of the map are in use. Where nothing was removed each
    /// header is at the generation of the opening still.
    pub fn close(self, pass: MapPass) -> Closed
        requires ready { IsReady self pass }
        requires alone { IsAlone (state pass) }
        ensures key { closed_key result ≡ sizes self }
        ensures state { closed_state result ≡ state pass }
        ensures ends { Ends (sizes self) (closed_words result) (state pass) }
        ensures noted { FullsLacked result }
        ensures places { PlacesStand result }
        ensures reached { EndsFrom (opened_at (table_of self)) result }
        ensures unworn { IsUnworn (opened_at (table_of self)) result }
        ensures settled { (words : List ℕ) → LeavesWords words (state pass) → IsSettled (sizes self) words → UsesJustMap result }
    {
        let OakMap { table, index: _ } = self;
        let MapPass { pass } = pass;
        table.close(pass)
    }
}
