//! Callers split off and taken in again.
ghost use Rattle.std.specs.Prelude.{◌≡◌, ℕ, Err, IfErr, IfOk};
ghost use Rattle.oak_core.specs.Passes.{SearchesStay, Stays};
ghost use Rattle.oak_core.specs.PassState.{both_state};
ghost use Rattle.oak_core.specs.Splitting.{FindsAllGiven, GivesWords, LeavesSame, LooksAtGiven, SeesLonger, SplitsOff};
ghost use Rattle.oak_core.specs.declared.passes.SplitFault.TheVariants as SplitFault;
ghost use Rattle.oak_map.specs.Maps.{pass_of};
ghost use Rattle.oak_caller.specs.Callers.{CallsOn, last_of, sizes_of, state_of};

use crate::caller::Caller;
use oak_core::SplitFault;
use std::sync::Wait;

impl<'m, R: Wait + Drop + Send> Caller<'m, R> {
    /// A caller for another thread, by a pass that is split off. It has seen what this one has seen. `Limit` comes
    /// exactly where all passes of the shape were made, also those that were given up since: the number of a pass is
    /// never given again.
    pub fn split(&mut self, rt: &R) -> Result<Caller<'m, R>, SplitFault>
    where
        R: AllocGlobal,
        ensures on { CallsOn Stays self.old self.new }
        ensures searches { SearchesStay (pass_of self.old.pass) (pass_of self.new.pass) }
        ensures table { IfOk result (λ c. c.table ≡ self.old.table) }
        ensures new { IfOk result (λ c. last_of c ≡ 0) }
        ensures split { IfOk result (λ c. SplitsOff (sizes_of self.old) (last_of self.old) (state_of self.old) (state_of self.new) (state_of c)) }
        ensures refused { IfErr result (λ _. LooksAtGiven (last_of self.old) (state_of self.old) (state_of self.new)) }
        ensures limit { (made : ℕ) → result ≡ Err (SplitFault.Limit made) → (made ≡ (sizes_of self.old).passes)
            × FindsAllGiven (sizes_of self.old) (last_of self.old) (state_of self.old) (state_of self.new) }
        ensures memory { result ≡ Err SplitFault.OutOfMemory → state_of self.new ≡ state_of self.old }
        ensures alone_given { IfOk result (λ c. GivesWords (state_of c).numbers.number (state_of self.old) (state_of self.new)) }
        ensures alone_refused { IfErr result (λ _. LeavesSame (state_of self.old) (state_of self.new)) }
    {
        match self.map.split(rt, &mut self.pass) {
            Ok(pass) => Ok(Caller {
                map: self.map,
                pass,
                last: 0,
            }),
            Err(fault) => Err(fault),
        }
    }

    /// Takes the pass of another caller of the same map into this one's: of each key the longer of what the two have
    /// seen is seen, and what the other wrote is kept under its number.
    pub fn join(&mut self, other: Caller<'m, R>)
        requires same { other.table ≡ self.old.table }
        ensures on { CallsOn Stays self.old self.new }
        ensures searches { SearchesStay (pass_of self.old.pass) (pass_of self.new.pass) }
        ensures joined { state_of self.new ≡ both_state (state_of self.old) (state_of other.entry) }
        ensures seen { (k : ℕ) → SeesLonger (state_of self.old) (state_of other.entry) (state_of self.new) k }
    {
        let pass = other.close();
        self.map.join(&mut self.pass, pass);
    }
}
