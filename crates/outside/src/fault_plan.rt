//! Which reads or writes fail.
ghost use Rattle.std.specs.Prelude.{◌≡◌, ◌≤◌, ◌↔◌, IsTrue, Contains};
ghost use Rattle.outside.specs.Cause.{next_count};

use crate::Failed;

/// Which calls are to fail, by their numbers from 1, and how many came and how many failed so far.
#[derive(Drop)]
pub struct FaultPlan {
    /// How many calls came. It stands still at its type's end, as `faults` does.
    pub calls: u64,
    pub faults: u64,
    pub fails: Vec<u64>,
}

impl FaultPlan {
    pub fn make(fails: Vec<u64>) -> FaultPlan
        ensures calls { result.calls ≡ 0 }
        ensures faults { result.faults ≡ 0 }
        ensures fails { result.fails.items ≡ fails.items }
    {
        FaultPlan {
            calls: 0,
            faults: 0,
            fails,
        }
    }

    /// Counts a call, and says whether it is to fail.
    pub fn begin_call(&mut self) -> bool
        ensures listed { IsTrue result ↔ Contains self.old.fails.items self.new.calls }
        ensures calls { self.new.calls ≡ next_count self.old.calls }
        ensures faults { self.new.faults ≡ self.old.faults }
        ensures fails { self.new.fails.items ≡ self.old.fails.items }
    {
        self.calls = self.calls.saturating_add(1);
        self.fails.contains(&self.calls)
    }

    /// Counts a fault.
    pub fn fail(&mut self) -> Failed
        ensures calls { self.new.calls ≡ self.old.calls }
        ensures faults { self.new.faults ≡ next_count self.old.faults }
        ensures later { self.old.faults ≤ self.new.faults }
        ensures fails { self.new.fails.items ≡ self.old.fails.items }
    {
        self.faults = self.faults.saturating_add(1);
        Failed
    }
}
