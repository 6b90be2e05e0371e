//! A source in memory that fails where its plan says.
ghost use Rattle.std.specs.Prelude.{◌≡◌, ◌↔◌, Some, IsErr, IfOk, OnErr, Contains, drop, length, min};
ghost use Rattle.std.specs.Io.{ReadsAtMost};
ghost use Rattle.std.specs.Io.KnownBytes.{ReadConsumes};
ghost use Rattle.outside.specs.Cause.{HasCause, next_count, faults_after};

use crate::fault_plan::FaultPlan;
use crate::{Failed, Source, SureSource};
use std::marker::Model;

/// Bytes in memory, whose reads fail exactly at the listed calls.
#[derive(Drop)]
pub struct MemorySource {
    bytes: SureSource,
    plan: FaultPlan,
}

impl Model for MemorySource {
    ghost use Rattle.outside.specs.Memory.{MemorySourceState};

    ghost Value = { MemorySourceState };

    ghost view = { λ s. record {
      left = s.bytes;
      calls = s.plan.calls;
      faults = s.plan.faults;
      fails = s.plan.fails.items;
    } };
}

impl MemorySource {
    /// A source that gives these bytes, and fails at the calls whose numbers, from 1, are listed.
    pub fn make(bytes: Vec<u8>, fails: Vec<u64>) -> MemorySource
        ensures { result ≡ record {
          left = bytes.items;
          calls = 0;
          faults = 0;
          fails = fails.items;
        } }
    {
        MemorySource {
            bytes: SureSource::make(bytes),
            plan: FaultPlan::make(fails),
        }
    }

    /// How many reads came so far.
    pub(crate) fn calls(&self) -> u64
        ensures { result ≡ self.now.calls }
    {
        self.plan.calls
    }
}

impl Source for MemorySource {
    ghost left = { λ s. Some s.left };

    ghost faults = { λ s. s.faults };

    /// Gives as many bytes as are left and fit into the piece. The rest of the piece stays as it is.
    fn read(&mut self, piece: &mut [u8]) -> Result<usize, Failed>
        ensures bound { ReadsAtMost result piece.new }
        ensures bytes { ReadConsumes (Some self.old.left) (Some self.new.left) result piece.new }
        ensures cause { HasCause self.old.faults self.new.faults result }

        // it fails exactly at the listed calls
        ensures fails { IsErr result ↔ Contains self.old.fails (next_count self.old.calls) }
        ensures count { IfOk result (λ n. n ≡ min (length piece.old) (length self.old.left)) }
        ensures rest { IfOk result (λ n. drop n piece.new ≡ drop n piece.old) }
        ensures untouched { OnErr result (piece.new ≡ piece.old) }

        ensures calls { self.new.calls ≡ next_count self.old.calls }
        ensures counted { self.new.faults ≡ faults_after self.old.faults result }
        ensures listed { self.new.fails ≡ self.old.fails }
    {
        if self.plan.begin_call() {
            return Err(self.plan.fail());
        }
        self.bytes.read(piece)
    }
}
