//! A sink in memory that fails where its plan says.
ghost use Rattle.std.specs.Prelude.{◌≡◌, ◌≤◌, ◌<◌, ◌+◌, ◌-◌, ◌++◌, ◌↔◌, ◌⊎◌, [], Some, IsErr, IfOk, OnErr, Contains, take, length, min, vec_len};
ghost use Rattle.outside.specs.Cause.{HasCause, next_count, faults_after};
ghost use Rattle.outside.specs.Taken.{WriteTakes};

use crate::fault_plan::FaultPlan;
use crate::{Failed, Sink};
use std::marker::Model;

/// A room in memory that is written over from its first byte on. It takes no memory, and its writes
/// fail exactly at the listed calls and, for a piece that is not empty, where all of the room is
/// written.
#[derive(Drop)]
pub struct MemorySink {
    room: Vec<u8>,
    len: usize,
    plan: FaultPlan,
}

impl Model for MemorySink {
    ghost use Rattle.std.specs.Prelude.{◌-◌, ◌≤◌, take, vec_len};
    ghost use Rattle.outside.specs.Memory.{MemorySinkState};

    ghost Value = { MemorySinkState };

    ghost view = { λ s. record {
      written = take s.len s.room.items;
      free = vec_len s.room - s.len;
      calls = s.plan.calls;
      faults = s.plan.faults;
      fails = s.plan.fails.items;
    } };

    ghost invariant = { λ s. s.len ≤ vec_len s.room };
}

impl MemorySink {
    /// A sink over this room, that fails at the calls whose numbers, from 1, are listed.
    pub fn make(room: Vec<u8>, fails: Vec<u64>) -> MemorySink
        ensures { result ≡ record {
          written = [];
          free = vec_len room;
          calls = 0;
          faults = 0;
          fails = fails.items;
        } }
    {
        MemorySink {
            room,
            len: 0,
            plan: FaultPlan::make(fails),
        }
    }

    /// What was written so far.
    pub fn written(&self) -> &[u8]
        ensures { result.now ≡ self.now.written }
    {
        &self.room[..self.len]
    }

    /// How many writes came so far.
    pub(crate) fn calls(&self) -> u64
        ensures { result ≡ self.now.calls }
    {
        self.plan.calls
    }
}

impl Sink for MemorySink {
    ghost written = { λ s. Some s.written };

    ghost faults = { λ s. s.faults };

    /// Takes as many bytes as fit into the room.
    fn write(&mut self, piece: &[u8]) -> Result<usize, Failed>
        ensures bytes { WriteTakes (Some self.old.written) (Some self.new.written)
            result piece.now }
        ensures cause { HasCause self.old.faults self.new.faults result }

        // it fails exactly at the listed calls and where the room is full
        ensures fails { IsErr result ↔ (Contains self.old.fails (next_count self.old.calls)
            ⊎ ((self.old.free ≡ 0) × (0 < length piece.now))) }
        ensures count { IfOk result (λ n. n ≡ min (length piece.now) self.old.free) }
        ensures filled { IfOk result (λ n. self.old.free ≡ self.new.free + n) }
        ensures unwritten { OnErr result (self.new.written ≡ self.old.written) }
        ensures kept { OnErr result (self.new.free ≡ self.old.free) }

        ensures calls { self.new.calls ≡ next_count self.old.calls }
        ensures counted { self.new.faults ≡ faults_after self.old.faults result }
        ensures listed { self.new.fails ≡ self.old.fails }
    {
        let listed = self.plan.begin_call();
        let is_full = self.len == self.room.len();
        if listed || (is_full && !piece.is_empty()) {
            return Err(self.plan.fail());
        }
        let count = fill_from(&mut self.room, self.len, piece);
        self.len += count;
        Ok(count)
    }
}

/// Writes as many first bytes of the piece as fit from a place on.
fn fill_from(room: &mut [u8], place: usize, piece: &[u8]) -> usize
    requires { place ≤ length room.old }
    ensures count { result ≡ min (length piece.now) (length room.old - place) }
    ensures same { take (place + result) room.new ≡ take place room.old ++ take result piece.now }
{
    let count = piece.len().min(room.len() - place);
    room[place..place + count].copy_from_slice(&piece[..count]);
    count
}
