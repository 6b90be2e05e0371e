//! A sink in memory that takes bytes in pieces.
ghost use Rattle.std.specs.Prelude.{◌≡◌, ◌<◌, ◌+◌, ◌↔◌, ◌⊎◌, [], Some, IsErr, IfOk, OnErr, Contains, length, min, slice_get, vec_len};
ghost use Rattle.outside.specs.Cause.{HasCause, next_count, faults_after};
ghost use Rattle.outside.specs.Memory.{let_through};
ghost use Rattle.outside.specs.Taken.{WriteTakes};

use crate::cuts::let_through;
use crate::{Failed, MemorySink, Sink};
use std::marker::Model;

/// A room in memory that is written over from its first byte on, in pieces of given lengths. It takes no memory, and its
/// writes fail exactly at the listed calls and, for a piece that is not empty, where all of the room is written. A
/// write that fails uses up its length.
#[derive(Drop)]
pub struct ShortSink {
    sink: MemorySink,
    takes: Vec<usize>,
}

impl Model for ShortSink {
    ghost use Rattle.outside.specs.Memory.{ShortSinkState};

    ghost Value = { ShortSinkState };

    ghost view = { λ s. record {
      written = s.sink.written;
      free = s.sink.free;
      calls = s.sink.calls;
      faults = s.sink.faults;
      fails = s.sink.fails;
      takes = s.takes.items;
    } };
}

impl ShortSink {
    /// A sink over this room, whose i-th write takes at most the i-th of these numbers of bytes, and that fails at the
    /// calls whose numbers, from 1, are listed. A 0 counts as 1; past the list a write takes what fits.
    pub fn make(room: Vec<u8>, takes: Vec<usize>, fails: Vec<u64>) -> ShortSink
        ensures { result ≡ record {
          written = [];
          free = vec_len room;
          calls = 0;
          faults = 0;
          fails = fails.items;
          takes = takes.items;
        } }
    {
        ShortSink {
            sink: MemorySink::make(room, fails),
            takes,
        }
    }

    /// What was written so far.
    pub fn written(&self) -> &[u8]
        ensures { result.now ≡ self.now.written }
    {
        self.sink.written()
    }
}

impl Sink for ShortSink {
    ghost written = { λ s. Some s.written };

    ghost faults = { λ s. s.faults };

    /// Takes as many bytes as fit into the room, and as the list lets it.
    fn write(&mut self, piece: &[u8]) -> Result<usize, Failed>
        ensures bytes { WriteTakes (Some self.old.written) (Some self.new.written)
            result piece.now }
        ensures cause { HasCause self.old.faults self.new.faults result }

        // it fails exactly at the listed calls and where the room is full
        ensures fails { IsErr result ↔ (Contains self.old.fails (next_count self.old.calls)
            ⊎ ((self.old.free ≡ 0) × (0 < length piece.now))) }
        ensures count { IfOk result (λ n. n ≡ let_through (slice_get self.old.takes self.old.calls) (min (length piece.now) self.old.free)) }
        ensures filled { IfOk result (λ n. self.old.free ≡ self.new.free + n) }
        ensures unwritten { OnErr result (self.new.written ≡ self.old.written) }
        ensures kept { OnErr result (self.new.free ≡ self.old.free) }

        ensures calls { self.new.calls ≡ next_count self.old.calls }
        ensures counted { self.new.faults ≡ faults_after self.old.faults result }
        ensures listed { self.new.fails ≡ self.old.fails }
        ensures takes { self.new.takes ≡ self.old.takes }
    {
        let asked = let_through(&self.takes, self.sink.calls(), piece.len());
        self.sink.write(&piece[..asked])
    }
}
