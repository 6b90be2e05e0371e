//! A source in memory that gives its bytes in pieces.
ghost use Rattle.std.specs.Prelude.{◌≡◌, ◌↔◌, Some, IsErr, IfOk, OnErr, Contains, drop, length, min, slice_get};
ghost use Rattle.std.specs.Io.{ReadsAtMost};
ghost use Rattle.std.specs.Io.KnownBytes.{ReadConsumes};
ghost use Rattle.outside.specs.Cause.{HasCause, next_count, faults_after};
ghost use Rattle.outside.specs.Memory.{let_through};

use crate::cuts::let_through;
use crate::{Failed, MemorySource, Source};
use std::marker::Model;

/// Bytes in memory that come in pieces of given lengths, and whose reads fail exactly at the listed calls. A read that
/// fails uses up its cut.
#[derive(Drop)]
pub struct CutSource {
    source: MemorySource,
    cuts: Vec<usize>,
}

impl Model for CutSource {
    ghost use Rattle.outside.specs.Memory.{CutSourceState};

    ghost Value = { CutSourceState };

    ghost view = { λ s. record {
      left = s.source.left;
      calls = s.source.calls;
      faults = s.source.faults;
      fails = s.source.fails;
      cuts = s.cuts.items;
    } };
}

impl CutSource {
    /// A source that gives these bytes, the i-th read at most the i-th cut of them, and that fails at the calls whose
    /// numbers, from 1, are listed. A cut of 0 counts as 1; past the cuts a read gives what fits.
    pub fn make(bytes: Vec<u8>, cuts: Vec<usize>, fails: Vec<u64>) -> CutSource
        ensures { result ≡ record {
          left = bytes.items;
          calls = 0;
          faults = 0;
          fails = fails.items;
          cuts = cuts.items;
        } }
    {
        CutSource {
            source: MemorySource::make(bytes, fails),
            cuts,
        }
    }
}

impl Source for CutSource {
    ghost left = { λ s. Some s.left };

    ghost faults = { λ s. s.faults };

    /// Gives as many bytes as are left, fit into the piece, and the cut lets through. The rest of the piece stays as it
    /// is.
    fn read(&mut self, piece: &mut [u8]) -> Result<usize, Failed>
        ensures bound { ReadsAtMost result piece.new }
        ensures bytes { ReadConsumes (Some self.old.left) (Some self.new.left) result piece.new }
        ensures cause { HasCause self.old.faults self.new.faults result }

        // it fails exactly at the listed calls
        ensures fails { IsErr result ↔ Contains self.old.fails (next_count self.old.calls) }
        ensures count { IfOk result (λ n. n ≡ let_through (slice_get self.old.cuts self.old.calls) (min (length piece.old) (length self.old.left))) }
        ensures rest { IfOk result (λ n. drop n piece.new ≡ drop n piece.old) }
        ensures untouched { OnErr result (piece.new ≡ piece.old) }

        ensures calls { self.new.calls ≡ next_count self.old.calls }
        ensures counted { self.new.faults ≡ faults_after self.old.faults result }
        ensures listed { self.new.fails ≡ self.old.fails }
        ensures cuts { self.new.cuts ≡ self.old.cuts }
    {
        let asked = let_through(&self.cuts, self.source.calls(), piece.len());
        self.source.read(&mut piece[..asked])
    }
}
