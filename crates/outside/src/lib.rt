//! Where a program's bytes come from and go to: sources and sinks that count their faults. And the gate
//! that the threads of a run pass.
//!
//! A refusal is not taken on trust. Each object keeps a count of its faults, and a call may answer
//! [`Failed`] only where that count rose, or stands at its last value, 2^64 - 1.
#![tactic(auto)]

mod cut_source;
mod cuts;
mod fault_plan;
mod gate;
mod memory_sink;
mod memory_source;
mod short_sink;
mod std_sink;
mod std_source;
mod sure_source;
#[cfg(test)]
mod tests;
mod whole;

ghost use Rattle.std.specs.Prelude.{ℕ, List, Option};
ghost use Rattle.std.specs.Io.{ReadsAtMost};
ghost use Rattle.std.specs.Io.KnownBytes.{ReadConsumes};
ghost use Rattle.outside.specs.Cause.{HasCause};
ghost use Rattle.outside.specs.Taken.{WriteTakes};

pub use cut_source::CutSource;
pub use gate::{FreeGate, Gate};
pub use memory_sink::MemorySink;
pub use memory_source::MemorySource;
pub use short_sink::ShortSink;
pub use std_sink::StdSink;
pub use std_source::StdSource;
pub use sure_source::SureSource;
pub use whole::{ReadStop, read_whole, write_whole};

/// A source or a sink refused a call, and counted it.
#[derive(Clone, Copy, Debug, PartialEq, Eq)]
pub struct Failed;

/// Where bytes come from.
pub trait Source {
    /// The bytes that reads will give from here on, where the source tells them.
    ghost left: { Self → Option (List ℕ) };

    /// How many reads failed so far. The count stands still at 2^64 - 1.
    ghost faults: { Self → ℕ };

    /// Puts the first bytes that are left at the front of the piece, and answers how many. They
    /// are no longer left afterwards. 0 for a piece that is not empty is the end: nothing is left.
    /// After `Failed` all bytes are left that were left before.
    fn read(&mut self, piece: &mut [u8]) -> Result<usize, Failed>
        ensures bound { ReadsAtMost result piece.new }
        ensures bytes { ReadConsumes (left self.old) (left self.new) result piece.new }
        ensures cause { HasCause (faults self.old) (faults self.new) result };
}

/// Where bytes go to.
pub trait Sink {
    /// The bytes that were written so far, where the sink tells them.
    ghost written: { Self → Option (List ℕ) };

    /// How many writes failed so far. The count stands still at 2^64 - 1.
    ghost faults: { Self → ℕ };

    /// Writes some first bytes of the piece, and answers how many: at least one, unless the piece
    /// is empty. After `Failed` some first bytes of the piece were written, or none.
    fn write(&mut self, piece: &[u8]) -> Result<usize, Failed>
        ensures bytes { WriteTakes (written self.old) (written self.new) result piece.now }
        ensures cause { HasCause (faults self.old) (faults self.new) result };
}
