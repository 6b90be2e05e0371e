//! The writer of the index.
ghost use Rattle.std.specs.Prelude.{◌≡◌, ◌<◌, ◌≤◌, ◌⊎◌, [], ◌∷◌, ◌++◌, fold, IfOk, OnErr, OnOk};
ghost use Rattle.oak_model.specs.declared.limits.TheConstants.{GREATEST_CHUNKS, GREATEST_PASSES};
ghost use Rattle.oak_model.specs.Key.{IsKey};
ghost use Rattle.chunk_index.specs.Lows.{IsOnePerRoom, IsRising, set_low};
ghost use Rattle.left_right.specs.Handles.{published};

use crate::heads::Heads;
use crate::low::Low;
use crate::lows::Lows;
use crate::readers::IndexReader;
use left_right::WriteHandle;
use oak_model::OutOfMemory;
use std::alloc::{AllocGlobal, Global};
use std::fmt::{self, Debug, Formatter};
use std::sync::Wait;

/// What sets the minima. It keeps a clone of the handle that it was made by, since it waits for readers: to publish,
/// and when it is dropped.
#[derive(Drop)]
pub struct IndexWriter<R: Wait + Drop + Send> {
    writer: WriteHandle<Lows, Low, R>,
    alloc: Global,
    chunks: u32,
    ghost rising: { IsRising (published writer) },
    ghost rooms: { IsOnePerRoom (published writer) },
}

impl<R: Wait + Drop + Send> Debug for IndexWriter<R> {
    fn fmt<W: fmt::Write>(&self, f: &mut Formatter<W>) -> fmt::Result {
        f.debug_struct("IndexWriter").finish_non_exhaustive()
    }
}

impl<R: Wait + Drop + Send> IndexWriter<R> {
    ghost use Rattle.chunk_index.specs.Writers.{minima, waiting};

    /// A writer with no pairs, with memory for one pair a chunk, and places for so many readers at once.
    pub fn create(rt: &R, chunks: u32, readers: u32) -> Result<IndexWriter<R>, OutOfMemory>
    where
        R: Clone + AllocGlobal,
        requires chunks { (0 < chunks) × (chunks ≤ GREATEST_CHUNKS) }
        requires readers { (0 < readers) × (readers ≤ GREATEST_PASSES) }
        ensures minima { IfOk result (λ w. minima w ≡ []) }
        ensures waiting { IfOk result (λ w. waiting w ≡ []) }
    {
        let first = Lows::new(rt.alloc(), chunks)?;
        let second = Lows::new(rt.alloc(), chunks)?;
        let writer = WriteHandle::new(rt.alloc(), rt.clone()?, first, second, readers as usize)?;
        Ok(IndexWriter {
            writer,
            alloc: rt.alloc(),
            chunks,
        })
    }

    /// Sets the minimum of a chunk in a room, behind those that wait, for readers that look from now on. It waits for
    /// readers that still look at what they saw before the last call. `OutOfMemory` is the one refusal: readers see
    /// what they saw then, and the next call goes on from what waits. Any number may be a room's.
    pub fn set(&mut self, low: &[u8], room: u32) -> Result<(), OutOfMemory>
        requires { IsKey low.now }

        // The room's earlier pair and that of the minimum are taken out, and the pair stands at its place.
        ensures set { OnOk result (minima self.new ≡ fold set_low (minima self.old) (waiting self.old ++ (low.now, room) ∷ [])) }
        ensures published { OnOk result (waiting self.new ≡ []) }

        ensures unset { OnErr result (minima self.new ≡ minima self.old) }
        ensures waits { OnErr result ((waiting self.new ≡ waiting self.old) ⊎ (waiting self.new ≡ waiting self.old ++ (low.now, room) ∷ [])) }

        // So it is in each state of a writer.
        ensures rising { IsRising (minima self.new) }
        ensures rooms { IsOnePerRoom (minima self.new) }
    {
        self.writer
            .append(Low::new(low, room))
            .map_err(|_| OutOfMemory)?;
        Ok(self.writer.publish()?)
    }

    /// A reader, which moves to another thread. Its hints have no room where every place was found in use.
    pub fn reader(&mut self) -> IndexReader
        ensures minima { minima self.new ≡ minima self.old }
        ensures waiting { waiting self.new ≡ waiting self.old }
    {
        let own = Heads::new(self.alloc, self.chunks).ok();
        IndexReader::new(self.writer.handle().ok(), own)
    }
}
