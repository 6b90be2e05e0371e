//! The index that the passes of a map share.
ghost use Rattle.std.specs.Prelude.{◌<◌, ◌≤◌};
ghost use Rattle.oak_model.specs.declared.limits.TheConstants.{GREATEST_CHUNKS, GREATEST_PASSES};
ghost use Rattle.oak_model.specs.Key.{IsKey};

use crate::readers::IndexReader;
use crate::writers::IndexWriter;
use oak_model::OutOfMemory;
use std::alloc::AllocGlobal;
use std::fmt::{self, Debug, Formatter};
use std::sync::{Mutex, Wait};

/// A writer behind a lock. No clause speaks of what is under the lock. Readers never take it.
#[derive(Drop)]
pub struct ChunkIndex<R: Wait + Drop + Send> {
    writer: Mutex<IndexWriter<R>>,
}

impl<R: Wait + Drop + Send> Debug for ChunkIndex<R> {
    fn fmt<W: fmt::Write>(&self, f: &mut Formatter<W>) -> fmt::Result {
        f.debug_struct("ChunkIndex").finish_non_exhaustive()
    }
}

impl<R: Wait + Drop + Send> ChunkIndex<R> {
    /// An index with no pairs, with memory for one pair a chunk, and places for so many readers at once.
    pub fn create(rt: &R, chunks: u32, readers: u32) -> Result<ChunkIndex<R>, OutOfMemory>
    where
        R: Clone + AllocGlobal,
        requires chunks { (0 < chunks) × (chunks ≤ GREATEST_CHUNKS) }
        requires readers { (0 < readers) × (readers ≤ GREATEST_PASSES) }
    {
        let writer = IndexWriter::create(rt, chunks, readers)?;
        Ok(ChunkIndex {
            writer: Mutex::new(writer),
        })
    }

    /// A reader, as [`IndexWriter::reader`] makes it, under the lock.
    pub fn reader(&self, rt: &R) -> IndexReader {
        self.writer.lock(rt).reader()
    }

    /// Sets the minimum of a chunk in a room, as [`IndexWriter::set`] does, under the lock.
    pub fn publish(&self, rt: &R, low: &[u8], room: u32) -> Result<(), OutOfMemory>
        requires { IsKey low.now }
    {
        self.writer.lock(rt).set(low, room)
    }
}
