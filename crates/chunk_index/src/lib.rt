//! Where to look for a key first: an index of the minima of the chunks, each with its room. One writer sets them, and
//! readers look without waiting. That an ordered map of chunks keeps such an index beside them is Oak's idea ("Oak: A
//! Scalable Off-Heap Allocated Key-Value Map", PPoPP 2020); two copies for readers that do not wait are `left_right`'s.
#![tactic(auto)]

mod heads;
mod index;
mod low;
mod lows;
mod readers;
mod writers;

pub use index::ChunkIndex;
pub use readers::IndexReader;
pub use writers::IndexWriter;
