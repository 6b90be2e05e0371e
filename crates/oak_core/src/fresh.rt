//! Headers that no entry names yet, as those that fill them see them.

/// A header that is filled and live, and named by no entry yet. It must be spent: it is released or
/// handed on, and can't be dropped.
#[derive(Debug)]
pub struct Fresh {
    pub header: u32,
    pub generation: u32,
    pub stamp: u64,
}
