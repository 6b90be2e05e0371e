//! Where a life of a key has its value.

/// A header at a generation. By the two a value word names one life of a key: each later life has the header
/// at another generation.
#[derive(Clone, Copy, Debug, PartialEq, Eq)]
pub struct Home {
    pub header: u32,
    pub generation: u32,
}
