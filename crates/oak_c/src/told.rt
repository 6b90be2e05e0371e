//! What a call from C is told.

/// What the calls told: the numbers of the write and of the get, the length of the value that was got, its first eight
/// bytes as a number, of which the first byte is the highest, or 0 where it has fewer, and the headers and chunks in use
/// at the end.
#[repr(C)]
#[derive(Clone, Copy)]
pub struct Told {
    pub(crate) put_at: u64,
    pub(crate) got_at: u64,
    pub(crate) length: u64,
    pub(crate) first: u64,
    pub(crate) headers: u32,
    pub(crate) chunks: u32,
}
