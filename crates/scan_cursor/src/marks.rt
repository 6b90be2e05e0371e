//! How far a scan has come.
use chunk_ops::KeyBytes;

/// How far a scan has come: to this key, which is read too where the mark is past it.
#[derive(Drop)]
pub(crate) struct Mark {
    pub(crate) key: KeyBytes,
    pub(crate) past: bool,
    pub(crate) ended: bool,
}
