//! The direction of a scan.

/// Towards the greater keys, or towards the smaller ones.
#[derive(Clone, Copy, Debug, PartialEq, Eq)]
pub enum Way {
    Up,
    Down,
}
