//! What the tests find, held against what is due.
use oak_model::Usage;
use std::process::Abort;

/// It is so.
pub(crate) fn is_so(rt: &impl Abort, what: &str, so: bool) {
    assert!(rt; so, "{what}");
}

/// The number is this one.
pub(crate) fn number_is(rt: &impl Abort, what: &str, number: u64, due: u64) {
    assert_eq!(rt; number, due, "{what}");
}

/// The write of the call has this stamp.
pub(crate) fn stamp_is(rt: &impl Abort, call: u32, stamp: u64, due: u64) {
    assert_eq!(rt; stamp, due, "call {call}");
}

/// So much was used.
pub(crate) fn is_used(rt: &impl Abort, usage: Usage, used: Usage) {
    assert_eq!(rt; usage, used);
}
