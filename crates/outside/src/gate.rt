//! Gates at which threads wait for their turn.
/// What a thread of a run asks before it goes on, so that a caller can hold it back until others
/// have come as far as they should. It tells nothing and changes no reply.
pub trait Gate: Sync {
    /// Returns when the thread may go on. It is asked before each call of the thread, with the
    /// thread's number from 1 and the call's number from 1, and once behind the last call, with the
    /// number of calls plus one.
    fn pass_by(&self, thread: u32, call: u32);
}

/// A gate that does nothing and lets all by.
#[derive(Clone, Copy, Debug, PartialEq, Eq)]
pub struct FreeGate;

impl Gate for FreeGate {
    fn pass_by(&self, _thread: u32, _call: u32) {}
}
