//! The limits of scripts.

/// The greatest number of threads of a script; the least is 1.
pub const GREATEST_THREADS: usize = 16;

/// The greatest number of calls of a script, over all its threads.
pub const GREATEST_CALLS: usize = 262_144;

/// The greatest number of `scan` and `back` lines of a script.
pub const GREATEST_SCANS: usize = 32;

/// The greatest length of a name in a script, in bytes.
pub const GREATEST_SCRIPT_NAME: usize = 16;

/// The greatest number of calls of a thread of a generated workload; the least is 1.
pub const GREATEST_DRAWS: u32 = 65_536;

/// How many numbers a generated workload draws from, which begin at 0.
pub const DRAWN_NUMBERS: u32 = 65_536;
