//! Tests of callers: each call on a map of its own, and threads that share a map.
mod crowd_tests;
mod sharing_tests;
mod tests;
