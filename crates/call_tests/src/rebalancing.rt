//! Tests of a rebalance: rows, random calls beside an ordered map, calls that give up, and two threads.
mod busy_tests;
mod linked_tests;
mod random_tests;
mod test_calls;
mod test_maps;
mod tests;
mod thread_tests;
