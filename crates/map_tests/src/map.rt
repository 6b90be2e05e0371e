//! Tests of the map: rows of calls, refusals, lent values, the index, room for keys, and threads that share a map.
mod error_tests;
mod giving_up_tests;
mod index_tests;
mod lending_tests;
mod room_tests;
mod row_tests;
mod test_calls;
mod tests;
mod thread_tests;
mod try_put_tests;
mod worn_tests;
