//! Tests of the calls on one key: rows of calls on small rooms, and two threads at one key.
mod reader_tests;
mod test_rows;
mod tests;
