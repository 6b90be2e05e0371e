//! Tests of scans: what they give over four rooms, both ways.
mod test_calls;
mod tests;
