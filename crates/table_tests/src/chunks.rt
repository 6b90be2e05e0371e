//! Tests of the calls on rooms: what no clause says, and each public call once on its way.
mod adding_tests;
mod key_tests;
mod listing_tests;
mod order_tests;
mod tests;
