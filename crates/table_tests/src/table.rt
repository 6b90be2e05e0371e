//! Tests of the table and its passes, and of the crates below: what no clause says, and each public call once on its way.
mod index_tests;
mod layout_tests;
mod model_tests;
mod pass_tests;
mod pin_word_tests;
mod rebalance_tests;
mod word_tests;
