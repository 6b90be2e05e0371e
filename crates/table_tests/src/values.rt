//! Tests of blocks, claims, fillings, readings and recipes: what no clause says, and each public call once on its way.
mod arena_ops_tests;
mod claiming_tests;
mod reading_tests;
mod recipe_tests;
