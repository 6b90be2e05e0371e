//! Tests of scripts as text and of the text of a run: what no clause says, and each public call once on its way.
mod fault_tests;
mod text_tests;
