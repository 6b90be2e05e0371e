//! Tests of the program in memory: runs of scripts and of workloads, with the texts and the statuses that are due.
mod answers;
mod counting;
mod gates;
mod lent;
mod pieces;
mod refusals;
mod small_shapes;
mod statuses;
mod test_runs;
mod threads;
mod words;
mod workloads;
