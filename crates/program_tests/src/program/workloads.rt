//! Generated workloads, each with its summary.

use crate::program::test_runs::expect_end;
use outside::MemorySource;
use std::test::Fail;

/// The words of a workload, and its summary, with a slash for a line's end.
const SUMMARIES: [(&str, &str); 4] = [
    ("gen 4 1 0", "gen 4 1 0/calls 4/full 0/keys 4/sum 4/b16 8/"),
    (
        "gen 1 1 65535",
        "gen 1 1 65535/calls 1/full 0/keys 1/sum 1/b16 2/",
    ),
    (
        "gen 4096 1 3",
        "gen 4096 1 3/calls 4096/full 0/keys 1005/sum 4096/b16 2010/",
    ),
    (
        "gen 65536 4 7",
        "gen 65536 4 7/calls 262144/full 0/keys 1024/sum 262144/b16 2048/",
    ),
];

#[test]
fn sums_up_workloads_and_reads_nothing(rt: HostRuntime) -> Result<(), Fail> {
    let alloc = rt.alloc();
    for (words, says) in &SUMMARIES {
        let mut source = MemorySource::make(Vec::new(alloc), Vec::from_slice(alloc, &[1])?);
        expect_end(&rt, words, &mut source, &[], 0, says)?;
    }
    Ok(())
}

#[test]
fn counts_a_fault_of_the_sink(rt: HostRuntime) -> Result<(), Fail> {
    let alloc = rt.alloc();
    let mut source = MemorySource::make(Vec::new(alloc), Vec::new(alloc));
    expect_end(&rt, "gen 4 2 0", &mut source, &[1], 5, "")
}
