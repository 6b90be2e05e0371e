//! Tests of the calls on one key, of a rebalance and of scans, by one pass and by threads.
#![tactic(auto)]

#[cfg(test)]
mod calls;
#[cfg(test)]
mod found;
#[cfg(test)]
mod keys;
#[cfg(test)]
mod rebalancing;
#[cfg(test)]
mod scans;
