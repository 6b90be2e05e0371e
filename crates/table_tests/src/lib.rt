//! Tests of the table, of its values and of its chunks: what no clause says, and each public call once on its way.
#![tactic(auto)]

#[cfg(test)]
mod chunks;
#[cfg(test)]
mod found;
#[cfg(test)]
mod table;
#[cfg(test)]
mod values;
