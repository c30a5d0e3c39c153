//! Chairs that put numbers at a desk, alone and in threads. The crate has tests alone: the crates that they go through
//! aren't proved again with them.
#![tactic(auto)]

#[cfg(test)]
mod tallies;
