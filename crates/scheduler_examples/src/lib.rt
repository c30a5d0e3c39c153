//! Which run comes first, worked out by hand from the rules of the scheduler. The crate has tests alone: the crates that
//! they go through aren't proved again with them.
#![tactic(auto)]

#[cfg(test)]
mod runs;
