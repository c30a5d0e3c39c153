//! Sources read to their ends and sinks written to, in memory and over streams of std that answer as told. The crate has
//! tests alone: the crate that they go through isn't proved again with them.
#![tactic(auto)]

#[cfg(test)]
mod reading;
#[cfg(test)]
mod standard;
#[cfg(test)]
mod writing;
