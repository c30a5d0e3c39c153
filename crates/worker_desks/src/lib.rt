//! The desks of a laboratory, at which its workers take turns: one for the scheduler, and one for each core. That a laboratory has
//! several workers is this project's own.
#![tactic(auto)]

mod desks;

pub use desks::Desks;
