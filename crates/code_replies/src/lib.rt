//! Runs of code under more replies, and under replies that fit the requests that the run itself made.
#![tactic(auto)]

mod laws;

pub use laws::{runs_go_on_with_more_replies, runs_with_fitting_replies_are_meant, steps_go_on};
