//! Which arguments fit the parameters of a function.
#![tactic(auto)]

mod fitting;

pub use fitting::arguments_fit;
