//! Datasets: named numbers and lists of numbers with their flags, as the ARTIQ manual's, in the order in which their
//! names were first set. That order, and that sums wrap at 64 bits, are this project's own.
#![tactic(auto)]

mod datasets;

pub use datasets::{AppendEnd, Datasets, Flags};
