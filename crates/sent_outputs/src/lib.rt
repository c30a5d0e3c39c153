//! Outputs that go through a new core one after another, for the programs that time cores and their dumps.
#![tactic(auto)]

mod outputs;

pub use outputs::outputs_sent;
