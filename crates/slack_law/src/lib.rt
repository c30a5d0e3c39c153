//! What a yes of a run without a core promises of every core.
#![tactic(auto)]

mod laws;

pub use laws::a_yes_means_no_underflow;
