//! A yes of a run without a core is a yes at every smaller cost and at every greater depth.
#![tactic(auto)]

mod laws;

pub use laws::a_yes_stays_a_yes;
