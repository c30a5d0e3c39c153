//! What the work of a laboratory's chairs comes to in the histories that they leave: which sessions on the cores belong to
//! which reports of the scheduler, that each is one of its step's kernel, and which sources are refused. These rules are this
//! project's own.
#![tactic(auto)]

mod laws;

pub use laws::{cores_are_asked_at_top, judgements_last, kernels_are_steps, ties_grow, ties_last};
