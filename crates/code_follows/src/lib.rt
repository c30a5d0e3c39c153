//! How the code of a kernel's parts follows what they mean: the claim on a part, and how the claims are put together.
#![tactic(auto)]

mod laws;

pub use laws::{bodies_run_as_meant, calls_follow, parts_follow_one_another};
