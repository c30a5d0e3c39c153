//! Sessions of compiled kernels: each asks what the kernel's text means, and plays the recordings that it gets.
#![tactic(auto)]

mod arguments;
mod laws;
mod session;

pub use arguments::takes_arguments;
/// The law on the runs of what a session runs.
pub use code_replies::runs_with_fitting_replies_are_meant;
/// What a session runs.
pub use core_code::Compiled;
pub use laws::{
    code_plays_recordings_where_it_asked_for_them, main_takes_no_arguments,
    outputs_and_resets_count, recordings_are_played_where_they_were_asked_for,
};
pub use session::run_session;
