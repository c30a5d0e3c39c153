//! In which order a session's processor and its core take their steps. It is this project's own.
#![tactic(auto)]

mod schedule;

pub use schedule::{Schedule, Step};
