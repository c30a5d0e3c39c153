//! At which place of its code a session's run asked each of its requests, and from which it ended.
#![tactic(auto)]

mod ends;
mod laws;
mod place;
mod places;
mod runs;
mod sessions;

pub use ends::line_at;
pub use laws::{ends_are_told, sessions_answer, sessions_ask};
pub use place::Place;
pub use runs::{RunPlaces, places_of_run};
pub use sessions::places_of_session;
