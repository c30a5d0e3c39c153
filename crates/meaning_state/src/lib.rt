//! The state of a kernel that runs on the timeline, and the parts that every kernel is made of: units, requests,
//! outputs, the cursor, the values of names, and the methods of the language.
#![tactic(auto)]

mod early;
mod methods;
mod requests;
mod state;
mod timed;
mod values;

pub use early::{Early, Reason};
pub use methods::{first_number, perform};
pub use state::{Recorder, State};
pub use values::{Held, Variable};
