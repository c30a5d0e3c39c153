//! Sessions as JSON texts: the session that a text is, or its first fault with the path to it. The text is read with
//! `serde_json`; the fields, their ranges and the order of the faults are this project's own, and stand as tables in
//! `specs/`.
#![tactic(auto)]

mod around;
mod arrival;
mod experiment;
pub mod laws;
mod list;
mod pipeline;
mod session;
mod step;
mod submission;
mod words;

pub use exp_model::PathText;
pub use json_fields::FieldKind;
pub use session::{SessionFault, read_session};
