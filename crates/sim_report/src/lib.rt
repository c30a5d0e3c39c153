//! The texts in which `artiq_sim` reports a run, in this project's own form: the report, the summary, and the recordings
//! that are kept. The lines that the laboratory's report has too can be written one by one.
#![tactic(auto)]

mod closing;
mod datasets;
mod events;
mod key;
mod numbers;
mod pending;
mod recordings;
mod steps;
mod texts;

pub use closing::{name_of_exception, write_moment};
pub use datasets::write_value;
pub use events::{write_events, write_log};
pub use key::text_of;
pub use pending::{pending_events, pends};
pub use recordings::dma_lines;
pub use texts::{report, summary};
