//! The program `artiq_sim` as a function of its words and bytes, with what it promises: what it writes is the report of a run
//! whose outputs are just those that the kernel means.
#![tactic(auto)]

mod answer;
mod finish;
mod image;
mod link;
mod refusal;
mod report;
mod run;
mod top;
mod wave;

pub use finish::finish_of;
pub use refusal::line_of_end;
pub use run::{Run, run_main, start_of};
pub use top::sim_top;
pub use top_calls::{own_words, without_memory};
