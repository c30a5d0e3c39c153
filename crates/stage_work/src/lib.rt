//! Workers of a laboratory: they take jobs from its scheduler, compile the sources of runs, run kernels on the cores of their
//! pipelines, and report. The stages of a run and its kernels' results are those of the ARTIQ manual's management system; how
//! workers go about them is this project's own.
#![tactic(auto)]

mod doing;
mod owned;
mod reporting;
mod runner;
mod serving;
mod starting;
mod taking;
mod tasks;

pub use doing::do_task;
pub use lab_kits::{Gate, Kit, OpenGate, Place, PrepareEnd, prepare};
/// Laws on what the work of chairs comes to in the histories that they leave.
pub use lab_ties::{cores_are_asked_at_top, judgements_last, ties_last};
pub use reporting::write_report;
pub use runner::Runner;
pub use serving::serve;
pub use taking::task_of;
pub use tasks::{Report, StepTask, Task};
