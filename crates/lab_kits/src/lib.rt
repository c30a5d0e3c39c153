//! Kits: what the preparation of a run makes of the source of its experiment, for the run's kernel steps. A source is
//! accepted where it is a kernel's text and each kernel step of the experiment calls one of its functions with arguments
//! that fit. And the gates that workers pass. Preparation as a stage of its own is that of the ARTIQ manual's management
//! system; what is asked of a source there is this project's own.
#![tactic(auto)]

mod calls;
mod end;
mod gate;
mod kit;
mod preparing;

pub use end::PrepareEnd;
pub use gate::{Gate, OpenGate, Place};
pub use kit::Kit;
pub use preparing::prepare;
