//! The compiler: code of the core's processor for each checked kernel, which does what the kernel's text means.
#![tactic(auto)]

mod compiling;
mod end;
mod functions;

pub use compiling::{Compiled, compile};
pub use end::CodeEnd;
