//! Accepted kernels: from the bytes of a text to the kernel that it is, and to the code of that. The grammar, its limits and
//! the rules of types are those of `docs/LANGUAGE.md`. What is refused, and in which order, is this project's own.
#![tactic(auto)]

mod end;
mod laws;
mod reading;

pub use end::{KernelEnd, Refusal};
pub use laws::{a_text_has_one_program, no_kernel_is_refused};
pub use reading::{accept, compile_text};
