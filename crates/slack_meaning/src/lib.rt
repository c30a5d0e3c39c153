//! What a run of a kernel without a core is, and its verdict: whether an output of the kernel can come too late.
#![tactic(auto)]

mod span;
mod verdict;

pub use span::{Span, SpanEvent};
pub use verdict::{OpenKind, Stopped, Verdict};
