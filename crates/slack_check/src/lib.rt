//! The slack checker: whether an output of a kernel can come too late at a request cost, answered without running a core. Its
//! verdict is that of the run without a core, and its yes holds of every core.
#![tactic(auto)]

mod line;
mod whole;

pub use line::slack_line;
pub use slack_meaning::{OpenKind, Verdict};
pub use whole::slack;
