// Where a CPU stops.

use rtio_types::{Outcome, Request};

/// Where a CPU stops.
#[derive(Debug, Drop)]
pub enum Stop {
    /// It asks a request, and goes on once it is answered.
    Ask(Request),
    /// It has come to its end: Returned, Raised or Budget.
    Ended(Outcome),
}
