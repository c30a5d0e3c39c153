// What the meaning of a whole function gives.

use rtio_types::Exc;

/// How the run of a function ends under the replies that it is given.
#[derive(Clone, Copy, Debug, PartialEq, Eq)]
pub enum MeantOutcome {
    /// It came to its end.
    Returned,
    /// It raised an exception that it didn't take.
    Raised(Exc),
    /// It used up its units.
    Budget,
    /// Its last request has no reply.
    Unanswered,
}
