// What an instruction leads to.

ghost use Rattle.std.specs.Prelude.{◌≡◌};
ghost use Rattle.core_cpu.specs.Courses.{asks_of, phase_after, phase_of};

use crate::phase::{Phase, Purpose};
use rtio_types::{Exc, Outcome, Request};

/// What an instruction leads to that asks nothing.
#[derive(Clone, Copy, Debug)]
pub enum Way {
    /// The instruction at the new place comes next.
    Goes,
    /// The last frame has ended.
    Returned,
    /// An exception that no handler takes.
    Raised(Exc),
    /// No unit is left.
    Spent,
}

/// What an instruction, or an output of a recording that is played, leads to.
#[derive(Debug, Drop)]
pub enum Course {
    /// It asks nothing.
    Silent(Way),
    /// It asks a request.
    Asks(Purpose, Request),
}

/// What comes next where nothing is asked.
pub fn after(way: Way) -> Phase
    ensures { result ≡ phase_after way }
{
    match way {
        Way::Goes => Phase::Ready,
        Way::Returned => Phase::Over(Outcome::Returned),
        Way::Raised(exception) => Phase::Over(Outcome::Raised(exception)),
        Way::Spent => Phase::Over(Outcome::Budget),
    }
}

/// What comes next, and the request that it asks.
pub fn settled(course: Course) -> (Phase, Option<Request>)
    ensures phase { result.0 ≡ phase_of course }
    ensures asks { result.1 ≡ asks_of course }
{
    match course {
        Course::Silent(way) => (after(way), None),
        Course::Asks(purpose, request) => (Phase::Asking(purpose), Some(request)),
    }
}
