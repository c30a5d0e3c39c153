// What the entries of a history are to the lanes.

ghost use Rattle.std.specs.Prelude.{◌≡◌};
ghost use Rattle.sim_report.specs.Steps.{is_done_reply, step_in};

use rtio_core::{Act, Entry};
use rtio_types::{Event, Reply, Request};

/// What an entry of a history is to the lanes.
#[derive(Clone, Copy, Debug, PartialEq, Eq)]
pub enum Step {
    /// An output was asked; `is_done` says whether the reply is Done.
    Submits { event: Event, is_done: bool },
    /// A reset cleared the lanes.
    Clears,
    /// Anything else.
    Other,
}

/// What an entry is to the lanes.
pub fn step_of(entry: &Entry) -> Step
    ensures { result ≡ step_in entry.now.act }
{
    match &entry.act {
        Act::Asked {
            request: Request::Out(event),
            reply,
            ..
        } => Step::Submits {
            event: *event,
            is_done: is_done(reply),
        },
        Act::Asked {
            request: Request::Reset,
            ..
        } => Step::Clears,
        _ => Step::Other,
    }
}

fn is_done(reply: &Reply) -> bool
    ensures { result ≡ is_done_reply reply.now }
{
    matches!(reply, Reply::Done)
}
