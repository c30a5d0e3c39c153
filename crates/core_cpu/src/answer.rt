// What the replies to requests lead to.

ghost use Rattle.std.specs.Prelude.{◌≡◌, ◌+◌, ◌<◌, ◌^◌, false, length, List, None};
ghost use Rattle.rtio_types.specs.Replies.{number_in, raised_by};
ghost use Rattle.rtio_types.specs.declared.request.Reply.{Reply};
ghost use Rattle.rtio_types.specs.declared.request.Request.{Request};
ghost use Rattle.core_isa.specs.Machine.{raise_or};
ghost use Rattle.core_cpu.specs.Moments.{is_asking, proceed, take_reply, with_history};
ghost use Rattle.core_cpu.specs.Settled.{HasRoom, IsProper};

use crate::phase::{Phase, Purpose};
use crate::playback::Playback;
use crate::state::State;
use rtio_types::{Exc, Outcome, Reply};

// The exception that a reply raises.
fn exception_in(reply: &Reply) -> Option<Exc>
    ensures { result ≡ raised_by reply.now }
{
    match reply {
        Reply::Underflow => Some(Exc::RTIOUnderflow),
        Reply::Overflow => Some(Exc::RTIOOverflow),
        Reply::NoTrace | Reply::OldHandle | Reply::Full => Some(Exc::DMAError),
        _ => None,
    }
}

// The number in a reply; -1 for no edge.
fn number(reply: &Reply) -> i64
    ensures { result ≡ number_in reply.now }
{
    match reply {
        Reply::Time(number) | Reply::Stamp(number) | Reply::Handle(number) => *number,
        Reply::NoEdge => -1,
        _ => 0,
    }
}

/// Takes a reply, which raises or serves its purpose. A recording is taken over as it is.
pub fn answer(state: &mut State, purpose: Purpose, reply: Reply) -> Phase
    requires closed { state.old.machine.recording ≡ None }
    requires place { state.old.machine.top.place + 1 < 2 ^ 32 }
    requires room { HasRoom purpose state.old.machine }
    ensures takes { (more : List Reply) (before : List Request) →
        raise_or (raised_by reply) (take_reply purpose reply) (with_history state.old.machine more before)
        ≡ proceed result (with_history state.new.machine more before) }
    ensures asks { is_asking result ≡ false }
    ensures proper { IsProper state.new.machine result }
    ensures width { state.new.width ≡ state.old.width }
    ensures steps { state.new.machine.steps ≡ state.old.machine.steps }
    ensures cursor { state.new.machine.cursor ≡ state.old.machine.cursor }
    ensures units { state.new.machine.units ≡ state.old.machine.units }
{
    if let Some(exception) = exception_in(&reply) {
        return if state.raise(exception) {
            Phase::Ready
        } else {
            Phase::Over(Outcome::Raised(exception))
        };
    }
    match purpose {
        Purpose::Number => state.push(number(&reply)),
        Purpose::Nothing => {}
        Purpose::Fetched => {
            if let Reply::Trace(recording) = reply {
                return Phase::Playing(Playback::of(recording));
            }
        }
        Purpose::Played(left) => return Phase::Playing(left),
    }
    state.go_to(state.place() + 1);
    Phase::Ready
}
