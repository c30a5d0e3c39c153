// A scheduler as a value that may lie on a desk.

use crate::payload::Payload;
use crate::sched::Sched;
use desk_rule::Booked;
use exp_model::Session;
use sched_state::SchedAct;

impl<P: Payload> Booked for Sched<P> {
    type Act = SchedAct;

    type Fixed = Session;

    ghost use Rattle.sched_core.specs.Booked.{booked_acts};

    ghost history = { λ sched. booked_acts sched.history };

    ghost fixed = { λ sched. sched.session };
}

fn sent<X: Send>(_: &X) {}

// A scheduler may be sent where its kits may.
fn may_be_sent<P: Payload + Send>(sched: &Sched<P>) {
    sent(sched);
}
