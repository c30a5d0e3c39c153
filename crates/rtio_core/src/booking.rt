// A core as a value that may lie on a desk, and be handed from thread to thread.

use crate::{Act, Config, Core};
use desk_rule::Booked;

impl Booked for Core {
    type Act = Act;

    type Fixed = Config;

    ghost use Rattle.rtio_core.specs.Booked.{booked_acts};

    ghost history = { λ core. booked_acts core.history };

    ghost fixed = { λ core. core.config };
}

fn sent<X: Send>(_: &X) {}

fn shared<X: Sync>(_: &X) {}

// The prover is shown here, where the fields are known, that a core may cross threads.
fn may_cross_threads(core: &Core) {
    sent(core);
    shared(core);
}
