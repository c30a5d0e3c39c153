// The counter of a core.

ghost use Rattle.std.specs.Prelude.{◌≡◌, ◌↔◌, ◌<◌, ◌+◌, IsTrue, Some, None, not};
ghost use Rattle.rtio_types.specs.Requests.{is_well_formed, request_waiting};
ghost use Rattle.rtio_core.specs.Reply.{is_decided};
ghost use Rattle.rtio_core.specs.Core.{core_top};
ghost use Rattle.rtio_core.specs.Calls.{AnswersTick, has_to_wait, told_limit};

use super::Core;
use crate::Tick;
use crate::replies::reads;
use rtio_types::{Waiting, reading, whole_cycles};

impl Core {
    /// Raises the counter by one cycle, if it may go on: in an open session while it is within the limit, or a request
    /// waits that isn't decided; with no session open until every accepted event is put out. It ends at the horizon.
    pub fn tick(&mut self) -> Tick
        ensures { AnswersTick self.old result self.new }
    {
        if self.count == self.config.horizon {
            return Tick::Horizon;
        }
        if !self.goes_on() {
            return Tick::Held {
                limit: self.told_limit(),
            };
        }
        self.go();
        Tick::Went
    }

    /// Raises the counter by one cycle, which it may.
    pub(super) fn go(&mut self)
        requires { self.old.counter < core_top self.old }
        ensures { self.new ≡ record self.old { counter = self.old.counter + 1 } }
    {
        let before = self.outputs.count();
        self.outputs.advance(self.count);
        self.count += 1;
        let kept = self.outputs.put_out_after(before);
        self.inputs.cycle(self.count, kept);
    }

    /// Whether the next tick wouldn't raise the counter.
    pub fn stopped(&self) -> bool
        ensures { IsTrue result ↔ (self.now.counter ≡ core_top self.now) }
    {
        self.count == self.config.horizon || !self.goes_on()
    }

    // Whether the counter may rise, below the horizon.
    fn goes_on(&self) -> bool
        requires { self.now.counter < self.now.config.horizon }
        ensures { IsTrue result ↔ (self.now.counter < core_top self.now) }
    {
        match self.session {
            None => self.count < self.outputs.greatest,
            Some(_) => self.count < whole_cycles(self.limit) || self.waits(),
        }
    }

    // Whether a request waits that isn't decided.
    fn waits(&self) -> bool
        ensures { result ≡ has_to_wait self.now }
    {
        match self.pending {
            None => false,
            Some(waiting) => self.is_undecided(waiting),
        }
    }

    // Whether a request isn't decided at the counter.
    fn is_undecided(&self, waiting: Waiting) -> bool
        requires { IsTrue (is_well_formed (request_waiting waiting)) }
        ensures { result ≡ not (is_decided self.now.config self.now.history (request_waiting waiting) self.now.counter) }
    {
        match waiting {
            Waiting::Out(event) => self.outputs.lanes.waits(self.count, &event),
            Waiting::Wait { until } => reads(self.count) < until,
            Waiting::Edge { channel, up_to } => !self.inputs.is_decided(self.count, channel, up_to),
        }
    }

    // How far the session's answers reach (mu), or with no session open the events.
    fn told_limit(&self) -> u64
        requires below { self.now.counter < self.now.config.horizon }
        requires top { self.now.counter ≡ core_top self.now }
        ensures { result ≡ told_limit self.now }
    {
        match self.session {
            None => reading(self.outputs.greatest),
            Some(_) => self.limit,
        }
    }
}
