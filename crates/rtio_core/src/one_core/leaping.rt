// Many cycles of a core at once.

ghost use Rattle.std.specs.Prelude.{◌≡◌, ◌≤◌, ◌<◌, ◌+◌, ◌-◌, IsTrue, min};
ghost use Rattle.rtio_core.specs.Core.{core_top};
ghost use Rattle.rtio_core.specs.Leaps.{goes_to, waits_to};

use super::Core;
use rtio_types::{Waiting, counter_reaching, whole_cycles};

// What was passed over.
#[derive(Clone, Copy)]
struct Passed {
    // How many cycles.
    cycles: u64,
    // Whether the counter may rise further for certain.
    goes_on: bool,
}

impl Core {
    /// Raises the counter by up to `max` cycles and answers by how many: the core is as after so many ticks that went. They
    /// are fewer than `max` only where the next tick wouldn't go. Cycles without a held event and without an edge are passed
    /// over together, so the time that it takes doesn't depend on how far apart events lie.
    pub fn leap(&mut self, max: u64) -> u64
        ensures count { result ≡ min max (core_top self.old - self.old.counter) }
        ensures after { self.new ≡ record self.old { counter = self.old.counter + result } }
    {
        // No counter is further than it may be.
        let _known = self.history();
        let mut left = max;
        while left > 0 && !self.stopped() {
            let passed = self.pass(left);
            left -= passed.cycles;
            if left > 0 && (passed.goes_on || passed.cycles == 0) {
                self.go();
                left -= 1;
            }
        }
        max - left
    }

    // Passes over cycles in which nothing happens, at most so many.
    fn pass(&mut self, most: u64) -> Passed
        ensures most { result.cycles ≤ most }
        ensures within { self.old.counter + result.cycles ≤ core_top self.old }
        ensures goes_on { IsTrue result.goes_on → self.old.counter + result.cycles < core_top self.old }
        ensures after { self.new ≡ record self.old { counter = self.old.counter + result.cycles } }
    {
        let edge = self.inputs.next_cycle().unwrap_or(u64::MAX);
        let quiet = self.outputs.next.min(edge).saturating_sub(1);
        if quiet <= self.count {
            return Passed {
                cycles: 0,
                goes_on: false,
            };
        }
        let reach = self.goes_to();
        let to = reach.min(quiet).min(self.count.saturating_add(most));
        let cycles = to.saturating_sub(self.count);
        self.count += cycles;
        Passed {
            cycles,
            goes_on: to < reach,
        }
    }

    // Up to which counter it goes on, if nothing is put out and no edge comes before.
    fn goes_to(&self) -> u64
        ensures { result ≡ goes_to self.now }
    {
        let reach = match self.session {
            None => self.outputs.greatest,
            Some(_) => whole_cycles(self.limit).max(self.waits_to()),
        };
        reach.min(self.config.horizon)
    }

    // Up to which counter the request waits then.
    fn waits_to(&self) -> u64
        ensures { result ≡ waits_to self.now self.now.waiting }
    {
        match self.pending {
            None => 0,
            Some(Waiting::Out(event)) => {
                self.outputs.lanes.wait(self.count, &event).unwrap_or(0)
            }
            Some(Waiting::Wait { until }) => counter_reaching(until),
            Some(Waiting::Edge { channel, up_to }) => {
                if self.inputs.is_decided(self.count, channel, up_to) {
                    0
                } else {
                    counter_reaching(up_to)
                }
            }
        }
    }
}
