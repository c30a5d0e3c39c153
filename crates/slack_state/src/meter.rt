// The numbers of a slack run.

ghost use Rattle.std.specs.Prelude.{◌≡◌};
ghost use Rattle.slack_state.specs.Meters.{HasPaid, IsSolvent, MeterDoes, metered};
ghost use Rattle.slack_meaning.specs.Actions as A;
ghost use Rattle.slack_meaning.specs.Actions.{take_unit};
ghost use Rattle.slack_meaning.specs.Answers.{answered, await, read_lead, submit};

use crate::early::Reason;
use crate::spans::{FARTHEST, are_both_numbers, exactly, sum};
use limits::LEAD;
use meaning_numbers::moved_on;
use rtio_types::{Event, counter_reaching, cycle_of_stamp, reading, whole_cycles};
use slack_meaning::{OpenKind, Span, SpanEvent, Stopped};

/// The units left, a bound for the core's limit and the least that its counter reads, both in mu, how many outputs and requests
/// were asked, the cost of a request in mu, and how many events a lane takes at least.
#[derive(Clone, Copy, Debug, PartialEq, Eq)]
pub struct Meter {
    pub units: u32,
    pub limit: u64,
    pub least: u64,
    pub outs: u64,
    pub requests: u64,
    pub cost: u64,
    pub depth: u32,
}

// What the counter reads first at a moment in mu or after it.
fn reading_at(moment: i64) -> u64
    ensures { result ≡ reading (counter_reaching moment) }
{
    reading(counter_reaching(moment))
}

ghost use Rattle.rtio_types.specs.Time.{counter_reaching, reading};

impl Meter {
    ghost use Rattle.std.specs.Prelude.{◌≡◌};

    /// Takes a unit, or ends where none is left.
    pub fn take_unit(&mut self) -> Result<(), Reason>
        requires { IsSolvent self.now }
        ensures does { (a : A.State) → MeterDoes result (metered a self.old) (metered a self.new) (take_unit (metered a self.old)) }
        ensures solvent { IsSolvent self.new }
        ensures paid { OnOk result (HasPaid self.new) }
    {
        if self.units == 0 {
            return Err(Reason::Budget);
        }
        self.units -= 1;
        Ok(())
    }

    ghost use Rattle.std.specs.Prelude.{OnOk};

    /// A request that is answered at once, whose unit is taken.
    pub fn answer(&mut self)
        requires { HasPaid self.now }
        ensures does { (a : A.State) → answered (metered a self.old) ≡ A.normal tt (metered a self.new) }
        ensures solvent { IsSolvent self.new }
    {
        self.limit += self.cost;
        self.requests += 1;
    }

    /// A wait until a moment in mu, whose unit is taken.
    pub fn await_moment(&mut self, moment: i64)
        requires { HasPaid self.now }
        ensures does { (a : A.State) → await moment (metered a self.old) ≡ A.normal tt (metered a self.new) }
        ensures solvent { IsSolvent self.new }
    {
        let reading = reading_at(moment);
        self.limit = self.limit.max(reading) + self.cost;
        self.least = self.least.max(reading);
        self.requests += 1;
    }

    /// An output, whose unit is taken, unless it may come too late.
    pub fn submit(&mut self, event: &SpanEvent) -> Result<(), Reason>
        requires { HasPaid self.now }
        ensures does { (a : A.State) → MeterDoes result (metered a self.old) (metered a self.new) (submit event.now (metered a self.old)) }
        ensures solvent { IsSolvent self.new }
    {
        if cycle_of_stamp(event.stamp.least) <= whole_cycles(self.limit) {
            let earliest = Event {
                channel: event.channel,
                address: event.address,
                value: event.value,
                stamp: event.stamp.least,
            };
            return Err(Reason::Decided(Stopped::TooLate {
                number: self.outs,
                event: earliest,
                limit: self.limit,
            }));
        }
        if self.outs >= self.depth as u64 {
            let waited = reading(cycle_of_stamp(event.stamp.greatest).saturating_sub(1));
            self.limit = self.limit.max(waited);
        }
        self.limit += self.cost;
        self.requests += 1;
        self.outs += 1;
        Ok(())
    }

    /// The lead over a reading of the counter, whose unit is taken, unless it may reach too far.
    pub fn read_lead(&mut self) -> Result<Span, Reason>
        requires { HasPaid self.now }
        ensures does { (a : A.State) → MeterDoes result (metered a self.old) (metered a self.new) (read_lead (metered a self.old)) }
        ensures solvent { IsSolvent self.new }
    {
        if self.limit + LEAD > FARTHEST as u64 {
            return Err(Reason::Decided(Stopped::Unknown {
                requests: self.requests,
                why: OpenKind::Far,
            }));
        }
        let lead = Span {
            least: (self.least + LEAD) as i64,
            greatest: (self.limit + LEAD) as i64,
        };
        self.limit += self.cost;
        self.requests += 1;
        Ok(lead)
    }

    /// A moment moved on by a time: numbers wrap, and a span may not reach too far.
    pub fn moved(&self, moment: Span, time: Span) -> Result<Span, Reason>
        ensures { (a : A.State) → DoesAlways result (metered a self.now) (moved moment time (metered a self.now)) }
    {
        if are_both_numbers(moment, time) {
            return Ok(exactly(moved_on(moment.least, time.least)));
        }
        match sum(moment, time) {
            Some(span) => Ok(span),
            None => Err(Reason::Decided(Stopped::Unknown {
                requests: self.requests,
                why: OpenKind::Far,
            })),
        }
    }

    ghost use Rattle.slack_meaning.specs.Timeline.{moved, play_event, play_events};
    ghost use Rattle.slack_state.specs.Does.{DoesAlways};

    // Submits an event of a recording, moved by a time in mu.
    fn play_event(&mut self, event: &SpanEvent, time: Span) -> Result<(), Reason>
        requires { IsSolvent self.now }
        ensures does { (a : A.State) → DoesAlways result (metered a self.new) (play_event event.now time (metered a self.old)) }
        ensures solvent { IsSolvent self.new }
    {
        let stamp = self.moved(event.stamp, time)?;
        self.take_unit()?;
        let moved = SpanEvent {
            channel: event.channel,
            address: event.address,
            value: event.value,
            stamp,
        };
        self.submit(&moved)
    }

    /// Submits the events of a recording, moved by a time in mu.
    pub fn play_events(&mut self, events: &[SpanEvent], time: Span) -> Result<(), Reason>
        requires { IsSolvent self.now }
        ensures does { (a : A.State) → DoesAlways result (metered a self.new) (play_events events.now time (metered a self.old)) }
        ensures solvent { IsSolvent self.new }
    {
        for event in events.iter() {
            self.play_event(event, time)?;
        }
        Ok(())
    }
}
