// The state of a kernel's slack run.

use crate::early::{Early, Reason};
use crate::meter::Meter;
use crate::recordings::{Saved, SpanRecording, at_hand, forget, is_full_for, remember};
use crate::spans::{exactly, is_number};
use crate::values::{
    Held, Variable, are_numbers_in, changed, hold, hold_at, item, number_at, number_of, numbers_of,
    place_of,
};
use limits::MOST_BUDGET;
use meaning_numbers::low_word;
use rtio_types::{Exc, Name};
use slack_meaning::{OpenKind, Span, SpanEvent, Stopped};
use std::alloc::Global;
use std::marker::Model;
use std::mem;

/// The state of a slack run: the values of the names, the cursor in machine units (mu), the outputs collected in a record
/// block if one is open, the names saved, and the run's numbers. Contracts see it as the state of the definitions.
#[derive(Drop)]
pub struct State {
    values: Vec<Variable>,
    cursor: Span,
    collected: Option<Vec<SpanEvent>>,
    saved: Vec<Saved>,
    meter: Meter,
}

impl Model for State {
    ghost use Rattle.std.specs.Prelude.{option_map};
    ghost use Rattle.slack_meaning.specs.Actions.{State as Run};
    ghost use Rattle.slack_state.specs.Meters.{IsSolvent};

    ghost Value = { Run };

    ghost view = { λ s. record { values = s.values.items; cursor = s.cursor; units = s.meter.units; collected = option_map (λ events. events.items) s.collected; limit = s.meter.limit; least = s.meter.least; outs = s.meter.outs; requests = s.meter.requests; saved = s.saved.items; cost = s.meter.cost; depth = s.meter.depth } };

    ghost invariant = { λ s. IsSolvent s.meter };
}

/// What a record block sets aside until its end: the cursor before it, in mu, and the outputs collected before it.
/// Contracts see it as a pair.
#[derive(Debug, Drop)]
pub struct Recorder {
    cursor: Span,
    collected: Option<Vec<SpanEvent>>,
}

impl Model for Recorder {
    ghost use Rattle.std.specs.Prelude.{List, Option, option_map};
    ghost use Rattle.slack_meaning.specs.declared.span.Span.{Span as Bounds};
    ghost use Rattle.slack_meaning.specs.declared.span.SpanEvent.{SpanEvent as Output};

    ghost Value = { Bounds × Option (List Output) };

    ghost view = { λ r. (r.cursor, option_map (λ events. events.items) r.collected) };
}

impl State {
    ghost use Rattle.std.specs.Prelude.{◌≡◌, ◌≤◌, OnOk};
    ghost use Rattle.slack_meaning.specs.Actions.{set_cursor, take_unit};
    ghost use Rattle.limits.specs.Limits.{most_budget, most_cost};
    ghost use Rattle.slack_meaning.specs.Programs.{opening};
    ghost use Rattle.slack_meaning.specs.Timeline.{append_event, delay, output};
    ghost use Rattle.slack_state.specs.Does.{Does, DoesAlways};

    /// The state before a kernel, with all the units of a run: cursor 0, and nothing asked, collected or saved.
    pub fn opening(alloc: Global, cost: u64, depth: u32) -> State
        requires { cost ≤ most_cost }
        ensures { result ≡ opening most_budget cost depth }
    {
        State {
            values: Vec::new(alloc),
            cursor: exactly(0),
            collected: None,
            saved: Vec::new(alloc),
            meter: Meter {
                units: MOST_BUDGET as u32,
                limit: 0,
                least: 0,
                outs: 0,
                requests: 0,
                cost,
                depth,
            },
        }
    }

    /// The units left.
    pub fn units(&self) -> u32
        ensures { result ≡ self.now.units }
    {
        self.meter.units
    }

    /// How many outputs were asked.
    pub fn outs(&self) -> u64
        ensures { result ≡ self.now.outs }
    {
        self.meter.outs
    }

    /// Takes a unit, or ends where none is left.
    pub fn take_unit(&mut self) -> Result<(), Reason>
        ensures does { DoesAlways result self.new (take_unit self.old) }
        ensures paid { OnOk result (HasPaid (meter_in self.new)) }
    {
        self.meter.take_unit()
    }

    /// A request that is answered at once, whose unit is taken.
    pub fn answer(&mut self)
        requires { HasPaid (meter_in self.now) }
        ensures { answered self.old ≡ A.normal tt self.new }
    {
        self.meter.answer();
    }

    /// A wait until a moment in mu, whose unit is taken.
    pub fn await_moment(&mut self, moment: i64)
        requires { HasPaid (meter_in self.now) }
        ensures { await moment self.old ≡ A.normal tt self.new }
    {
        self.meter.await_moment(moment);
    }

    /// An output, whose unit is taken, unless it may come too late.
    pub fn submit(&mut self, event: &SpanEvent) -> Result<(), Reason>
        requires { HasPaid (meter_in self.now) }
        ensures { DoesAlways result self.new (submit event.now self.old) }
    {
        self.meter.submit(event)
    }

    /// The lead over a reading of the counter, whose unit is taken, unless it may reach too far.
    pub fn read_lead(&mut self) -> Result<Span, Reason>
        requires { HasPaid (meter_in self.now) }
        ensures { DoesAlways result self.new (read_lead self.old) }
    {
        self.meter.read_lead()
    }

    ghost use Rattle.slack_meaning.specs.Answers.{answered, await, read_lead, submit};
    ghost use Rattle.slack_state.specs.Meters.{HasPaid, meter_in};

    /// Whether a record block is open.
    pub fn collects(&self) -> bool
        ensures { result ≡ is_some self.now.collected }
    {
        self.collected.is_some()
    }

    /// Adds an output to the collected ones, if a record block is open.
    pub fn collect(&mut self, event: SpanEvent) -> Result<(), Early>
        ensures { Does result self.new (append_event event self.old) }
    {
        if let Some(events) = &mut self.collected {
            events.push(event)?;
        }
        Ok(())
    }

    ghost use Rattle.std.specs.Prelude.{is_some};

    /// The cursor, in mu.
    pub fn cursor(&self) -> Span
        ensures { result ≡ self.now.cursor }
    {
        self.cursor
    }

    /// Sets the cursor, in mu.
    pub fn set_cursor(&mut self, cursor: Span)
        ensures { self.new ≡ record self.old { cursor = cursor } }
    {
        self.cursor = cursor;
    }

    /// Can't go on.
    pub fn unknown(&self, why: OpenKind) -> Reason
        ensures { reason_of result ≡ A.decided (W.Unknown self.now.requests why) }
    {
        Reason::Decided(Stopped::Unknown {
            requests: self.meter.requests,
            why,
        })
    }

    ghost use Rattle.slack_meaning.specs.Actions as A;
    ghost use Rattle.slack_meaning.specs.declared.verdict.Stopped.TheVariants as W;
    ghost use Rattle.slack_state.specs.Ends.{reason_of};

    /// The number that a span is, where a number is wanted.
    pub fn number(&self, span: Span) -> Result<i64, Reason>
        ensures { DoesAlways result self.now (A.as_number span self.now) }
    {
        if is_number(span) {
            return Ok(span.least);
        }
        Err(self.unknown(OpenKind::Span))
    }

    /// A moment moved on by a time: numbers wrap, and a span may not reach too far.
    pub fn moved(&self, moment: Span, time: Span) -> Result<Span, Reason>
        ensures { DoesAlways result self.now (moved moment time self.now) }
    {
        self.meter.moved(moment, time)
    }

    ghost use Rattle.slack_meaning.specs.Timeline.{moved};

    /// Moves the cursor on, in mu.
    pub fn delay(&mut self, time: Span) -> Result<(), Reason>
        ensures { DoesAlways result self.new (delay time self.old) }
    {
        let end = self.moved(self.cursor, time)?;
        self.cursor = end;
        Ok(())
    }

    /// An output at the cursor, which is collected where a record block is open.
    pub fn output(&mut self, channel: u8, address: u8, word: i64) -> Result<(), Early>
        ensures { Does result self.new (output channel address word self.old) }
    {
        let event = SpanEvent {
            channel,
            address,
            value: low_word(word),
            stamp: self.cursor,
        };
        self.take_unit()?;
        if self.collects() {
            return self.collect(event);
        }
        self.submit(&event)?;
        Ok(())
    }

    ghost use Rattle.std.specs.Prelude.{[], Some, option_map, pos};
    ghost use Rattle.slack_meaning.specs.Expressions.{are_numbers, held_by, read_element, span_in, spans_in, with_held, write_element};
    ghost use Rattle.slack_meaning.specs.Spans.{exactly};
    ghost use Rattle.slack_state.specs.Entries.{held_at, place_of, with_held_at};
    ghost use Rattle.slack_state.specs.Values.{held_of};

    /// Opens a record block, with the cursor at 0 and nothing collected. What was there is set aside.
    pub fn open_recording(&mut self, alloc: Global) -> Recorder
        ensures opened { self.new ≡ record self.old { cursor = exactly (pos 0); collected = Some [] } }
        ensures aside { result ≡ (self.old.cursor, self.old.collected) }
    {
        let cursor = mem::replace(&mut self.cursor, exactly(0));
        let collected = mem::replace(&mut self.collected, Some(Vec::new(alloc)));
        Recorder { cursor, collected }
    }

    /// Closes a record block, and gives what it collected. What was set aside is back.
    pub fn close_recording(&mut self, before: Recorder) -> Option<Vec<SpanEvent>>
        ensures closed { self.new ≡ record self.old { cursor = before.0; collected = before.1 } }
        ensures collected { option_map (λ events. events.items) result ≡ self.old.collected }
    {
        self.cursor = before.cursor;
        mem::replace(&mut self.collected, before.collected)
    }

    /// What a name holds, the number 0 for an array.
    pub fn span(&self, name: &[u8]) -> Span
        ensures { result ≡ span_in (held_by self.now.values name.now) }
    {
        number_of(&self.values, name)
    }

    /// The place of a name among the values, which is behind the last one where the name isn't there.
    #[inline(always)]
    pub fn place(&self, name: &[u8]) -> usize
        ensures { result ≡ place_of self.now.values name.now }
    {
        place_of(&self.values, name)
    }

    /// What a place holds, the number 0 for an array or where nothing is.
    #[inline(always)]
    pub fn span_at(&self, place: usize) -> Span
        ensures { result ≡ span_in (held_at self.now.values place) }
    {
        number_at(&self.values, place)
    }

    /// The elements of the array that a name holds, none for a number.
    pub fn spans(&self, name: &[u8]) -> &[Span]
        ensures { result.now ≡ spans_in (held_by self.now.values name.now) }
    {
        numbers_of(&self.values, name)
    }

    /// Whether no span is among what a name holds.
    pub fn holds_numbers(&self, name: &[u8]) -> bool
        ensures { result ≡ are_numbers (held_by self.now.values name.now) }
    {
        are_numbers_in(&self.values, name)
    }

    /// Lets a name hold something new.
    #[inline(always)]
    pub fn hold(&mut self, name: &[u8], held: Held)
        ensures { self.new ≡ record self.old { values = with_held self.old.values name.now (held_of held) } }
    {
        hold(&mut self.values, name, held);
    }

    /// Lets a place hold something new, if it is there.
    #[inline(always)]
    pub fn hold_at(&mut self, place: usize, held: Held)
        ensures { self.new ≡ record self.old { values = with_held_at self.old.values place (held_of held) } }
    {
        hold_at(&mut self.values, place, held);
    }

    /// An element of an array. A span as the index ends the run, and an index outside the array raises.
    pub fn element(&self, name: &[u8], index: Span) -> Result<Span, Reason>
        ensures { DoesAlways result self.now (read_element name.now index self.now) }
    {
        let place = self.number(index)?;
        match item(numbers_of(&self.values, name), place) {
            Some(span) => Ok(span),
            None => Err(Reason::Raised(Exc::IndexError)),
        }
    }

    /// Writes an element of an array, by the same rules.
    pub fn set_element(
        &mut self,
        alloc: Global,
        name: &[u8],
        index: Span,
        span: Span,
    ) -> Result<(), Early>
        ensures { Does result self.new (write_element name.now index span self.old) }
    {
        let place = self.number(index)?;
        let mut spans = Vec::from_slice(alloc, self.spans(name))?;
        if !changed(&mut spans, place, span) {
            return Err(Early::Ended(Reason::Raised(Exc::IndexError)));
        }
        self.hold(name, Held::Array(spans));
        Ok(())
    }

    /// Puts other names with their values in place of those that are there, which are handed back.
    pub fn exchange(&mut self, values: Vec<Variable>) -> Vec<Variable>
        ensures exchanged { self.new ≡ record self.old { values = values.items } }
        ensures before { result.items ≡ self.old.values }
    {
        mem::replace(&mut self.values, values)
    }

    /// Saves a recording under a name, whose unit is taken.
    pub fn save(&mut self, name: Name, recording: SpanRecording) -> Result<(), Early>
        requires { HasPaid (meter_in self.now) }
        ensures { Does result self.new (save name recording self.old) }
    {
        if is_full_for(&self.saved, &name) {
            return Err(Early::Ended(self.unknown(OpenKind::Names)));
        }
        remember(&mut self.saved, name, recording)?;
        self.meter.answer();
        Ok(())
    }

    /// Erases the recording of a name, whose unit is taken.
    pub fn erase(&mut self, name: &Name) -> Result<(), Reason>
        requires { HasPaid (meter_in self.now) }
        ensures { DoesAlways result self.new (erase name.now self.old) }
    {
        if at_hand(&self.saved, name).is_none() {
            return Err(self.unknown(OpenKind::Kept));
        }
        forget(&mut self.saved, name);
        self.meter.answer();
        Ok(())
    }

    /// Plays the recording of a name at the cursor, which then moves by its length.
    pub fn play(&mut self, name: &Name) -> Result<(), Reason>
        ensures { DoesAlways result self.new (play name.now self.old) }
    {
        self.take_unit()?;
        let start = self.cursor;
        match at_hand(&self.saved, name) {
            None => Err(self.unknown(OpenKind::Kept)),
            Some(recording) => {
                self.meter.answer();
                let played = self.meter.play_events(recording.events.as_slice(), start);
                let length = recording.length;
                match played {
                    Ok(()) => self.delay(length),
                    Err(reason) => Err(reason),
                }
            }
        }
    }

    ghost use Rattle.slack_meaning.specs.Answers.{erase, save};
    ghost use Rattle.slack_meaning.specs.Timeline.{play};
}
