// The state of a kernel that runs.

use crate::early::{Early, Reason};
use crate::values::{Held, Variable, changed, hold, item, number_of, numbers_of, value_among};
use rtio_types::{Event, Exc, Reply, Request, Value};
use std::alloc::{AllocError, Global};
use std::marker::Model;
use std::mem;

/// The state of a kernel that runs: the values of its names, the cursor in machine units (mu), the units left, the
/// outputs collected in a record block if one is open, the replies left, and the requests asked so far. Contracts see
/// it as the state of the meaning.
#[derive(Drop)]
pub struct State<'a> {
    values: Vec<Variable>,
    cursor: i64,
    units: u32,
    collected: Option<Vec<Event>>,
    replies: &'a [Reply],
    asked: Vec<Request>,
}

impl<'a> Model for State<'a> {
    ghost use Rattle.std.specs.Prelude.{option_map};
    ghost use Rattle.timeline_sem.specs.Actions.{State as Meant};

    ghost Value = { Meant };

    ghost view = { λ s. record { values = s.values.items; cursor = s.cursor; units = s.units; collected = option_map (λ events. events.items) s.collected; replies = s.replies.now; asked = s.asked.items } };
}

/// What a record block sets aside until its end: the cursor before it, in mu, and the outputs collected before it.
/// Contracts see it as a pair.
#[derive(Debug, Drop)]
pub struct Recorder {
    cursor: i64,
    collected: Option<Vec<Event>>,
}

impl Model for Recorder {
    ghost use Rattle.std.specs.Prelude.{List, ℤ, Option, option_map};
    ghost use Rattle.rtio_types.specs.declared.event.Event.{Event};

    ghost Value = { ℤ × Option (List Event) };

    ghost view = { λ r. (r.cursor, option_map (λ events. events.items) r.collected) };
}

impl<'a> State<'a> {
    ghost use Rattle.std.specs.Prelude.{◌≡◌, [], IfOk, IfErr, Some, is_some, option_map, pos};
    ghost use Rattle.meaning_state.specs.Does.{Does, DoesAlways, EndsAs};
    ghost use Rattle.meaning_state.specs.Values.{value_held};
    ghost use Rattle.timeline_sem.specs.Actions.{ask, normal, take_unit};
    ghost use Rattle.timeline_sem.specs.Expressions.{list_in_value, number_in_value, read_element, value_of, with_value, write_element};
    ghost use Rattle.timeline_sem.specs.Programs.{opening};
    ghost use Rattle.timeline_sem.specs.Timeline.{append_event};

    /// The state before a function that begins at this cursor, in mu: nothing is asked or collected.
    pub fn opening(alloc: Global, cursor: i64, units: u32, replies: &'a [Reply]) -> State<'a>
        ensures { result ≡ opening cursor units replies.now }
    {
        State {
            values: Vec::new(alloc),
            cursor,
            units,
            collected: None,
            replies,
            asked: Vec::new(alloc),
        }
    }

    /// The requests asked, in order.
    pub fn into_asked(self) -> Vec<Request>
        ensures { result.items ≡ self.entry.asked }
    {
        self.asked
    }

    /// The units left.
    pub fn units(&self) -> u32
        ensures { result ≡ self.now.units }
    {
        self.units
    }

    /// Takes a unit, or ends where none is left.
    pub fn take_unit(&mut self) -> Result<(), Reason>
        ensures { DoesAlways result self.new (take_unit self.old) }
    {
        if self.units == 0 {
            return Err(Reason::Budget);
        }
        self.units -= 1;
        Ok(())
    }

    /// Makes a request whose unit is taken, and gives its reply unless that raises.
    pub fn ask(&mut self, request: Request) -> Result<&'a Reply, Early>
        ensures reply { IfOk result (λ reply. ask request self.old ≡ normal reply.now self.new) }
        ensures ends { IfErr result (λ end. EndsAs end self.new (ask request self.old)) }
    {
        self.asked.push(request)?;
        match self.replies.split_first() {
            None => Err(Early::Ended(Reason::Unanswered)),
            Some((reply, rest)) => {
                self.replies = rest;
                match exception_in(reply) {
                    None => Ok(reply),
                    Some(exception) => Err(Early::Ended(Reason::Raised(exception))),
                }
            }
        }
    }

    /// The cursor, in mu.
    pub fn cursor(&self) -> i64
        ensures { result ≡ self.now.cursor }
    {
        self.cursor
    }

    /// Sets the cursor, in mu.
    pub fn set_cursor(&mut self, cursor: i64)
        ensures { self.new ≡ record self.old { cursor = cursor } }
    {
        self.cursor = cursor;
    }

    /// Whether a record block is open.
    pub fn collects(&self) -> bool
        ensures { result ≡ is_some self.now.collected }
    {
        self.collected.is_some()
    }

    /// Adds an output to the collected ones, if a record block is open.
    pub fn collect(&mut self, event: Event) -> Result<(), Early>
        ensures { Does result self.new (append_event event self.old) }
    {
        if let Some(events) = &mut self.collected {
            events.push(event)?;
        }
        Ok(())
    }

    /// Opens a record block, with the cursor at 0 and nothing collected. What was there is set aside.
    pub fn open_recording(&mut self, alloc: Global) -> Recorder
        ensures opened { self.new ≡ record self.old { cursor = pos 0; collected = Some [] } }
        ensures aside { result ≡ (self.old.cursor, self.old.collected) }
    {
        let cursor = mem::replace(&mut self.cursor, 0);
        let collected = mem::replace(&mut self.collected, Some(Vec::new(alloc)));
        Recorder { cursor, collected }
    }

    /// Closes a record block, and gives what it collected. What was set aside is back.
    pub fn close_recording(&mut self, before: Recorder) -> Option<Vec<Event>>
        ensures closed { self.new ≡ record self.old { cursor = before.0; collected = before.1 } }
        ensures collected { option_map (λ events. events.items) result ≡ self.old.collected }
    {
        self.cursor = before.cursor;
        mem::replace(&mut self.collected, before.collected)
    }

    /// The number that a name holds, 0 for an array.
    pub fn number(&self, name: &[u8]) -> i64
        ensures { result ≡ number_in_value (value_of self.now.values name.now) }
    {
        number_of(&self.values, name)
    }

    /// The numbers of the array that a name holds, none for a number.
    pub fn numbers(&self, name: &[u8]) -> &[i64]
        ensures { result.now ≡ list_in_value (value_of self.now.values name.now) }
    {
        numbers_of(&self.values, name)
    }

    /// What a name holds, as a value of its own. The only error is want of memory.
    pub fn value(&self, alloc: Global, name: &[u8]) -> Result<Value, AllocError>
        ensures { IfOk result (λ value. value ≡ value_of self.now.values name.now) }
    {
        value_among(alloc, &self.values, name)
    }

    /// Lets a name hold something new.
    pub fn hold(&mut self, name: &[u8], held: Held)
        ensures { self.new ≡ record self.old { values = with_value self.old.values name.now (value_held held) } }
    {
        hold(&mut self.values, name, held);
    }

    /// An element of an array. An index outside it raises.
    pub fn element(&self, name: &[u8], index: i64) -> Result<i64, Reason>
        ensures { DoesAlways result self.now (read_element name.now index self.now) }
    {
        match item(numbers_of(&self.values, name), index) {
            Some(number) => Ok(number),
            None => Err(Reason::Raised(Exc::IndexError)),
        }
    }

    /// Writes an element of an array. An index outside it raises.
    pub fn set_element(
        &mut self,
        alloc: Global,
        name: &[u8],
        index: i64,
        number: i64,
    ) -> Result<(), Early>
        ensures { Does result self.new (write_element name.now index number self.old) }
    {
        let mut numbers = Vec::from_slice(alloc, self.numbers(name))?;
        if !changed(&mut numbers, index, number) {
            return Err(Early::Ended(Reason::Raised(Exc::IndexError)));
        }
        self.hold(name, Held::Array(numbers));
        Ok(())
    }

    /// Puts other names with their values in place of those that are there, which are handed back.
    pub fn exchange(&mut self, values: Vec<Variable>) -> Vec<Variable>
        ensures exchanged { self.new ≡ record self.old { values = values.items } }
        ensures before { result.items ≡ self.old.values }
    {
        mem::replace(&mut self.values, values)
    }
}

ghost use Rattle.std.specs.Prelude.{◌≡◌};
ghost use Rattle.rtio_types.specs.Replies.{raised_by};

// The exception that a reply raises.
fn exception_in(reply: &Reply) -> Option<Exc>
    ensures { result ≡ raised_by reply.now }
{
    match reply {
        Reply::Underflow => Some(Exc::RTIOUnderflow),
        Reply::Overflow => Some(Exc::RTIOOverflow),
        Reply::NoTrace | Reply::OldHandle | Reply::Full => Some(Exc::DMAError),
        _ => None,
    }
}
