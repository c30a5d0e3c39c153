// What moves the cursor, and what is asked at it.

use crate::early::{Early, Reason};
use crate::state::State;
use limits::LEAD;
use meaning_numbers::{low_word, moved_on};
use rtio_types::{Event, Reply, Request};

impl<'a> State<'a> {
    ghost use Rattle.std.specs.Prelude.{◌≡◌};
    ghost use Rattle.meaning_state.specs.Does.{Does};
    ghost use Rattle.rtio_types.specs.declared.request.Request.TheVariants as Q;
    ghost use Rattle.rtio_types.specs.Time.{later, shifted};
    ghost use Rattle.timeline_sem.specs.Timeline.{count_all_edges, gate, move_to_real_time, output, play, play_events, pulse_for, reset_core, tell};

    /// Moves the cursor, in mu, wrapping at 64 bits.
    pub fn delay(&mut self, time: i64)
        ensures { self.new ≡ record self.old { cursor = later self.old.cursor time } }
    {
        let moved = moved_on(self.cursor(), time);
        self.set_cursor(moved);
    }

    /// An output at the cursor, which is collected where a record block is open.
    pub fn output(&mut self, channel: u8, address: u8, word: i64) -> Result<(), Early>
        ensures { Does result self.new (output channel address word self.old) }
    {
        let event = Event {
            channel,
            address,
            value: low_word(word),
            stamp: self.cursor(),
        };
        if self.collects() {
            self.take_unit()?;
            return self.collect(event);
        }
        self.tell(Request::Out(event))
    }

    /// A pulse of a length in mu.
    pub fn pulse(&mut self, channel: u8, time: i64) -> Result<(), Early>
        ensures { Does result self.new (pulse_for channel time self.old) }
    {
        self.output(channel, 0, 1)?;
        self.delay(time);
        self.output(channel, 0, 0)
    }

    /// An input's sensitivity for a time in mu. It gives the cursor at the end.
    pub fn gate(&mut self, channel: u8, sensitivity: i64, time: i64) -> Result<i64, Early>
        ensures { Does result self.new (gate channel sensitivity time self.old) }
    {
        self.output(channel, 2, sensitivity)?;
        self.delay(time);
        self.output(channel, 2, 0)?;
        Ok(self.cursor())
    }

    /// Asks for edges below a stamp in mu until there is none, and gives their number, wrapping at 32 bits.
    pub fn count(&mut self, channel: u8, up_to: i64) -> Result<i64, Early>
        ensures { Does result self.new (count_all_edges (Q.Edge channel up_to) self.old) }
    {
        let mut edges = 0i32;
        let mut left = self.units();
        while left > 0 {
            let reply = self.request(Request::Edge { channel, up_to })?;
            if is_no_edge(reply) {
                return Ok(edges as i64);
            }
            edges = one_more(edges);
            left -= 1;
        }
        Err(Early::Ended(Reason::Budget))
    }

    /// Submits the events of a recording, moved by a time in mu.
    pub fn play_events(&mut self, events: &[Event], start: i64) -> Result<(), Early>
        ensures { Does result self.new (play_events events.now start self.old) }
    {
        for event in events.iter() {
            self.play_event(*event, start)?;
        }
        Ok(())
    }

    // Submits an event, moved by a time in mu.
    fn play_event(&mut self, event: Event, start: i64) -> Result<(), Early>
        ensures { Does result self.new (tell (Q.Out (shifted event start)) self.old) }
    {
        let moved = Event {
            stamp: moved_on(event.stamp, start),
            ..event
        };
        self.tell(Request::Out(moved))
    }

    /// Fetches a recording and plays it at the cursor, which then moves by its length.
    pub fn play(&mut self, asked: Request) -> Result<(), Early>
        ensures { Does result self.new (play asked self.old) }
    {
        let reply = self.request(asked)?;
        if let Reply::Trace(recording) = reply {
            let start = self.cursor();
            self.play_events(&recording.events, start)?;
            self.delay(recording.length);
        }
        Ok(())
    }

    /// Reads the counter and moves the cursor to its lead, where it is behind.
    pub fn move_to_real_time(&mut self) -> Result<(), Early>
        ensures { Does result self.new (move_to_real_time self.old) }
    {
        let reading = self.inquire(Request::Counter)?;
        let cursor = self.cursor().max(moved_on(reading, LEAD as i64));
        self.set_cursor(cursor);
        Ok(())
    }

    /// Resets the core and sets the cursor to the lead over its reading.
    pub fn reset_core(&mut self) -> Result<(), Early>
        ensures { Does result self.new (reset_core self.old) }
    {
        let reading = self.inquire(Request::Reset)?;
        self.set_cursor(moved_on(reading, LEAD as i64));
        Ok(())
    }
}

ghost use Rattle.std.specs.Prelude.{◌≡◌, ◌+ℤ◌, pos};
ghost use Rattle.std.specs.Int.{int_wrap, w32};
ghost use Rattle.meaning_state.specs.Edges.{is_no_edge};

// Whether a reply says that there is no edge.
fn is_no_edge(reply: &Reply) -> bool
    ensures { result ≡ is_no_edge reply.now }
{
    matches!(reply, Reply::NoEdge)
}

// A count and one more, wrapping at 32 bits.
fn one_more(count: i32) -> i32
    ensures { result ≡ int_wrap w32 (count +ℤ pos 1) }
{
    count.wrapping_add(1)
}
