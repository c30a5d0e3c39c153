// What moves the cursor, and what is asked at it.

use crate::early::{Early, Reason};
use crate::spans::{greatest, is_near_or_number};
use crate::state::State;
use meaning_numbers::low_byte;
use slack_meaning::{OpenKind, Span};

impl State {
    ghost use Rattle.std.specs.Prelude.{◌≡◌};
    ghost use Rattle.slack_meaning.specs.Actions.{within_reach};
    ghost use Rattle.slack_meaning.specs.Timeline.{ask_edge, ask_unknown, gate, move_to_real_time, play_handle, pulse_for, reset_core, wait_until, write_raw};
    ghost use Rattle.slack_state.specs.Does.{Does, DoesAlways};

    /// A span that may not reach too far; a number may.
    pub fn within_reach(&self, span: Span) -> Result<Span, Reason>
        ensures { DoesAlways result self.now (within_reach span self.now) }
    {
        if is_near_or_number(span) {
            return Ok(span);
        }
        Err(self.unknown(OpenKind::Far))
    }

    /// A pulse of a length in mu.
    pub fn pulse(&mut self, channel: u8, time: Span) -> Result<(), Early>
        ensures { Does result self.new (pulse_for channel time self.old) }
    {
        self.output(channel, 0, 1)?;
        self.delay(time)?;
        self.output(channel, 0, 0)
    }

    /// An input's sensitivity for a time in mu. It gives the cursor at the end.
    pub fn gate(&mut self, channel: u8, sensitivity: i64, time: Span) -> Result<Span, Early>
        ensures { Does result self.new (gate channel sensitivity time self.old) }
    {
        self.output(channel, 2, sensitivity)?;
        self.delay(time)?;
        self.output(channel, 2, 0)?;
        Ok(self.cursor())
    }

    /// A raw output, whose address and data are numbers.
    pub fn write_raw(&mut self, channel: u8, address: Span, word: Span) -> Result<(), Early>
        ensures { Does result self.new (write_raw channel address word self.old) }
    {
        let number = self.number(address)?;
        let data = self.number(word)?;
        self.output(channel, low_byte(number), data)
    }

    /// Moves the cursor to the lead over a reading, where it is behind.
    pub fn move_to_real_time(&mut self) -> Result<(), Reason>
        ensures { DoesAlways result self.new (move_to_real_time self.old) }
    {
        self.take_unit()?;
        let lead = self.read_lead()?;
        let end = self.within_reach(greatest(self.cursor(), lead))?;
        self.set_cursor(end);
        Ok(())
    }

    /// Resets the core and sets the cursor to the lead over its reading.
    pub fn reset_core(&mut self) -> Result<(), Reason>
        ensures { DoesAlways result self.new (reset_core self.old) }
    {
        self.take_unit()?;
        let lead = self.read_lead()?;
        self.set_cursor(lead);
        Ok(())
    }

    /// Waits until a moment in mu.
    pub fn wait_until(&mut self, moment: Span) -> Result<(), Reason>
        ensures { DoesAlways result self.new (wait_until moment self.old) }
    {
        let number = self.number(moment)?;
        self.take_unit()?;
        self.await_moment(number);
        Ok(())
    }

    /// A request that can't be answered without a core: a unit is taken, and the run stops.
    pub fn ask_unknown(&mut self, why: OpenKind) -> Result<Span, Reason>
        ensures { DoesAlways result self.new (ask_unknown why self.old) }
    {
        self.take_unit()?;
        Err(self.unknown(why))
    }

    /// A request for edges below a stamp in mu, which can't be answered without a core.
    pub fn ask_edge(&mut self, up_to: Span) -> Result<Span, Reason>
        ensures { DoesAlways result self.new (ask_edge up_to self.old) }
    {
        self.number(up_to)?;
        self.ask_unknown(OpenKind::Edge)
    }

    /// A playback by a handle, which can't be answered without a core.
    pub fn play_handle(&mut self, handle: Span) -> Result<(), Reason>
        ensures { DoesAlways result self.new (play_handle handle self.old) }
    {
        self.number(handle)?;
        self.take_unit()?;
        Err(self.unknown(OpenKind::Kept))
    }
}
