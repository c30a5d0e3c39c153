// The recording that is open.

ghost use Rattle.std.specs.Prelude.{◌≡◌, [], length, pos, is_some, option_map, IsTrue, None, Some, IfOk, OnErr};
ghost use Rattle.core_isa.specs.Machine.{OpenRecording, drop_recording, opened_by};
ghost use Rattle.core_isa.specs.Steps.{save_request};
ghost use Rattle.core_cpu.specs.Layout.{with_event};

use crate::layout::OpenBlock;
use crate::state::State;
use rtio_types::{Event, Name, Recording, Request};
use std::alloc::{AllocError, Global};

impl State {
    /// Whether a recording is open.
    pub fn is_recording(&self) -> bool
        ensures { result ≡ is_some self.now.machine.recording }
    {
        self.recording.is_some()
    }

    /// Whether the function that runs opened the recording that is open.
    pub fn opened_here(&self) -> bool
        ensures { result ≡ opened_by (length self.now.machine.callers) self.now.machine.recording }
    {
        match &self.recording {
            Some(block) => block.callers == self.callers.count(),
            None => false,
        }
    }

    /// Opens a recording of a name: keeps the cursor and sets it to 0.
    pub fn open_recording(&mut self, alloc: Global, name: Name)
        ensures { self.new ≡ record self.old {
          machine = record self.old.machine {
            cursor = pos 0;
            recording = Some (record {
              name = name;
              saved = self.old.machine.cursor;
              events = [];
              callers = length self.old.machine.callers;
            });
          };
        } }
    {
        self.recording = Some(OpenBlock {
            name,
            saved: self.cursor,
            events: Vec::new(alloc),
            callers: self.callers.count(),
        });
        self.cursor = 0;
    }

    /// Adds an output to the recording that is open, and tells whether one is. The only error is want of memory.
    pub fn collect(&mut self, event: Event) -> Result<bool, AllocError>
        ensures open { IfOk result (λ open_now. open_now ≡ is_some self.old.machine.recording) }
        ensures adds { IfOk result (λ open_now. self.new ≡ record self.old {
          machine = record self.old.machine {
            recording = option_map (with_event event) self.old.machine.recording;
          };
        }) }
        ensures same { OnErr result (self.new ≡ self.old) }
        ensures memory { OnErr result (IsTrue (is_some self.old.machine.recording)) }
    {
        let Some(mut block) = self.recording.take() else {
            return Ok(false);
        };
        let pushed = block.events.push(event);
        self.recording = Some(block);
        pushed?;
        Ok(true)
    }

    /// Closes the recording that is open, with the cursor as its length, and gives back the cursor before it. The
    /// request has it kept.
    pub fn close_recording(&mut self) -> Request
        requires { IsTrue (is_some self.old.machine.recording) }
        ensures request { (block : OpenRecording) → self.old.machine.recording ≡ Some block →
            result ≡ save_request block self.old.machine.cursor }
        ensures closed { self.new ≡ record self.old { machine = drop_recording self.old.machine } }
    {
        let length = self.cursor;
        match self.recording.take() {
            Some(
                OpenBlock {
                    name,
                    saved,
                    events,
                    callers: _,
                },
            ) => {
                self.cursor = saved;
                Request::Save {
                    name,
                    recording: Recording { events, length },
                }
            }
            None => unreachable!(),
        }
    }

    /// Drops the recording that is open, if there is one, which gives back the cursor before it.
    pub fn drop_recording(&mut self)
        ensures { self.new ≡ record self.old { machine = drop_recording self.old.machine } }
    {
        if let Some(block) = self.recording.take() {
            self.cursor = block.saved;
        }
    }
}
