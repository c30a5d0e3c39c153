// The machine's frames in memory.

ghost use Rattle.std.specs.Prelude.{◌≡◌};

use crate::layout::{Activation, Handler, OpenBlock};
use crate::stack::Stack;
use std::marker::Model;

/// The state of the machine, which contracts see as that machine, without its requests and replies, and the greatest
/// number of slots that a frame may have. Memory for 64 frames is kept from the beginning.
#[derive(Debug, Drop)]
pub struct State {
    pub(crate) here: Activation,
    pub(crate) callers: Stack<Activation>,
    pub(crate) slots: Stack<i64>,
    pub(crate) operands: Stack<i64>,
    pub(crate) handlers: Stack<Handler>,
    pub(crate) cursor: i64,
    pub(crate) units: u32,
    pub(crate) steps: u64,
    pub(crate) recording: Option<OpenBlock>,
    pub(crate) width: usize,
}

impl Model for State {
    ghost use Rattle.std.specs.Prelude.{◌≡◌, ◌+◌, ◌∷◌, [], length, drop, option_map};
    ghost use Rattle.core_cpu.specs.Layout.{Held, frame_of, frames_of, opened, IsLaidOut};

    ghost Value = { Held };

    ghost view = { λ s. record {
      machine = record {
        top = frame_of s.here s.slots.0 s.operands.0 s.handlers.0;
        callers = frames_of s.callers.0 (drop s.here.function.slots s.slots.0) (drop s.here.height s.operands.0) (drop s.here.tries s.handlers.0);
        cursor = s.cursor;
        units = s.units;
        recording = option_map opened s.recording;
        replies = [];
        asked = [];
        steps = s.steps;
      };
      width = s.width;
    } };

    ghost invariant = { λ s.
        (s.callers.1 + length s.callers.0 ≡ 63)
        × IsLaidOut s.width (s.here ∷ s.callers.0) s.slots s.operands s.handlers };
}

impl State {
    /// How many instructions have begun.
    pub fn steps(&self) -> u64
        ensures { result ≡ self.now.machine.steps }
    {
        self.steps
    }

    /// The cursor, in mu.
    pub fn cursor(&self) -> i64
        ensures { result ≡ self.now.machine.cursor }
    {
        self.cursor
    }

    /// The units left.
    pub fn units(&self) -> u32
        ensures { result ≡ self.now.machine.units }
    {
        self.units
    }
}
