// The state before the first instruction.

ghost use Rattle.std.specs.Prelude.{◌≡◌, ◌≤◌, [], length, IfOk};
ghost use Rattle.core_isa.specs.Runs.{boot};

use crate::layout::{Activation, Handler};
use crate::stack::Stack;
use crate::state::State;
use core_isa::CodeFunction;
use std::alloc::{AllocError, Global};

impl State {
    /// The state before the first instruction of a function, where no function has more than `width` slots. The cursor
    /// is in mu. Memory for all frames is taken here; the only error is want of it.
    pub fn first(
        alloc: Global,
        width: u16,
        function: CodeFunction,
        args: &[i64],
        cursor: i64,
        units: u32,
    ) -> Result<State, AllocError>
        requires arguments { length args.now ≤ function.slots }
        requires slots { function.slots ≤ width }
        ensures { IfOk result (λ state. state ≡ record {
          machine = boot function args.now cursor units [];
          width = width;
        }) }
    {
        let width = width as usize;
        let here = Activation {
            function,
            place: function.first,
            height: 0,
            tries: 0,
        };
        let bare = Handler {
            place: 0,
            recording: false,
        };
        let callers = Stack::with_room(alloc, 63, here)?;
        let mut slots = Stack::with_room(alloc, 64 * width, 0)?;
        let operands = Stack::with_room(alloc, 64 * 255, 0)?;
        let handlers = Stack::with_room(alloc, 64 * 255, bare)?;
        slots.fill(function.slots as usize - args.len(), 0);
        slots.put(args);
        Ok(State {
            here,
            callers,
            slots,
            operands,
            handlers,
            cursor,
            units,
            steps: 0,
            recording: None,
            width,
        })
    }
}
