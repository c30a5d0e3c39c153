// The code that leaves a loop or a function, without the handlers that were added inside it.

ghost use Rattle.std.specs.Prelude.{◌≡◌, ◌+◌, ◌++◌, [], ◌∷◌, OnOk, length};
ghost use Rattle.code_forms.specs.Lines.{end_tries, straight};

use core_code_expressions::lines::put;
use core_isa::{CodeLine, Instr, Mark};
use std::alloc::AllocError;

/// Removes so many handlers one by one, and then does an instruction.
pub fn put_behind_handlers(
    lines: &mut Vec<CodeLine>,
    mark: Mark,
    count: u8,
    last: Instr,
) -> Result<(), AllocError>
    ensures code { OnOk result (lines.new.items ≡ lines.old.items ++ straight mark (end_tries count ++ last ∷ [])) }
    ensures longer { OnOk result (length lines.new.items ≡ length lines.old.items + (count + 1)) }
{
    let mut now = mark;
    for _ in 0..count {
        put(lines, now, Instr::EndTry)?;
        now.tries = now.tries.saturating_sub(1);
    }
    put(lines, now, last)
}
