// Lines of code, put behind those that there are.

ghost use Rattle.std.specs.Prelude.{◌≡◌, ◌+◌, ◌++◌, [], ◌∷◌, OnOk, length};
ghost use Rattle.code_forms.specs.Lines.{line, straight};
ghost use Rattle.code_ranges.specs.Room.{HasRoom};

use crate::marks::mark_after;
use core_isa::{CodeLine, Instr, Mark};
use std::alloc::AllocError;

/// Puts one line behind those that there are.
pub fn put(lines: &mut Vec<CodeLine>, mark: Mark, instr: Instr) -> Result<(), AllocError>
    ensures code { OnOk result (lines.new.items ≡ lines.old.items ++ line mark instr ∷ []) }
    ensures longer { OnOk result (length lines.new.items ≡ length lines.old.items + 1) }
{
    lines.push(CodeLine { instr, mark })?;
    Ok(())
}

/// Puts lines one after another behind those that there are, with the marks that follow from the first one.
pub fn put_all(lines: &mut Vec<CodeLine>, mark: Mark, instrs: &[Instr]) -> Result<(), AllocError>
    requires { HasRoom mark (length instrs.now) }
    ensures code { OnOk result (lines.new.items ≡ lines.old.items ++ straight mark instrs.now) }
    ensures longer { OnOk result (length lines.new.items ≡ length lines.old.items + length instrs.now) }
{
    let mut now = mark;
    for instr in instrs.iter() {
        put(lines, now, *instr)?;
        now = mark_after(now, *instr);
    }
    Ok(())
}
