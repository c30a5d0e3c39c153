// What holds of the lines of every kernel.

ghost use Rattle.kern_syntax.specs.Tree.{ProgramTree};
ghost use Rattle.code_forms.specs.Setting.{Setting};
ghost use Rattle.kernel_lines.specs.HaveLines.{ProgramHasLines};
ghost use Rattle.kernel_lines.specs.Laws.{AskersHaveLines, FirstsHaveLines, HaveTheirSize, InstructionsHaveLines, TextsHaveLines};

use code_forms::code_has_its_size;

/// Each statement and block has as many lines as its code has instructions, and so has a whole program. So the instruction
/// at a place has the line at that place.
pub fn each_instruction_has_a_line()
    ensures parts { (setting : Setting) → HaveTheirSize setting }
    ensures programs { (program : ProgramTree) → InstructionsHaveLines program }
{
    code_has_its_size();
}

/// In every kernel's text each statement, `elif`, `except` and `def` stands on a line, from 1. So an instruction that asks has a
/// line of the text, and so has the first one of each function.
pub fn what_asks_has_a_line()
    ensures texts { TextsHaveLines }
    ensures asks { (program : ProgramTree) → ProgramHasLines program → AskersHaveLines program }
    ensures begins { (program : ProgramTree) → ProgramHasLines program → FirstsHaveLines program }
{}
