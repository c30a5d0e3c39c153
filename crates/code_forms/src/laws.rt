// What holds of the code of every kernel.

ghost use Rattle.std.specs.Prelude.{List};
ghost use Rattle.kern_syntax.specs.Tree.{Bytes, ProgramTree};
ghost use Rattle.code_forms.specs.Laws.{FunctionsHaveTheirSize, HasItsSize};
ghost use Rattle.code_forms.specs.Setting.{Setting};

/// The code of each expression, statement, block and function has as many instructions as its size says, wherever it stands
/// and whatever stands round it. So a jump over a part is known before the part's code is.
pub fn code_has_its_size()
    ensures parts { (setting : Setting) → HasItsSize setting }
    ensures functions { (program : ProgramTree) (texts : List Bytes) → FunctionsHaveTheirSize program texts }
{}
