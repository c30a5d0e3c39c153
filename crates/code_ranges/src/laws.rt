// What the code of every kernel fits. A kernel is a checked program of at most 16,384 nodes, whose code is at most 16 times as
// long and has its functions in order (`IsFit`): of a larger program nothing is said.

ghost use Rattle.kern_syntax.specs.Tree.{ProgramTree};
ghost use Rattle.core_image.specs.Accepted.{MainTakesNothing};
ghost use Rattle.core_image.specs.Ranges.{IsInRange};
ghost use Rattle.code_forms.specs.Programs.{code_of_program};
ghost use Rattle.code_ranges.specs.Laws.{FunctionsAreReady, IsFit};

/// The code of each function of a kernel can be put behind the code of those before it: the marks are of bytes, the slots of
/// two bytes and the places of four, and the integers are those of tokens.
pub fn functions_are_ready()
    ensures { (program : ProgramTree) → IsFit program → FunctionsAreReady program }
{}

/// Each field of a kernel's code is in its range, so there is an image of it.
pub fn code_is_in_range()
    ensures { (program : ProgramTree) → IsFit program → IsInRange (code_of_program program) }
{}

/// The main function of a kernel's code takes no arguments.
pub fn main_takes_nothing()
    ensures { (program : ProgramTree) → IsFit program → MainTakesNothing (code_of_program program) }
{}
