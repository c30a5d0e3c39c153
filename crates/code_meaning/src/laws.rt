// What the code of every kernel does.

ghost use Rattle.std.specs.Prelude.{◌*◌, ◌≤◌, length};
ghost use Rattle.kern_syntax.specs.Nodes.{program_nodes};
ghost use Rattle.kern_syntax.specs.Tree.{ProgramTree};
ghost use Rattle.kern_types.specs.Checked.{IsChecked};
ghost use Rattle.core_isa.specs.Marks.{HasOrder};
ghost use Rattle.code_forms.specs.Programs.{code_of_program};
ghost use Rattle.code_meaning.specs.Laws.{CodeDoesWhatItMeans};

/// The code of a checked program does what the program means: for every function, fitting arguments, cursor, units and replies
/// that fit their requests, a run of the code asks the same requests as the timeline meaning, ends with the same outcome, at the
/// same cursor and with the same units left.
pub fn code_does_what_the_program_means()
    ensures { (program : ProgramTree) → IsChecked program → CodeDoesWhatItMeans program }
{}

/// The functions of the code stand one behind another from place 0 on, in the order of the text, each within the code, and each
/// has a slot for every parameter: so an image can hold them.
pub fn functions_stand_in_order()
    ensures { (program : ProgramTree) → HasOrder (code_of_program program) }
{}

/// The code of a checked program has at most 16 instructions for each node of its tree.
pub fn code_is_short()
    ensures { (program : ProgramTree) → IsChecked program → length (code_of_program program).lines ≤ 16 * program_nodes program }
{}
