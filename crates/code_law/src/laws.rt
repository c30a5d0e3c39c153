// What the code of every kernel does.

ghost use Rattle.std.specs.Prelude.{◌≤◌};
ghost use Rattle.limits.specs.Limits.{most_nodes};
ghost use Rattle.kern_syntax.specs.Nodes.{program_nodes};
ghost use Rattle.kern_syntax.specs.Tree.{ProgramTree};
ghost use Rattle.kern_types.specs.Checked.{IsChecked};
ghost use Rattle.code_forms.specs.Programs.{code_of_program};
ghost use Rattle.code_ranges.specs.Laws.{IsFit};
ghost use Rattle.code_law.specs.DoesAs.{DoesAs};

/// The code of a checked program of at most 16,384 nodes does what the program does, from each of its functions and under any
/// replies that fit their requests; and it is accepted.
pub fn code_does_as()
    ensures { (program : ProgramTree) → IsChecked program → program_nodes program ≤ most_nodes → DoesAs program (code_of_program program) }
{}

/// A checked program of at most 16,384 nodes has what the ranges of its code ask for.
pub fn checked_programs_are_fit()
    ensures { (program : ProgramTree) → IsChecked program → program_nodes program ≤ most_nodes → IsFit program }
{}
