// The marks of the code of every kernel.

ghost use Rattle.kern_syntax.specs.Tree.{ProgramTree};
ghost use Rattle.kern_types.specs.Checked.{IsChecked};
ghost use Rattle.core_isa.specs.Marks.{Marked};
ghost use Rattle.code_forms.specs.Programs.{code_of_program};

/// The code of a checked program is marked: at every place the instruction finds its operands, slots, names and channels, the
/// marks of the places that it leads to are what follows, a jump back goes to an instruction that takes a unit, and what asks
/// the core for more than outputs stands outside recordings and in no function that may be called in one. So no run of it is
/// ever stuck, and every run of it ends.
pub fn code_is_marked()
    ensures { (program : ProgramTree) → IsChecked program → Marked (code_of_program program) }
{}
