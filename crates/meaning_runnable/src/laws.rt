// What holds of every checked program.

ghost use Rattle.kern_syntax.specs.Spellable.{IsSpellableProgram};
ghost use Rattle.kern_syntax.specs.Tree.{ProgramTree};
ghost use Rattle.kern_types.specs.Programs.{IsTyped};
ghost use Rattle.meaning_steps.specs.RunnableStatements.{AreRunnableFunctions};

/// The functions of a typed program, whose integers are those of tokens, can run: each integer is one of 64 bits, and each
/// call that takes a text has one.
pub fn checked_programs_can_run()
    ensures { (program : ProgramTree) → IsSpellableProgram program → IsTyped program → AreRunnableFunctions program }
{}
