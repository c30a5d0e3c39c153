// What holds of every typed program.

ghost use Rattle.kern_syntax.specs.Spellable.{IsSpellableProgram};
ghost use Rattle.kern_syntax.specs.Tree.{ProgramTree};
ghost use Rattle.kern_types.specs.Programs.{IsTyped};
ghost use Rattle.code_forms.specs.Suited.{IsSuitedProgram};

/// A typed program, whose integers are those of tokens, gives the compiler what it asks for: each name is there with its kind,
/// each call has what it takes, a loop's statement stands in a loop, a `return` where it may end the function, and a plain
/// function has nothing that may not stand where a recording is open, as nothing that stands in a record block does. A function
/// has at most 64 names, of which at most 8 are parameters, and each array has from 1 to 512 numbers.
pub fn typed_programs_are_suited()
    ensures { (program : ProgramTree) → IsSpellableProgram program → IsTyped program → IsSuitedProgram program }
{}
