// That values keep their types, that what fits a function's parameters is of their types, and that the rules of types give the
// compiler what it asks for.

ghost use Rattle.kern_syntax.specs.Tree.{ProgramTree};
ghost use Rattle.kern_types.specs.Programs.{IsTyped};
ghost use Rattle.typed_runs.specs.KeepsTypes.{KeepsTypes};

use code_suited::typed_programs_are_suited;
use kern_judgement::programs_are_typed_as_judged;

/// In every run of a typed program each name has values of its type, from the beginning of each function on: an int32 has 32
/// bits, a truth value is 0 or 1, an array keeps its length. What an expression or a function gives is of its type. Only a
/// statement in a loop ends by `break` or `continue`, and none in a parallel or record block ends by `return`. A call ends with
/// the values that its caller had.
pub fn values_keep_their_types()
    ensures { (program : ProgramTree) → IsTyped program → KeepsTypes program }
{}

ghost use Rattle.std.specs.Prelude.{List, ℤ};
ghost use Rattle.kern_syntax.specs.Tree.{ParameterTree};
ghost use Rattle.kern_arguments.specs.Fitting.{ArgumentsFit};
ghost use Rattle.typed_runs.specs.Values.{AreArgumentsOf};

/// Arguments that fit a function's parameters are of the parameters' types. A kernel step calls a function with such arguments
/// alone, so that what `values_keep_their_types` says of a function's beginning holds there.
pub fn fitting_arguments_are_typed()
    ensures { (parameters : List ParameterTree) (args : List ℤ) → ArgumentsFit parameters args → AreArgumentsOf parameters args }
{}

ghost use Rattle.kern_syntax.specs.Spellable.{IsSpellableProgram};
ghost use Rattle.kern_judgement.specs.Programs.{IsTypedByRules};
ghost use Rattle.code_forms.specs.Suited.{IsSuitedProgram};

/// A program that is typed by the rules, whose integers are those of tokens, gives the compiler what it asks for. All that its
/// inductions take from typing is this predicate.
pub fn judged_programs_are_suited()
    ensures { (program : ProgramTree) → IsSpellableProgram program → IsTypedByRules program → IsSuitedProgram program }
{
    programs_are_typed_as_judged();
    typed_programs_are_suited();
}
