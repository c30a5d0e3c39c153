// Functions and their parts, as far as there was memory for them.

ghost use Rattle.std.specs.Prelude.{◌≡◌, ◌∷◌, List, map};
ghost use Rattle.kern_expressions.specs.Kept.{IsNamed, KeptAs};
ghost use Rattle.kern_lexer.specs.Bytes.{Bytes};
ghost use Rattle.kern_parser.specs.FunctionSteps.{function_tree};
ghost use Rattle.kern_syntax.specs.Tree.{Block as BlockTree, FunctionTree, ParameterTree};
ghost use Rattle.kern_syntax.specs.TreeOf.{block_of, function_of, parameter_of, tree_of};

use kern_syntax::{Block, DeclaredType, Function, Identifier, Parameter, ParameterList, Program};

/// A parameter with its type.
pub fn declared_parameter(name: Option<Identifier>, declared: DeclaredType) -> Option<Parameter>
    ensures { (x : Bytes) → IsNamed name x → KeptAs parameter_of result (record { name = x; declared = declared }) }
{
    let name = name?;
    Some(Parameter { name, declared })
}

/// A parameter before others.
pub fn with_first(first: Option<Parameter>, more: Option<Vec<Parameter>>) -> Option<Vec<Parameter>>
    ensures { (p : ParameterTree) (ps : List ParameterTree) → KeptAs parameter_of first p →
        KeptAs (λ v. map parameter_of v.items) more ps → KeptAs (λ v. map parameter_of v.items) result (p ∷ ps) }
{
    let mut parameters = more?;
    parameters.insert(0, first?).ok()?;
    Some(parameters)
}

/// A function of its parts, whose `def` stands on a line.
pub fn whole_function(
    line: u32,
    name: Option<Identifier>,
    parameters: Option<Vec<Parameter>>,
    result_type: Option<DeclaredType>,
    body: Option<Block>,
) -> Option<Function>
    ensures { (x : Bytes) (ps : List ParameterTree) (b : BlockTree) → IsNamed name x →
        KeptAs (λ v. map parameter_of v.items) parameters ps → KeptAs block_of body b →
        KeptAs function_of result (function_tree line x ps result_type b) }
{
    Some(Function {
        line,
        name: name?,
        parameters: ParameterList::of(parameters?),
        result: result_type,
        body: body?,
    })
}

/// A program of its functions.
pub fn whole_program(functions: Option<Vec<Function>>) -> Option<Program>
    ensures { (fs : List FunctionTree) → KeptAs (λ v. map function_of v.items) functions fs → KeptAs tree_of result fs }
{
    Some(Program::of(functions?))
}
