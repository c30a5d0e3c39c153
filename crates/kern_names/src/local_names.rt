// The names of a function with their types.

ghost use Rattle.std.specs.Prelude.{◌≡◌, ◌+◌, ◌<◌, Contains, IfOk, OnErr, OnOk, length, map};
ghost use Rattle.kern_syntax.specs.TreeOf.{block_of, function_of, parameter_of};
ghost use Rattle.kern_calls.specs.Types.{names_of};
ghost use Rattle.kern_names.specs.Assignments.{block_assignments};
ghost use Rattle.kern_names.specs.Parameters.{AreNew, named_parameters};
ghost use Rattle.kern_names.specs.ScopeOf.{program_of};

use crate::functions::Functions;
use crate::names::Names;
use crate::scope::Scope;
use crate::types::type_of;
use kern_calls::{ValueType, declared_type, wider};
use kern_syntax::{Block, Expr, Function, Handler, Parameter, StmtKind, Target};
use std::alloc::{AllocError, Global};

/// The names of a function of the program with their types, its parameters first. It ends early only for want of memory, and
/// only where the function has a parameter or assigns to a name.
pub fn names_of(
    alloc: Global,
    functions: &Functions<'_>,
    function: &Function,
) -> Result<Names, AllocError>
    requires { Contains (program_of functions.now) (function_of function.now) }
    ensures names { IfOk result (λ names. names ≡ names_of (program_of functions.now) (function_of function.now)) }
    ensures memory { OnErr result (0 < length function.now.parameters + block_assignments (block_of function.now.body)) }
{
    let mut names = Names::new(alloc);
    add_parameters(alloc, &mut names, function.parameters.items())?;
    add_block(alloc, functions, &mut names, &function.body)?;
    Ok(names)
}

// Puts the parameters of a function behind the names that there are.
fn add_parameters(
    alloc: Global,
    names: &mut Names,
    parameters: &[Parameter],
) -> Result<(), AllocError>
    requires { AreNew names.old (map parameter_of parameters.now) }
    ensures names { OnOk result (names.new ≡ named_parameters names.old (map parameter_of parameters.now)) }
    ensures memory { OnErr result (0 < length parameters.now) }
{
    for parameter in parameters.iter() {
        add_parameter(alloc, names, parameter)?;
    }
    Ok(())
}

ghost use Rattle.std.specs.Prelude.{◌++◌, [], ◌∷◌, None};
ghost use Rattle.kern_calls.specs.Calls.{look_up};
ghost use Rattle.kern_calls.specs.Types.{declared_type};

fn add_parameter(alloc: Global, names: &mut Names, parameter: &Parameter) -> Result<(), AllocError>
    requires { look_up names.old parameter.now.name ≡ None }
    ensures { OnOk result (names.new ≡ names.old ++ (parameter.now.name, declared_type parameter.now.declared) ∷ []) }
{
    names.add(
        alloc,
        parameter.name.bytes(),
        declared_type(parameter.declared),
    )
}

ghost use Rattle.kern_syntax.specs.TreeOf.{handlers_of, statement_of};
ghost use Rattle.kern_calls.specs.Types.{names_after, names_after_block, names_after_handlers};
ghost use Rattle.kern_names.specs.Arrays.{BlockArraysFit, HandlersArraysFit, StatementArraysFit};
ghost use Rattle.kern_names.specs.Assignments.{assignments, handlers_assignments};

#[cycle(names)]
fn add_block(
    alloc: Global,
    functions: &Functions<'_>,
    names: &mut Names,
    block: &Block,
) -> Result<(), AllocError>
    requires { BlockArraysFit (block_of block.now) }
    ensures names { OnOk result (names.new ≡ names_after_block (program_of functions.now) (block_of block.now) names.old) }
    ensures memory { OnErr result (0 < block_assignments (block_of block.now)) }
{
    for statement in block.statements.iter() {
        add_statement(alloc, functions, names, &statement.kind)?;
    }
    Ok(())
}

#[cycle(names)]
fn add_statement(
    alloc: Global,
    functions: &Functions<'_>,
    names: &mut Names,
    statement: &StmtKind,
) -> Result<(), AllocError>
    requires { StatementArraysFit (statement_of statement.now) }
    ensures names { OnOk result (names.new ≡ names_after (program_of functions.now) (statement_of statement.now) names.old) }
    ensures memory { OnErr result (0 < assignments (statement_of statement.now)) }
{
    match statement {
        StmtKind::Assign(Target::Variable(x), e) => {
            let kind = type_in(functions, names, e);
            names.assign(alloc, x.bytes(), kind)
        }
        StmtKind::ArrayRepeat(x, _, count) => names.assign(alloc, x.bytes(), array_of(*count)),
        StmtKind::ArrayList(x, elements) => {
            names.assign(alloc, x.bytes(), array_of(elements.len() as u64))
        }
        StmtKind::If(_, body, branches, last) => {
            add_block(alloc, functions, names, body)?;
            for branch in branches.iter() {
                add_block(alloc, functions, names, &branch.body)?;
            }
            add_else(alloc, functions, names, last)
        }
        StmtKind::ForTo(x, to, body) => {
            let kind = type_in(functions, names, to);
            names.assign(alloc, x.bytes(), kind)?;
            add_block(alloc, functions, names, body)
        }
        StmtKind::ForFromTo(x, from, to, body) => {
            let kind = wider(
                type_in(functions, names, from),
                type_in(functions, names, to),
            );
            names.assign(alloc, x.bytes(), kind)?;
            add_block(alloc, functions, names, body)
        }
        StmtKind::While(_, body)
        | StmtKind::Parallel(body)
        | StmtKind::Sequential(body)
        | StmtKind::Record(_, body) => add_block(alloc, functions, names, body),
        StmtKind::Try(body, handlers) => {
            add_block(alloc, functions, names, body)?;
            add_handlers(alloc, functions, names, handlers)
        }
        StmtKind::Pass
        | StmtKind::Break
        | StmtKind::Continue
        | StmtKind::Return(_)
        | StmtKind::Evaluate(_)
        | StmtKind::Assign(Target::Element(_, _), _)
        | StmtKind::Augmented(_, _, _) => Ok(()),
    }
}

ghost use Rattle.kern_calls.specs.Types.{scope_of, type_of};
ghost use Rattle.kern_syntax.specs.TreeOf.{expression_of};

// The type of an expression of a function that has these names so far.
fn type_in(functions: &Functions<'_>, names: &Names, e: &Expr) -> ValueType
    ensures { result ≡ type_of (scope_of (program_of functions.now) names.now) (expression_of e.now) }
{
    type_of(
        &Scope {
            functions: *functions,
            names,
        },
        e,
    )
}

ghost use Rattle.kern_calls.specs.declared.types.ValueType.TheVariants as V;
ghost use Rattle.kern_names.specs.Arrays.{ArrayFits};

// The type of an array of so many numbers.
fn array_of(length: u64) -> ValueType
    requires { ArrayFits length }
    ensures { result ≡ V.Array length }
{
    ValueType::Array(length as u16)
}

ghost use Rattle.kern_syntax.specs.TreeOf.{branches_of};
ghost use Rattle.kern_calls.specs.Types.{names_after_otherwise};
ghost use Rattle.kern_names.specs.Arrays.{OtherwiseArraysFit};
ghost use Rattle.kern_names.specs.Assignments.{otherwise_assignments};

// The `else` of an `if`, if it has one.
#[cycle(names)]
fn add_else(
    alloc: Global,
    functions: &Functions<'_>,
    names: &mut Names,
    last: &Option<Block>,
) -> Result<(), AllocError>
    requires { OtherwiseArraysFit (branches_of [] last.now) }
    ensures names { OnOk result (names.new ≡ names_after_otherwise (program_of functions.now) (branches_of [] last.now) names.old) }
    ensures memory { OnErr result (0 < otherwise_assignments (branches_of [] last.now)) }
{
    match last {
        Some(body) => add_block(alloc, functions, names, body),
        None => Ok(()),
    }
}

#[cycle(names)]
fn add_handlers(
    alloc: Global,
    functions: &Functions<'_>,
    names: &mut Names,
    handlers: &[Handler],
) -> Result<(), AllocError>
    requires { HandlersArraysFit (handlers_of handlers.now) }
    ensures names { OnOk result (names.new ≡ names_after_handlers (program_of functions.now) (handlers_of handlers.now) names.old) }
    ensures memory { OnErr result (0 < handlers_assignments (handlers_of handlers.now)) }
{
    for handler in handlers.iter() {
        add_block(alloc, functions, names, &handler.body)?;
    }
    Ok(())
}
