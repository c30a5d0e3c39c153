// The types of statements with blocks.

ghost use Rattle.std.specs.Prelude.{None};
ghost use Rattle.kern_syntax.specs.TreeOf.{block_of, statement_of, branches_of, handlers_of};
ghost use Rattle.kern_expression_types.specs.Answers.{Leaves};
ghost use Rattle.kern_expression_types.specs.KnownOf.{functions_of};
ghost use Rattle.kern_types.specs.Statements.{block_verdict, statement_verdict, branches_verdict, handlers_verdict};

use crate::statements::{check_condition, check_loop_from_to, check_loop_to, check_simple};
use kern_expression_types::{Known, Locals, Place, TypeFault, TypeKind, is_exception, refuse_if};
use kern_syntax::{Block, Elif, Handler, StmtKind};

// The same place at another line.
fn at_line(place: Place, line: u32) -> Place
    ensures { result ≡ at_line place line }
{
    Place { line, ..place }
}

ghost use Rattle.std.specs.Prelude.{◌≡◌};
ghost use Rattle.kern_types.specs.Statements.{at_line, inside_loop, inside_parallel, inside_record};

fn inside_loop(place: Place) -> Place
    ensures { result ≡ inside_loop place }
{
    Place {
        in_loop: true,
        ..place
    }
}

// Nothing leaves a parallel block.
fn inside_parallel(place: Place) -> Place
    ensures { result ≡ inside_parallel place }
{
    Place {
        in_loop: false,
        may_return: false,
        ..place
    }
}

// Nothing leaves a record block.
fn inside_record(place: Place) -> Place
    ensures { result ≡ inside_record place }
{
    Place {
        in_loop: false,
        may_return: false,
        in_record: true,
        ..place
    }
}

/// Checks the statements of a block, and adds the names that they assign.
#[cycle(blocks)]
pub fn check_block<'a>(
    known: &Known<'_>,
    place: Place,
    names: &mut Locals<'a>,
    block: &'a Block,
) -> Result<(), TypeFault>
    ensures { Leaves result names.new (block_verdict (functions_of known.now) (block_of block.now) place names.old) }
{
    for statement in block.statements.iter() {
        let place = at_line(place, statement.line);
        check_statement(known, place, names, &statement.kind)?;
    }
    Ok(())
}

#[cycle(blocks)]
fn check_statement<'a>(
    known: &Known<'_>,
    place: Place,
    names: &mut Locals<'a>,
    statement: &'a StmtKind,
) -> Result<(), TypeFault>
    ensures { Leaves result names.new (statement_verdict (functions_of known.now) (statement_of statement.now) place names.old) }
{
    match statement {
        StmtKind::If(condition, body, branches, last) => {
            check_condition(known, place, names, condition)?;
            check_block(known, place, names, body)?;
            check_branches(known, place, names, branches)?;
            check_else(known, place, names, last)
        }
        StmtKind::While(condition, body) => {
            check_condition(known, place, names, condition)?;
            check_block(known, inside_loop(place), names, body)
        }
        StmtKind::ForTo(x, to, body) => {
            check_loop_to(known, place, names, x.bytes(), to)?;
            check_block(known, inside_loop(place), names, body)
        }
        StmtKind::ForFromTo(x, from, to, body) => {
            check_loop_from_to(known, place, names, x.bytes(), from, to)?;
            check_block(known, inside_loop(place), names, body)
        }
        StmtKind::Parallel(body) => check_block(known, inside_parallel(place), names, body),
        StmtKind::Sequential(body) => check_block(known, place, names, body),
        StmtKind::Record(_, body) => {
            refuse_if(place.in_record, place.line, TypeKind::NestedRecord)?;
            check_block(known, inside_record(place), names, body)
        }
        StmtKind::Try(body, handlers) => {
            check_block(known, place, names, body)?;
            check_handlers(known, place, names, handlers)
        }
        StmtKind::Pass
        | StmtKind::Break
        | StmtKind::Continue
        | StmtKind::Return(_)
        | StmtKind::Evaluate(_)
        | StmtKind::Assign(_, _)
        | StmtKind::Augmented(_, _, _)
        | StmtKind::ArrayRepeat(_, _, _)
        | StmtKind::ArrayList(_, _) => check_simple(known, place, names, statement),
    }
}

// The `elif` branches of an `if`.
#[cycle(blocks)]
fn check_branches<'a>(
    known: &Known<'_>,
    place: Place,
    names: &mut Locals<'a>,
    branches: &'a [Elif],
) -> Result<(), TypeFault>
    ensures { Leaves result names.new (branches_verdict (functions_of known.now) (branches_of branches.now None) place names.old) }
{
    for branch in branches.iter() {
        check_elif(known, place, names, branch)?;
    }
    Ok(())
}

ghost use Rattle.kern_syntax.specs.Tree.{no_else};
ghost use Rattle.kern_syntax.specs.TreeOf.{elif_of};

#[cycle(blocks)]
fn check_elif<'a>(
    known: &Known<'_>,
    place: Place,
    names: &mut Locals<'a>,
    branch: &'a Elif,
) -> Result<(), TypeFault>
    ensures { Leaves result names.new (branches_verdict (functions_of known.now) (elif_of branch.now no_else) place names.old) }
{
    let header = Place {
        line: branch.line,
        ..place
    };
    check_condition(known, header, names, &branch.condition)?;
    check_block(known, place, names, &branch.body)?;
    Ok(())
}

ghost use Rattle.std.specs.Prelude.{option_map};
ghost use Rattle.kern_syntax.specs.TreeOf.{else_of};

// The `else` of an `if`, if it has one.
#[cycle(blocks)]
fn check_else<'a>(
    known: &Known<'_>,
    place: Place,
    names: &mut Locals<'a>,
    last: &'a Option<Block>,
) -> Result<(), TypeFault>
    ensures { Leaves result names.new (branches_verdict (functions_of known.now) (else_of (option_map block_of last.now)) place names.old) }
{
    match last {
        Some(body) => check_block(known, place, names, body),
        None => Ok(()),
    }
}

// The `except` branches of a `try`.
#[cycle(blocks)]
fn check_handlers<'a>(
    known: &Known<'_>,
    place: Place,
    names: &mut Locals<'a>,
    handlers: &'a [Handler],
) -> Result<(), TypeFault>
    ensures { Leaves result names.new (handlers_verdict (functions_of known.now) (handlers_of handlers.now) place names.old) }
{
    for handler in handlers.iter() {
        let is_known = is_exception(handler.exception.bytes());
        refuse_if(!is_known, handler.line, TypeKind::Unknown)?;
        check_block(known, place, names, &handler.body)?;
    }
    Ok(())
}
