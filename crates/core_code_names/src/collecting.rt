// The names of recordings and datasets that a program speaks of, in the order in which its code uses them first.

ghost use Rattle.std.specs.Prelude.{◌≡◌, IfOk, OnOk};
ghost use Rattle.kern_syntax.specs.TreeOf.{tree_of, expression_of, arguments_of, argument_of};
ghost use Rattle.kern_syntax.specs.Tree.{no_more};
ghost use Rattle.code_forms.specs.Texts.{texts_of};
ghost use Rattle.core_code_names.specs.TextsAfter.{texts_after_arguments, texts_after_expression, texts_after_program};

use crate::texts::Texts;
use kern_syntax::{Argument, Block, Elif, Expr, Function, Handler, StmtKind, Target};
use std::alloc::{AllocError, Global};

/// The texts of a program's functions, each once. It ends early only for want of memory.
#[tactic(auto, using(crate::proofs::TextsAfter::program_texts_after))]
pub fn texts_of(alloc: Global, functions: &[Function]) -> Result<Texts, AllocError>
    ensures { IfOk result (λ texts. texts ≡ texts_of (tree_of functions.now)) }
{
    let mut texts = Texts::new(alloc);
    add_functions(alloc, &mut texts, functions)?;
    Ok(texts)
}

fn add_functions(alloc: Global, texts: &mut Texts, functions: &[Function]) -> Result<(), AllocError>
    ensures { OnOk result (texts.new ≡ texts_after_program (tree_of functions.now) texts.old) }
{
    for function in functions.iter() {
        add_block(alloc, texts, &function.body)?;
    }
    Ok(())
}

#[cycle(expression_texts)]
fn add_expression(alloc: Global, texts: &mut Texts, e: &Expr) -> Result<(), AllocError>
    ensures { OnOk result (texts.new ≡ texts_after_expression (expression_of e.now) texts.old) }
{
    match e {
        Expr::Integer(_) | Expr::True | Expr::False | Expr::Variable(_) => Ok(()),
        Expr::Index(_, a) | Expr::Group(a) | Expr::Unary(_, a) | Expr::Not(a) => {
            add_expression(alloc, texts, a)
        }
        Expr::Binary(_, a, b) | Expr::Compare(_, a, b) | Expr::And(a, b) | Expr::Or(a, b) => {
            add_expression(alloc, texts, a)?;
            add_expression(alloc, texts, b)
        }
        Expr::Call(_, arguments) | Expr::Method(_, _, arguments) => {
            add_arguments(alloc, texts, arguments)
        }
    }
}

#[cycle(expression_texts)]
fn add_arguments(alloc: Global, texts: &mut Texts, arguments: &[Argument]) -> Result<(), AllocError>
    ensures { OnOk result (texts.new ≡ texts_after_arguments (arguments_of arguments.now) texts.old) }
{
    for argument in arguments.iter() {
        add_argument(alloc, texts, argument)?;
    }
    Ok(())
}

#[cycle(expression_texts)]
fn add_argument(alloc: Global, texts: &mut Texts, argument: &Argument) -> Result<(), AllocError>
    ensures { OnOk result (texts.new ≡ texts_after_arguments (argument_of argument.now no_more) texts.old) }
{
    match argument {
        Argument::Value(e) => add_expression(alloc, texts, e),
        Argument::Text(text) => texts.add(alloc, text),
    }
}

ghost use Rattle.std.specs.Prelude.{map};
ghost use Rattle.kern_syntax.specs.TreeOf.{block_of, branches_of, handlers_of, statement_of};
ghost use Rattle.core_code_names.specs.TextsAfter.{texts_after, texts_after_block, texts_after_handlers, texts_after_list, texts_after_otherwise};

fn add_elements(alloc: Global, texts: &mut Texts, elements: &[Expr]) -> Result<(), AllocError>
    ensures { OnOk result (texts.new ≡ texts_after_list (map expression_of elements.now) texts.old) }
{
    for element in elements.iter() {
        add_expression(alloc, texts, element)?;
    }
    Ok(())
}

#[cycle(statement_texts)]
fn add_block(alloc: Global, texts: &mut Texts, block: &Block) -> Result<(), AllocError>
    ensures { OnOk result (texts.new ≡ texts_after_block (block_of block.now) texts.old) }
{
    for statement in block.statements.iter() {
        add_statement(alloc, texts, &statement.kind)?;
    }
    Ok(())
}

#[cycle(statement_texts)]
fn add_statement(alloc: Global, texts: &mut Texts, statement: &StmtKind) -> Result<(), AllocError>
    ensures { OnOk result (texts.new ≡ texts_after (statement_of statement.now) texts.old) }
{
    match statement {
        StmtKind::Pass | StmtKind::Break | StmtKind::Continue | StmtKind::Return(None) => Ok(()),
        StmtKind::Return(Some(e))
        | StmtKind::Evaluate(e)
        | StmtKind::ArrayRepeat(_, e, _)
        | StmtKind::Assign(Target::Variable(_), e)
        | StmtKind::Augmented(Target::Variable(_), _, e) => add_expression(alloc, texts, e),
        StmtKind::Assign(Target::Element(_, index), e) => {
            add_expression(alloc, texts, e)?;
            add_expression(alloc, texts, index)
        }
        StmtKind::Augmented(Target::Element(_, index), _, e) => {
            add_expression(alloc, texts, index)?;
            add_expression(alloc, texts, e)
        }
        StmtKind::ArrayList(_, elements) => add_elements(alloc, texts, elements),
        StmtKind::If(condition, body, branches, last) => {
            add_expression(alloc, texts, condition)?;
            add_block(alloc, texts, body)?;
            add_branches(alloc, texts, branches)?;
            add_else(alloc, texts, last)
        }
        StmtKind::While(condition, body) => {
            add_block(alloc, texts, body)?;
            add_expression(alloc, texts, condition)
        }
        StmtKind::ForTo(_, to, body) => {
            add_expression(alloc, texts, to)?;
            add_block(alloc, texts, body)
        }
        StmtKind::ForFromTo(_, from, to, body) => {
            add_expression(alloc, texts, from)?;
            add_expression(alloc, texts, to)?;
            add_block(alloc, texts, body)
        }
        StmtKind::Parallel(body) | StmtKind::Sequential(body) => add_block(alloc, texts, body),
        StmtKind::Record(name, body) => {
            texts.add(alloc, name)?;
            add_block(alloc, texts, body)
        }
        StmtKind::Try(body, handlers) => {
            add_block(alloc, texts, body)?;
            add_handlers(alloc, texts, handlers)
        }
    }
}

ghost use Rattle.std.specs.Prelude.{Option, []};
ghost use Rattle.kern_syntax.specs.declared.statement.Block.{Block};

// The further branches of an `if`, which may have an `else` behind them.
#[cycle(statement_texts)]
fn add_branches(alloc: Global, texts: &mut Texts, branches: &[Elif]) -> Result<(), AllocError>
    ensures { OnOk result ((last : Option Block)
        → texts_after_otherwise (branches_of branches.now last) texts.old
        ≡ texts_after_otherwise (branches_of [] last) texts.new) }
{
    for branch in branches.iter() {
        add_expression(alloc, texts, &branch.condition)?;
        add_block(alloc, texts, &branch.body)?;
    }
    Ok(())
}

// The `else` of an `if`, if it has one.
#[cycle(statement_texts)]
fn add_else(alloc: Global, texts: &mut Texts, last: &Option<Block>) -> Result<(), AllocError>
    ensures { OnOk result (texts.new ≡ texts_after_otherwise (branches_of [] last.now) texts.old) }
{
    match last {
        Some(body) => add_block(alloc, texts, body),
        None => Ok(()),
    }
}

#[cycle(statement_texts)]
fn add_handlers(alloc: Global, texts: &mut Texts, handlers: &[Handler]) -> Result<(), AllocError>
    ensures { OnOk result (texts.new ≡ texts_after_handlers (handlers_of handlers.now) texts.old) }
{
    for handler in handlers.iter() {
        add_block(alloc, texts, &handler.body)?;
    }
    Ok(())
}
