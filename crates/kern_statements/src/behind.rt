// Statements that are put behind others as soon as they are read: a statement is a large value,
// which would be copied on its way through each call.

ghost use Rattle.std.specs.Prelude.{List, map};
ghost use Rattle.kern_expressions.specs.Kept.{KeptAs, ReadAs};
ghost use Rattle.kern_expressions.specs.TakenBy.{GivesTaken, lexemes_left, perform};
ghost use Rattle.kern_grammar.specs.Plans.{token};
ghost use Rattle.kern_grammar.specs.SimplePlans.{Line, by_expression, deed_plan};
ghost use Rattle.kern_grammar.specs.Views.{deed};
ghost use Rattle.kern_statements.specs.LineSteps.{line_of_statement, on};
ghost use Rattle.kern_statements.specs.Several.{one_behind};
ghost use Rattle.kern_syntax.specs.Tree.{Expression};

use crate::parts::evaluated;
use crate::simple::deed_at;
use kern_expressions::{ReadExpr, Tokens, WrongToken, expression_here_at, pushed};
use kern_lexer::TokenKind;
use kern_syntax::Stmt;
use std::alloc::Global;

/// A statement that begins with an expression, behind others. They are missing where memory was
/// refused.
#[inline(always)]
pub fn expression_behind<'a>(
    alloc: Global,
    line: u32,
    others: Option<Vec<Stmt>>,
    tokens: Tokens<'a>,
) -> Result<(Option<Vec<Stmt>>, Tokens<'a>), WrongToken<'a>>
    ensures { (xs : List Line) → KeptAs (λ v. map line_of_statement v.items) others xs →
        GivesTaken (λ v. map line_of_statement v.items) result
        (one_behind xs (perform (by_expression (on line)) (lexemes_left tokens.entry))) }
{
    match expression_here_at(alloc, 16, tokens) {
        Err(wrong) => Err(wrong),
        Ok((e, rest)) => deed_behind(alloc, line, others, e, rest),
    }
}

// The same, by what follows the expression.
#[inline(always)]
fn deed_behind<'a>(
    alloc: Global,
    line: u32,
    others: Option<Vec<Stmt>>,
    e: ReadExpr,
    tokens: Tokens<'a>,
) -> Result<(Option<Vec<Stmt>>, Tokens<'a>), WrongToken<'a>>
    ensures { (xs : List Line) (tree : Expression) →
        KeptAs (λ v. map line_of_statement v.items) others xs → ReadAs e tree →
        GivesTaken (λ v. map line_of_statement v.items) result
        (one_behind xs (perform (token (deed tree) (deed_plan (on line) tree)) (lexemes_left tokens.entry))) }
{
    match tokens.list {
        [] => Err(WrongToken { left: tokens }),
        [first, ..] => match first.kind {
            TokenKind::Newline => Ok((pushed(others, evaluated(line, e)), tokens.tail())),
            _ => assignment_behind(alloc, line, others, e, tokens),
        },
    }
}

// The same, where it isn't an expression alone.
#[inline(always)]
fn assignment_behind<'a>(
    alloc: Global,
    line: u32,
    others: Option<Vec<Stmt>>,
    e: ReadExpr,
    tokens: Tokens<'a>,
) -> Result<(Option<Vec<Stmt>>, Tokens<'a>), WrongToken<'a>>
    ensures { (xs : List Line) (tree : Expression) →
        KeptAs (λ v. map line_of_statement v.items) others xs → ReadAs e tree →
        GivesTaken (λ v. map line_of_statement v.items) result
        (one_behind xs (perform (token (deed tree) (deed_plan (on line) tree)) (lexemes_left tokens.entry))) }
{
    match deed_at(alloc, line, e, tokens) {
        Err(wrong) => Err(wrong),
        Ok((statement, rest)) => Ok((pushed(others, statement), rest)),
    }
}
