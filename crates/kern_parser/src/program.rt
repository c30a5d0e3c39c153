// Reading the functions of a program and the End.

ghost use Rattle.std.specs.Prelude.{◌≡◌, map};
ghost use Rattle.kern_grammar.specs.BlockPlans.{function_plan, is_function, program_plan};
ghost use Rattle.kern_grammar.specs.Plans.{run};
ghost use Rattle.kern_grammar.specs.Views.{text_end};
ghost use Rattle.kern_expressions.specs.TakenBy.{FindsRest, GivesTaken, begins_with, first_seen, lexemes_left};
ghost use Rattle.kern_statements.specs.Several.{several};
ghost use Rattle.kern_syntax.specs.TreeOf.{function_of, tree_of};

use crate::function::function_at;
use crate::parts::whole_program;
use kern_expressions::{Tokens, WrongToken, pushed};
use kern_lexer::TokenKind;
use kern_syntax::{Function, Program};
use std::alloc::Global;

/// A program, which has a function at least, and its End. It is missing where memory was refused.
pub fn program_at<'a>(
    alloc: Global,
    tokens: Tokens<'a>,
) -> Result<(Option<Program>, Tokens<'a>), WrongToken<'a>>
    ensures { GivesTaken tree_of result (run program_plan (lexemes_left tokens.entry)) }
{
    let (functions, end) = functions_at(alloc, tokens)?;
    let rest = text_end_at(end)?;
    Ok((whole_program(functions), rest))
}

// Whether a further function has to follow: anything but the End stands here.
fn begins_function(tokens: Tokens) -> bool
    ensures { result ≡ begins_with is_function (lexemes_left tokens.entry) }
{
    match tokens.list {
        [] => false,
        [first, ..] => !matches!(first.kind, TokenKind::End),
    }
}

// The End.
fn text_end_at<'a>(tokens: Tokens<'a>) -> Result<Tokens<'a>, WrongToken<'a>>
    ensures { FindsRest result (first_seen text_end (lexemes_left tokens.entry)) }
{
    match tokens.list {
        [] => Err(WrongToken { left: tokens }),
        [first, ..] => match first.kind {
            TokenKind::End => Ok(tokens.tail()),
            _ => Err(WrongToken { left: tokens }),
        },
    }
}

// The functions of a program, of which there is one at least.
fn functions_at<'a>(
    alloc: Global,
    tokens: Tokens<'a>,
) -> Result<(Option<Vec<Function>>, Tokens<'a>), WrongToken<'a>>
    ensures { GivesTaken (λ v. map function_of v.items) result
        (several is_function (run function_plan) (lexemes_left tokens.entry)) }
{
    let mut functions = Some(Vec::new(alloc));
    let mut rest = tokens;
    'functions: loop {
        let (function, behind) = function_at(alloc, rest)?;
        functions = pushed(functions, function);
        if !begins_function(behind) {
            return Ok((functions, behind));
        }
        rest = behind;
    }
}
