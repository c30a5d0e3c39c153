// Reading functions from the front of tokens.

ghost use Rattle.std.specs.Prelude.{◌≡◌, false, map, true};
ghost use Rattle.kern_grammar.specs.BlockPlans.{a_parameter, comma_parameter, def_plan, function_plan, is_comma};
ghost use Rattle.kern_parser.specs.FunctionSteps.{behind_at_plan, defined_plan, parameters_by, parameters_part, result_by, result_part};
ghost use Rattle.kern_grammar.specs.Plans.{done, many, run};
ghost use Rattle.kern_expressions.specs.TakenBy.{FindsTaken, GivesTaken, lexemes_left, perform};
ghost use Rattle.kern_syntax.specs.TreeOf.{function_of, parameter_of};

use crate::parts::{declared_parameter, whole_function, with_first};
use kern_blocks::block_at;
use kern_expressions::{
    Tokens, WrongToken, close_parenthesis_at, colon_at, def_at, line_end_at, name_at,
    open_parenthesis_at, pushed, type_at, word_at,
};
use kern_lexer::{Sign, TokenKind};
use kern_statements::begins_with_comma;
use kern_syntax::{DeclaredType, Function, Parameter};
use std::alloc::Global;

// The nestings of blocks that may be opened in the block of a function.
const ROOM: u32 = 15;

/// A function, its decorator included, which is missing where memory was refused.
pub fn function_at<'a>(
    alloc: Global,
    tokens: Tokens<'a>,
) -> Result<(Option<Function>, Tokens<'a>), WrongToken<'a>>
    ensures { GivesTaken function_of result (run function_plan (lexemes_left tokens.entry)) }
{
    decorated_at(alloc, tokens)
}

// A function with or without a decorator.
fn decorated_at<'a>(
    alloc: Global,
    tokens: Tokens<'a>,
) -> Result<(Option<Function>, Tokens<'a>), WrongToken<'a>>
    ensures { GivesTaken function_of result (perform function_plan (lexemes_left tokens.entry)) }
{
    match tokens.list {
        [] => Err(WrongToken { left: tokens }),
        [first, ..] => match first.kind {
            TokenKind::Sign(sign) => match sign {
                Sign::At => behind_at_sign(alloc, tokens.tail()),
                _ => definition_at(alloc, tokens),
            },
            _ => definition_at(alloc, tokens),
        },
    }
}

// A function behind the sign of its decorator.
fn behind_at_sign<'a>(
    alloc: Global,
    tokens: Tokens<'a>,
) -> Result<(Option<Function>, Tokens<'a>), WrongToken<'a>>
    ensures { GivesTaken function_of result (perform behind_at_plan (lexemes_left tokens.entry)) }
{
    let rest = word_at(b"kernel", tokens)?;
    let rest = line_end_at(rest)?;
    definition_at(alloc, rest)
}

// A function from its `def` on.
fn definition_at<'a>(
    alloc: Global,
    tokens: Tokens<'a>,
) -> Result<(Option<Function>, Tokens<'a>), WrongToken<'a>>
    ensures { GivesTaken function_of result (perform def_plan (lexemes_left tokens.entry)) }
{
    match tokens.list {
        [] => Err(WrongToken { left: tokens }),
        [first, ..] => defined_at(alloc, first.line, tokens),
    }
}

// A function whose `def` stands on a line.
fn defined_at<'a>(
    alloc: Global,
    line: u32,
    tokens: Tokens<'a>,
) -> Result<(Option<Function>, Tokens<'a>), WrongToken<'a>>
    ensures { GivesTaken function_of result (perform (defined_plan line) (lexemes_left tokens.entry)) }
{
    let rest = def_at(tokens)?;
    let (name, rest) = name_at(alloc, rest)?;
    let inside = open_parenthesis_at(rest)?;
    let (parameters, rest) = parameters_at(alloc, inside)?;
    let (declared, rest) = result_at(rest)?;
    let (body, rest) = block_at(alloc, ROOM, rest)?;
    Ok((whole_function(line, name, parameters, declared, body), rest))
}

// The parameters of a function and the closing parenthesis, from what follows the opening one on.
fn parameters_at<'a>(
    alloc: Global,
    tokens: Tokens<'a>,
) -> Result<(Option<Vec<Parameter>>, Tokens<'a>), WrongToken<'a>>
    ensures { GivesTaken (λ v. map parameter_of v.items) result (perform parameters_part (lexemes_left tokens.entry)) }
{
    match tokens.list {
        [] => Err(WrongToken { left: tokens }),
        [first, ..] => match first.kind {
            TokenKind::Sign(sign) => match sign {
                Sign::CloseParenthesis => Ok((Some(Vec::new(alloc)), tokens.tail())),
                _ => some_parameters_at(alloc, tokens),
            },
            _ => some_parameters_at(alloc, tokens),
        },
    }
}

// At least one parameter, and the closing parenthesis.
fn some_parameters_at<'a>(
    alloc: Global,
    tokens: Tokens<'a>,
) -> Result<(Option<Vec<Parameter>>, Tokens<'a>), WrongToken<'a>>
    ensures { GivesTaken (λ v. map parameter_of v.items) result
        (perform (parameters_by false) (lexemes_left tokens.entry)) }
{
    let (first, rest) = parameter_at(alloc, tokens)?;
    let (more, rest) = more_parameters_at(alloc, rest)?;
    let rest = close_parenthesis_at(rest)?;
    Ok((with_first(first, more), rest))
}

// The further parameters, each behind a comma.
fn more_parameters_at<'a>(
    alloc: Global,
    tokens: Tokens<'a>,
) -> Result<(Option<Vec<Parameter>>, Tokens<'a>), WrongToken<'a>>
    ensures { GivesTaken (λ v. map parameter_of v.items) result
        (many is_comma (run comma_parameter) (lexemes_left tokens.entry)) }
{
    let mut parameters = Some(Vec::new(alloc));
    let mut rest = tokens;
    'items: while begins_with_comma(rest) {
        let (parameter, behind) = comma_parameter_at(alloc, rest)?;
        parameters = pushed(parameters, parameter);
        rest = behind;
    }
    Ok((parameters, rest))
}

// A comma and a parameter.
fn comma_parameter_at<'a>(
    alloc: Global,
    tokens: Tokens<'a>,
) -> Result<(Option<Parameter>, Tokens<'a>), WrongToken<'a>>
    ensures { GivesTaken parameter_of result (run comma_parameter (lexemes_left tokens.entry)) }
{
    match tokens.list {
        [] => Err(WrongToken { left: tokens }),
        [first, ..] => match first.kind {
            TokenKind::Sign(sign) => match sign {
                Sign::Comma => parameter_at(alloc, tokens.tail()),
                _ => Err(WrongToken { left: tokens }),
            },
            _ => Err(WrongToken { left: tokens }),
        },
    }
}

// A parameter.
fn parameter_at<'a>(
    alloc: Global,
    tokens: Tokens<'a>,
) -> Result<(Option<Parameter>, Tokens<'a>), WrongToken<'a>>
    ensures { GivesTaken parameter_of result (perform (a_parameter (λ p. done p)) (lexemes_left tokens.entry)) }
{
    let (name, rest) = name_at(alloc, tokens)?;
    let colon = colon_at(rest)?;
    let (declared, rest) = type_at(colon)?;
    Ok((declared_parameter(name, declared), rest))
}

// The type of the result, if one is declared, and the colon behind it.
fn result_at<'a>(tokens: Tokens<'a>) -> Result<(Option<DeclaredType>, Tokens<'a>), WrongToken<'a>>
    ensures { FindsTaken (λ d. d) result (perform result_part (lexemes_left tokens.entry)) }
{
    match tokens.list {
        [] => Err(WrongToken { left: tokens }),
        [first, ..] => match first.kind {
            TokenKind::Sign(sign) => match sign {
                Sign::Arrow => declared_result_at(tokens.tail()),
                Sign::Colon => Ok((None, tokens.tail())),
                _ => Err(WrongToken { left: tokens }),
            },
            _ => Err(WrongToken { left: tokens }),
        },
    }
}

// The type of the result behind its arrow, and the colon.
fn declared_result_at<'a>(
    tokens: Tokens<'a>,
) -> Result<(Option<DeclaredType>, Tokens<'a>), WrongToken<'a>>
    ensures { FindsTaken (λ d. d) result (perform (result_by true) (lexemes_left tokens.entry)) }
{
    let (declared, rest) = type_at(tokens)?;
    let rest = colon_at(rest)?;
    Ok((Some(declared), rest))
}
