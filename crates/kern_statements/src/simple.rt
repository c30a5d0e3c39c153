// Reading statements that stand on one line, from the front of tokens.

ghost use Rattle.std.specs.Prelude.{◌≡◌, [], false, true, map};
ghost use Rattle.kern_expressions.specs.Kept.{IsNamed, KeptAs, ReadAs};
ghost use Rattle.kern_expressions.specs.TakenBy.{GivesTaken, TakesExpression, begins_with, lexemes_left, perform};
ghost use Rattle.kern_grammar.specs.Plans.{many, peek, run, token};
ghost use Rattle.kern_grammar.specs.SimplePlans.{Line, an_expression, array_end, by_expression, comma_element, deed_plan, end_line, is_comma, repeated, returned, simple_plan};
ghost use Rattle.kern_grammar.specs.Views.{Place, deed, is_seen, line_end, opening, to_name};
ghost use Rattle.kern_lexer.specs.Bytes.{Bytes};
ghost use Rattle.kern_statements.specs.LineSteps.{IsPlace, array_plan, assign_at, augment_at, closed_elements, elements_plan, line_of_statement, on, place_plan};
ghost use Rattle.kern_syntax.specs.Tree.{Expression};
ghost use Rattle.kern_syntax.specs.TreeOf.{expression_of};

use crate::parts::{
    ReadPlace, assigned, augmented, evaluated, listed, place_of, repeated, returned,
};
use kern_expressions::{
    ReadExpr, Tokens, WrongToken, close_bracket_at, expression_at, line_end_at, pushed,
};
use kern_lexer::{Key, Sign, TokenKind};
use kern_syntax::{Augment, Expr, Identifier, Stmt, StmtKind};
use std::alloc::Global;

// A statement at the end of its line.
#[inline(always)]
fn ended_statement<'a>(
    statement: Option<Stmt>,
    tokens: Tokens<'a>,
) -> Result<(Option<Stmt>, Tokens<'a>), WrongToken<'a>>
    ensures { (x : Line) → KeptAs line_of_statement statement x →
        GivesTaken line_of_statement result (perform (end_line x) (lexemes_left tokens.entry)) }
{
    let rest = line_end_at(tokens)?;
    Ok((statement, rest))
}

// The value of an assignment, and the end of the line.
#[inline(always)]
fn assigned_value_at<'a>(
    alloc: Global,
    line: u32,
    place: ReadPlace,
    tokens: Tokens<'a>,
) -> Result<(Option<Stmt>, Tokens<'a>), WrongToken<'a>>
    ensures { (p : Place) → IsPlace place p → GivesTaken line_of_statement result
        (perform (an_expression 16 (λ e. end_line (on line (assign_at p e)))) (lexemes_left tokens.entry)) }
{
    let (value, rest) = expression_at(alloc, 16, tokens)?;
    ended_statement(assigned(line, place, value), rest)
}

// The value of an augmented assignment, and the end of the line.
#[inline(always)]
fn augmented_value_at<'a>(
    alloc: Global,
    line: u32,
    place: ReadPlace,
    op: Augment,
    tokens: Tokens<'a>,
) -> Result<(Option<Stmt>, Tokens<'a>), WrongToken<'a>>
    ensures { (p : Place) → IsPlace place p → GivesTaken line_of_statement result
        (perform (an_expression 16 (λ e. end_line (on line (augment_at p op e)))) (lexemes_left tokens.entry)) }
{
    let (value, rest) = expression_at(alloc, 16, tokens)?;
    ended_statement(augmented(line, place, op, value), rest)
}

// The value of a `return`, or none, and the end of the line.
#[inline(always)]
fn returned_at<'a>(
    alloc: Global,
    line: u32,
    tokens: Tokens<'a>,
) -> Result<(Option<Stmt>, Tokens<'a>), WrongToken<'a>>
    ensures { GivesTaken line_of_statement result
        (perform (peek (λ t. returned (on line) (is_seen (line_end t.symbol)))) (lexemes_left tokens.entry)) }
{
    match tokens.list {
        [] => Err(WrongToken { left: tokens }),
        [first, ..] => match first.kind {
            TokenKind::Newline => {
                let kind = StmtKind::Return(None);
                Ok((Some(Stmt { line, kind }), tokens.tail()))
            }
            _ => returned_value_at(alloc, line, tokens),
        },
    }
}

// The value of a `return`, and the end of the line.
#[inline(always)]
fn returned_value_at<'a>(
    alloc: Global,
    line: u32,
    tokens: Tokens<'a>,
) -> Result<(Option<Stmt>, Tokens<'a>), WrongToken<'a>>
    ensures { GivesTaken line_of_statement result
        (perform (returned (on line) false) (lexemes_left tokens.entry)) }
{
    let (value, rest) = expression_at(alloc, 16, tokens)?;
    ended_statement(returned(line, value), rest)
}

// The length of an array of one repeated element, and the end of the line.
#[inline(always)]
fn repeated_at<'a>(
    line: u32,
    name: Option<Identifier>,
    element: ReadExpr,
    tokens: Tokens<'a>,
) -> Result<(Option<Stmt>, Tokens<'a>), WrongToken<'a>>
    ensures { (x : Bytes) (e : Expression) → IsNamed name x → ReadAs element e → GivesTaken line_of_statement result
        (perform (repeated (on line) x e true) (lexemes_left tokens.entry)) }
{
    match tokens.list {
        [] => Err(WrongToken { left: tokens }),
        [first, ..] => match first.kind {
            TokenKind::Integer(length) => {
                ended_statement(repeated(line, name, element, length), tokens.tail())
            }
            _ => Err(WrongToken { left: tokens }),
        },
    }
}

// An array of one element or of one that is repeated, from the closing bracket on.
#[inline(always)]
fn lone_element_at<'a>(
    alloc: Global,
    line: u32,
    name: Option<Identifier>,
    element: ReadExpr,
    tokens: Tokens<'a>,
) -> Result<(Option<Stmt>, Tokens<'a>), WrongToken<'a>>
    ensures { (x : Bytes) (e : Expression) → IsNamed name x → ReadAs element e → GivesTaken line_of_statement result
        (perform (closed_elements (on line) x e []) (lexemes_left tokens.entry)) }
{
    let rest = close_bracket_at(tokens)?;
    one_element_at(alloc, line, name, element, rest)
}

// What follows the closing bracket of an array of one element.
#[inline(always)]
fn one_element_at<'a>(
    alloc: Global,
    line: u32,
    name: Option<Identifier>,
    element: ReadExpr,
    tokens: Tokens<'a>,
) -> Result<(Option<Stmt>, Tokens<'a>), WrongToken<'a>>
    ensures { (x : Bytes) (e : Expression) → IsNamed name x → ReadAs element e → GivesTaken line_of_statement result
        (perform (array_end (on line) x e []) (lexemes_left tokens.entry)) }
{
    match tokens.list {
        [] => Err(WrongToken { left: tokens }),
        [first, ..] => match first.kind {
            TokenKind::Sign(Sign::Star) => repeated_at(line, name, element, tokens.tail()),
            TokenKind::Newline => {
                let statement = listed(line, name, element, Some(Vec::new(alloc)));
                Ok((statement, tokens.tail()))
            }
            _ => Err(WrongToken { left: tokens }),
        },
    }
}

// A comma and an element of an array.
fn comma_element_at<'a>(
    alloc: Global,
    tokens: Tokens<'a>,
) -> Result<(ReadExpr, Tokens<'a>), WrongToken<'a>>
    ensures { TakesExpression result (run comma_element (lexemes_left tokens.entry)) }
{
    match tokens.list {
        [] => Err(WrongToken { left: tokens }),
        [first, ..] => match first.kind {
            TokenKind::Sign(Sign::Comma) => expression_at(alloc, 15, tokens.tail()),
            _ => Err(WrongToken { left: tokens }),
        },
    }
}

/// Whether the tokens begin with a comma.
pub fn begins_with_comma(tokens: Tokens) -> bool
    ensures { result ≡ begins_with is_comma (lexemes_left tokens.entry) }
{
    match tokens.list {
        [] => false,
        [first, ..] => matches!(first.kind, TokenKind::Sign(Sign::Comma)),
    }
}

/// An assignment to a name or to an element, or an expression alone, by what follows the
/// expression that the statement begins with.
pub(crate) fn deed_at<'a>(
    alloc: Global,
    line: u32,
    e: ReadExpr,
    tokens: Tokens<'a>,
) -> Result<(Option<Stmt>, Tokens<'a>), WrongToken<'a>>
    ensures { (tree : Expression) → ReadAs e tree → GivesTaken line_of_statement result
        (perform (token (deed tree) (deed_plan (on line) tree)) (lexemes_left tokens.entry)) }
{
    match tokens.list {
        [] => Err(WrongToken { left: tokens }),
        [first, ..] => match first.kind {
            TokenKind::Newline => Ok((evaluated(line, e), tokens.tail())),
            TokenKind::Sign(Sign::Assign) => match place_of(e) {
                Some(place) => assigned_at(alloc, line, place, tokens.tail()),
                None => Err(WrongToken { left: tokens }),
            },
            TokenKind::Sign(Sign::AddAssign) => match place_of(e) {
                Some(place) => {
                    augmented_value_at(alloc, line, place, Augment::Add, tokens.tail())
                }
                None => Err(WrongToken { left: tokens }),
            },
            TokenKind::Sign(Sign::SubtractAssign) => match place_of(e) {
                Some(place) => {
                    augmented_value_at(alloc, line, place, Augment::Subtract, tokens.tail())
                }
                None => Err(WrongToken { left: tokens }),
            },
            _ => Err(WrongToken { left: tokens }),
        },
    }
}

// The value of an assignment: an array or an expression for a name, an expression for an element.
#[inline(always)]
fn assigned_at<'a>(
    alloc: Global,
    line: u32,
    place: ReadPlace,
    tokens: Tokens<'a>,
) -> Result<(Option<Stmt>, Tokens<'a>), WrongToken<'a>>
    ensures { (p : Place) → IsPlace place p →
        GivesTaken line_of_statement result (perform (place_plan (on line) p) (lexemes_left tokens.entry)) }
{
    match place {
        ReadPlace::Name(name) => name_assigned_at(alloc, line, name, tokens),
        ReadPlace::Element(target) => assigned_value_at(
            alloc,
            line,
            ReadPlace::Element(target),
            tokens,
        ),
    }
}

// The value of an assignment to a name: an array or an expression.
#[inline(always)]
fn name_assigned_at<'a>(
    alloc: Global,
    line: u32,
    name: Option<Identifier>,
    tokens: Tokens<'a>,
) -> Result<(Option<Stmt>, Tokens<'a>), WrongToken<'a>>
    ensures { (x : Bytes) → IsNamed name x →
        GivesTaken line_of_statement result (perform (place_plan (on line) (to_name x)) (lexemes_left tokens.entry)) }
{
    match tokens.list {
        [] => Err(WrongToken { left: tokens }),
        [first, ..] => match first.kind {
            TokenKind::Sign(sign) => match sign {
                Sign::OpenBracket => array_at(alloc, line, name, tokens.tail()),
                _ => assigned_value_at(alloc, line, ReadPlace::Name(name), tokens),
            },
            _ => assigned_value_at(alloc, line, ReadPlace::Name(name), tokens),
        },
    }
}

// The elements of an array, of which the first is an expression, with the closing bracket and
// the end of the line. An element that stands alone may be repeated.
#[inline(always)]
fn array_at<'a>(
    alloc: Global,
    line: u32,
    name: Option<Identifier>,
    tokens: Tokens<'a>,
) -> Result<(Option<Stmt>, Tokens<'a>), WrongToken<'a>>
    ensures { (x : Bytes) → IsNamed name x →
        GivesTaken line_of_statement result (perform (array_plan (on line) x) (lexemes_left tokens.entry)) }
{
    let (first, rest) = expression_at(alloc, 15, tokens)?;
    if begins_with_comma(rest) {
        elements_at(alloc, line, name, first, rest)
    } else {
        lone_element_at(alloc, line, name, first, rest)
    }
}

// The elements of an array behind its first, of which there is one at least, with the closing
// bracket and the end of the line.
#[inline(always)]
fn elements_at<'a>(
    alloc: Global,
    line: u32,
    name: Option<Identifier>,
    first: ReadExpr,
    tokens: Tokens<'a>,
) -> Result<(Option<Stmt>, Tokens<'a>), WrongToken<'a>>
    ensures { (x : Bytes) (e : Expression) → IsNamed name x → ReadAs first e →
        GivesTaken line_of_statement result (perform (elements_plan (on line) x e) (lexemes_left tokens.entry)) }
{
    let (more, rest) = more_elements_at(alloc, tokens)?;
    let rest = close_bracket_at(rest)?;
    ended_statement(listed(line, name, first, more), rest)
}

// The further elements of an array, each behind a comma.
fn more_elements_at<'a>(
    alloc: Global,
    tokens: Tokens<'a>,
) -> Result<(Option<Vec<Expr>>, Tokens<'a>), WrongToken<'a>>
    ensures { GivesTaken (λ v. map expression_of v.items) result
        (many is_comma (run comma_element) (lexemes_left tokens.entry)) }
{
    let mut elements = Some(Vec::new(alloc));
    let mut rest = tokens;
    'items: while begins_with_comma(rest) {
        let (element, behind) = comma_element_at(alloc, rest)?;
        elements = pushed(elements, element.tree());
        rest = behind;
    }
    Ok((elements, rest))
}

// A statement that begins with an expression.
fn expression_statement_at<'a>(
    alloc: Global,
    line: u32,
    tokens: Tokens<'a>,
) -> Result<(Option<Stmt>, Tokens<'a>), WrongToken<'a>>
    ensures { GivesTaken line_of_statement result (perform (by_expression (on line)) (lexemes_left tokens.entry)) }
{
    let (e, rest) = expression_at(alloc, 16, tokens)?;
    deed_at(alloc, line, e, rest)
}

/// A statement on one line, with its Newline, which is missing where memory was refused.
#[inline(always)]
pub fn simple_at<'a>(
    alloc: Global,
    line: u32,
    tokens: Tokens<'a>,
) -> Result<(Option<Stmt>, Tokens<'a>), WrongToken<'a>>
    ensures { GivesTaken line_of_statement result
        (perform (peek (λ t. simple_plan (on line) (opening t.symbol))) (lexemes_left tokens.entry)) }
{
    match tokens.list {
        [] => Err(WrongToken { left: tokens }),
        [first, ..] => match first.kind {
            TokenKind::Key(key) => match key {
                Key::Pass => {
                    let kind = StmtKind::Pass;
                    ended_statement(Some(Stmt { line, kind }), tokens.tail())
                }
                Key::Break => {
                    let kind = StmtKind::Break;
                    ended_statement(Some(Stmt { line, kind }), tokens.tail())
                }
                Key::Continue => {
                    let kind = StmtKind::Continue;
                    ended_statement(Some(Stmt { line, kind }), tokens.tail())
                }
                Key::Return => returned_at(alloc, line, tokens.tail()),
                _ => expression_statement_at(alloc, line, tokens),
            },
            _ => expression_statement_at(alloc, line, tokens),
        },
    }
}
