// The operators that tokens begin with.

ghost use Rattle.std.specs.Prelude.{◌≡◌, ℕ};
ghost use Rattle.kern_lexer.specs.Symbols.{symbol_of};
ghost use Rattle.kern_lexer.specs.Bytes.{Bytes};
ghost use Rattle.std.specs.Prelude.{Some, None, if◌then◌else◌, option_map};
ghost use Rattle.kern_expressions.specs.Given.{symbols_left};
ghost use Rattle.kern_expressions.specs.Passing.{argument_ended, ends_argument, level_of_symbol, operator_level};
ghost use Rattle.kern_grammar.specs.Operators.{first_joiner, if_of_level, joiner_of, joiner_level, comparison_of};
ghost use Rattle.kern_grammar.specs.Reading.{first_comparison, first_form, not_at, prefix_form, unary_at};
ghost use Rattle.kern_syntax.specs.Tree.{negation};

use crate::tokens::Tokens;
use kern_grammar::Joiner;
use kern_lexer::{Key, Sign, TokenKind};
use kern_syntax::{BinaryOperator, Comparison, UnaryOperator};

fn joiner_of_kind(kind: TokenKind) -> Option<Joiner>
    ensures { (text : Bytes) (at len : ℕ) → result ≡ joiner_of (symbol_of text at len kind) }
{
    match kind {
        TokenKind::Sign(Sign::Plus) => Some(Joiner::Binary(BinaryOperator::Add)),
        TokenKind::Sign(Sign::Minus) => Some(Joiner::Binary(BinaryOperator::Subtract)),
        TokenKind::Sign(Sign::Star) => Some(Joiner::Binary(BinaryOperator::Multiply)),
        TokenKind::Sign(Sign::DoubleSlash) => Some(Joiner::Binary(BinaryOperator::Divide)),
        TokenKind::Sign(Sign::Percent) => Some(Joiner::Binary(BinaryOperator::Remainder)),
        TokenKind::Sign(Sign::ShiftLeft) => Some(Joiner::Binary(BinaryOperator::ShiftLeft)),
        TokenKind::Sign(Sign::ShiftRight) => Some(Joiner::Binary(BinaryOperator::ShiftRight)),
        TokenKind::Sign(Sign::Ampersand) => Some(Joiner::Binary(BinaryOperator::BitAnd)),
        TokenKind::Sign(Sign::Caret) => Some(Joiner::Binary(BinaryOperator::BitXor)),
        TokenKind::Sign(Sign::Bar) => Some(Joiner::Binary(BinaryOperator::BitOr)),
        TokenKind::Key(Key::And) => Some(Joiner::And),
        TokenKind::Key(Key::Or) => Some(Joiner::Or),
        _ => None,
    }
}

fn level_of_joiner(joiner: Joiner) -> u32
    ensures { result ≡ joiner_level joiner }
{
    match joiner {
        Joiner::Binary(
            BinaryOperator::Multiply | BinaryOperator::Divide | BinaryOperator::Remainder,
        ) => 2,
        Joiner::Binary(BinaryOperator::Add | BinaryOperator::Subtract) => 3,
        Joiner::Binary(BinaryOperator::ShiftLeft | BinaryOperator::ShiftRight) => 4,
        Joiner::Binary(BinaryOperator::BitAnd) => 5,
        Joiner::Binary(BinaryOperator::BitXor) => 6,
        Joiner::Binary(BinaryOperator::BitOr) => 7,
        Joiner::And => 10,
        Joiner::Or => 11,
    }
}

fn of_level(level: u32, joiner: Option<Joiner>) -> Option<Joiner>
    ensures { result ≡ if_of_level level joiner }
{
    match joiner {
        None => None,
        Some(joiner) => {
            if level_of_joiner(joiner) == level {
                Some(joiner)
            } else {
                None
            }
        }
    }
}

/// The operator of a level, to be repeated in a row, that the tokens begin with.
pub fn joiner_at(level: u32, tokens: Tokens) -> Option<Joiner>
    ensures { result ≡ first_joiner level (symbols_left tokens.entry) }
{
    match tokens.list {
        [] => None,
        [first, ..] => of_level(level, joiner_of_kind(first.kind)),
    }
}

fn level_of_kind(kind: TokenKind) -> u32
    ensures { (text : Bytes) (at len : ℕ) → result ≡ level_of_symbol (symbol_of text at len kind) }
{
    match kind {
        TokenKind::Sign(Sign::Star | Sign::DoubleSlash | Sign::Percent) => 2,
        TokenKind::Sign(Sign::Plus | Sign::Minus) => 3,
        TokenKind::Sign(Sign::ShiftLeft | Sign::ShiftRight) => 4,
        TokenKind::Sign(Sign::Ampersand) => 5,
        TokenKind::Sign(Sign::Caret) => 6,
        TokenKind::Sign(Sign::Bar) => 7,
        TokenKind::Sign(
            Sign::Equal
            | Sign::NotEqual
            | Sign::Less
            | Sign::LessEqual
            | Sign::Greater
            | Sign::GreaterEqual,
        ) => 8,
        TokenKind::Key(Key::And) => 10,
        TokenKind::Key(Key::Or) => 11,
        _ => 0,
    }
}

/// The level of the operator that the tokens begin with, 0 where they begin with none.
pub fn level_of_operator(tokens: Tokens) -> u32
    ensures { result ≡ operator_level (symbols_left tokens.entry) }
{
    match tokens.list {
        [] => 0,
        [first, ..] => level_of_kind(first.kind),
    }
}

fn comparison_of_kind(kind: TokenKind) -> Option<Comparison>
    ensures { (text : Bytes) (at len : ℕ) → result ≡ comparison_of (symbol_of text at len kind) }
{
    match kind {
        TokenKind::Sign(Sign::Equal) => Some(Comparison::Equal),
        TokenKind::Sign(Sign::NotEqual) => Some(Comparison::NotEqual),
        TokenKind::Sign(Sign::Less) => Some(Comparison::Less),
        TokenKind::Sign(Sign::LessEqual) => Some(Comparison::LessEqual),
        TokenKind::Sign(Sign::Greater) => Some(Comparison::Greater),
        TokenKind::Sign(Sign::GreaterEqual) => Some(Comparison::GreaterEqual),
        _ => None,
    }
}

/// The comparison that the tokens begin with.
pub fn comparison_at(tokens: Tokens) -> Option<Comparison>
    ensures { result ≡ first_comparison (symbols_left tokens.entry) }
{
    match tokens.list {
        [] => None,
        [first, ..] => comparison_of_kind(first.kind),
    }
}

fn prefix_of_kind(kind: TokenKind) -> Option<UnaryOperator>
    ensures { (text : Bytes) (at len : ℕ) → option_map prefix_form result ≡ unary_at (symbol_of text at len kind) }
{
    match kind {
        TokenKind::Sign(Sign::Minus) => Some(UnaryOperator::Negate),
        TokenKind::Sign(Sign::Tilde) => Some(UnaryOperator::Invert),
        _ => None,
    }
}

/// The prefix of an integer that the tokens begin with.
pub fn prefix_at(tokens: Tokens) -> Option<UnaryOperator>
    ensures { option_map prefix_form result ≡ first_form unary_at (symbols_left tokens.entry) }
{
    match tokens.list {
        [] => None,
        [first, ..] => prefix_of_kind(first.kind),
    }
}

fn is_not(kind: TokenKind) -> bool
    ensures { (text : Bytes) (at len : ℕ) →
        not_at (symbol_of text at len kind) ≡ if result then Some negation else None }
{
    matches!(kind, TokenKind::Key(Key::Not))
}

/// Whether the tokens begin with `not`.
pub fn begins_with_not(tokens: Tokens) -> bool
    ensures { first_form not_at (symbols_left tokens.entry) ≡ if result then Some negation else None }
{
    match tokens.list {
        [] => false,
        [first, ..] => is_not(first.kind),
    }
}

fn ends_argument(kind: TokenKind) -> bool
    ensures { (text : Bytes) (at len : ℕ) → result ≡ ends_argument (symbol_of text at len kind) }
{
    matches!(kind, TokenKind::Sign(Sign::Comma | Sign::CloseParenthesis))
}

/// Whether the tokens begin with what stands behind an argument.
pub fn begins_with_argument_end(tokens: Tokens) -> bool
    ensures { result ≡ argument_ended (symbols_left tokens.entry) }
{
    match tokens.list {
        [] => false,
        [first, ..] => ends_argument(first.kind),
    }
}
