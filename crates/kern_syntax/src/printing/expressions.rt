// The text of expressions.

ghost use Rattle.std.specs.Prelude.{◌≡◌, ◌++◌, OnOk, decimal};
ghost use Rattle.kern_syntax.specs.Print.{expression_text, joined, argument_texts, quoted, sign_of_binary, sign_of_comparison, sign_of_unary};
ghost use Rattle.kern_syntax.specs.TreeOf.{expression_of, argument_of, arguments_of};
ghost use Rattle.kern_syntax.specs.Tree.{no_more};

use super::put;
use crate::{Argument, BinaryOperator, Comparison, Expr, Identifier, UnaryOperator};
use itoa::Buffer;
use rtio_types::Name;
use std::alloc::AllocError;

/// Appends an expression.
#[cycle(expressions)]
pub fn put_expression(text: &mut Vec<u8>, e: &Expr) -> Result<(), AllocError>
    ensures { OnOk result (text.new.items ≡ text.old.items ++ expression_text (expression_of e.now)) }
{
    match e {
        Expr::Integer(value) => put_integer(text, *value),
        Expr::True => put(text, b"True"),
        Expr::False => put(text, b"False"),
        Expr::Variable(name) => put(text, name.bytes()),
        Expr::Index(array, index) => put_element(text, array, index),
        Expr::Group(inner) => {
            put_after(text, b"(", inner)?;
            put(text, b")")
        }
        Expr::Unary(operator, operand) => put_after(text, unary_sign(*operator), operand),
        Expr::Binary(operator, left, right) => {
            put_expression(text, left)?;
            put_after(text, binary_sign(*operator), right)
        }
        Expr::Compare(comparison, left, right) => {
            put_expression(text, left)?;
            put_after(text, comparison_sign(*comparison), right)
        }
        Expr::Not(operand) => put_after(text, b"not ", operand),
        Expr::And(left, right) => {
            put_expression(text, left)?;
            put_after(text, b" and ", right)
        }
        Expr::Or(left, right) => {
            put_expression(text, left)?;
            put_after(text, b" or ", right)
        }
        Expr::Call(function, arguments) => {
            put(text, function.bytes())?;
            put_arguments(text, arguments)
        }
        Expr::Method(object, method, arguments) => {
            put(text, object.bytes())?;
            put(text, b".")?;
            put(text, method.bytes())?;
            put_arguments(text, arguments)
        }
    }
}

/// Appends a word or a sign, and the expression behind it.
#[cycle(expressions)]
pub fn put_after(text: &mut Vec<u8>, word: &[u8], e: &Expr) -> Result<(), AllocError>
    ensures { OnOk result (text.new.items ≡ text.old.items ++ word.now ++ expression_text (expression_of e.now)) }
{
    put(text, word)?;
    put_expression(text, e)
}

ghost use Rattle.std.specs.Prelude.{codes};

/// Appends an element of an array, with its index in brackets.
#[cycle(expressions)]
pub fn put_element(text: &mut Vec<u8>, array: &Identifier, index: &Expr) -> Result<(), AllocError>
    ensures { OnOk result (text.new.items
        ≡ text.old.items ++ array.now ++ codes "[" ++ expression_text (expression_of index.now) ++ codes "]") }
{
    put(text, array.bytes())?;
    put_after(text, b"[", index)?;
    put(text, b"]")
}

// Appends the arguments of a call in their parentheses.
#[cycle(expressions)]
fn put_arguments(text: &mut Vec<u8>, arguments: &[Argument]) -> Result<(), AllocError>
    ensures { OnOk result (text.new.items
        ≡ text.old.items ++ codes "(" ++ joined (argument_texts (arguments_of arguments.now)) ++ codes ")") }
{
    put(text, b"(")?;
    for (index, argument) in arguments.iter().enumerate() {
        put_separator(text, index)?;
        put_argument(text, argument)?;
    }
    put(text, b")")
}

#[cycle(expressions)]
fn put_argument(text: &mut Vec<u8>, argument: &Argument) -> Result<(), AllocError>
    ensures { OnOk result (text.new.items ≡ text.old.items ++ joined (argument_texts (argument_of argument.now no_more))) }
{
    match argument {
        Argument::Value(e) => put_expression(text, e),
        Argument::Text(name) => put_quoted(text, name),
    }
}

ghost use Rattle.std.specs.Prelude.{[], ◌==◌, if◌then◌else◌};

/// Appends what stands before the item at an index of a list.
pub fn put_separator(text: &mut Vec<u8>, index: usize) -> Result<(), AllocError>
    ensures { OnOk result (text.new.items ≡ text.old.items ++ (if index == 0 then [] else codes ", ")) }
{
    if index > 0 { put(text, b", ") } else { Ok(()) }
}

/// Appends a text in its quotes.
pub fn put_quoted(text: &mut Vec<u8>, name: &Name) -> Result<(), AllocError>
    ensures { OnOk result (text.new.items ≡ text.old.items ++ quoted name.now) }
{
    put(text, b"\"")?;
    put(text, name.bytes())?;
    put(text, b"\"")
}

/// Appends an integer in decimal.
pub fn put_integer(text: &mut Vec<u8>, value: u64) -> Result<(), AllocError>
    ensures { OnOk result (text.new.items ≡ text.old.items ++ decimal value) }
{
    put(text, Buffer::new().format(value).as_bytes())
}

fn unary_sign(operator: UnaryOperator) -> &'static [u8]
    ensures { result.now ≡ sign_of_unary operator }
{
    match operator {
        UnaryOperator::Negate => b"-",
        UnaryOperator::Invert => b"~",
    }
}

fn binary_sign(operator: BinaryOperator) -> &'static [u8]
    ensures { result.now ≡ sign_of_binary operator }
{
    match operator {
        BinaryOperator::Add => b" + ",
        BinaryOperator::Subtract => b" - ",
        BinaryOperator::Multiply => b" * ",
        BinaryOperator::Divide => b" // ",
        BinaryOperator::Remainder => b" % ",
        BinaryOperator::ShiftLeft => b" << ",
        BinaryOperator::ShiftRight => b" >> ",
        BinaryOperator::BitAnd => b" & ",
        BinaryOperator::BitXor => b" ^ ",
        BinaryOperator::BitOr => b" | ",
    }
}

fn comparison_sign(comparison: Comparison) -> &'static [u8]
    ensures { result.now ≡ sign_of_comparison comparison }
{
    match comparison {
        Comparison::Equal => b" == ",
        Comparison::NotEqual => b" != ",
        Comparison::Less => b" < ",
        Comparison::LessEqual => b" <= ",
        Comparison::Greater => b" > ",
        Comparison::GreaterEqual => b" >= ",
    }
}
