// The text of one line of a statement: of the whole line where it has no block, else of its header up to the colon.

ghost use Rattle.std.specs.Prelude.{◌≡◌, ◌++◌, OnOk, codes};
ghost use Rattle.kern_syntax.specs.Print.{expression_text, target_text, sign_of_augment};
ghost use Rattle.kern_syntax.specs.TreeOf.{expression_of};

use super::expressions::{
    put_after, put_element, put_expression, put_integer, put_quoted, put_separator,
};
use super::put;
use crate::{Augment, Expr, Identifier, Target};
use rtio_types::Name;
use std::alloc::AllocError;

/// Appends a word and an expression, and ends the line.
pub fn put_line(text: &mut Vec<u8>, word: &[u8], e: &Expr) -> Result<(), AllocError>
    ensures { OnOk result (text.new.items ≡ text.old.items ++ word.now ++ expression_text (expression_of e.now) ++ codes "\n") }
{
    put_after(text, word, e)?;
    put(text, b"\n")
}

/// Appends an assignment with its sign, and ends the line.
pub fn put_assignment(
    text: &mut Vec<u8>,
    target: &Target,
    sign: &[u8],
    value: &Expr,
) -> Result<(), AllocError>
    ensures { OnOk result (text.new.items ≡ text.old.items ++ target_text target.now ++ sign.now ++ expression_text (expression_of value.now) ++ codes "\n") }
{
    put_target(text, target)?;
    put_line(text, sign, value)
}

fn put_target(text: &mut Vec<u8>, target: &Target) -> Result<(), AllocError>
    ensures { OnOk result (text.new.items ≡ text.old.items ++ target_text target.now) }
{
    match target {
        Target::Variable(name) => put(text, name.bytes()),
        Target::Element(array, index) => put_element(text, array, index),
    }
}

pub fn augment_sign(operator: Augment) -> &'static [u8]
    ensures { result.now ≡ sign_of_augment operator }
{
    match operator {
        Augment::Add => b" += ",
        Augment::Subtract => b" -= ",
    }
}

ghost use Rattle.std.specs.Prelude.{map, decimal};
ghost use Rattle.kern_syntax.specs.Print.{joined, quoted};

/// Appends the line `name = [value] * length`.
pub fn put_repeated(
    text: &mut Vec<u8>,
    name: &Identifier,
    value: &Expr,
    length: u64,
) -> Result<(), AllocError>
    ensures { OnOk result (text.new.items ≡ text.old.items ++ name.now ++ codes " = [" ++ expression_text (expression_of value.now) ++ codes "] * " ++ decimal length ++ codes "\n") }
{
    put(text, name.bytes())?;
    put_after(text, b" = [", value)?;
    put(text, b"] * ")?;
    put_integer(text, length)?;
    put(text, b"\n")
}

/// Appends the line `name = [value, value, ..]`.
pub fn put_elements(
    text: &mut Vec<u8>,
    name: &Identifier,
    values: &[Expr],
) -> Result<(), AllocError>
    ensures { OnOk result (text.new.items ≡ text.old.items ++ name.now ++ codes " = [" ++ joined (map expression_text (map expression_of values.now)) ++ codes "]\n") }
{
    put(text, name.bytes())?;
    put(text, b" = [")?;
    for (index, value) in values.iter().enumerate() {
        put_separator(text, index)?;
        put_expression(text, value)?;
    }
    put(text, b"]\n")
}

/// Appends the header of a loop from 0.
pub fn put_for_to(text: &mut Vec<u8>, name: &Identifier, to: &Expr) -> Result<(), AllocError>
    ensures { OnOk result (text.new.items ≡ text.old.items ++ codes "for " ++ name.now ++ codes " in range(" ++ expression_text (expression_of to.now) ++ codes ")") }
{
    put(text, b"for ")?;
    put(text, name.bytes())?;
    put_after(text, b" in range(", to)?;
    put(text, b")")
}

/// Appends the header of a loop between two bounds.
pub fn put_for_from_to(
    text: &mut Vec<u8>,
    name: &Identifier,
    from: &Expr,
    to: &Expr,
) -> Result<(), AllocError>
    ensures { OnOk result (text.new.items ≡ text.old.items ++ (codes "for " ++ name.now ++ codes " in range(" ++ (expression_text (expression_of from.now) ++ codes ", " ++ expression_text (expression_of to.now)) ++ codes ")")) }
{
    put(text, b"for ")?;
    put(text, name.bytes())?;
    put_after(text, b" in range(", from)?;
    put_after(text, b", ", to)?;
    put(text, b")")
}

/// Appends the header of a block that is recorded under a name.
pub fn put_record(text: &mut Vec<u8>, name: &Name) -> Result<(), AllocError>
    ensures { OnOk result (text.new.items ≡ text.old.items ++ codes "with core_dma.record(" ++ quoted name.now ++ codes ")") }
{
    put(text, b"with core_dma.record(")?;
    put_quoted(text, name)?;
    put(text, b")")
}
