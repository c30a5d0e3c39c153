// The canonical text of a program: of all spellings of a tree, the one that is printed.

mod expressions;
mod lines;
mod statements;

ghost use Rattle.std.specs.Prelude.{◌≡◌, ◌++◌, IfOk, OnOk};
ghost use Rattle.kern_syntax.specs.Print.{program_text};
ghost use Rattle.kern_syntax.specs.TreeOf.{tree_of};

use crate::{DeclaredType, Function, Parameter, Program};
use expressions::put_separator;
use statements::put_body;
use std::alloc::{AllocError, Global};

/// The canonical text of a program: each statement on a line of its own, four spaces for each level of a block, one
/// space on both sides of an operator between two operands, `, ` between items, integers in decimal. Lines, comments
/// and decorators of the text that the tree was read from leave no trace. Fails only for want of memory.
pub fn print(alloc: Global, program: &Program) -> Result<Vec<u8>, AllocError>
    ensures { IfOk result (λ text. text.items ≡ program_text (tree_of program.now)) }
{
    let mut text = Vec::new(alloc);
    for function in program.functions().iter() {
        put_function(&mut text, function)?;
    }
    Ok(text)
}

// Appends some bytes to the text.
fn put(text: &mut Vec<u8>, bytes: &[u8]) -> Result<(), AllocError>
    ensures { OnOk result (text.new.items ≡ text.old.items ++ bytes.now) }
{
    text.extend_from_slice(bytes)
}

ghost use Rattle.std.specs.Prelude.{map, codes};
ghost use Rattle.kern_syntax.specs.Print.{function_text, header_text, joined, parameter_text, result_text, name_of_type};
ghost use Rattle.kern_syntax.specs.TreeOf.{function_of, parameter_of};

fn put_function(text: &mut Vec<u8>, function: &Function) -> Result<(), AllocError>
    ensures { OnOk result (text.new.items ≡ text.old.items ++ function_text (function_of function.now)) }
{
    put_header(text, function)?;
    put_body(text, 0, &function.body)
}

// Appends a function's header up to its colon.
fn put_header(text: &mut Vec<u8>, function: &Function) -> Result<(), AllocError>
    ensures { OnOk result (text.new.items ≡ text.old.items ++ header_text (function_of function.now)) }
{
    put(text, b"def ")?;
    put(text, function.name.bytes())?;
    put(text, b"(")?;
    put_parameters(text, function.parameters.items())?;
    put(text, b")")?;
    put_result(text, function.result)
}

fn put_parameters(text: &mut Vec<u8>, parameters: &[Parameter]) -> Result<(), AllocError>
    ensures { OnOk result (text.new.items ≡ text.old.items ++ joined (map parameter_text (map parameter_of parameters.now))) }
{
    for (index, parameter) in parameters.iter().enumerate() {
        put_separator(text, index)?;
        put_parameter(text, parameter)?;
    }
    Ok(())
}

fn put_parameter(text: &mut Vec<u8>, parameter: &Parameter) -> Result<(), AllocError>
    ensures { OnOk result (text.new.items ≡ text.old.items ++ parameter_text (parameter_of parameter.now)) }
{
    put(text, parameter.name.bytes())?;
    put(text, b": ")?;
    put(text, type_name(parameter.declared))
}

fn put_result(text: &mut Vec<u8>, declared: Option<DeclaredType>) -> Result<(), AllocError>
    ensures { OnOk result (text.new.items ≡ text.old.items ++ result_text declared) }
{
    match declared {
        None => Ok(()),
        Some(declared) => {
            put(text, b" -> ")?;
            put(text, type_name(declared))
        }
    }
}

fn type_name(declared: DeclaredType) -> &'static [u8]
    ensures { result.now ≡ name_of_type declared }
{
    match declared {
        DeclaredType::Int32 => b"int32",
        DeclaredType::Int64 => b"int64",
        DeclaredType::Bool => b"bool",
    }
}
