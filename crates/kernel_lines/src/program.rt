// The lines of a whole program.

ghost use Rattle.std.specs.Prelude.{◌≡◌, ◌≤◌, ◌++◌, All, Contains, IfOk, OnOk};
ghost use Rattle.limits.specs.Limits.{most_nodes};
ghost use Rattle.kern_syntax.specs.Nodes.{program_nodes};
ghost use Rattle.kern_syntax.specs.TreeOf.{function_of, tree_of};
ghost use Rattle.code_law.specs.Laws.{IsFit};
ghost use Rattle.kern_names.specs.ScopeOf.{program_of};
ghost use Rattle.kernel_lines.specs.KernelLines.{function_lines, functions_lines, program_lines};
ghost use Rattle.kernel_lines.specs.Ready.{IsReadySomewhere};

use crate::body::put_body;
use code_law::{checked_programs_are_fit, functions_are_ready};
use core_code_names::{Setting, SlottedNames, Texts, texts_of};
use kern_names::{Functions, names_of, number_functions};
use kern_syntax::{Function, Program};
use kern_types::Checked;
use std::alloc::{AllocError, Global};

/// The line of the text to which each instruction of a checked program's code belongs, at the instruction's place. Lines count
/// from 1; 0 is the line of what compares an exception on its way with the name of a handler or raises it again. The program
/// has at most 16,384 nodes, as each one that has code. It ends early only for want of memory.
pub fn program_lines(alloc: Global, checked: &Checked) -> Result<Vec<u32>, AllocError>
    requires { program_nodes (tree_of checked.now) ≤ most_nodes }
    ensures { IfOk result (λ lines. lines.items ≡ program_lines (tree_of checked.now)) }
{
    checked_programs_are_fit();
    lines_of(alloc, checked.program())
}

// The lines of a program that is not too large.
fn lines_of(alloc: Global, program: &Program) -> Result<Vec<u32>, AllocError>
    requires { IsFit (tree_of program.now) }
    ensures { IfOk result (λ lines. lines.items ≡ program_lines (tree_of program.now)) }
{
    functions_are_ready();
    let functions = program.functions();
    let numbers = number_functions(alloc, functions)?;
    let texts = texts_of(alloc, functions)?;
    let numbered = Functions {
        functions,
        numbers: &numbers,
    };
    functions_lines(alloc, &numbered, &texts)
}

// The lines of the functions of a program one behind the other.
fn functions_lines(
    alloc: Global,
    program: &Functions<'_>,
    texts: &Texts,
) -> Result<Vec<u32>, AllocError>
    requires { All (IsReadySomewhere (program_of program.now) texts.now) (program_of program.now) }
    ensures { IfOk result (λ lines. lines.items ≡ functions_lines (program_of program.now) texts.now (program_of program.now)) }
{
    let mut lines = Vec::new(alloc);
    for function in program.functions.iter() {
        put_function(alloc, &mut lines, program, texts, function)?;
    }
    Ok(lines)
}

// Puts the lines of a function behind those that there are.
fn put_function(
    alloc: Global,
    lines: &mut Vec<u32>,
    program: &Functions<'_>,
    texts: &Texts,
    function: &Function,
) -> Result<(), AllocError>
    requires own { Contains (program_of program.now) (function_of function.now) }
    requires ready { IsReadySomewhere (program_of program.now) texts.now (function_of function.now) }
    ensures { OnOk result (lines.new.items ≡ lines.old.items
        ++ function_lines (program_of program.now) texts.now (function_of function.now)) }
{
    let names = SlottedNames::of(alloc, names_of(alloc, program, function)?)?;
    let value = function.result.is_some();
    let setting = Setting::new(*program, &names, texts, value);
    put_body(lines, &setting, function.line, &function.body)
}
