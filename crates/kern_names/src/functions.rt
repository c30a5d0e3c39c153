// The functions of a program, found by their names.

ghost use Rattle.std.specs.Prelude.{◌≡◌, List, ℕ, IfOk};
ghost use Rattle.kern_syntax.specs.TreeOf.{tree_of};
ghost use Rattle.kern_calls.specs.Calls.{look_up};
ghost use Rattle.kern_types.specs.Programs.{IsTyped, place_of_function};

use crate::function_numbers::FunctionNumbers;
use kern_syntax::{DeclaredType, Function};
use std::alloc::{AllocError, Global};

/// The functions of a typed program, each found by its name. Contracts see them by `program_of`.
#[derive(Clone, Copy)]
pub struct Functions<'a> {
    /// The functions in the order of the text.
    pub functions: &'a [Function],
    /// Their places by their names.
    pub numbers: &'a FunctionNumbers,
    ghost numbered: { (name : List ℕ) → look_up numbers.now name ≡ place_of_function (tree_of functions.now) name },
    ghost typed: { IsTyped (tree_of functions.now) },
}

/// The places of the functions of a program by their names. It ends early only for want of memory.
pub fn number_functions(
    alloc: Global,
    functions: &[Function],
) -> Result<FunctionNumbers, AllocError>
    ensures { IfOk result (λ numbers. (name : List ℕ) → look_up numbers name ≡ place_of_function (tree_of functions.now) name) }
{
    let mut numbers = FunctionNumbers::new(alloc);
    for (number, function) in functions.iter().enumerate() {
        note_function(alloc, &mut numbers, number, function)?;
    }
    Ok(numbers)
}

ghost use Rattle.std.specs.Prelude.{OnOk};
ghost use Rattle.kern_names.specs.Numbers.{with_number};

// Puts a function behind those that are numbered, unless an earlier one has its name.
fn note_function(
    alloc: Global,
    numbers: &mut FunctionNumbers,
    number: usize,
    function: &Function,
) -> Result<(), AllocError>
    ensures { OnOk result (numbers.new ≡ with_number numbers.old function.now.name number) }
{
    let name = function.name.bytes();
    match numbers.get(name) {
        Some(_) => Ok(()),
        None => numbers.add(alloc, name, number),
    }
}

impl<'a> Functions<'a> {
    ghost use Rattle.std.specs.Prelude.{◌≡◌, option_and_then, option_map};
    ghost use Rattle.kern_syntax.specs.TreeOf.{function_of};
    ghost use Rattle.kern_types.specs.Programs.{place_of_function};
    ghost use Rattle.kern_calls.specs.Types.{function_named};
    ghost use Rattle.kern_names.specs.ScopeOf.{program_of};

    /// The place of the function of a name in the order of the text, from 0.
    pub fn place(&self, name: &[u8]) -> Option<usize>
        ensures { result ≡ place_of_function (program_of self.now) name.now }
    {
        self.numbers.get(name)
    }

    /// The function of a name.
    pub fn named(&self, name: &[u8]) -> Option<&'a Function>
        ensures { option_map (λ f. function_of f.now) result ≡ function_named (program_of self.now) name.now }
    {
        match self.numbers.get(name) {
            Some(number) => Some(&self.functions[number]),
            None => None,
        }
    }

    /// The type of the value of the function of a name, if there is one that has a value.
    pub fn result(&self, name: &[u8]) -> Option<DeclaredType>
        ensures { result ≡ option_and_then (λ f. f.result) (function_named (program_of self.now) name.now) }
    {
        match self.named(name) {
            Some(function) => function.result,
            None => None,
        }
    }
}
