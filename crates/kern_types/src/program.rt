// The types of programs.

ghost use Rattle.std.specs.Prelude.{◌≡◌, ◌||◌, [], Some, codes, is_some, map, slice_get, take};
ghost use Rattle.kern_syntax.specs.TreeOf.{function_of, tree_of};
ghost use Rattle.kern_expression_types.specs.Answers.{Finds, Passes};
ghost use Rattle.kern_expression_types.specs.Before.{is_reserved};
ghost use Rattle.kern_expression_types.specs.FunctionNames.{function_names};
ghost use Rattle.kern_expression_types.specs.Verdicts.{refuse_if};
ghost use Rattle.kern_types.specs.Programs.{function_verdict, main_verdict, program_verdict};
ghost use Rattle.kern_calls.specs.Types.{function_named};

use crate::headers::check_body;
use arrayvec::ArrayVec;
use kern_expression_types::{FunctionNames, Known, TypeFault, TypeKind, is_reserved, refuse_if};
use kern_plain::note_plain;
use kern_syntax::Function;
use std::alloc::Global;

// The most functions of a program.
const MOST_FUNCTIONS: usize = 256;

/// Checks the functions of a program. It needs no memory: where some is refused, names are looked up slowly.
pub fn check_functions(alloc: Global, functions: &[Function]) -> Result<(), TypeFault>
    ensures { Passes result (program_verdict (tree_of functions.now)) }
{
    let all = FunctionNames::of(alloc, functions);
    let mut plain = ArrayVec::new();
    check_each(functions, &all, &mut plain)
}

// Checks one function after another, and then that there is a `main`. It owns none of the lists: dropping them on each
// way out would be dear to prove.
fn check_each<'a>(
    functions: &'a [Function],
    all: &FunctionNames<'a>,
    plain: &mut ArrayVec<&'a [u8], MOST_FUNCTIONS>,
) -> Result<(), TypeFault>
    requires all_named { all.now ≡ function_names functions.now }
    requires none_plain { plain.old.items ≡ [] }
    ensures { Passes result (program_verdict (tree_of functions.now)) }
{
    for (number, function) in functions.iter().enumerate() {
        check_function(functions, all, number, plain.as_slice(), function)?;
        note_plain(plain, function);
    }
    check_main(functions)
}

// Checks a function behind a number of others, of which some are plain.
fn check_function(
    functions: &[Function],
    all: &FunctionNames<'_>,
    number: usize,
    plain: &[&[u8]],
    function: &Function,
) -> Result<(), TypeFault>
    requires all_named { all.now ≡ function_names functions.now }
    requires next { slice_get functions.now number ≡ Some function.now }
    ensures { Passes result
        (function_verdict (tree_of functions.now) (tree_of (take number functions.now)) (map (λ name. name.now) plain.now) (function_of function.now)) }
{
    check_name(&functions[..number], function)?;
    refuse_if(number >= MOST_FUNCTIONS, function.line, TypeKind::Size)?;
    let known = Known {
        functions,
        all,
        callable: number + 1,
        plain,
    };
    check_body(&known, function)
}

ghost use Rattle.kern_expression_types.specs.declared.fault.TypeKind.TheVariants as K;

// Checks that the name of a function is no earlier one's and not reserved.
fn check_name(earlier: &[Function], function: &Function) -> Result<(), TypeFault>
    ensures { Finds result (refuse_if (is_some (function_named (tree_of earlier.now) function.now.name) || is_reserved function.now.name) function.now.line K.Name) }
{
    let name = function.name.bytes();
    let is_taken = is_named(earlier, name) || is_reserved(name);
    refuse_if(is_taken, function.line, TypeKind::Name)
}

ghost use Rattle.std.specs.Prelude.{bytes_eq};
ghost use Rattle.std.specs.List.{list_any};

// Whether one of some functions has a name.
fn is_named(functions: &[Function], name: &[u8]) -> bool
    ensures { result ≡ list_any (λ f. bytes_eq name.now f.name) functions.now }
{
    functions
        .iter()
        .any(|function| name == function.name.bytes())
}

// Checks that there is a function `main` without parameters.
fn check_main(functions: &[Function]) -> Result<(), TypeFault>
    ensures { Finds result (main_verdict (tree_of functions.now)) }
{
    refuse_if(!has_main(functions), 1, TypeKind::NoMain)
}

ghost use Rattle.kern_types.specs.Programs.{has_main};

fn has_main(functions: &[Function]) -> bool
    ensures { result ≡ has_main (function_named (tree_of functions.now) (codes "main")) }
{
    for function in functions.iter() {
        if b"main".as_slice() == function.name.bytes() {
            return has_no_parameters(function);
        }
    }
    false
}

fn has_no_parameters(function: &Function) -> bool
    ensures { result ≡ has_main (Some (function_of function.now)) }
{
    match function.parameters.items() {
        [] => true,
        [_, ..] => false,
    }
}
