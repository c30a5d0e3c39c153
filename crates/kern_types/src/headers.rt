// The types of functions: their parameters and their bodies.

ghost use Rattle.std.specs.Prelude.{◌≡◌, map};
ghost use Rattle.kern_syntax.specs.TreeOf.{parameter_of, function_of};
ghost use Rattle.kern_expression_types.specs.Answers.{Leaves, Passes};
ghost use Rattle.kern_expression_types.specs.KnownOf.{functions_of};
ghost use Rattle.kern_types.specs.Programs.{body_place, body_verdict, parameter_verdict, parameters_verdict};

use crate::blocks::check_block;
use kern_calls::declared_type;
use kern_expression_types::{Known, Locals, Place, TypeFault, TypeKind, refuse_if};
use kern_syntax::{Function, Parameter};

// The most parameters of a function.
const MOST_PARAMETERS: usize = 8;

/// Checks the parameters and the body of a function.
pub fn check_body(known: &Known<'_>, function: &Function) -> Result<(), TypeFault>
    ensures { Passes result (body_verdict (functions_of known.now) (function_of function.now)) }
{
    let mut names = Locals::new();
    let parameters = function.parameters.items();
    check_parameters(known, function.line, &mut names, parameters)?;
    check_block(known, body_place(function), &mut names, &function.body)
}

// The place of a function's body.
fn body_place(function: &Function) -> Place
    ensures { result ≡ body_place (function_of function.now) }
{
    Place {
        line: function.line,
        result: function.result,
        in_loop: false,
        may_return: true,
        in_record: false,
    }
}

fn check_parameters<'a>(
    known: &Known<'_>,
    line: u32,
    names: &mut Locals<'a>,
    parameters: &'a [Parameter],
) -> Result<(), TypeFault>
    ensures { Leaves result names.new (parameters_verdict (functions_of known.now) line (map parameter_of parameters.now) names.old) }
{
    for parameter in parameters.iter() {
        check_parameter(known, line, names, parameter)?;
    }
    Ok(())
}

fn check_parameter<'a>(
    known: &Known<'_>,
    line: u32,
    names: &mut Locals<'a>,
    parameter: &'a Parameter,
) -> Result<(), TypeFault>
    ensures { Leaves result names.new (parameter_verdict (functions_of known.now) line (parameter_of parameter.now) names.old) }
{
    let name = parameter.name.bytes();
    let declared = declared_type(parameter.declared);
    match names.get(name) {
        Some(_) => Err(TypeFault {
            line,
            kind: TypeKind::Name,
        }),
        None => {
            refuse_if(known.is_taken(name), line, TypeKind::Name)?;
            refuse_if(names.len() >= MOST_PARAMETERS, line, TypeKind::Size)?;
            names.add(name, declared);
            Ok(())
        }
    }
}
