// What calls take and give.

ghost use Rattle.std.specs.Prelude.{◌≡◌, length, option_and_then, slice_get};
ghost use Rattle.kern_calls.specs.Calls.{builtin_named, object_named};
ghost use Rattle.kern_expression_types.specs.Answers.{Finds};
ghost use Rattle.kern_expression_types.specs.Expressions.{named_verdict, method_verdict};
ghost use Rattle.kern_expression_types.specs.KnownOf.{functions_of};
ghost use Rattle.kern_expression_types.specs.Misfits.{IsCalleeOf, counted_verdict, taken, taken_by};
ghost use Rattle.kern_expression_types.specs.Fits.{misfit};

use crate::fault::{TypeFault, TypeKind};
use crate::fits::{declared_wanted, given_result, misfit, refuse_if, refuse_some};
use crate::known::Known;
use crate::place::{Given, Place};
use kern_calls::{Wanted, builtin_named, method_of, object_named};
use kern_syntax::{DeclaredType, Function, Parameter};

/// What a call takes, from left to right.
#[derive(Clone, Copy)]
pub enum Takes<'a> {
    /// What a function or method of the language takes.
    Wanted(&'a [Wanted]),
    /// What the parameters of a function of the program take.
    Parameters(&'a [Parameter]),
}

impl Takes<'_> {
    // How many arguments there have to be.
    fn count(&self) -> usize
        ensures { result ≡ length (taken self.now) }
    {
        match self {
            Takes::Wanted(wanted) => wanted.len(),
            Takes::Parameters(parameters) => parameters.len(),
        }
    }

    // What is wanted at a place, from 0.
    fn wanted_at(&self, number: usize) -> Option<Wanted>
        ensures { result ≡ slice_get (taken self.now) number }
    {
        match self {
            Takes::Wanted(wanted) => wanted.get(number).copied(),
            Takes::Parameters(parameters) => match parameters.get(number) {
                Some(parameter) => Some(declared_wanted(parameter.declared)),
                None => None,
            },
        }
    }
}

/// What a call is of.
#[derive(Clone, Copy)]
pub struct Callee<'a> {
    /// What it takes.
    pub takes: Takes<'a>,
    /// The type of its value, if it has one.
    pub result: Option<DeclaredType>,
    /// Whether no record block may have the call: it asks the core for more than outputs, opens an input's gate, or is of a
    /// function that isn't plain.
    pub is_live: bool,
}

/// The fault of an argument at a place, from 0, if there is one.
pub fn misfit_at(
    callee: &Result<Callee<'_>, TypeKind>,
    number: usize,
    given: Given,
) -> Option<TypeKind>
    ensures { result ≡ option_and_then (λ wanted. misfit wanted given) (slice_get (taken_by callee.now) number) }
{
    match callee {
        Ok(callee) => misfit(callee.takes.wanted_at(number)?, given),
        Err(_) => None,
    }
}

/// A call of this, when it is known how many arguments there are and which fault the first has that doesn't fit.
pub fn check_counted(
    place: Place,
    callee: &Result<Callee<'_>, TypeKind>,
    count: usize,
    misfit: Option<TypeKind>,
) -> Result<Given, TypeFault>
    ensures { Finds result (counted_verdict place callee.now count misfit) }
{
    match callee {
        Ok(callee) => {
            refuse_if(count != callee.takes.count(), place.line, TypeKind::Arity)?;
            refuse_some(misfit, place.line)?;
            refuse_if(
                place.in_record && callee.is_live,
                place.line,
                TypeKind::LiveInRecord,
            )?;
            Ok(given_result(callee.result))
        }
        Err(kind) => Err(TypeFault {
            line: place.line,
            kind: *kind,
        }),
    }
}

/// What a call by name is of: the language's own function, or else one of the program that may be called.
pub fn function_called<'a>(known: &Known<'a>, name: &[u8]) -> Result<Callee<'a>, TypeKind>
    ensures { IsCalleeOf result (λ place. named_verdict (functions_of known.now) place name.now (builtin_named name.now)) }
{
    if let Some(builtin) = builtin_named(name) {
        return Ok(Callee {
            takes: Takes::Wanted(builtin.takes()),
            result: builtin.result(),
            is_live: builtin.is_live(),
        });
    }
    match known.callee(name) {
        Some(function) => Ok(program_callee(known, function)),
        None => Err(TypeKind::Unknown),
    }
}

ghost use Rattle.kern_syntax.specs.TreeOf.{function_of};
ghost use Rattle.kern_expression_types.specs.Expressions.{function_verdict};

// A call of a function of the program, which is live unless it is plain.
fn program_callee<'a>(known: &Known<'a>, function: &'a Function) -> Callee<'a>
    ensures { IsCalleeOf (Ok result) (λ place. function_verdict (functions_of known.now) place (function_of function.now)) }
{
    Callee {
        takes: Takes::Parameters(function.parameters.items()),
        result: function.result,
        is_live: !known.is_plain(function.name.bytes()),
    }
}

/// What a call of a method is of: the object comes first, and then its method.
pub fn method_called(object: &[u8], method: &[u8]) -> Result<Callee<'static>, TypeKind>
    ensures { IsCalleeOf result (λ place. method_verdict place (object_named object.now) method.now) }
{
    let Some(object) = object_named(object) else {
        return Err(TypeKind::Unknown);
    };
    match method_of(object, method) {
        Some(operation) => Ok(Callee {
            takes: Takes::Wanted(operation.takes()),
            result: operation.result(),
            is_live: operation.is_live(),
        }),
        None => Err(TypeKind::Method),
    }
}
