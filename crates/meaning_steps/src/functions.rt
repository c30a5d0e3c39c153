// How a function begins and ends: its call, the values of its names, and what it gives.

ghost use Rattle.std.specs.Prelude.{◌≡◌, IfOk};
ghost use Rattle.meaning_state.specs.Values.{value_held};
ghost use Rattle.meaning_steps.specs.Entering.{first_value, later_args};
ghost use Rattle.timeline_sem.specs.Programs.{initial_value, initial_values};

use crate::assigning::repeated;
use kern_calls::ValueType;
use kern_names::{KnownName, Names};
use meaning_state::{Early, Held, Reason, State, Variable};
use rtio_types::Exc;
use std::alloc::{AllocError, Global};

// The value that a name starts with: 0, False or an array of 0. The only error is want of memory.
fn initial(alloc: Global, kind: ValueType) -> Result<Held, AllocError>
    ensures { IfOk result (λ held. value_held held ≡ initial_value kind) }
{
    match kind {
        ValueType::Array(length) => Ok(Held::Array(repeated(alloc, 0, length as u64)?)),
        _ => Ok(Held::Number(0)),
    }
}

// The value that the next name starts with: the next argument, if there is one.
fn first_held(alloc: Global, kind: ValueType, args: &[i64]) -> Result<Held, AllocError>
    ensures { IfOk result (λ held. value_held held ≡ first_value kind args.now) }
{
    match args {
        [] => initial(alloc, kind),
        [first, ..] => Ok(Held::Number(*first)),
    }
}

// The next name with the value that it starts with.
fn first_variable(
    alloc: Global,
    known: &KnownName<'_>,
    args: &[i64],
) -> Result<Variable, AllocError>
    ensures { IfOk result (λ variable. variable ≡ (known.now.name.now, first_value known.now.kind args.now)) }
{
    let held = first_held(alloc, known.kind, args)?;
    let name = Vec::from_slice(alloc, known.name)?;
    Ok(Variable::of(name, held))
}

// The arguments behind the first.
fn later_args(args: &[i64]) -> &[i64]
    ensures { result.now ≡ later_args args.now }
{
    match args {
        [] => args,
        [_, rest @ ..] => rest,
    }
}

/// The names of a function with their values when it begins: the parameters have the arguments. The only error is want of
/// memory.
pub fn initial_values(
    alloc: Global,
    names: &Names,
    args: &[i64],
) -> Result<Vec<Variable>, AllocError>
    ensures { IfOk result (λ values. values.items ≡ initial_values names.now args.now) }
{
    let mut values = Vec::new(alloc);
    let mut left = args;
    for place in 0..names.len() {
        values.push(first_variable(alloc, &names.at(place), left)?)?;
        left = later_args(left);
    }
    Ok(values)
}

ghost use Rattle.meaning_state.specs.Does.{DoesAlways};
ghost use Rattle.meaning_steps.specs.Entering.{enter_call};

/// The beginning of a call, where so many further functions may become active. It takes a unit, and gives how many may
/// become active beside the function that it enters. Where none may it raises `StackOverflow`.
pub fn enter_call(state: &mut State<'_>, room: u32) -> Result<u32, Reason>
    ensures { DoesAlways result state.new (enter_call room state.old) }
{
    state.take_unit()?;
    if room == 0 {
        return Err(Reason::Raised(Exc::StackOverflow));
    }
    Ok(room - 1)
}

ghost use Rattle.std.specs.Prelude.{⊤, Err, List, ℕ};
ghost use Rattle.meaning_state.specs.Does.{Does};
ghost use Rattle.rtio_types.specs.declared.request.Value.{Value};
ghost use Rattle.timeline_sem.specs.Actions.{Completion, State as Meant};
ghost use Rattle.timeline_sem.specs.Programs.{leave_function};

/// What a function gives at the end of its body: the value of the `return` that was reached, and else 0. Want of memory is
/// the body's own alone.
pub fn finished(ran: Result<(), Early>) -> Result<i64, Early>
    ensures gives { (values : List (List ℕ × Value)) (s : Meant) (m : Completion ⊤) →
        Does ran s m → Does result (record s { values = values }) (leave_function values m) }
    ensures memory { result ≡ Err Early.Memory → ran ≡ Err Early.Memory }
{
    match ran {
        Ok(()) => Ok(0),
        Err(Early::Ended(Reason::Return(value))) => Ok(value),
        Err(end) => Err(end),
    }
}
