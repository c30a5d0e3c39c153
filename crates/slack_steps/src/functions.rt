// How a function begins and ends: its call, the values of its names, and what it gives.

ghost use Rattle.std.specs.Prelude.{◌≡◌, IfOk, slice_get};
ghost use Rattle.slack_meaning.specs.Programs.{initial_value, initial_values};
ghost use Rattle.slack_state.specs.Values.{held_of};
ghost use Rattle.slack_steps.specs.Entering.{first_value};

use kern_calls::ValueType;
use kern_names::{KnownName, Names};
use rtio_types::Exc;
use slack_meaning::Span;
use slack_state::{Early, Held, Reason, State, Variable, exactly};
use std::alloc::{AllocError, Global};

// The value that a name starts with: 0, False or an array of 0. The only error is want of memory.
fn initial(alloc: Global, kind: ValueType) -> Result<Held, AllocError>
    ensures { IfOk result (λ held. held_of held ≡ initial_value kind) }
{
    match kind {
        ValueType::Array(length) => {
            let zeros = vec![in alloc; exactly(0); length as usize]?;
            Ok(Held::Array(zeros))
        }
        _ => Ok(Held::Number(exactly(0))),
    }
}

// The value that a name starts with: its argument, if there is one. The only error is want of memory.
fn first_held(alloc: Global, kind: ValueType, arg: Option<Span>) -> Result<Held, AllocError>
    ensures { IfOk result (λ held. held_of held ≡ first_value kind arg) }
{
    match arg {
        None => initial(alloc, kind),
        Some(span) => Ok(Held::Number(span)),
    }
}

// A name with the value that it starts with. The only error is want of memory.
fn first_variable(
    alloc: Global,
    known: &KnownName<'_>,
    arg: Option<Span>,
) -> Result<Variable, AllocError>
    ensures { IfOk result (λ variable. variable ≡ (known.now.name.now, first_value known.now.kind arg)) }
{
    let held = first_held(alloc, known.kind, arg)?;
    let name = Vec::from_slice(alloc, known.name)?;
    Ok(Variable::of(name, held))
}

// The argument at a place, if there is one.
fn arg_at(args: &[Span], place: usize) -> Option<Span>
    ensures { result ≡ slice_get args.now place }
{
    args.get(place).copied()
}

/// The names of a function with their values when it begins: the parameters have the arguments. The only error is want of
/// memory.
pub fn initial_values(
    alloc: Global,
    names: &Names,
    args: &[Span],
) -> Result<Vec<Variable>, AllocError>
    ensures { IfOk result (λ values. values.items ≡ initial_values names.now args.now) }
{
    let mut values = Vec::new(alloc);
    for place in 0..names.len() {
        let arg = arg_at(args, place);
        values.push(first_variable(alloc, &names.at(place), arg)?)?;
    }
    Ok(values)
}

ghost use Rattle.slack_state.specs.Does.{DoesAlways};
ghost use Rattle.slack_steps.specs.Entering.{enter_call};

/// The beginning of a call, where so many further functions may become active. It takes a unit, and gives how many may
/// become active beside the function that it enters. Where none may it raises `StackOverflow`.
pub fn enter_call(state: &mut State, room: u32) -> Result<u32, Reason>
    ensures { DoesAlways result state.new (enter_call room state.old) }
{
    state.take_unit()?;
    if room == 0 {
        return Err(Reason::Raised(Exc::StackOverflow));
    }
    Ok(room - 1)
}

ghost use Rattle.std.specs.Prelude.{⊤, Err, List, ℕ};
ghost use Rattle.slack_meaning.specs.Actions.{Completion, Held as Kept, State as Run};
ghost use Rattle.slack_meaning.specs.Programs.{leave_function};
ghost use Rattle.slack_state.specs.Does.{Does};

/// What a function gives at the end of its body: the value of the `return` that was reached, and else 0. Want of memory is
/// the body's own alone.
pub fn finished(ran: Result<(), Early>) -> Result<Span, Early>
    ensures gives { (values : List (List ℕ × Kept)) (s : Run) (m : Completion ⊤) →
        Does ran s m → Does result (record s { values = values }) (leave_function values m) }
    ensures memory { result ≡ Err Early.Memory → ran ≡ Err Early.Memory }
{
    match ran {
        Ok(()) => Ok(exactly(0)),
        Err(Early::Ended(Reason::Return(value))) => Ok(value),
        Err(end) => Err(end),
    }
}
