// The values of names.

ghost use Rattle.std.specs.Prelude.{◌≡◌, IfOk, Some, is_some, true};
ghost use Rattle.timeline_sem.specs.Expressions.{value_of, with_value, number_in_value, list_in_value, place_in, with_item};

use rtio_types::{IntList, Value};
use std::alloc::{AllocError, Global};
use std::marker::Model;

/// What a name holds: a number, 0 or 1 for a truth value, or an array of numbers.
#[derive(Debug, Drop)]
pub enum Held {
    Number(i64),
    Array(Vec<i64>),
}

/// A name with what it holds, which contracts see as a pair.
#[derive(Debug, Drop)]
pub struct Variable {
    name: Vec<u8>,
    held: Held,
}

impl Model for Variable {
    ghost use Rattle.std.specs.Prelude.{List, ℕ};
    ghost use Rattle.rtio_types.specs.declared.request.Value.{Value as Kept};
    ghost use Rattle.meaning_state.specs.Values.{value_held};

    ghost Value = { List ℕ × Kept };

    ghost view = { λ v. (v.name.items, value_held v.held) };
}

ghost use Rattle.meaning_state.specs.Values.{value_held};

impl Variable {
    ghost use Rattle.std.specs.Prelude.{◌≡◌, IfOk, bytes_eq};
    ghost use Rattle.meaning_state.specs.Values.{value_held};
    ghost use Rattle.timeline_sem.specs.Expressions.{number_in_value, list_in_value};

    /// The name of these bytes, holding this.
    pub fn of(name: Vec<u8>, held: Held) -> Variable
        ensures { result ≡ (name.items, value_held held) }
    {
        Variable { name, held }
    }

    // Whether this is its name.
    fn is_named(&self, name: &[u8]) -> bool
        ensures { result ≡ bytes_eq self.now.0 name.now }
    {
        self.name.as_slice() == name
    }

    // The number that it holds, 0 for an array.
    fn number(&self) -> i64
        ensures { result ≡ number_in_value self.now.1 }
    {
        match &self.held {
            Held::Number(number) => *number,
            Held::Array(_) => 0,
        }
    }

    // The numbers of the array that it holds, none for a number.
    fn numbers(&self) -> &[i64]
        ensures { result.now ≡ list_in_value self.now.1 }
    {
        match &self.held {
            Held::Number(_) => &[],
            Held::Array(numbers) => numbers.as_slice(),
        }
    }

    // What it holds, as a value of its own.
    fn value(&self, alloc: Global) -> Result<Value, AllocError>
        ensures { IfOk result (λ value. value ≡ self.now.1) }
    {
        match &self.held {
            Held::Number(number) => Ok(Value::Int(*number)),
            Held::Array(numbers) => {
                let copied = Vec::from_slice(alloc, numbers.as_slice())?;
                Ok(Value::List(IntList::of(copied)))
            }
        }
    }

    // Holds this from now on.
    fn hold(&mut self, held: Held)
        ensures { self.new ≡ (self.old.0, value_held held) }
    {
        self.held = held;
    }
}

/// The number that a name holds, 0 for an array or a name that isn't there.
pub fn number_of(variables: &[Variable], name: &[u8]) -> i64
    ensures { result ≡ number_in_value (value_of variables.now name.now) }
{
    for variable in variables.iter() {
        if variable.is_named(name) {
            return variable.number();
        }
    }
    0
}

/// The array that a name holds, an empty one for a number or a name that isn't there.
pub fn numbers_of<'b>(variables: &'b [Variable], name: &[u8]) -> &'b [i64]
    ensures { result.now ≡ list_in_value (value_of variables.now name.now) }
{
    for variable in variables.iter() {
        if variable.is_named(name) {
            return variable.numbers();
        }
    }
    &[]
}

/// What a name holds, as a value of its own; the number 0 for a name that isn't there. The only error is want of memory.
pub fn value_among(alloc: Global, variables: &[Variable], name: &[u8]) -> Result<Value, AllocError>
    ensures { IfOk result (λ value. value ≡ value_of variables.now name.now) }
{
    for variable in variables.iter() {
        if variable.is_named(name) {
            return variable.value(alloc);
        }
    }
    Ok(Value::Int(0))
}

/// Lets a name that is there hold something new.
pub fn hold(variables: &mut [Variable], name: &[u8], held: Held)
    ensures { variables.new ≡ with_value variables.old name.now (value_held held) }
{
    for i in 0..variables.len() {
        if variables[i].is_named(name) {
            variables[i].hold(held);
            return;
        }
    }
}

/// The item of an index, if it is one of the places.
pub fn item(numbers: &[i64], index: i64) -> Option<i64>
    ensures { result ≡ place_in numbers.now index }
{
    if index < 0 {
        return None;
    }
    numbers.get(index as usize).copied()
}

/// Changes the item of an index. Whether the index is one of the places.
pub fn changed(numbers: &mut [i64], index: i64, number: i64) -> bool
    ensures place { result ≡ is_some (with_item numbers.old index number) }
    ensures changed { result ≡ true → with_item numbers.old index number ≡ Some numbers.new }
{
    if index < 0 || numbers.len() as u64 <= index as u64 {
        return false;
    }
    numbers[index as usize] = number;
    true
}
