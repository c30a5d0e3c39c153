// The values of names.

ghost use Rattle.std.specs.Prelude.{◌≡◌, Some, is_some, true};
ghost use Rattle.slack_meaning.specs.Expressions.{are_numbers, held_by, with_held, span_in, spans_in, place_in, with_item};

use crate::names::is_same;
use crate::spans::{exactly, is_number};
use slack_meaning::Span;
use std::marker::Model;

/// What a name holds: a number, 0 or 1 for a truth value, or an array of numbers.
#[derive(Debug, Drop)]
pub enum Held {
    Number(Span),
    Array(Vec<Span>),
}

/// A name with what it holds, which contracts see as a pair.
#[derive(Debug, Drop)]
pub struct Variable {
    name: Vec<u8>,
    held: Held,
}

impl Model for Variable {
    ghost use Rattle.std.specs.Prelude.{List, ℕ};
    ghost use Rattle.slack_meaning.specs.Actions.{Held as Kept};
    ghost use Rattle.slack_state.specs.Values.{held_of};

    ghost Value = { List ℕ × Kept };

    ghost view = { λ v. (v.name.items, held_of v.held) };
}

ghost use Rattle.slack_state.specs.Values.{held_of};

impl Variable {
    ghost use Rattle.std.specs.Prelude.{◌≡◌, bytes_eq};
    ghost use Rattle.slack_state.specs.Values.{held_of};
    ghost use Rattle.slack_meaning.specs.Expressions.{are_numbers, span_in, spans_in};

    /// The name of these bytes, holding this.
    pub fn of(name: Vec<u8>, held: Held) -> Variable
        ensures { result ≡ (name.items, held_of held) }
    {
        Variable { name, held }
    }

    // Whether this is its name.
    fn is_named(&self, name: &[u8]) -> bool
        ensures { result ≡ bytes_eq self.now.0 name.now }
    {
        is_same(self.name.as_slice(), name)
    }

    // The number that it holds, 0 for an array.
    fn number(&self) -> Span
        ensures { result ≡ span_in self.now.1 }
    {
        match &self.held {
            Held::Number(number) => *number,
            Held::Array(_) => exactly(0),
        }
    }

    // The numbers of the array that it holds, none for a number.
    fn numbers(&self) -> &[Span]
        ensures { result.now ≡ spans_in self.now.1 }
    {
        match &self.held {
            Held::Number(_) => &[],
            Held::Array(numbers) => numbers.as_slice(),
        }
    }

    // Whether no span is among what it holds.
    fn are_numbers(&self) -> bool
        ensures { result ≡ are_numbers self.now.1 }
    {
        match &self.held {
            Held::Number(span) => is_number(*span),
            Held::Array(spans) => are_all_numbers(spans.as_slice()),
        }
    }

    // Holds this from now on.
    fn hold(&mut self, held: Held)
        ensures { self.new ≡ (self.old.0, held_of held) }
    {
        self.held = held;
    }
}

// Whether no span is among some.
fn are_all_numbers(spans: &[Span]) -> bool
    ensures { result ≡ list_all is_number spans.now }
{
    for span in spans.iter() {
        if !is_number(*span) {
            return false;
        }
    }
    true
}

ghost use Rattle.std.specs.List.{list_all};
ghost use Rattle.slack_meaning.specs.Spans.{is_number};

/// The number that a name holds, 0 for an array or a name that isn't there.
pub fn number_of(variables: &[Variable], name: &[u8]) -> Span
    ensures { result ≡ span_in (held_by variables.now name.now) }
{
    for variable in variables.iter() {
        if variable.is_named(name) {
            return variable.number();
        }
    }
    exactly(0)
}

/// The place of a name among some, which is behind the last one where the name isn't there.
#[inline(always)]
pub fn place_of(variables: &[Variable], name: &[u8]) -> usize
    ensures { result ≡ place_of variables.now name.now }
{
    for i in 0..variables.len() {
        if variables[i].is_named(name) {
            return i;
        }
    }
    variables.len()
}

ghost use Rattle.slack_state.specs.Entries.{held_at, place_of, with_held_at};

/// The number that a place holds, 0 for an array or where nothing is.
#[inline(always)]
pub fn number_at(variables: &[Variable], place: usize) -> Span
    ensures { result ≡ span_in (held_at variables.now place) }
{
    if place < variables.len() {
        return variables[place].number();
    }
    exactly(0)
}

/// The array that a name holds, an empty one for a number or a name that isn't there.
pub fn numbers_of<'b>(variables: &'b [Variable], name: &[u8]) -> &'b [Span]
    ensures { result.now ≡ spans_in (held_by variables.now name.now) }
{
    for variable in variables.iter() {
        if variable.is_named(name) {
            return variable.numbers();
        }
    }
    &[]
}

/// Whether no span is among what a name holds.
pub fn are_numbers_in(variables: &[Variable], name: &[u8]) -> bool
    ensures { result ≡ are_numbers (held_by variables.now name.now) }
{
    for variable in variables.iter() {
        if variable.is_named(name) {
            return variable.are_numbers();
        }
    }
    true
}

/// Lets a name that is there hold something new.
#[inline(always)]
pub fn hold(variables: &mut [Variable], name: &[u8], held: Held)
    ensures { variables.new ≡ with_held variables.old name.now (held_of held) }
{
    for i in 0..variables.len() {
        if variables[i].is_named(name) {
            variables[i].hold(held);
            return;
        }
    }
}

/// Lets a place that is there hold something new.
#[inline(always)]
pub fn hold_at(variables: &mut [Variable], place: usize, held: Held)
    ensures { variables.new ≡ with_held_at variables.old place (held_of held) }
{
    if variables.len() <= place {
        return;
    }
    variables[place].hold(held);
}

/// The item of an index, if it is one of the places.
pub fn item(numbers: &[Span], index: i64) -> Option<Span>
    ensures { result ≡ place_in numbers.now index }
{
    if index < 0 {
        return None;
    }
    numbers.get(index as usize).copied()
}

/// Changes the item of an index. Whether the index is one of the places.
pub fn changed(numbers: &mut [Span], index: i64, span: Span) -> bool
    ensures place { result ≡ is_some (with_item numbers.old index span) }
    ensures changed { result ≡ true → with_item numbers.old index span ≡ Some numbers.new }
{
    if index < 0 || numbers.len() as u64 <= index as u64 {
        return false;
    }
    numbers[index as usize] = span;
    true
}
