// Numbers, truth values and texts.

ghost use Rattle.std.specs.Prelude.{◌≤◌, ◌≤ℤ◌, pos, IfOk};
ghost use Rattle.serde_json.specs.View.{view};
ghost use Rattle.json_fields.specs.Answers.{Gives, IsSettled};
ghost use Rattle.json_fields.specs.Values.{any_number, count, index, integer, number, text, truth, yes};

use crate::fault::{FieldKind, Stop, demand, fault_here};
use serde_json::Value;
use std::alloc::Global;

/// A whole number, of 64 bits with or without a sign.
pub fn integer(alloc: Global, value: &Value) -> Result<i128, Stop>
    ensures read { Gives result (integer (view value.now)) }
    ensures settled { IsSettled result }
{
    match value.as_number() {
        Some(number) => match number.as_i128() {
            Some(n) => Ok(n),
            None => Err(fault_here(alloc, FieldKind::Shape)),
        },
        None => Err(fault_here(alloc, FieldKind::Shape)),
    }
}

/// A whole number in a range of numbers that aren't negative.
pub fn count(alloc: Global, value: &Value, low: u64, high: u64) -> Result<u64, Stop>
    ensures read { Gives result (count low high (view value.now)) }
    ensures within { IfOk result (λ n. n ≤ high) }
    ensures settled { IsSettled result }
{
    let n = integer(alloc, value)?;
    if n < i128::from(low) || i128::from(high) < n {
        return Err(fault_here(alloc, FieldKind::Range));
    }
    Ok(n as u64)
}

/// A truth value.
pub fn truth(alloc: Global, value: &Value) -> Result<bool, Stop>
    ensures read { Gives result (truth (view value.now)) }
    ensures settled { IsSettled result }
{
    match value.as_bool() {
        Some(b) => Ok(b),
        None => Err(fault_here(alloc, FieldKind::Shape)),
    }
}

ghost use Rattle.json_fields.specs.Answers.{LendsText};

/// A text.
pub fn text<'v>(alloc: Global, value: &'v Value) -> Result<&'v str, Stop>
    ensures read { LendsText result (text (view value.now)) }
    ensures settled { IsSettled result }
{
    match value.as_str() {
        Some(text) => Ok(text),
        None => Err(fault_here(alloc, FieldKind::Shape)),
    }
}

/// A whole number in a range.
pub fn number(alloc: Global, value: &Value, low: i64, high: i64) -> Result<i64, Stop>
    ensures read { Gives result (number low high (view value.now)) }
    ensures settled { IsSettled result }
{
    let n = integer(alloc, value)?;
    if i128::from(low) <= n && n <= i128::from(high) {
        Ok(n as i64)
    } else {
        Err(fault_here(alloc, FieldKind::Range))
    }
}

/// A whole number of 64 bits with a sign.
pub fn any_number(alloc: Global, value: &Value) -> Result<i64, Stop>
    ensures read { Gives result (any_number (view value.now)) }
    ensures settled { IsSettled result }
{
    number(alloc, value, i64::MIN, i64::MAX)
}

/// A place in a list of so many.
pub fn index(alloc: Global, value: &Value, many: u32) -> Result<u32, Stop>
    ensures read { Gives result (index many (view value.now)) }
    ensures settled { IsSettled result }
{
    let place = count(alloc, value, 0, i64::MAX as u64)?;
    if place < u64::from(many) {
        Ok(place as u32)
    } else {
        Err(fault_here(alloc, FieldKind::Index))
    }
}

/// `true`, and nothing else.
pub fn yes(alloc: Global, value: &Value) -> Result<(), Stop>
    ensures read { Gives result (yes (view value.now)) }
    ensures settled { IsSettled result }
{
    let given = truth(alloc, value)?;
    demand(alloc, given, FieldKind::Range)
}
