// Lists whose items are read one by one.

ghost use Rattle.std.specs.Prelude.{List, []};
ghost use Rattle.serde_json.specs.Data.{Data};
ghost use Rattle.serde_json.specs.View.{view, items_view};
ghost use Rattle.json_fields.specs.Answers.{Gives, GivesItems};
ghost use Rattle.json_fields.specs.Lists.{items_read, list_of, listed};
ghost use Rattle.json_fields.specs.Readings.{Reading};
ghost use Rattle.json_fields.specs.Values.{any_number};
ghost use Rattle.exp_json.specs.declared.around.Around.{Around};

use crate::around::Around;
use json_fields::{Stop, any_number, items_of_list, within_place};
use rtio_types::IntList;
use serde_json::Value;
use std::alloc::Global;

/// What the items of a list are read as.
pub trait ReadItem: Drop {
    ghost reading: { Around → List Self → Data → Reading Self };

    /// Reads an item behind those before it.
    fn read(alloc: Global, around: &Around, before: &[Self], value: &Value) -> Result<Self, Stop>
        ensures { Gives result (reading around.now before.now (view value.now)) };
}

/// A list of so many items.
pub fn listed<T: ReadItem>(
    alloc: Global,
    around: &Around,
    value: &Value,
    low: usize,
    high: usize,
) -> Result<Vec<T>, Stop>
    ensures { GivesItems result (listed low high (T.reading around.now) (view value.now)) }
{
    let values = items_of_list(alloc, value, low, high)?;
    items_read(alloc, around, values)
}

// Each item, behind those before it.
fn items_read<T: ReadItem>(alloc: Global, around: &Around, values: &[Value]) -> Result<Vec<T>, Stop>
    ensures { GivesItems result (items_read (T.reading around.now) [] (items_view values.now)) }
{
    let mut read = Vec::with_capacity(alloc, values.len())?;
    for value in values {
        let place = read.len();
        let next = within_place(place, T::read(alloc, around, read.as_slice(), value))?;
        read.push(next)?;
    }
    Ok(read)
}

impl ReadItem for i64 {
    ghost use Rattle.json_fields.specs.Values.{any_number};

    ghost reading = { λ around before. any_number };

    fn read(alloc: Global, _around: &Around, _before: &[i64], value: &Value) -> Result<i64, Stop> {
        any_number(alloc, value)
    }
}

/// A list of numbers.
pub fn numbers(alloc: Global, around: &Around, value: &Value, high: usize) -> Result<IntList, Stop>
    ensures { Gives result (list_of 0 high any_number (view value.now)) }
{
    Ok(IntList::of(listed(alloc, around, value, 0, high)?))
}
