// The lines of the datasets.

ghost use Rattle.std.specs.Prelude.{◌≡◌, ◌++◌, flat_map, IfOk, OnOk, string_bytes, option_map};
ghost use Rattle.sim_report.specs.Datasets.{dataset_in, datasets_of};
ghost use Rattle.sim_report.specs.Lines.{data_line, listed, value_text};
ghost use Rattle.sim_report.specs.Places.{ArePlaces, set_at};

use crate::key::{Key, text_of};
use crate::numbers::write_number;
use indexmap::IndexMap;
use rtio_core::{Act, Entry};
use rtio_types::{Name, Request, Value};
use std::alloc::{AllocError, Global};

/// Appends the line of each dataset that the history set.
pub fn write_datasets(alloc: Global, text: &mut String, history: &[Entry]) -> Result<(), AllocError>
    ensures { OnOk result (string_bytes text.new ≡ string_bytes text.old ++ flat_map data_line (datasets_of history.now)) }
{
    let places = places(alloc, history)?;
    for position in 0..places.len() {
        let (_, place) = places.get_index(position).unwrap();
        let (name, value) = set_at(history, *place).unwrap();
        write_dataset(text, name, value)?;
    }
    Ok(())
}

// The place in the history where each name was set last, in the order of first setting.
fn places(alloc: Global, history: &[Entry]) -> Result<IndexMap<Key, usize>, AllocError>
    ensures { IfOk result (λ places. ArePlaces history.now places.entries (datasets_of history.now)) }
{
    let mut places = IndexMap::new(alloc);
    for place in 0..history.len() {
        if let Some((name, _)) = set_at(history, place) {
            places.insert(Key { name: *name }, place)?;
        }
    }
    Ok(places)
}

// The name that the entry at a place sets, and its value.
fn set_at(history: &[Entry], place: usize) -> Option<(&Name, &Value)>
    ensures { option_map (λ p. (p.0.now, p.1.now)) result ≡ set_at history.now place }
{
    dataset_in(history.get(place)?)
}

// The name that an entry sets, and its value.
fn dataset_in(entry: &Entry) -> Option<(&Name, &Value)>
    ensures { option_map (λ p. (p.0.now, p.1.now)) result ≡ dataset_in entry.now.act }
{
    match &entry.act {
        Act::Asked {
            request: Request::Data { name, value },
            ..
        } => Some((name, value)),
        _ => None,
    }
}

// Appends the line of a dataset.
fn write_dataset(text: &mut String, name: &Name, value: &Value) -> Result<(), AllocError>
    ensures { OnOk result (string_bytes text.new ≡ string_bytes text.old ++ data_line (name.now, value.now)) }
{
    let name = text_of(name);
    write!(text, "data {name} ")?;
    write_value(text, value)?;
    text.push_str("\n")
}

/// Appends a number, or a list in brackets. The only error is want of memory.
pub fn write_value(text: &mut String, value: &Value) -> Result<(), AllocError>
    ensures { OnOk result (string_bytes text.new ≡ string_bytes text.old ++ value_text value.now) }
{
    match value {
        Value::Int(number) => write_number(text, *number),
        Value::List(list) => {
            text.push_str("[")?;
            write_numbers(text, list.items())?;
            text.push_str("]")
        }
    }
}

// Appends numbers with commas between them.
fn write_numbers(text: &mut String, numbers: &[i64]) -> Result<(), AllocError>
    ensures { OnOk result (string_bytes text.new ≡ string_bytes text.old ++ listed numbers.now) }
{
    let Some((first, rest)) = numbers.split_first() else {
        return Ok(());
    };
    write_number(text, *first)?;
    for number in rest {
        text.push_str(",")?;
        write_number(text, *number)?;
    }
    Ok(())
}
