// Datasets, as a table writes them.

use dataset_db::{Datasets, Flags};
use rtio_types::{IntList, Name, Value};
use std::alloc::{AllocError, Global};
use table_rows::push_answer;

/// Sets a dataset to a list or a number, by its flags, its name and its numbers.
pub fn put(
    alloc: Global,
    told: &mut String,
    datasets: &mut Datasets,
    is_list: bool,
    words: &str,
) -> Result<(), AllocError> {
    let mut words = words.split(' ');
    let flags = flags_of(words.next().unwrap_or(""));
    let Some(name) = Name::read(words.next().unwrap_or("").as_bytes()) else {
        return push_answer(told, "no name");
    };
    let mut numbers = Vec::new(alloc);
    for word in words {
        numbers.push(word.parse().unwrap_or(0))?;
    }
    let value = if is_list {
        Value::List(IntList::of(numbers))
    } else {
        Value::Int(numbers.first().copied().unwrap_or(0))
    };
    match datasets.set(alloc, &name, value, flags) {
        Ok(()) => push_answer(told, "ok"),
        Err(_) => Err(AllocError),
    }
}

fn flags_of(letters: &str) -> Flags {
    Flags {
        broadcast: letters.contains('b'),
        persist: letters.contains('p'),
        archive: letters.contains('a'),
    }
}

/// Pushes a dataset's value, flags and sum.
pub fn push_dataset(told: &mut String, datasets: &Datasets, name: &Name) -> Result<(), AllocError> {
    let (Some(value), Some(flags), Some(sum)) = (
        datasets.get(name),
        datasets.flags(name),
        datasets.sum(name),
    ) else {
        return push_answer(told, "none");
    };
    told.push_str("\n= ")?;
    push_value(told, value)?;
    push_flags(told, flags.broadcast, flags.persist, flags.archive)?;
    write!(told, ", sum {sum}")
}

/// Pushes a value: a number, or a list in brackets.
pub fn push_value(told: &mut String, value: &Value) -> Result<(), AllocError> {
    match value {
        Value::Int(number) => write!(told, "{number}"),
        Value::List(list) => {
            let numbers = list.items();
            write!(told, "{numbers:?}")
        }
    }
}

/// Pushes the flags that are set, each behind a blank.
pub fn push_flags(
    told: &mut String,
    broadcast: bool,
    persist: bool,
    archive: bool,
) -> Result<(), AllocError> {
    told.push_str(if broadcast { " broadcast" } else { "" })?;
    told.push_str(if persist { " persist" } else { "" })?;
    told.push_str(if archive { " archive" } else { "" })
}

/// Pushes the number of the datasets, and their names in order.
pub fn push_names(told: &mut String, datasets: &Datasets) -> Result<(), AllocError> {
    let len = datasets.len();
    write!(told, "\n= {len}")?;
    for position in 0..len {
        if let Some(name) = datasets.name_at(position) {
            told.push_str(" ")?;
            push_name(told, name.bytes())?;
        }
    }
    Ok(())
}

/// Pushes the letters of a name.
pub fn push_name(told: &mut String, bytes: &[u8]) -> Result<(), AllocError> {
    for byte in bytes {
        told.push(char::from(*byte))?;
    }
    Ok(())
}
