// The lines of the datasets.

ghost use Rattle.std.specs.Prelude.{◌≡◌, ◌++◌, flat_map, OnOk, string_bytes};
ghost use Rattle.lab_report.specs.Data.{dataset_line, flag_text, flags_text, named_text};

use dataset_db::{Datasets, Flags};
use rtio_types::{Name, Value};
use sim_report::{text_of, write_value};
use std::alloc::AllocError;

/// Appends the line of each dataset, in the order of first setting.
pub fn write_datasets(text: &mut String, datasets: &Datasets) -> Result<(), AllocError>
    ensures { OnOk result (string_bytes text.new ≡ string_bytes text.old ++ flat_map dataset_line datasets.now) }
{
    for position in 0..datasets.len() {
        let name = datasets.name_at(position).unwrap();
        let value = datasets.get(name).unwrap();
        let flags = datasets.flags(name).unwrap();
        write_dataset(text, name, value, flags)?;
    }
    Ok(())
}

// Appends the line of a dataset.
fn write_dataset(
    text: &mut String,
    name: &Name,
    value: &Value,
    flags: Flags,
) -> Result<(), AllocError>
    ensures { OnOk result (string_bytes text.new ≡ string_bytes text.old ++ dataset_line (record { name = name.now; value = value.now; flags = flags })) }
{
    write_name(text, name)?;
    write_flags(text, flags)?;
    text.push_str(" ")?;
    write_value(text, value)?;
    text.push_str("\n")
}

// Appends how the line of a dataset begins.
fn write_name(text: &mut String, name: &Name) -> Result<(), AllocError>
    ensures { OnOk result (string_bytes text.new ≡ string_bytes text.old ++ named_text name.now) }
{
    let name = text_of(name);
    write!(text, "data {name} ")
}

// Appends a letter or a dash for each flag.
fn write_flags(text: &mut String, flags: Flags) -> Result<(), AllocError>
    ensures { OnOk result (string_bytes text.new ≡ string_bytes text.old ++ flags_text flags) }
{
    text.push_str(flag_text("b", flags.broadcast))?;
    text.push_str(flag_text("p", flags.persist))?;
    text.push_str(flag_text("a", flags.archive))
}

// The letter of a flag that is set, or a dash.
fn flag_text(letter: &'static str, is_set: bool) -> &'static str
    ensures { result.now ≡ flag_text letter.now is_set }
{
    if is_set { letter } else { "-" }
}
