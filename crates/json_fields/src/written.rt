// How paths are written.

ghost use Rattle.std.specs.Prelude.{◌≡◌, ◌++◌, string_bytes, decimal, codes, IfOk, OnOk};
ghost use Rattle.json_fields.specs.Paths.{first_text, path_text, step_text, steps_text};

use crate::path::Part;
use itoa::Buffer;
use std::alloc::{AllocError, Global};

/// The text of a path from the root on, which has a name of its own, as `arrivals[2].submit.due`; keys are written as
/// they are. The only error is want of memory.
pub fn path_text(alloc: Global, root: &str, parts: &[Part]) -> Result<String, AllocError>
    ensures { IfOk result (λ text. string_bytes text ≡ path_text root.now parts.now) }
{
    let Some((first, rest)) = parts.split_first() else {
        return String::from_str(alloc, root);
    };
    let mut text = String::new(alloc);
    put_first(&mut text, first)?;
    put_steps(&mut text, rest)?;
    Ok(text)
}

// Appends steps that stand behind others.
fn put_steps(text: &mut String, parts: &[Part]) -> Result<(), AllocError>
    ensures { OnOk result (string_bytes text.new ≡ string_bytes text.old ++ steps_text parts.now) }
{
    for part in parts {
        put_step(text, part)?;
    }
    Ok(())
}

fn put_first(text: &mut String, part: &Part) -> Result<(), AllocError>
    ensures { OnOk result (string_bytes text.new ≡ string_bytes text.old ++ first_text part.now) }
{
    match part {
        Part::Key(key) => text.push_str(key.as_str()),
        Part::Place(place) => put_place(text, *place),
    }
}

fn put_step(text: &mut String, part: &Part) -> Result<(), AllocError>
    ensures { OnOk result (string_bytes text.new ≡ string_bytes text.old ++ step_text part.now) }
{
    match part {
        Part::Key(key) => {
            text.push_str(".")?;
            text.push_str(key.as_str())
        }
        Part::Place(place) => put_place(text, *place),
    }
}

fn put_place(text: &mut String, place: u64) -> Result<(), AllocError>
    ensures { OnOk result (string_bytes text.new ≡ string_bytes text.old ++ (codes "[" ++ decimal place ++ codes "]")) }
{
    text.push_str("[")?;
    text.push_str(Buffer::new().format(place))?;
    text.push_str("]")
}
