// Texts of a form: names of datasets and of functions, and the texts of kernels.

ghost use Rattle.std.specs.Prelude.{◌≡◌};
ghost use Rattle.std.specs.List.{list_all};
ghost use Rattle.rtio_types.specs.Names.{is_word_byte};
ghost use Rattle.serde_json.specs.View.{view};
ghost use Rattle.exp_model.specs.Steps.{is_identifier, is_letter};
ghost use Rattle.json_fields.specs.Answers.{Gives};
ghost use Rattle.exp_json.specs.Experiments.{source};
ghost use Rattle.exp_json.specs.Steps.{identifier, name};

use exp_model::HostText;
use json_fields::{FieldKind, Stop, demand, fault_here, text};
use limits::{LONGEST_NAME, MOST_TEXT};
use rtio_types::Name;
use serde_json::Value;
use std::alloc::Global;

/// The name of a dataset.
pub fn name(alloc: Global, value: &Value) -> Result<Name, Stop>
    ensures { Gives result (name (view value.now)) }
{
    let given = text(alloc, value)?;
    match Name::read(given.as_bytes()) {
        Some(name) => Ok(name),
        None => Err(fault_here(alloc, FieldKind::Range)),
    }
}

/// The name of a function.
pub fn identifier(alloc: Global, value: &Value) -> Result<HostText, Stop>
    ensures { Gives result (identifier (view value.now)) }
{
    let given = text(alloc, value)?;
    demand(alloc, is_identifier(given.as_bytes()), FieldKind::Range)?;
    Ok(HostText::of(Vec::from_slice(alloc, given.as_bytes())?))
}

/// The text of kernels.
pub fn source(alloc: Global, value: &Value) -> Result<HostText, Stop>
    ensures { Gives result (source (view value.now)) }
{
    let given = text(alloc, value)?;
    demand(alloc, given.len() as u64 <= MOST_TEXT, FieldKind::Range)?;
    Ok(HostText::of(Vec::from_slice(alloc, given.as_bytes())?))
}

// Whether the bytes are a name as the language of kernels has them.
fn is_identifier(bytes: &[u8]) -> bool
    ensures { result ≡ is_identifier bytes.now }
{
    1 <= bytes.len() && bytes.len() <= LONGEST_NAME && is_letter(bytes[0]) && are_words(bytes)
}

fn is_letter(byte: u8) -> bool
    ensures { result ≡ is_letter byte }
{
    byte.is_ascii_uppercase() || byte == b'_' || byte.is_ascii_lowercase()
}

fn are_words(bytes: &[u8]) -> bool
    ensures { result ≡ list_all is_word_byte bytes.now }
{
    bytes.iter().all(|byte| is_word(*byte))
}

fn is_word(byte: u8) -> bool
    ensures { result ≡ is_word_byte byte }
{
    byte.is_ascii_alphanumeric() || byte == b'_'
}
