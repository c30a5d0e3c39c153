// Objects and their fields.

ghost use Rattle.std.specs.Prelude.{◌≡◌, map, is_some, option_map};
ghost use Rattle.std.specs.List.{list_any};
ghost use Rattle.std.specs.Prelude.{bytes_eq};
ghost use Rattle.serde_json.specs.Find.{get};
ghost use Rattle.serde_json.specs.View.{view};
ghost use Rattle.json_fields.specs.Answers.{Gives, IsSettled, Lends};
ghost use Rattle.json_fields.specs.Objects.{an_object, given_or, least_unknown, needed, only_known};

use crate::fault::{FieldKind, Stop, fault_here, within_key};
use crate::path::{Part, Path};
use crate::value::{count, number, truth};
use serde_json::Value;
use std::alloc::Global;

/// It has to be an object.
pub fn an_object(alloc: Global, value: &Value) -> Result<(), Stop>
    ensures read { Gives result (an_object (view value.now)) }
    ensures settled { IsSettled result }
{
    if value.is_object() {
        Ok(())
    } else {
        Err(fault_here(alloc, FieldKind::Shape))
    }
}

/// All keys have to be known; else the fault comes at the least that isn't, by bytes.
pub fn only_known(alloc: Global, value: &Value, known: &[&str]) -> Result<(), Stop>
    ensures { Gives result (only_known (map (λ key. key.now) known.now) (view value.now)) }
{
    match least_unknown(value, known) {
        None => Ok(()),
        Some(key) => Err(Stop::Fault {
            path: Path::new(alloc).behind(Part::key(alloc, key)?)?,
            kind: FieldKind::Unknown,
        }),
    }
}

// The least key that isn't known, by bytes.
fn least_unknown<'v>(value: &'v Value, known: &[&str]) -> Option<&'v str>
    ensures { option_map (λ key. key.now) result ≡ least_unknown (map (λ key. key.now) known.now) (view value.now) }
{
    let members = value.as_object()?;
    for key in members.keys() {
        if !is_known(known, key.as_str()) {
            return Some(key.as_str());
        }
    }
    None
}

fn is_known(known: &[&str], key: &str) -> bool
    ensures { result ≡ list_any (λ name. bytes_eq key.now name.now) known.now }
{
    known.iter().any(|name| key == *name)
}

/// The value of a key, which has to be there.
pub fn needed<'v>(alloc: Global, value: &'v Value, key: &str) -> Result<&'v Value, Stop>
    ensures { Lends result (needed key.now (view value.now)) }
{
    match value.get(key) {
        Some(found) => Ok(found),
        None => Err(Stop::Fault {
            path: Path::new(alloc).behind(Part::key(alloc, key)?)?,
            kind: FieldKind::Missing,
        }),
    }
}

ghost use Rattle.std.specs.Prelude.{◌≤◌, IfOk};
ghost use Rattle.json_fields.specs.Values.{count, number, truth};

/// A number that isn't negative, with a default.
pub fn count_or(
    alloc: Global,
    value: &Value,
    key: &str,
    default: u64,
    low: u64,
    high: u64,
) -> Result<u64, Stop>
    requires { default ≤ high }
    ensures read { Gives result (given_or key.now default (count low high) (get key.now (view value.now))) }
    ensures within { IfOk result (λ n. n ≤ high) }
{
    match value.get(key) {
        Some(found) => within_key(alloc, key, count(alloc, found, low, high)),
        None => Ok(default),
    }
}

/// A truth value, with a default.
pub fn truth_or(alloc: Global, value: &Value, key: &str, default: bool) -> Result<bool, Stop>
    ensures { Gives result (given_or key.now default truth (get key.now (view value.now))) }
{
    match value.get(key) {
        Some(found) => within_key(alloc, key, truth(alloc, found)),
        None => Ok(default),
    }
}

/// A number in a range, with a default.
pub fn number_or(
    alloc: Global,
    value: &Value,
    key: &str,
    default: i64,
    low: i64,
    high: i64,
) -> Result<i64, Stop>
    ensures { Gives result (given_or key.now default (number low high) (get key.now (view value.now))) }
{
    match value.get(key) {
        Some(found) => within_key(alloc, key, number(alloc, found, low, high)),
        None => Ok(default),
    }
}

/// Whether a key is there.
pub fn is_there(value: &Value, key: &str) -> bool
    ensures { result ≡ is_some (get key.now (view value.now)) }
{
    match value.get(key) {
        Some(_) => true,
        None => false,
    }
}
