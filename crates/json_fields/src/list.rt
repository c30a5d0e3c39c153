// Lists and their items.

ghost use Rattle.std.specs.Prelude.{◌≡◌};
ghost use Rattle.serde_json.specs.View.{view, items_view};
ghost use Rattle.json_fields.specs.Answers.{IsSettled, Lends, LendsItems};
ghost use Rattle.json_fields.specs.Lists.{item_needed, items_of_list, many};

use crate::fault::{FieldKind, Stop, fault_here};
use serde_json::Value;
use std::alloc::Global;

/// The items of a list of so many.
#[tactic(auto, using(crate::proofs::Items::items_many))]
pub fn items_of_list<'v>(
    alloc: Global,
    value: &'v Value,
    low: usize,
    high: usize,
) -> Result<&'v [Value], Stop>
    ensures read { LendsItems result (items_of_list low high (view value.now)) }
    ensures settled { IsSettled result }
{
    let Some(values) = value.as_array() else {
        return Err(fault_here(alloc, FieldKind::Shape));
    };
    if values.len() < low || high < values.len() {
        return Err(fault_here(alloc, FieldKind::Range));
    }
    Ok(values.as_slice())
}

/// An item of a list that is long enough.
pub fn item_needed<'v>(alloc: Global, value: &'v Value, place: usize) -> Result<&'v Value, Stop>
    ensures read { Lends result (item_needed place (view value.now)) }
    ensures settled { IsSettled result }
{
    match value.get(place) {
        Some(found) => Ok(found),
        None => Err(fault_here(alloc, FieldKind::Range)),
    }
}

ghost use Rattle.serde_json.specs.Find.{as_array, get};
ghost use Rattle.serde_json.specs.Events.{items_len};
ghost use Rattle.std.specs.Prelude.{option_and_then};
ghost use Rattle.std.specs.Option.{option_map_or};

/// How many items the list of a key has as it is given: none where it is absent or no list; the number stands still at the
/// end of its type.
#[tactic(auto, using(crate::proofs::Items::items_many))]
pub fn many(value: &Value, key: &str) -> u32
    ensures { result ≡ many key.now (view value.now) }
{
    let Some(found) = value.get(key) else {
        return 0;
    };
    let Some(values) = found.as_array() else {
        return 0;
    };
    if values.len() < u32::MAX as usize {
        values.len() as u32
    } else {
        u32::MAX
    }
}
