//! The fields of JSON objects, read one by one: each value, or the first fault with the path to it. Which fields an
//! object has, and of which kinds, is said by tables (`specs/Objects.antt`), and so is the order in which the faults of
//! an object are asked. The rules are this project's own.
#![tactic(auto)]

mod fault;
mod list;
mod object;
mod path;
mod value;
mod written;

pub use fault::{FieldKind, Stop, demand, fault_here, within_key, within_place};
pub use list::{item_needed, items_of_list, many};
pub use object::{an_object, count_or, is_there, needed, number_or, only_known, truth_or};
pub use path::{KeyText, Part, Path};
pub use value::{any_number, count, index, integer, number, text, truth, yes};
pub use written::path_text;
