//! The types of values, and the calls that the language has of itself: their names, what they take and what they give.
#![tactic(auto)]

mod calls;
mod types;
mod wanted;

pub use calls::{Builtin, Object, Operation, builtin_named, method_named, method_of, object_named};
pub use types::{
    ValueType, binary_type, bits_of, declared_type, literal_type, method_type, result_type, wider,
};
pub use wanted::Wanted;
