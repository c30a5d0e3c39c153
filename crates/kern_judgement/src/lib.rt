//! The types of kernels by rules, one for each form of the tree, and that the checker's verdict agrees with them.
#![tactic(auto)]

mod laws;

pub use laws::{
    blocks_are_typed_as_judged, earlier_functions_are_told, expressions_are_typed_as_judged,
    functions_have_one_place, names_are_those_told, names_only_grow, programs_are_typed_as_judged,
    types_are_those_told, types_are_unique,
};
