//! Trees and lists that are built by hand, and types of results. The crate has tests alone: the crates that they go through
//! aren't proved again with them. What is made of texts and of code stands in the tables of `kernel_rows`.
#![tactic(auto)]

#[cfg(test)]
mod lists;
#[cfg(test)]
mod trees;
#[cfg(test)]
mod value_types;
