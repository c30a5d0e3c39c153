//! The lines of generated kernels, worked out from the rule for their numbers. The crate has tests alone.
#![tactic(auto)]

#[cfg(test)]
mod lines;
