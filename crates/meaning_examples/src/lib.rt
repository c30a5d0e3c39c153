//! Tests alone: what functions of kernels mean under given replies.
#![tactic(auto)]

#[cfg(test)]
mod kernels;
