// Scripts of edges, and the inputs made of one.

use crate::settings::edges_of;
use rtio_input::{Inputs, edges_ok};
use rtio_types::Edge;
use std::alloc::{AllocError, Global};

/// Tells whether the edges of a row that has said these lines are a script, or what inputs that are made of it answer at once. Fails only
/// for want of memory.
pub fn tell_inputs(
    alloc: Global,
    told: &mut String,
    said: &str,
    call: &str,
) -> Result<(), AllocError> {
    let edges = edges_of(alloc, said)?;
    tell_script(alloc, told, &edges, call)
}

fn tell_script(
    alloc: Global,
    told: &mut String,
    edges: &[Edge],
    call: &str,
) -> Result<(), AllocError> {
    let is_script = edges_ok(edges);
    if call == "script" {
        return write!(told, "{is_script}");
    }
    if !is_script {
        return told.push_str("no script");
    }
    let mut inputs = Inputs::new(alloc, edges)?;
    tell_answer(told, &mut inputs, call)
}

fn tell_answer(told: &mut String, inputs: &mut Inputs, call: &str) -> Result<(), AllocError> {
    let (verb, rest) = call.split_once(' ').unwrap_or((call, ""));
    if verb == "next" {
        return write!(told, "{:?}", inputs.next_cycle());
    }
    match question_of(rest) {
        Some((counter, channel, up_to)) if verb == "ask" => {
            write!(told, "{:?}", inputs.ask_edge(counter, channel, up_to))
        }
        Some((counter, channel, up_to)) => {
            write!(told, "{}", inputs.is_decided(counter, channel, up_to))
        }
        None => told.push_str("no call"),
    }
}

// A counter, a channel and a moment.
fn question_of(words: &str) -> Option<(u64, u8, i64)> {
    let mut words = words.split(' ');
    Some((
        words.next()?.parse().ok()?,
        words.next()?.parse().ok()?,
        words.next()?.parse().ok()?,
    ))
}
