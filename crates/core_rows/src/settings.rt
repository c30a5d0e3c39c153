// What a core begins with.

use crate::texts::{edge_of, recording_of};
use rtio_core::{Config, Named, NamedList};
use rtio_types::{Edge, EdgeList, Name};
use std::alloc::{AllocError, Global};
use table_rows::push_text;

/// The settings of a row that has said these lines, with numbers that are written `LANES DEPTH COST HORIZON`; a number that isn't
/// there is 0. Fails only for want of memory.
pub fn config_of(alloc: Global, said: &str, words: &str) -> Result<Config, AllocError> {
    let mut words = words.split(' ');
    Ok(Config {
        lanes: words.next().unwrap_or("").parse().unwrap_or(0),
        depth: words.next().unwrap_or("").parse().unwrap_or(0),
        cost: words.next().unwrap_or("").parse().unwrap_or(0),
        horizon: words.next().unwrap_or("").parse().unwrap_or(0),
        edges: EdgeList::of(edges_of(alloc, said)?),
        holds: holds_of(said),
        kept: NamedList::of(kept_of(alloc, said)?),
    })
}

/// The rising edges of a row that has said these lines. Fails only for want of memory.
pub fn edges_of(alloc: Global, said: &str) -> Result<Vec<Edge>, AllocError> {
    let mut edges = Vec::new(alloc);
    for line in said.split('\n') {
        if let Some(words) = line.strip_prefix("edges ") {
            push_edges(&mut edges, words)?;
        } else if let Some(words) = line.strip_prefix("many_edges ") {
            push_many(&mut edges, words)?;
        }
    }
    Ok(edges)
}

fn push_edges(edges: &mut Vec<Edge>, words: &str) -> Result<(), AllocError> {
    for word in words.split(' ') {
        if let Some(edge) = edge_of(word) {
            edges.push(edge)?;
        }
    }
    Ok(())
}

// An edge, and so many in all, each 1 mu behind the one before.
fn push_many(edges: &mut Vec<Edge>, words: &str) -> Result<(), AllocError> {
    let (first, count) = words.split_once(' ').unwrap_or((words, ""));
    if let Some(first) = edge_of(first) {
        for number in 0..count.parse::<u16>().unwrap_or(0) {
            let stamp = first.stamp.wrapping_add(i64::from(number));
            edges.push(Edge { stamp, ..first })?;
        }
    }
    Ok(())
}

/// The bytes of a row that has said these lines. Fails only for want of memory.
pub fn bytes_of(alloc: Global, said: &str) -> Result<Vec<u8>, AllocError> {
    let mut bytes = Vec::new(alloc);
    for line in said.split('\n') {
        push_text(&mut bytes, line)?;
    }
    Ok(bytes)
}

fn holds_of(said: &str) -> [u32; 32] {
    let mut holds = [0; 32];
    for line in said.split('\n') {
        if let Some(words) = line.strip_prefix("hold ") {
            hold(&mut holds, words);
        }
    }
    holds
}

fn hold(holds: &mut [u32; 32], words: &str) {
    let (channel, cycles) = words.split_once(' ').unwrap_or((words, ""));
    let channel = channel.parse::<u8>().unwrap_or(255);
    if channel < 32 {
        holds[channel as usize] = cycles.parse().unwrap_or(0);
    }
}

fn kept_of(alloc: Global, said: &str) -> Result<Vec<Named>, AllocError> {
    let mut kept = Vec::new(alloc);
    for line in said.split('\n') {
        if let Some(words) = line.strip_prefix("kept ") {
            push_kept(alloc, &mut kept, words)?;
        }
    }
    Ok(kept)
}

fn push_kept(alloc: Global, kept: &mut Vec<Named>, words: &str) -> Result<(), AllocError> {
    let (event, names) = words.split_once(' ').unwrap_or((words, ""));
    for name in names.split(' ') {
        if let Some(named) = named_of(alloc, name, event) {
            kept.push(named)?;
        }
    }
    Ok(())
}

fn named_of(alloc: Global, name: &str, event: &str) -> Option<Named> {
    Some(Named {
        name: Name::read(name.as_bytes())?,
        recording: recording_of(alloc, event)?,
    })
}
