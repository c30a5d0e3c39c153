// Edges in words.

ghost use Rattle.std.specs.Prelude.{◌≡◌};
ghost use Rattle.option_values.specs.Readings.{Reads};
ghost use Rattle.option_values.specs.Lists.{edge_by, edge_of, edges_of, rises};

use crate::end::ValueEnd;
use crate::numbers::read_number;
use limits::{FIRST_INPUT, LAST_CHANNEL, LAST_STAMP};
use rtio_types::{Edge, EdgeList};
use std::alloc::Global;

/// The edges of inputs that `CHANNEL:STAMP:r` and `CHANNEL:STAMP:f` say, one or more, joined by commas. Their stamps (mu) are
/// below 2^62. Whether they are in order, and how many, isn't asked.
pub fn read_edges(alloc: Global, text: &str) -> Result<EdgeList, ValueEnd>
    ensures { Reads (edges_of text.now) result }
{
    let mut edges = Vec::new(alloc);
    for part in text.split(',') {
        let edge = edge_of(part).ok_or(ValueEnd::Refused)?;
        edges.push(edge)?;
    }
    Ok(EdgeList::of(edges))
}

fn edge_of(text: &str) -> Option<Edge>
    ensures { result ≡ edge_of text.now }
{
    let (channel, rest) = text.split_once(':')?;
    let (stamp, direction) = rest.split_once(':')?;
    edge_by(channel, stamp, direction)
}

fn edge_by(channel: &str, stamp: &str, direction: &str) -> Option<Edge>
    ensures { result ≡ edge_by channel.now stamp.now direction.now }
{
    let channel = read_number(channel, FIRST_INPUT, LAST_CHANNEL)?;
    let stamp = read_number(stamp, 0, LAST_STAMP)?;
    let rising = rises(direction)?;
    Some(Edge {
        channel: channel as u8,
        stamp: stamp as i64,
        rising,
    })
}

// Whether the edge rises.
fn rises(text: &str) -> Option<bool>
    ensures { result ≡ rises text.now }
{
    match text {
        "r" => Some(true),
        "f" => Some(false),
        _ => None,
    }
}
