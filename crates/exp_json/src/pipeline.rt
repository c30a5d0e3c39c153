// Pipelines and the edges of their inputs.

ghost use Rattle.std.specs.Prelude.{◌≡◌};
ghost use Rattle.limits.specs.Limits.{most_edges, most_pipelines};
ghost use Rattle.serde_json.specs.View.{view};
ghost use Rattle.exp_model.specs.Edges.{is_edge_before};
ghost use Rattle.json_fields.specs.Answers.{Gives};
ghost use Rattle.json_fields.specs.Lists.{list_of, listed};
ghost use Rattle.exp_json.specs.Pipelines.{edge, follows, pipeline, slope};

use crate::around::Around;
use crate::list::{ReadItem, listed};
use exp_model::{Pipeline, PipelineList};
use json_fields::{
    FieldKind, Stop, an_object, count, demand, item_needed, items_of_list, only_known, text,
    within_key, within_place,
};
use limits::{FIRST_INPUT, LAST_CHANNEL, LAST_STAMP, MOST_EDGES, MOST_PIPELINES};
use rtio_types::{Edge, EdgeList};
use serde_json::Value;
use std::alloc::Global;

// Whether an edge rises.
fn slope(alloc: Global, value: &Value) -> Result<bool, Stop>
    ensures { Gives result (slope (view value.now)) }
{
    let word = text(alloc, value)?;
    demand(alloc, word == "r" || word == "f", FieldKind::Range)?;
    Ok(word == "r")
}

// The one edge is before the other: by stamp, then by channel.
fn is_edge_before(a: Edge, b: Edge) -> bool
    ensures { result ≡ is_edge_before a b }
{
    a.stamp < b.stamp || (a.stamp == b.stamp && a.channel < b.channel)
}

// An edge comes after the last of those before it.
fn follows(before: &[Edge], edge: Edge) -> bool
    ensures { result ≡ follows before.now edge }
{
    match before.last() {
        None => true,
        Some(last) => is_edge_before(*last, edge),
    }
}

impl ReadItem for Edge {
    ghost use Rattle.exp_json.specs.Pipelines.{edge};

    ghost reading = { λ around. edge };

    fn read(alloc: Global, _around: &Around, before: &[Edge], value: &Value) -> Result<Edge, Stop> {
        edge(alloc, before, value)
    }
}

// An edge: its three items, and then its order.
fn edge(alloc: Global, before: &[Edge], value: &Value) -> Result<Edge, Stop>
    ensures { Gives result (edge before.now (view value.now)) }
{
    items_of_list(alloc, value, 3, 3)?;
    let given = item_needed(alloc, value, 0)?;
    let channel = within_place(0, count(alloc, given, FIRST_INPUT, LAST_CHANNEL))?;
    let given = item_needed(alloc, value, 1)?;
    let stamp = within_place(1, count(alloc, given, 0, LAST_STAMP))?;
    let given = item_needed(alloc, value, 2)?;
    let rising = within_place(2, slope(alloc, given))?;
    let new = Edge {
        channel: channel as u8,
        stamp: stamp as i64,
        rising,
    };
    demand(alloc, follows(before, new), FieldKind::Order)?;
    Ok(new)
}

// The edges of a pipeline.
fn edges(alloc: Global, around: &Around, value: &Value) -> Result<EdgeList, Stop>
    ensures { Gives result (listed 0 most_edges edge (view value.now)) }
{
    Ok(EdgeList::of(listed(alloc, around, value, 0, MOST_EDGES)?))
}

/// A pipeline.
pub fn pipeline(alloc: Global, around: &Around, value: &Value) -> Result<Pipeline, Stop>
    ensures { Gives result (pipeline (view value.now)) }
{
    an_object(alloc, value)?;
    only_known(alloc, value, &["edges"])?;
    let edges = match value.get("edges") {
        Some(found) => within_key(alloc, "edges", edges(alloc, around, found))?,
        None => EdgeList::of(Vec::new(alloc)),
    };
    Ok(Pipeline { edges })
}

impl ReadItem for Pipeline {
    ghost use Rattle.exp_json.specs.Pipelines.{pipeline};

    ghost reading = { λ around before. pipeline };

    fn read(
        alloc: Global,
        around: &Around,
        _before: &[Pipeline],
        value: &Value,
    ) -> Result<Pipeline, Stop> {
        pipeline(alloc, around, value)
    }
}

/// The pipelines of a session.
pub fn pipelines(alloc: Global, around: &Around, value: &Value) -> Result<PipelineList, Stop>
    ensures { Gives result (list_of 1 most_pipelines pipeline (view value.now)) }
{
    Ok(PipelineList::of(listed(alloc, around, value, 1, MOST_PIPELINES)?))
}
