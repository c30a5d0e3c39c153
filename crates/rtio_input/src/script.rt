// The script of the edges.

ghost use Rattle.std.specs.Prelude.{◌≡◌, ◌<◌, ◌^◌};
ghost use Rattle.std.specs.List.{list_all};
ghost use Rattle.rtio_input.specs.Script.{are_by_cycle, are_edges_ok, are_rising, edge_cycle, is_edge_before, is_edge_ok};

use limits::{MOST_EDGES, STAMPS_END};
use rtio_types::{Edge, cycle_of_stamp, is_input};
use std::alloc::{AllocError, Global};
use std::marker::Model;

/// Whether the edges can be a script: at most 4,096, of the board's inputs, with stamps from 0 to below 2^62 mu,
/// strictly rising by stamp and, at the same stamp, by channel. The limits are this project's own.
pub fn edges_ok(edges: &[Edge]) -> bool
    ensures { result ≡ are_edges_ok edges.now }
{
    edges.len() <= MOST_EDGES && are_ok(edges) && are_rising(edges)
}

/// The cycle of an edge, as that of an event.
pub fn edge_cycle(edge: &Edge) -> u64
    ensures { result ≡ edge_cycle edge.now }
{
    cycle_of_stamp(edge.stamp)
}

fn edge_ok(edge: &Edge) -> bool
    ensures { result ≡ is_edge_ok edge.now }
{
    is_input(edge.channel) && 0 <= edge.stamp && edge.stamp < STAMPS_END as i64
}

fn are_ok(edges: &[Edge]) -> bool
    ensures { result ≡ list_all is_edge_ok edges.now }
{
    edges.iter().all(|edge| edge_ok(edge))
}

fn is_before(edge: &Edge, next: &Edge) -> bool
    ensures { result ≡ is_edge_before edge.now next.now }
{
    edge.stamp < next.stamp || edge.stamp == next.stamp && edge.channel < next.channel
}

fn are_rising(edges: &[Edge]) -> bool
    ensures { result ≡ are_rising edges.now }
{
    edges.is_empty() || each_before(edges, &edges[1..])
}

ghost use Rattle.std.specs.List.{zip};

// Whether each edge is before the one beside it in the second list.
fn each_before(edges: &[Edge], next: &[Edge]) -> bool
    ensures { result ≡ list_all (λ p. is_edge_before p.0 p.1) (zip edges.now next.now) }
{
    edges
        .iter()
        .zip(next)
        .all(|(edge, next)| is_before(edge, next))
}

ghost use Rattle.std.specs.Prelude.{◌==◌, IfOk, IsTrue, drop, filter, nat_le, take, ◌≤◌, length, ℕ};
ghost use Rattle.rtio_input.specs.Script.{later_edges};

/// The edges that come once the counter rises from 0.
pub fn edges_to_come(alloc: Global, edges: &[Edge]) -> Result<Vec<Edge>, AllocError>
    ensures { IfOk result (λ left. left.items ≡ later_edges 0 edges.now) }
{
    edges
        .iter()
        .copied()
        .filter(|edge| 0 < edge_cycle(edge))
        .collect(alloc)
}

/// How many edges at the beginning are of a cycle, where none is of an earlier one.
pub fn count_at(edges: &[Edge], cycle: u64) -> usize
    requires by_cycle { IsTrue (are_by_cycle edges.now) }
    requires none_earlier { IsTrue (list_all (λ x. nat_le cycle (edge_cycle x)) edges.now) }
    ensures within { result ≤ length edges.now }
    ensures these { take result edges.now ≡ filter (λ x. edge_cycle x == cycle) edges.now }
    ensures later { drop result edges.now ≡ later_edges cycle edges.now }
{
    count_first(edges, cycle)
}

ghost use Rattle.std.specs.Prelude.{option_map, slice_get, take_while};

// How many edges are of a cycle before the first that isn't.
fn count_first(edges: &[Edge], cycle: u64) -> usize
    ensures count { result ≡ length (take_while (λ x. edge_cycle x == cycle) edges.now) }
    ensures within { result ≤ length edges.now }
{
    edges
        .iter()
        .take_while(|edge| edge_cycle(edge) == cycle)
        .count()
}

/// The edges that are still to come, in order.
#[derive(Debug, Drop)]
pub struct Script {
    edges: Vec<Edge>,
    next: usize,
}

impl Model for Script {
    ghost use Rattle.std.specs.Prelude.{List, ◌≤◌, drop, length};
    ghost use Rattle.rtio_types.specs.declared.event.Edge.{Edge};

    ghost Value = { List Edge };

    ghost view = { λ s. drop s.next s.edges.items };

    ghost invariant = { λ s. s.next ≤ length s.edges.items };
}

impl Script {
    /// All of these are to come.
    pub fn of(edges: Vec<Edge>) -> Script
        ensures { result ≡ edges.items }
    {
        Script { edges, next: 0 }
    }

    /// The edges to come.
    pub fn left(&self) -> &[Edge]
        ensures { result.now ≡ self.now }
    {
        &self.edges[self.next..]
    }

    /// The cycle of the first edge to come, if there is one.
    pub fn next_cycle(&self) -> Option<u64>
        ensures { result ≡ option_map edge_cycle (slice_get self.now 0) }
    {
        match self.left().first() {
            None => None,
            Some(edge) => Some(edge_cycle(edge)),
        }
    }

    /// Goes past so many of them.
    pub fn skip(&mut self, count: usize)
        requires { count ≤ length self.old }
        ensures { self.new ≡ drop count self.old }
    {
        self.next += count;
    }
}
