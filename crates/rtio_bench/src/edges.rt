// Edges that are read one by one.

ghost use Rattle.std.specs.Prelude.{◌≡◌, ◌+◌, ◌%◌, ◌≤◌, ◌++◌, [], ℕ, List, Some, IfOk, IfSome, IsTrue, map, pos};
ghost use Rattle.std.specs.List.{range_with_len};
ghost use Rattle.rtio_types.specs.declared.event.Edge.{Edge};
ghost use Rattle.rtio_types.specs.declared.event.Event.{Event};
ghost use Rattle.rtio_input.specs.Script.{are_edges_ok};
ghost use Rattle.rtio_input.specs.Calls.{passed_before};
ghost use Rattle.rtio_input.specs.Past.{InputStep, InputsStandFor};
ghost use Rattle.rtio_types.specs.Time.{reading};
ghost use Rattle.rtio_bench.specs.Reading.{IsRead, cycle_of_edge, edge_of, gates, reads};
ghost use Rattle.rtio_bench.specs.Sums.{stamps_sum};

use rtio_input::{Inputs, edges_ok};
use rtio_types::{Edge, Event, MU_PER_CYCLE, Reply, reading};
use std::alloc::{AllocError, Global};

const FIRST: u8 = 24;

// The events that open the gates of the two inputs, in cycle 1.
const GATES: [Event; 2] = [
    Event {
        channel: FIRST,
        address: 2,
        value: 1,
        stamp: MU_PER_CYCLE as i64,
    },
    Event {
        channel: FIRST + 1,
        address: 2,
        value: 1,
        stamp: MU_PER_CYCLE as i64,
    },
];

/// Lets so many edges come, one in each cycle, and reads each in its cycle: the sum of their stamps (mu); None where one
/// is lost or there is no memory.
pub fn edges_read(alloc: Global, count: u16) -> Option<u64>
    requires { count ≤ 4096 }
    ensures { IfSome result (λ sum. sum ≡ stamps_sum count) }
{
    let edges = script(alloc, count).ok()?;
    if !edges_ok(&edges) {
        return None;
    }
    let mut inputs = opened(alloc, &edges).ok()?;
    read_all(&mut inputs, count)
}

// The edges from the first on.
fn script(alloc: Global, count: u16) -> Result<Vec<Edge>, AllocError>
    ensures { IfOk result (λ edges. edges.items ≡ map edge_of (range_with_len 0 count)) }
{
    (0..count).map(|number| edge_of(number)).collect(alloc)
}

// The edge of a number: they rise in turn on two inputs, one in each cycle from the second on.
fn edge_of(number: u16) -> Edge
    ensures { result ≡ edge_of number }
{
    Edge {
        channel: FIRST + (number % 2) as u8,
        stamp: reading(u64::from(number) + 2) as i64,
        rising: true,
    }
}

// Inputs behind cycle 1, in which the gates opened.
fn opened(alloc: Global, edges: &[Edge]) -> Result<Inputs, AllocError>
    requires { IsTrue (are_edges_ok edges.now) }
    ensures passed { IfOk result (λ inputs. IsTrue (passed_before 2 inputs)) }
    ensures stands { IfOk result (λ inputs. InputsStandFor inputs edges.now gates [] 1) }
{
    let mut inputs = Inputs::new(alloc, edges)?;
    inputs.cycle(1, &GATES);
    Ok(inputs)
}

// Reads all of them, each in its cycle.
#[tactic(auto, using(crate::proofs::Sums::stamps_more, crate::proofs::Sums::stamps_bound))]
fn read_all(inputs: &mut Inputs, count: u16) -> Option<u64>
    requires passed { IsTrue (passed_before 2 inputs.old) }
    requires few { count ≤ 4096 }
    ensures sum { IfSome result (λ sum. sum ≡ stamps_sum count) }
    // What the inputs stand for has grown by a reading of each edge, and by nothing else.
    ensures stands { (script : List Edge) (outputs : List Event) (steps : List InputStep) →
        InputsStandFor inputs.old script outputs steps 1 →
        IfSome result (λ _. InputsStandFor inputs.new script outputs (steps ++ reads count) (count + 1)) }
{
    let mut sum: u64 = 0;
    for number in 0..count {
        sum += read_edge(inputs, number)? as u64;
    }
    Some(sum)
}

// Lets the cycle of an edge come, and reads the edge: its stamp; None where another one or none is read.
fn read_edge(inputs: &mut Inputs, number: u16) -> Option<i64>
    requires { IsTrue (passed_before (cycle_of_edge number) inputs.old) }
    ensures passed { IsTrue (passed_before (cycle_of_edge number + 1) inputs.new) }
    ensures stamp { IfSome result (λ stamp. stamp ≡ pos (reading (cycle_of_edge number))) }
    ensures read { (script : List Edge) (outputs : List Event) (steps : List InputStep) →
        InputsStandFor inputs.old script outputs steps (number + 1) →
        IfSome result (λ stamp. IsRead script outputs steps number stamp inputs.new) }
{
    let edge = edge_of(number);
    let cycle = u64::from(number) + 2;
    inputs.cycle(cycle, &[]);
    match inputs.ask_edge(cycle, edge.channel, edge.stamp + 1) {
        Some(Reply::Stamp(stamp)) if stamp == edge.stamp => Some(stamp),
        _ => None,
    }
}
