// Requests, as a table writes them.

use crate::texts::{edge_of, event_of, numbers_of, recording_of};
use rtio_types::{IntList, Name, Request, Value, Waiting};
use std::alloc::Global;

/// The request of a call; None where it asks nothing, and for want of memory.
pub fn request_of(alloc: Global, verb: &str, rest: &str) -> Option<Request> {
    match verb {
        "out" => Some(Request::Out(event_of(rest)?)),
        "counter" => Some(Request::Counter),
        "reset" => Some(Request::Reset),
        "wait" => {
            let until = rest.parse().ok()?;
            Some(Waiting::Wait { until }.request())
        }
        "edge" => {
            let last = edge_of(rest)?;
            Some(Request::Edge {
                channel: last.channel,
                up_to: last.stamp,
            })
        }
        "fetch_handle" => Some(Request::FetchHandle {
            handle: rest.parse().ok()?,
        }),
        _ => named_request(alloc, verb, rest),
    }
}

// A request by the name `p`.
fn named_request(alloc: Global, verb: &str, rest: &str) -> Option<Request> {
    let name = Name::read(b"p")?;
    match verb {
        "data" => Some(Request::Data {
            name,
            value: value_of(alloc, rest)?,
        }),
        "save" => Some(Request::Save {
            name,
            recording: recording_of(alloc, rest)?,
        }),
        "fetch" => Some(Request::Fetch { name }),
        "handle" => Some(Request::Handle { name }),
        "erase" => Some(Request::Erase { name }),
        _ => None,
    }
}

// A number; several are a list.
fn value_of(alloc: Global, words: &str) -> Option<Value> {
    if words.contains(' ') {
        return Some(Value::List(IntList::of(numbers_of(alloc, words).ok()?)));
    }
    Some(Value::Int(words.parse().ok()?))
}
