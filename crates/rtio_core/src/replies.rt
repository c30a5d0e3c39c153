// What a core replies, and what that costs.

ghost use Rattle.std.specs.Prelude.{◌≡◌, ◌≤◌, ◌+◌, ◌-◌, ◌^◌, ◌↔◌, IsTrue, min, max, pos};
ghost use Rattle.rtio_types.specs.Requests.{request_waiting};
ghost use Rattle.rtio_types.specs.Time.{reading};
ghost use Rattle.rtio_core.specs.Answers.{is_edge_reply, plain_reply};

use rtio_types::{Reply, Request, Waiting, reading};

/// Whether this is the request that waits.
pub fn is_waiting(waiting: Waiting, request: &Request) -> bool
    ensures { IsTrue result ↔ (request_waiting waiting ≡ request.now) }
{
    match (waiting, request) {
        (Waiting::Out(event), Request::Out(other)) => event == *other,
        (Waiting::Wait { until }, Request::Wait { until: other }) => until == *other,
        (
            Waiting::Edge { channel, up_to },
            Request::Edge {
                channel: other,
                up_to: bound,
            },
        ) => { channel == *other && up_to == *bound }
        _ => false,
    }
}

/// What the counter reads, in mu, as replies have it.
pub fn reads(counter: u64) -> i64
    requires { counter ≤ 2 ^ 59 }
    ensures { result ≡ pos (reading counter) }
{
    reading(counter) as i64
}

/// The reply to a request that is no output, once it is decided.
pub fn plain_reply(request: &Request, counter: u64) -> Reply
    requires { counter ≤ 2 ^ 59 }
    ensures { result ≡ plain_reply request.now counter }
{
    match request {
        Request::Counter | Request::Reset => Reply::Time(reads(counter)),
        _ => Reply::Done,
    }
}

/// An equal reply, of those to a request for an edge, which take no memory.
pub fn same_edge_reply(reply: &Reply) -> Reply
    requires { IsTrue (is_edge_reply reply.now) }
    ensures { result ≡ reply.now }
{
    match reply {
        Reply::Stamp(stamp) => Reply::Stamp(*stamp),
        Reply::NoEdge => Reply::NoEdge,
        Reply::Overflow => Reply::Overflow,
        _ => unreachable!(),
    }
}

/// The limit (mu) after a request that was answered at this counter; it stands still at the end of its type.
pub fn raised(limit: u64, at: u64, cost: u64) -> u64
    requires { at ≤ 2 ^ 59 }
    ensures { result ≡ min (max limit (reading at) + cost) (2 ^ 64 - 1) }
{
    limit.max(reading(at)).saturating_add(cost)
}
