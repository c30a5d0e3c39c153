// What a kernel asks of a core, and what it is answered.

ghost use Rattle.std.specs.Prelude.{◌≡◌, IfOk};
ghost use Rattle.rtio_types.specs.Requests.{fits_request, is_well_formed, request_waiting};

use crate::{Event, IntList, Name, Recording, has_address, is_input};
use std::alloc::{AllocError, Global};

/// The value of a dataset.
#[derive(Debug, Drop)]
pub enum Value {
    /// A number.
    Int(i64),
    /// A list of numbers.
    List(IntList),
}

/// What a kernel asks of a core. Moments and readings are in machine units (mu).
#[derive(Debug, Drop)]
pub enum Request {
    /// Puts an output on the timeline.
    Out(Event),
    /// Reads the counter.
    Counter,
    /// Clears what isn't put out yet and what wasn't read yet, and reads the counter.
    Reset,
    /// Waits until the counter reads at least `until` mu.
    Wait { until: i64 },
    /// Takes the first unread edge of an input, if its stamp is below `up_to` mu.
    Edge { channel: u8, up_to: i64 },
    /// Keeps a recording under a name.
    Save { name: Name, recording: Recording },
    /// Brings the recording of a name.
    Fetch { name: Name },
    /// Brings the recording that a handle stands for.
    FetchHandle { handle: i64 },
    /// Gives a handle of the recording of a name.
    Handle { name: Name },
    /// Forgets the recording of a name.
    Erase { name: Name },
    /// Sets a dataset.
    Data { name: Name, value: Value },
}

/// What a core answers.
#[derive(Debug, Drop)]
pub enum Reply {
    /// The request was carried out.
    Done,
    /// The cycle of the output wasn't above the counter any more.
    Underflow,
    /// What the counter reads, in mu.
    Time(i64),
    /// The stamp of an edge, in mu.
    Stamp(i64),
    /// There is no unread edge with a stamp below the bound.
    NoEdge,
    /// Edges of the input were lost.
    Overflow,
    /// The recording asked for.
    Trace(Recording),
    /// The handle asked for.
    Handle(i64),
    /// No recording has this name.
    NoTrace,
    /// The handle stands for no recording any more.
    OldHandle,
    /// There is no room for one more name.
    Full,
}

/// A request that a core may be unable to answer at once.
#[derive(Clone, Copy, Debug, PartialEq, Eq)]
pub enum Waiting {
    /// An output that no lane has room for yet.
    Out(Event),
    /// A wait until the counter reads at least `until` mu.
    Wait { until: i64 },
    /// An edge of an input with a stamp below `up_to` mu, which may still come.
    Edge { channel: u8, up_to: i64 },
}

impl Waiting {
    /// The request that waits.
    pub fn request(self) -> Request
        ensures { result ≡ request_waiting self }
    {
        match self {
            Waiting::Out(event) => Request::Out(event),
            Waiting::Wait { until } => Request::Wait { until },
            Waiting::Edge { channel, up_to } => Request::Edge { channel, up_to },
        }
    }
}

impl Value {
    /// An equal value; the only error is want of memory.
    pub fn copy(&self, alloc: Global) -> Result<Value, AllocError>
        ensures { IfOk result (λ copy. copy ≡ self.now) }
    {
        match self {
            Value::Int(n) => Ok(Value::Int(*n)),
            Value::List(list) => Ok(Value::List(list.copy(alloc)?)),
        }
    }
}

impl Reply {
    /// An equal reply; the only error is want of memory.
    pub fn copy(&self, alloc: Global) -> Result<Reply, AllocError>
        ensures { IfOk result (λ copy. copy ≡ self.now) }
    {
        Ok(match self {
            Reply::Done => Reply::Done,
            Reply::Underflow => Reply::Underflow,
            Reply::Time(x) => Reply::Time(*x),
            Reply::Stamp(x) => Reply::Stamp(*x),
            Reply::NoEdge => Reply::NoEdge,
            Reply::Overflow => Reply::Overflow,
            Reply::Trace(recording) => Reply::Trace(recording.copy(alloc)?),
            Reply::Handle(x) => Reply::Handle(*x),
            Reply::NoTrace => Reply::NoTrace,
            Reply::OldHandle => Reply::OldHandle,
            Reply::Full => Reply::Full,
        })
    }
}

impl Request {
    /// An equal request; the only error is want of memory.
    pub fn copy(&self, alloc: Global) -> Result<Request, AllocError>
        ensures { IfOk result (λ copy. copy ≡ self.now) }
    {
        Ok(match self {
            Request::Out(event) => Request::Out(*event),
            Request::Counter => Request::Counter,
            Request::Reset => Request::Reset,
            Request::Wait { until } => Request::Wait { until: *until },
            Request::Edge { channel, up_to } => Request::Edge {
                channel: *channel,
                up_to: *up_to,
            },
            Request::Save { name, recording } => Request::Save {
                name: *name,
                recording: recording.copy(alloc)?,
            },
            Request::Fetch { name } => Request::Fetch { name: *name },
            Request::FetchHandle { handle } => Request::FetchHandle { handle: *handle },
            Request::Handle { name } => Request::Handle { name: *name },
            Request::Erase { name } => Request::Erase { name: *name },
            Request::Data { name, value } => Request::Data {
                name: *name,
                value: value.copy(alloc)?,
            },
        })
    }
}

/// Whether a reply is one that the request may get. A stamp is at least 0, and the events of a recording that is
/// brought are of the board.
pub fn fits(request: &Request, reply: &Reply) -> bool
    ensures { result ≡ fits_request request.now reply.now }
{
    match (request, reply) {
        (Request::Out(_), Reply::Done | Reply::Underflow) => true,
        (Request::Counter | Request::Reset, Reply::Time(_)) => true,
        (Request::Wait { .. } | Request::Data { .. }, Reply::Done) => true,
        (Request::Edge { .. }, Reply::Stamp(x)) => 0 <= *x,
        (Request::Edge { .. }, Reply::NoEdge | Reply::Overflow) => true,
        (Request::Save { .. }, Reply::Done | Reply::Full) => true,
        (Request::Fetch { .. }, Reply::Trace(recording)) => of_board(&recording.events),
        (Request::Fetch { .. }, Reply::NoTrace) => true,
        (Request::FetchHandle { .. }, Reply::Trace(recording)) => of_board(&recording.events),
        (Request::FetchHandle { .. }, Reply::OldHandle) => true,
        (Request::Handle { .. }, Reply::Handle(_) | Reply::NoTrace) => true,
        (Request::Erase { .. }, Reply::Done | Reply::NoTrace) => true,
        _ => false,
    }
}

/// Whether a core can be asked this: events have a channel and an address of the board, a recording fewer than 2^32
/// events, and an edge is asked of an input.
pub fn well_formed(request: &Request) -> bool
    ensures { result ≡ is_well_formed request.now }
{
    match request {
        Request::Out(event) => event_of_board(event),
        Request::Edge { channel, .. } => is_input(*channel),
        Request::Save { recording, .. } => {
            recording.events.len() < 1 << 32 && of_board(&recording.events)
        }
        _ => true,
    }
}

ghost use Rattle.rtio_types.specs.Board.{is_of_board, are_of_board};

// Whether the event names a channel of the board and one of its addresses.
fn event_of_board(event: &Event) -> bool
    ensures { result ≡ is_of_board event.now }
{
    has_address(event.channel, event.address)
}

fn of_board(events: &[Event]) -> bool
    ensures { result ≡ are_of_board events.now }
{
    events.iter().all(|event| event_of_board(event))
}
