// The plain data of a core.

ghost use Rattle.std.specs.Prelude.{◌≡◌, IfOk};
ghost use Rattle.rtio_core.specs.Entries.{are_holds_ok, is_config_ok};

use crate::NamedList;
use crate::named::kept_ok;
use limits::{CHANNELS, LOCKSTEP_HORIZON, MOST_COST, MOST_DEPTH, MOST_HOLD, MOST_LANES};
use rtio_input::edges_ok;
use rtio_types::{EdgeList, IntList, Outcome, Reply, Request, Waiting};
use std::alloc::{AllocError, Global};

/// The settings of a core. The numbers of lanes and of events in one are those of an ARTIQ gateware; cost, horizon and
/// holds are this project's own.
#[derive(Debug, Drop)]
pub struct Config {
    /// How many lanes there are, 1 to 32.
    pub lanes: u32,
    /// How many events a lane holds, 1 to 1,024.
    pub depth: u32,
    /// By how much each answered request raises the limit, 0 to 1,000,000 mu.
    pub cost: u64,
    /// The last cycle that the counter reaches, 1 to 576,460,752,303,423,488.
    pub horizon: u64,
    /// The edges that the inputs get.
    pub edges: EdgeList,
    /// How many cycles each channel takes to execute an event, by channel, each 0 to 1,000,000.
    pub holds: [u32; CHANNELS],
    /// The recordings that the core begins with, at most 64 of different names.
    pub kept: NamedList,
}

/// What a session runs, and for which step of which run.
#[derive(Debug, Drop)]
pub struct StartOf {
    /// The number of the source.
    pub source: u32,
    /// The number of the function in it.
    pub function: u32,
    /// The function's arguments.
    pub args: IntList,
    /// The run.
    pub rid: u64,
    /// The step of the run.
    pub pos: u32,
}

/// What happened to a core. Each act says at which counter, in cycles.
#[derive(Debug, Drop)]
pub enum Act {
    /// A session began, with the cursor (mu) at which the last one ended.
    Start {
        of: StartOf,
        cursor: i64,
        at: u64,
    },
    /// A request got its reply.
    Asked {
        request: Request,
        reply: Reply,
        at: u64,
    },
    /// The session ended with this cursor (mu).
    End {
        outcome: Outcome,
        cursor: i64,
        at: u64,
    },
}

/// An act, and the number of the chair that did it.
#[derive(Debug, Drop)]
pub struct Entry {
    /// Who.
    pub chair: u32,
    /// What.
    pub act: Act,
}

/// What becomes of a request.
#[derive(Debug, Drop)]
pub enum Ask {
    /// It got this reply.
    Reply(Reply),
    /// It isn't decided yet, and waits. It should be asked again where the core has stopped, at the counter `until` (cycles)
    /// at the latest; an edge may be decided before.
    NotYet { until: u64, waiting: Waiting },
    /// Another request waits; this one is handed back.
    OtherPending { waiting: Waiting, request: Request },
}

/// What became of a tick.
#[derive(Clone, Copy, Debug, PartialEq, Eq)]
pub enum Tick {
    /// The counter rose by one cycle.
    Went,
    /// It may not rise. `limit` (mu) is how far the session's answers reach; with no session open, how far the events do.
    Held { limit: u64 },
    /// It stands at the horizon.
    Horizon,
}

/// Why no session started.
#[derive(Clone, Copy, Debug, PartialEq, Eq)]
pub enum StartEnd {
    /// A session of this run is open.
    Busy { rid: u64 },
    /// For want of memory.
    Memory,
}

impl StartOf {
    /// An equal value; the only error is want of memory.
    pub fn copy(&self, alloc: Global) -> Result<StartOf, AllocError>
        ensures { IfOk result (λ copy. copy ≡ self.now) }
    {
        Ok(StartOf {
            source: self.source,
            function: self.function,
            args: self.args.copy(alloc)?,
            rid: self.rid,
            pos: self.pos,
        })
    }
}

impl Config {
    /// Equal settings; the only error is want of memory.
    pub fn copy(&self, alloc: Global) -> Result<Config, AllocError>
        ensures { IfOk result (λ copy. copy ≡ self.now) }
    {
        Ok(Config {
            lanes: self.lanes,
            depth: self.depth,
            cost: self.cost,
            horizon: self.horizon,
            edges: self.edges.copy(alloc)?,
            holds: self.holds,
            kept: self.kept.copy(alloc)?,
        })
    }
}

/// Whether the numbers of the settings are in their ranges, the edges can be a script, and the recordings can be kept.
pub fn config_ok(config: &Config) -> bool
    ensures { result ≡ is_config_ok config.now }
{
    (1..=MOST_LANES).contains(&u64::from(config.lanes))
        && (1..=MOST_DEPTH).contains(&u64::from(config.depth))
        && config.cost <= MOST_COST
        && (1..=LOCKSTEP_HORIZON).contains(&config.horizon)
        && edges_ok(config.edges.items())
        && holds_ok(&config.holds)
        && kept_ok(config.kept.items())
}

// Whether each hold is in its range.
fn holds_ok(holds: &[u32; CHANNELS]) -> bool
    ensures { result ≡ are_holds_ok holds.now }
{
    holds.iter().all(|hold| u64::from(*hold) <= MOST_HOLD)
}
