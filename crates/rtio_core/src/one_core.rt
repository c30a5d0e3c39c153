// The core.

mod asking;
mod edges;
mod leaping;
mod recordings;
mod ticking;

ghost use Rattle.std.specs.Prelude.{◌≡◌, ◌<◌, ℕ, IfOk, IfSome, OnOk, OnErr, IsTrue, Some, None, Ok, Err};
ghost use Rattle.rtio_types.specs.Requests.{is_well_formed, request_waiting};
ghost use Rattle.rtio_core.specs.Entries.{is_config_ok, kept_after, last_cursor, open_session};
ghost use Rattle.rtio_core.specs.Handed.{are_kept_ok, kept_of};
ghost use Rattle.rtio_core.specs.Reply.{outputs_at};
ghost use Rattle.rtio_core.specs.Lawful.{IsOpenFor};
ghost use Rattle.rtio_core.specs.Told.{TellsLog, log_at, log_lines_at, peaks_at};
ghost use Rattle.rtio_core.specs.Core.{CoreState, IsCore, new_core};
ghost use Rattle.rtio_core.specs.Calls.{started, ended, MayEnd};

use crate::outputs::Outputs;
use crate::{Act, Config, Entry, Named, StartEnd, StartOf};
use dma_store::Store;
use rtio_input::Inputs;
use rtio_log::LogLine;
use rtio_types::{Event, Outcome, Waiting, reading};
use std::alloc::{AllocError, Global};
use std::marker::Model;

/// One core. Contracts see it as its settings, its history, its counter and the request that waits: all else that it
/// tells is what these make of it. Lanes, replacement, collisions and underflow are as in the ARTIQ manual; limit, cost,
/// horizon and history are this project's own.
#[derive(Debug, Drop)]
pub struct Core {
    config: Config,
    entries: Vec<Entry>,
    count: u64,
    pending: Option<Waiting>,
    outputs: Outputs,
    inputs: Inputs,
    store: Store,
    session: Option<(u32, u64)>,
    cursor: i64,
    limit: u64,
}

impl Model for Core {
    ghost use Rattle.rtio_core.specs.Core.{CoreState};

    ghost Value = { CoreState };

    ghost use Rattle.rtio_core.specs.Fields.{core_state, IsCoreInside};

    ghost view = { core_state };

    ghost invariant = { IsCoreInside };
}

impl Core {
    /// A core at counter 0, with an empty history and the recordings of its settings, whose edges are still to come.
    pub fn new(alloc: Global, config: Config) -> Result<Core, AllocError>
        requires { IsTrue (is_config_ok config) }
        ensures { IfOk result (λ core. core ≡ new_core config) }
    {
        let outputs = Outputs::new(alloc, &config.holds, config.lanes, config.depth)?;
        let inputs = Inputs::new(alloc, config.edges.items())?;
        let store = handed_in(alloc, config.kept.items())?;
        Ok(Core {
            config,
            entries: Vec::new(alloc),
            count: 0,
            pending: None,
            outputs,
            inputs,
            store,
            session: None,
            cursor: 0,
            limit: 0,
        })
    }

    /// Starts a session at the cursor (mu) at which the last one ended, 0 if there was none, and answers that cursor.
    /// It is refused where a session is open, and for want of memory.
    pub fn start(&mut self, alloc: Global, who: u32, of: StartOf) -> Result<i64, StartEnd>
        ensures free { OnOk result (open_session self.old.history ≡ None) }
        ensures cursor { IfOk result (λ cursor. cursor ≡ last_cursor self.old.history) }
        ensures ok { IfOk result (λ cursor. self.new ≡ started self.old who of cursor) }
        // Busy exactly where a session is open.
        ensures busy { (rid : ℕ) → result ≡ Err (StartEnd.Busy rid) → (chair : ℕ) × (open_session self.old.history ≡ Some (chair, rid)) }
        ensures memory { result ≡ Err StartEnd.Memory → open_session self.old.history ≡ None }
        ensures err { OnErr result (self.new ≡ self.old) }
    {
        if let Some((_, rid)) = self.session {
            return Err(StartEnd::Busy { rid });
        }
        if self.entries.reserve(1).is_err() {
            return Err(StartEnd::Memory);
        }
        let rid = of.rid;
        let cursor = self.cursor;
        let at = self.count;
        let act = Act::Start { of, cursor, at };
        self.entries.push_reserved(Entry { chair: who, act });
        self.session = Some((who, rid));
        self.limit = reading(at);
        Ok(cursor)
    }

    /// Ends the session of chair `who` with this cursor (mu). While a request waits the outcome has to be Horizon, and the
    /// request is dropped; that the counter stands at the horizon then isn't asked. The only error is want of memory.
    pub fn end(
        &mut self,
        alloc: Global,
        who: u32,
        outcome: Outcome,
        cursor: i64,
    ) -> Result<(), AllocError>
        requires open { IsOpenFor who self.old.history }
        requires waiting { MayEnd self.old.waiting outcome }
        ensures ok { OnOk result (self.new ≡ ended self.old who outcome cursor) }
        ensures err { OnErr result (self.new ≡ self.old) }
    {
        let at = self.count;
        let act = Act::End {
            outcome,
            cursor,
            at,
        };
        self.entries.push(Entry { chair: who, act })?;
        self.pending = None;
        self.session = None;
        self.cursor = cursor;
        Ok(())
    }

    /// The counter, in cycles.
    pub fn counter(&self) -> u64
        ensures { result ≡ self.now.counter }
    {
        self.count
    }

    /// The last cycle that the counter reaches.
    pub fn horizon(&self) -> u64
        ensures { result ≡ self.now.config.horizon }
    {
        self.config.horizon
    }

    /// The events put out so far, by stamp and channel.
    pub fn trace(&self) -> &[Event]
        ensures { result.now ≡ outputs_at self.now.config self.now.history self.now.counter }
    {
        &self.outputs.put_out
    }

    /// Which events were out of sequence, collided, were busy or were cleared so far, in the order of adding: a tick adds
    /// the collisions of its cycle, and then the busy ones, each by channel and number; one out of sequence and those that a
    /// reset clears are added when that is asked. Overridden events and those that came too late aren't among them.
    pub fn log(&self) -> &[LogLine]
        ensures kinds { TellsLog (log_at self.now.config self.now.history self.now.counter) result.now }
        ensures lines { result.now ≡ log_lines_at self.now.config self.now.history self.now.counter }
    {
        self.outputs.log.lines()
    }

    /// The history. It is lawful, each request in it is one that a core can be asked, and the counter is no further than
    /// it may be.
    pub fn history(&self) -> &[Entry]
        ensures value { result.now ≡ self.now.history }
        ensures core { IsCore self.now }
    {
        &self.entries
    }

    /// The chair and the run of the open session.
    pub fn session(&self) -> Option<(u32, u64)>
        ensures { result ≡ open_session self.now.history }
    {
        self.session
    }

    /// The request that waits. It is one that a core can be asked, and none waits where no session is open.
    pub fn waiting(&self) -> Option<Waiting>
        ensures value { result ≡ self.now.waiting }
        ensures formed { IfSome result (λ waiting. IsTrue (is_well_formed (request_waiting waiting))) }
        ensures open { open_session self.now.history ≡ None → result ≡ None }
    {
        self.pending
    }

    /// The greatest number of events that each lane held just after one was accepted into it, 0 if none was.
    pub fn peaks(&self) -> &[u32]
        ensures { result.now ≡ peaks_at self.now.config self.now.history }
    {
        &self.outputs.peaks
    }

    /// The recordings that are kept.
    pub fn store(&self) -> &Store
        ensures { result.now ≡ kept_after self.now.config self.now.history }
    {
        &self.store
    }
}

// The recordings that a core begins with.
fn handed_in(alloc: Global, kept: &[Named]) -> Result<Store, AllocError>
    requires { IsTrue (are_kept_ok kept.now) }
    ensures { IfOk result (λ store. store ≡ kept_of kept.now) }
{
    let mut store = Store::new(alloc);
    for named in kept {
        store.hand_in(alloc, &named.name, &named.recording)?;
    }
    Ok(store)
}
