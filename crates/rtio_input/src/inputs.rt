// The inputs of a core.

ghost use Rattle.std.specs.Prelude.{◌≡◌, ◌<◌, ◌++◌, [], ◌∷◌, List, ℕ, IfOk, IsTrue, is_some, option_map, slice_get};
ghost use Rattle.rtio_types.specs.declared.event.Edge.{Edge};
ghost use Rattle.rtio_types.specs.declared.event.Event.{Event};
ghost use Rattle.rtio_input.specs.Script.{are_edges_ok, edge_cycle, later_edges};
ghost use Rattle.rtio_input.specs.Channel.{edge_reply, next_cycle, unread_of};
ghost use Rattle.rtio_input.specs.Past.{InputStep, Reset, InputsStandFor, unread_at};
ghost use Rattle.rtio_input.specs.Calls.{after_ask, after_cycle, after_reset, answered_steps, are_of_cycle, closed_channels, passed_before};

use crate::channel::{Channel, reply_to_none};
use crate::channels::{FIRST, close_all, closed_channels, pass_cycle};
use crate::script::{Script, count_at, edges_to_come};
use rtio_types::{Edge, Event, Reply, is_input};
use std::alloc::{AllocError, Global};
use std::marker::Model;

/// The board's inputs, channels 24 to 31: the edges that are still to come, and what each has unread.
#[derive(Debug, Drop)]
pub struct Inputs {
    script: Script,
    channels: Vec<Channel>,
}

impl Model for Inputs {
    ghost use Rattle.rtio_input.specs.Channel.{InputsState};
    ghost use Rattle.rtio_input.specs.Calls.{AreInputs};

    ghost Value = { InputsState };

    ghost view = { λ a. record { left = a.script; channels = a.channels.items } };

    ghost invariant = { λ a. AreInputs a.script a.channels.items };
}

impl Inputs {
    /// All edges of a script are to come, and nothing is unread. An edge of cycle 0 is never seen.
    pub fn new(alloc: Global, edges: &[Edge]) -> Result<Inputs, AllocError>
        requires { IsTrue (are_edges_ok edges.now) }
        ensures fresh { IfOk result (λ new. new ≡ record { left = later_edges 0 edges.now; channels = closed_channels }) }
        ensures stands { IfOk result (λ new. InputsStandFor new edges.now [] [] 0) }
    {
        let left = edges_to_come(alloc, edges)?;
        Ok(Inputs {
            script: Script::of(left),
            channels: closed_channels(alloc)?,
        })
    }

    /// Takes the edges of a cycle, after the events `kept` that were put out in it: each is seen or not. A seen edge is
    /// kept to be read, or is dropped and marks an overflow where 64 are unread.
    pub fn cycle(&mut self, cycle: u64, kept: &[Event])
        requires none_skipped { IsTrue (passed_before cycle self.old) }
        requires put_out { IsTrue (are_of_cycle cycle kept.now) }
        ensures after { self.new ≡ after_cycle self.old cycle kept.now }
        // What the inputs stand for has grown by the cycle, at the counter that reached it.
        ensures stands { (script : List Edge) (outputs : List Event) (steps : List InputStep) (counter : ℕ) → counter < cycle
            → InputsStandFor self.old script outputs steps counter
            → InputsStandFor self.new script (outputs ++ kept.now) steps cycle }
    {
        let count = count_at(self.script.left(), cycle);
        pass_cycle(&mut self.channels, &self.script.left()[..count], kept);
        self.script.skip(count);
    }

    /// The cycle of the next edge of the script that is still to come; each lies in a cycle of at least 1. None where no
    /// such edge is left.
    pub fn next_cycle(&self) -> Option<u64>
        ensures value { result ≡ next_cycle self.now }
        // It is the first edge behind the counter, where the inputs stand for a script.
        ensures right { (script : List Edge) (outputs : List Event) (steps : List InputStep) (counter : ℕ)
            → InputsStandFor self.now script outputs steps counter
            → result ≡ option_map edge_cycle (slice_get (later_edges counter script) 0) }
    {
        self.script.next_cycle()
    }

    /// The reply to a request for an edge of a channel with a stamp below `up_to` mu, at this counter of cycles: an
    /// overflow, which it clears; the stamp of the first unread edge, which it reads; no edge; or None where that isn't
    /// decided yet. A channel that is no input has nothing unread.
    pub fn ask_edge(&mut self, counter: u64, channel: u8, up_to: i64) -> Option<Reply>
        ensures reply { result ≡ edge_reply (unread_of self.old channel) counter up_to }
        ensures after { self.new ≡ after_ask self.old channel result }
        // It is the reply by all that happened, where the inputs stand for that, and it is a step more of it.
        ensures right { (script : List Edge) (outputs : List Event) (steps : List InputStep)
            → InputsStandFor self.old script outputs steps counter
            → result ≡ edge_reply (unread_at script outputs steps counter channel) counter up_to }
        ensures stands { (script : List Edge) (outputs : List Event) (steps : List InputStep)
            → InputsStandFor self.old script outputs steps counter
            → InputsStandFor self.new script outputs (steps ++ answered_steps counter channel result) counter }
    {
        if is_input(channel) {
            self.channels[(channel - FIRST) as usize].answer(counter, up_to)
        } else {
            reply_to_none(counter, up_to)
        }
    }

    /// Whether a request for an edge is decided at this counter: whether `ask_edge` would answer it.
    pub fn is_decided(&self, counter: u64, channel: u8, up_to: i64) -> bool
        ensures value { result ≡ is_some (edge_reply (unread_of self.now channel) counter up_to) }
        // It is so by all that happened, where the inputs stand for that.
        ensures right { (script : List Edge) (outputs : List Event) (steps : List InputStep)
            → InputsStandFor self.now script outputs steps counter
            → result ≡ is_some (edge_reply (unread_at script outputs steps counter channel) counter up_to) }
    {
        if is_input(channel) {
            self.channels[(channel - FIRST) as usize].is_decided(counter, up_to)
        } else {
            reply_to_none(counter, up_to).is_some()
        }
    }

    /// Drops the unread edges and clears the overflows. Sensitivities of before count no more.
    pub fn reset(&mut self)
        ensures after { self.new ≡ after_reset self.old }
        // What the inputs stand for has a reset more.
        ensures stands { (script : List Edge) (outputs : List Event) (steps : List InputStep) (counter : ℕ)
            → InputsStandFor self.old script outputs steps counter
            → InputsStandFor self.new script outputs (steps ++ Reset counter ∷ []) counter }
    {
        close_all(&mut self.channels);
    }
}
