// One input, with its unread edges.

ghost use Rattle.std.specs.Prelude.{◌≡◌, IfOk, int_le, is_some, pos};
ghost use Rattle.rtio_types.specs.Time.{reading};
ghost use Rattle.rtio_input.specs.Channel.{after_edge, closed_channel, edge_reply, nothing_unread};
ghost use Rattle.rtio_input.specs.Calls.{after_own_edge, after_reply, sensitivity_among};
ghost use Rattle.rtio_input.specs.Past.{sees};

use circular_buffer::HeapCircularBuffer;
use rtio_types::{Edge, Event, Reply, counter_reaching};
use std::alloc::{AllocError, Global};
use std::marker::Model;

const UNREAD_MOST: usize = 64;

/// The stamps of the edges that wait to be read, the least first, whether one was dropped for want of room, and the
/// data of the last sensitivity event since the last reset.
#[derive(Debug, Drop)]
pub struct Channel {
    unread: HeapCircularBuffer<i64>,
    overflow: bool,
    sensitivity: u32,
}

impl Model for Channel {
    ghost use Rattle.std.specs.Prelude.{◌≡◌, ◌≤◌, length};
    ghost use Rattle.rtio_input.specs.Channel.{ChannelState};

    ghost Value = { ChannelState };

    ghost view = { λ c. record { unread = record { stamps = c.unread.items; overflow = c.overflow }; sensitivity = c.sensitivity } };

    ghost invariant = { λ c. (c.unread.capacity ≡ 64) × (length c.unread.items ≤ 64) };
}

// Whether a sensitivity lets an edge through: bit 0 rising ones, bit 1 falling ones.
fn sees(sensitivity: u32, rising: bool) -> bool
    ensures { result ≡ sees sensitivity rising }
{
    if rising {
        sensitivity % 2 == 1
    } else {
        sensitivity / 2 % 2 == 1
    }
}

// Whether what the counter reads has come to a moment (mu).
fn has_reached(counter: u64, moment: i64) -> bool
    ensures { result ≡ int_le moment (pos (reading counter)) }
{
    counter_reaching(moment) <= counter
}

/// The reply to a request for an edge below `up_to` where nothing is unread.
pub fn reply_to_none(counter: u64, up_to: i64) -> Option<Reply>
    ensures { result ≡ edge_reply nothing_unread counter up_to }
{
    if has_reached(counter, up_to) {
        Some(Reply::NoEdge)
    } else {
        None
    }
}

impl Channel {
    /// An input that sees nothing, with room for its unread edges.
    pub fn closed(alloc: Global) -> Result<Channel, AllocError>
        ensures { IfOk result (λ channel. channel ≡ closed_channel) }
    {
        Ok(Channel {
            unread: HeapCircularBuffer::with_capacity(alloc, UNREAD_MOST)?,
            overflow: false,
            sensitivity: 0,
        })
    }

    // The sensitivity at an edge, in a cycle with these events.
    fn sensitivity_at(&self, edge: &Edge, kept: &[Event]) -> u32
        ensures { result ≡ sensitivity_among self.now.sensitivity kept.now edge.now }
    {
        let mut sensitivity = self.sensitivity;
        for event in kept {
            if event.channel == edge.channel && event.stamp <= edge.stamp {
                sensitivity = event.value;
            }
        }
        sensitivity
    }

    // Keeps the stamp of a seen edge while there is room, and else sets the mark.
    #[tactic(auto, using(crate::proofs::Rings::pushed))]
    fn keep(&mut self, stamp: i64)
        ensures { self.new ≡ record self.old { unread = after_edge self.old.unread stamp } }
    {
        if self.unread.len() < UNREAD_MOST {
            self.unread.push_back(stamp);
        } else {
            self.overflow = true;
        }
    }

    /// Takes an edge of the input, in a cycle with these events.
    pub fn take_edge(&mut self, edge: &Edge, kept: &[Event])
        ensures { self.new ≡ record self.old { unread = after_own_edge self.old.sensitivity kept.now self.old.unread edge.now } }
    {
        if sees(self.sensitivity_at(edge, kept), edge.rising) {
            self.keep(edge.stamp);
        }
    }

    /// Sets the sensitivity for the edges to come.
    pub fn set_sensitivity(&mut self, value: u32)
        ensures { self.new ≡ record self.old { sensitivity = value } }
    {
        self.sensitivity = value;
    }

    /// The reply to a request for an edge below `up_to`, None where it isn't decided yet. It reads the edge, or clears
    /// the mark.
    pub fn answer(&mut self, counter: u64, up_to: i64) -> Option<Reply>
        ensures reply { result ≡ edge_reply self.old.unread counter up_to }
        ensures after { self.new ≡ record self.old { unread = after_reply self.old.unread result } }
    {
        if self.overflow {
            self.overflow = false;
            return Some(Reply::Overflow);
        }
        match self.unread.front().copied() {
            Some(stamp) if stamp < up_to => {
                self.unread.pop_front();
                Some(Reply::Stamp(stamp))
            }
            Some(_) => Some(Reply::NoEdge),
            None if has_reached(counter, up_to) => Some(Reply::NoEdge),
            None => None,
        }
    }

    /// Whether a request for an edge below `up_to` gets a reply.
    pub fn is_decided(&self, counter: u64, up_to: i64) -> bool
        ensures { result ≡ is_some (edge_reply self.now.unread counter up_to) }
    {
        self.overflow || !self.unread.is_empty() || has_reached(counter, up_to)
    }

    /// Forgets the unread edges, the mark and the sensitivity.
    pub fn close(&mut self)
        ensures { self.new ≡ closed_channel }
    {
        self.unread.clear();
        self.overflow = false;
        self.sensitivity = 0;
    }
}
