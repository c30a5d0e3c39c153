// The inputs of the board, channels 24 to 31, in order.

ghost use Rattle.std.specs.Prelude.{◌≡◌, [], ◌∷◌, IfOk, IsTrue, length};
ghost use Rattle.rtio_types.specs.Board.{is_input};
ghost use Rattle.rtio_input.specs.Script.{are_of_inputs};
ghost use Rattle.rtio_input.specs.Calls.{after_edges, after_events, channel_after_cycle, closed_channels, each_channel};

use crate::channel::Channel;
use limits::{CHANNELS, FIRST_INPUT};
use rtio_types::{Edge, Event, is_input};
use std::alloc::{AllocError, Global};

const COUNT: usize = CHANNELS - FIRST_INPUT as usize;

/// The channel of the first input.
pub const FIRST: u8 = FIRST_INPUT as u8;

/// Inputs that see nothing.
pub fn closed_channels(alloc: Global) -> Result<Vec<Channel>, AllocError>
    ensures { IfOk result (λ channels. channels.items ≡ closed_channels) }
{
    let mut channels = Vec::with_capacity(alloc, COUNT)?;
    for _channel in 0..COUNT {
        channels.push_reserved(Channel::closed(alloc)?);
    }
    Ok(channels)
}

/// Forgets what each has unread, its mark and its sensitivity.
pub fn close_all(channels: &mut [Channel])
    requires { length channels.old ≡ 8 }
    ensures { channels.new ≡ closed_channels }
{
    for channel in channels.iter_mut() {
        channel.close();
    }
}

/// Takes the edges of a cycle, and then the events that were put out in it.
pub fn pass_cycle(channels: &mut [Channel], edges: &[Edge], kept: &[Event])
    requires eight { length channels.old ≡ 8 }
    requires own { IsTrue (are_of_inputs edges.now) }
    ensures { channels.new ≡ each_channel (channel_after_cycle kept.now edges.now) channels.old }
{
    pass_edges(channels, edges, kept);
    pass_events(channels, kept);
}

fn pass_edges(channels: &mut [Channel], edges: &[Edge], kept: &[Event])
    requires eight { length channels.old ≡ 8 }
    requires own { IsTrue (are_of_inputs edges.now) }
    ensures { channels.new ≡ each_channel (after_edges kept.now edges.now) channels.old }
{
    for edge in edges {
        pass_edge(channels, edge, kept);
    }
}

fn pass_events(channels: &mut [Channel], kept: &[Event])
    requires { length channels.old ≡ 8 }
    ensures { channels.new ≡ each_channel (after_events kept.now) channels.old }
{
    for event in kept {
        pass_event(channels, event);
    }
}

// Gives an edge to its input, in a cycle with these events.
fn pass_edge(channels: &mut [Channel], edge: &Edge, kept: &[Event])
    requires eight { length channels.old ≡ 8 }
    requires own { IsTrue (is_input edge.now.channel) }
    ensures { channels.new ≡ each_channel (after_edges kept.now (edge.now ∷ [])) channels.old }
{
    channels[(edge.channel - FIRST) as usize].take_edge(edge, kept);
}

// Lets an event set the sensitivity of its input, if its channel is one.
fn pass_event(channels: &mut [Channel], event: &Event)
    requires { length channels.old ≡ 8 }
    ensures { channels.new ≡ each_channel (after_events (event.now ∷ [])) channels.old }
{
    if is_input(event.channel) {
        channels[(event.channel - FIRST) as usize].set_sensitivity(event.value);
    }
}
