// Holds in words.

ghost use Rattle.std.specs.Prelude.{◌≡◌, ◌<◌, IfSome};
ghost use Rattle.limits.specs.Limits.{channels};
ghost use Rattle.option_values.specs.Lists.{hold_by, hold_of, holds_of};

use crate::numbers::read_number;
use limits::{CHANNELS, LAST_CHANNEL, MOST_HOLD};

/// The holds of all channels, in cycles, by channel: those that `CHANNEL:CYCLES` say, one or more of rising channels, joined by
/// commas, and 0 for the others.
pub fn read_holds(text: &str) -> Option<[u32; CHANNELS]>
    ensures { result ≡ holds_of text.now }
{
    let mut holds = [0; CHANNELS];
    let mut next = 0;
    for part in text.split(',') {
        let (channel, cycles) = hold_of(part)?;
        if channel < next {
            return None;
        }
        holds[channel] = cycles;
        next = channel + 1;
    }
    Some(holds)
}

// The channel and its hold.
fn hold_of(text: &str) -> Option<(usize, u32)>
    ensures value { result ≡ hold_of text.now }
    ensures bound { IfSome result (λ hold. hold.0 < channels) }
{
    let (channel, cycles) = text.split_once(':')?;
    hold_by(channel, cycles)
}

fn hold_by(channel: &str, cycles: &str) -> Option<(usize, u32)>
    ensures value { result ≡ hold_by channel.now cycles.now }
    ensures bound { IfSome result (λ hold. hold.0 < channels) }
{
    let channel = read_number(channel, 0, LAST_CHANNEL)?;
    let cycles = read_number(cycles, 0, MOST_HOLD)?;
    Some((channel as usize, cycles as u32))
}
