// The two formats, and how many bytes their parts have.

ghost use Rattle.std.specs.Prelude.{◌≡◌, ◌≤◌, length};
ghost use Rattle.recording_bytes.specs.Reading.{data_width, event_size, step_width};

/// A format of recording bytes.
#[derive(Clone, Copy, Debug, PartialEq, Eq)]
pub enum Format {
    /// Format 1: 14 bytes for each event.
    Fixed,
    /// Format 2: as few bytes for data and steps as they need.
    Short,
}

/// The first byte of format 1.
pub const FIXED: u8 = 1;

/// The first byte of format 2.
pub const SHORT: u8 = 2;

/// How many bytes stand before the events.
pub const HEADER: usize = 13;

/// How many bytes an event has in format 1.
pub const EVENT: usize = 14;

/// How many bytes of an event in format 2 stand before its data: channel, address and widths.
pub const FRONT: usize = 3;

/// How many bytes of data an event in format 2 has.
pub fn data_width(bytes: &[u8]) -> usize
    requires { 3 ≤ length bytes.now }
    ensures { result ≡ data_width bytes.now }
{
    (bytes[2] % 16) as usize
}

/// How many bytes of the step an event in format 2 has.
pub fn step_width(bytes: &[u8]) -> usize
    requires { 3 ≤ length bytes.now }
    ensures { result ≡ step_width bytes.now }
{
    (bytes[2] / 16) as usize
}

/// How many bytes the event at the front has.
pub fn event_size(format: Format, bytes: &[u8]) -> usize
    requires { 3 ≤ length bytes.now }
    ensures { result ≡ event_size format bytes.now }
{
    match format {
        Format::Fixed => EVENT,
        Format::Short => FRONT + data_width(bytes) + step_width(bytes),
    }
}
