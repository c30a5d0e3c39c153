// The waveform of a dump's events, as text.

ghost use Rattle.std.specs.Prelude.{◌≡◌, ◌<◌, ◌++◌, [], ◌∷◌, ℕ, codes, map, pos, nat_lt, IsTrue, IfOk, OnOk, string_bytes};
ghost use Rattle.std.specs.Fmt.{decimal};
ghost use Rattle.std.specs.List.{AllByRecursion, list_all};
ghost use Rattle.recording_bytes.specs.Spelling.{FitsFields};
ghost use Rattle.rtio_types.specs.Board.{name_of_channel};
ghost use Rattle.core_analyzer.specs.Waveform.{channels, data_line, first_lines, identifier, moment_line, text_of_lines, variable_line, waveform_text};
ghost use Rattle.core_analyzer.specs.Running.{lines_behind, moment_behind};
ghost use Rattle.core_analyzer.specs.Level.{last_data, level};
ghost use Rattle.core_analyzer.specs.Rising.{are_rising};

use crate::dump::Dump;
use rtio_types::Event;
use std::alloc::{AllocError, Global};

// How many channels the board has.
const CHANNELS: u8 = 32;

// How many bytes the lines before those of the events have.
const FIRST_LINES: usize = 1041;

// How many bytes the lines of an event have at most: 21 of a stamp with 19 digits, and 36 of data with 32.
const EVENT_LINES: usize = 57;

/// The waveform of a dump, as a text that GTKWave and other viewers of VCD (Value Change Dump) open. The text is in this
/// project's profile of VCD: a scale of 1 ns, which is 1 mu; a variable of 32 bits for each channel of the board, under the
/// channel's name; 0 on each channel at 0 mu; and then, at each stamp of an event (mu), the data that the events of that stamp
/// put out, by channel. The only error is want of memory.
pub fn vcd(alloc: Global, dump: &Dump) -> Result<Vec<u8>, AllocError>
    requires { IsTrue (are_rising dump.now.events) }
    ensures text { IfOk result (λ bytes. bytes.items ≡ waveform_text dump.now.events) }
    // What the text alone tells of a channel at a time is what the channel's last event put out.
    ensures level { IfOk result (λ bytes. (channel time : ℕ) →
        level bytes.items channel time ≡ last_data dump.now.events channel time) }
{
    let room = FIRST_LINES.saturating_add(dump.events.len().saturating_mul(EVENT_LINES));
    let mut text = String::with_capacity(alloc, room)?;
    write_first(&mut text)?;
    write_events(&mut text, &dump.events)?;
    Ok(text.into_bytes())
}

// Appends the lines before those of the events.
fn write_first(text: &mut String) -> Result<(), AllocError>
    ensures { OnOk result (string_bytes text.new ≡ string_bytes text.old ++ text_of_lines first_lines) }
{
    text.push_str("$timescale 1ns $end\n$scope module artiq $end\n")?;
    write_variables(text)?;
    text.push_str("$upscope $end\n$enddefinitions $end\n#0\n")?;
    write_zeros(text)
}

// Appends the lines that name the channels.
fn write_variables(text: &mut String) -> Result<(), AllocError>
    ensures { OnOk result (string_bytes text.new ≡ string_bytes text.old ++ text_of_lines (map variable_line channels)) }
{
    for channel in 0..CHANNELS {
        write_variable(text, channel)?;
    }
    Ok(())
}

// Appends the line that names a channel of the board.
fn write_variable(text: &mut String, channel: u8) -> Result<(), AllocError>
    requires { channel < 32 }
    ensures { OnOk result (string_bytes text.new ≡ string_bytes text.old ++ (variable_line channel ++ codes "\n")) }
{
    let identifier = identifier(channel);
    let (word, number) = name_of(channel);
    writeln!(text, "$var wire 32 {identifier} {word}{number} $end")
}

// The name of a channel of the board: a word, and a number behind it.
fn name_of(channel: u8) -> (&'static str, u8)
    requires { channel < 32 }
    ensures { result.0.now ++ decimal result.1 ≡ name_of_channel channel }
{
    match channel {
        0..16 => ("ttl", channel),
        16..24 => ("raw", channel - 16),
        _ => ("in", channel - 24),
    }
}

// Appends a line for each channel that it has 0.
fn write_zeros(text: &mut String) -> Result<(), AllocError>
    ensures { OnOk result (string_bytes text.new ≡ string_bytes text.old ++ text_of_lines (map (λ channel. data_line channel 0) channels)) }
{
    for channel in 0..CHANNELS {
        write_data(text, channel, 0)?;
    }
    Ok(())
}

// Appends the lines of events, one after another.
fn write_events(text: &mut String, events: &[Event]) -> Result<(), AllocError>
    requires { IsTrue (list_all (λ event. nat_lt event.channel 32) events.now) }
    ensures written { OnOk result (string_bytes text.new ≡ string_bytes text.old ++ text_of_lines (lines_behind (pos 0) events.now)) }
    ensures fits { OnOk result (AllByRecursion FitsFields events.now) }
{
    let mut before = 0;
    for event in events {
        write_event(text, before, *event)?;
        before = event.stamp;
    }
    Ok(())
}

// Appends the lines of an event behind one with the stamp `before`.
fn write_event(text: &mut String, before: i64, event: Event) -> Result<(), AllocError>
    requires { event.channel < 32 }
    ensures written { OnOk result (string_bytes text.new ≡ string_bytes text.old
        ++ text_of_lines (moment_behind before event.stamp ++ (data_line event.channel event.value ∷ []))) }
    ensures fits { FitsFields event }
{
    if event.stamp != before {
        write_moment(text, event.stamp)?;
    }
    write_data(text, event.channel, event.value)
}

// Appends the line of a moment (mu).
fn write_moment(text: &mut String, stamp: i64) -> Result<(), AllocError>
    ensures { OnOk result (string_bytes text.new ≡ string_bytes text.old ++ (moment_line stamp ++ codes "\n")) }
{
    writeln!(text, "#{stamp}")
}

// Appends the line of the data of a channel of the board.
fn write_data(text: &mut String, channel: u8, value: u32) -> Result<(), AllocError>
    requires { channel < 32 }
    ensures { OnOk result (string_bytes text.new ≡ string_bytes text.old ++ (data_line channel value ++ codes "\n")) }
{
    let identifier = identifier(channel);
    writeln!(text, "b{value:b} {identifier}")
}

// The character that stands for a channel in the text: `!` for channel 0, and so on in the order of ASCII.
fn identifier(channel: u8) -> char
    requires { channel < 32 }
    ensures { result ≡ identifier channel }
{
    (b'!' + channel) as char
}
