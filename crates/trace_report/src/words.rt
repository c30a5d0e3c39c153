// What the line of an answered request says of it.

ghost use Rattle.std.specs.Prelude.{◌≡◌, ◌++◌, codes, OnOk, string_bytes};
ghost use Rattle.std.specs.Fmt.{signed_decimal};
ghost use Rattle.trace_report.specs.Requests.{event_text, how_text, output_text, recording_text, reply_text, request_text, slack_text};

use rtio_types::{Event, Name, Recording, Reply, Request};
use sim_report::{text_of, write_value};
use std::alloc::AllocError;
use trace_fates::{Fate, TracedOutput, slack_of};

/// Appends a request that is no output, and its reply.
pub fn write_request(text: &mut String, request: &Request, reply: &Reply) -> Result<(), AllocError>
    ensures { OnOk result (string_bytes text.new ≡ string_bytes text.old ++ request_text request.now reply.now) }
{
    match request {
        Request::Out(_) => Ok(()),
        Request::Counter => text.push_str(" counter"),
        Request::Reset => text.push_str(" reset"),
        Request::Wait { until } => write!(text, " wait {until}"),
        Request::Edge { channel, up_to } => {
            write!(text, " edge {channel} {up_to}")?;
            write_reply(text, reply)
        }
        Request::Save { name, recording } => {
            write_name(text, "save", name)?;
            write_recording(text, recording)?;
            write_reply(text, reply)
        }
        Request::Fetch { name } => write_named(text, "fetch", name, reply),
        Request::FetchHandle { handle } => write_numbered(text, "fetch_handle", handle, reply),
        Request::Handle { name } => write_named(text, "handle", name, reply),
        Request::Erase { name } => write_named(text, "erase", name, reply),
        Request::Data { name, value } => {
            write_name(text, "data", name)?;
            text.push_str(" ")?;
            write_value(text, value)
        }
    }
}

// Appends a word, a number, and a reply.
fn write_numbered(
    text: &mut String,
    word: &str,
    number: &i64,
    reply: &Reply,
) -> Result<(), AllocError>
    ensures { OnOk result (string_bytes text.new ≡ string_bytes text.old ++ codes " " ++ word.now ++ codes " " ++ signed_decimal number.now ++ reply_text reply.now) }
{
    write!(text, " {word} {number}")?;
    write_reply(text, reply)
}

// Appends a word, a name, and a reply.
fn write_named(text: &mut String, word: &str, name: &Name, reply: &Reply) -> Result<(), AllocError>
    ensures { OnOk result (string_bytes text.new ≡ string_bytes text.old ++ codes " " ++ word.now ++ codes " " ++ name.now ++ reply_text reply.now) }
{
    write_name(text, word, name)?;
    write_reply(text, reply)
}

// Appends a word and a name.
fn write_name(text: &mut String, word: &str, name: &Name) -> Result<(), AllocError>
    ensures { OnOk result (string_bytes text.new ≡ string_bytes text.old ++ codes " " ++ word.now ++ codes " " ++ name.now) }
{
    let name = text_of(name);
    write!(text, " {word} {name}")
}

// Appends the word for a reply.
fn write_reply(text: &mut String, reply: &Reply) -> Result<(), AllocError>
    ensures { OnOk result (string_bytes text.new ≡ string_bytes text.old ++ reply_text reply.now) }
{
    match reply {
        Reply::Done => text.push_str(" ok"),
        Reply::Underflow => text.push_str(" late"),
        Reply::Time(moment) => write!(text, " {moment}"),
        Reply::Stamp(stamp) => write!(text, " {stamp}"),
        Reply::NoEdge | Reply::NoTrace => text.push_str(" none"),
        Reply::Overflow => text.push_str(" lost"),
        Reply::Trace(recording) => write_recording(text, recording),
        Reply::Handle(handle) => write!(text, " {handle}"),
        Reply::OldHandle => text.push_str(" old"),
        Reply::Full => text.push_str(" full"),
    }
}

// Appends how many events a recording has, and its length (mu).
fn write_recording(text: &mut String, recording: &Recording) -> Result<(), AllocError>
    ensures { OnOk result (string_bytes text.new ≡ string_bytes text.old ++ recording_text recording.now) }
{
    let events = recording.events.len();
    let length = recording.length;
    write!(text, " {events} {length}")
}

/// Appends an output.
pub fn write_output(text: &mut String, output: &TracedOutput) -> Result<(), AllocError>
    ensures { OnOk result (string_bytes text.new ≡ string_bytes text.old ++ output_text output.now) }
{
    write_event(text, output.number, output.event)?;
    write_slack(text, output)
}

// Appends an output with its number.
fn write_event(text: &mut String, number: u64, event: Event) -> Result<(), AllocError>
    ensures { OnOk result (string_bytes text.new ≡ string_bytes text.old ++ event_text number event) }
{
    let Event {
        channel,
        address,
        value,
        stamp,
    } = event;
    write!(text, " out {number} {stamp} {channel} {address} {value}")
}

// Appends the slack of an output, and how it was answered.
fn write_slack(text: &mut String, output: &TracedOutput) -> Result<(), AllocError>
    ensures { OnOk result (string_bytes text.new ≡ string_bytes text.old ++ slack_text output.now) }
{
    let slack = slack_of(output);
    let how = how_word(output.fate);
    write!(text, " {slack} {how}")
}

// How an output was answered.
fn how_word(fate: Fate) -> &'static str
    ensures { result.now ≡ how_text fate }
{
    match fate {
        Fate::Late => "late",
        Fate::Sequence => "seq",
        _ => "ok",
    }
}
