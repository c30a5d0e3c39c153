// Stamps, channels, names, requests and replies: plain functions of them.

use crate::replies::reply_of;
use crate::requests::request_of;
use rtio_types::{
    Event, Name, Request, channel_named, coarse, counter_reaching, cycle_of, fits, has_address,
    is_input, is_output, kind_of, reading, well_formed,
};
use std::alloc::{AllocError, Global};

/// Tells the answer to a call. Fails only for want of memory.
pub fn tell_board(alloc: Global, told: &mut String, call: &str) -> Result<(), AllocError> {
    let (verb, rest) = call.split_once(' ').unwrap_or((call, ""));
    match verb {
        "cycle" => tell_cycle(told, rest.parse().unwrap_or(0)),
        "reading" => tell_reading(told, rest.parse().unwrap_or(u64::MAX)),
        "reaching" => {
            let counter = counter_reaching(rest.parse().unwrap_or(0));
            write!(told, "{counter}")
        }
        "channel" => write!(told, "{:?}", channel_named(quoted(rest).as_bytes())),
        "kind" => tell_kind(told, rest.parse().unwrap_or(255)),
        "address" => tell_address(told, rest),
        "name" => tell_name(told, quoted(rest)),
        _ => tell_of_request(alloc, told, verb, rest),
    }
}

fn tell_address(told: &mut String, words: &str) -> Result<(), AllocError> {
    let (channel, address) = words.split_once(' ').unwrap_or((words, ""));
    let has = has_address(
        channel.parse().unwrap_or(255),
        address.parse().unwrap_or(255),
    );
    write!(told, "{has}")
}

// What is between quotation marks.
fn quoted(text: &str) -> &str {
    text.strip_prefix("\"")
        .and_then(|text| text.strip_suffix("\""))
        .unwrap_or(text)
}

// The cycle of a moment, and that of an event at it.
fn tell_cycle(told: &mut String, stamp: i64) -> Result<(), AllocError> {
    let event = Event {
        channel: 0,
        address: 0,
        value: 1,
        stamp,
    };
    write!(told, "{}, of an event {}", coarse(stamp), cycle_of(&event))
}

fn tell_reading(told: &mut String, counter: u64) -> Result<(), AllocError> {
    if counter >= 1_000_000_000 {
        return told.push_str("too great");
    }
    write!(told, "{}", reading(counter))
}

fn tell_kind(told: &mut String, channel: u8) -> Result<(), AllocError> {
    let (gives, takes) = (is_output(channel), is_input(channel));
    write!(
        told,
        "{:?}, output {gives}, input {takes}",
        kind_of(channel)
    )
}

fn tell_name(told: &mut String, text: &str) -> Result<(), AllocError> {
    match Name::read(text.as_bytes()) {
        Some(name) => told.push_str(str::from_utf8(name.bytes()).unwrap_or("?")),
        None => told.push_str("none"),
    }
}

// Calls of requests and replies.
fn tell_of_request(
    alloc: Global,
    told: &mut String,
    verb: &str,
    words: &str,
) -> Result<(), AllocError> {
    if verb == "copy_reply" {
        return tell_reply_copied(alloc, told, words);
    }
    let (asked, answer) = words.split_once(" : ").unwrap_or((words, ""));
    let (word, rest) = asked.split_once(' ').unwrap_or((asked, ""));
    match request_of(alloc, word, rest) {
        Some(request) => tell_request(alloc, told, verb, &request, answer),
        None => told.push_str("no request"),
    }
}

fn tell_request(
    alloc: Global,
    told: &mut String,
    verb: &str,
    request: &Request,
    answer: &str,
) -> Result<(), AllocError> {
    match verb {
        "formed" => write!(told, "{}", well_formed(request)),
        "copy" => tell_request_copied(alloc, told, request),
        "fits" => match reply_of(alloc, answer) {
            Some(reply) => write!(told, "{}", fits(request, &reply)),
            None => told.push_str("no reply"),
        },
        _ => told.push_str("no call"),
    }
}

fn tell_request_copied(
    alloc: Global,
    told: &mut String,
    request: &Request,
) -> Result<(), AllocError> {
    let first = format!(in alloc; "{request:?}")?;
    let same = request.copy(alloc)?;
    let second = format!(in alloc; "{same:?}")?;
    tell_copied(told, first.as_str(), second.as_str())
}

fn tell_reply_copied(alloc: Global, told: &mut String, words: &str) -> Result<(), AllocError> {
    let Some(reply) = reply_of(alloc, words) else {
        return told.push_str("no reply");
    };
    let first = format!(in alloc; "{reply:?}")?;
    let same = reply.copy(alloc)?;
    let second = format!(in alloc; "{same:?}")?;
    tell_copied(told, first.as_str(), second.as_str())
}

// What a copy tells, where that isn't what it is a copy of.
fn tell_copied(told: &mut String, first: &str, second: &str) -> Result<(), AllocError> {
    told.push_str(if first == second { "the same" } else { second })
}
