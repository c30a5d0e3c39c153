// A link to a satellite, and a log with room for its lines.

use crate::telling::{tell_events, tell_log};
use crate::texts::event_of;
use rtio_log::{Log, LogKind, LogLine};
use sat_link::{Link, LinkStep};
use std::alloc::{AllocError, Global};

/// A link of so many lanes of this depth, written `LANES DEPTH`; None where it can't have these. Fails only for want of memory.
pub fn link_of(alloc: Global, words: &str) -> Result<Option<Link>, AllocError> {
    let (lanes, depth) = words.split_once(' ').unwrap_or((words, ""));
    let (lanes, depth) = (lanes.parse().unwrap_or(0), depth.parse().unwrap_or(0));
    if lanes < 1 || lanes > 32 || depth < 1 || depth > 1024 {
        return Ok(None);
    }
    Ok(Some(Link::new(alloc, lanes, depth)?))
}

/// Tells the answer to a call of a link. Fails only for want of memory.
pub fn tell_link(told: &mut String, link: &mut Link, call: &str) -> Result<(), AllocError> {
    let (verb, rest) = call.split_once(' ').unwrap_or((call, ""));
    let step = match verb {
        "send" => match event_of(rest) {
            Some(event) => LinkStep::Send(event),
            None => return told.push_str("no event"),
        },
        "absorb" => LinkStep::Absorb,
        "grant" => LinkStep::Grant,
        "sent" => return tell_events(told, link.sent()),
        _ => {
            let (credits, on_wire, held) = (link.credits(), link.on_wire(), link.held());
            return write!(
                told,
                "credits {credits}, on the wire {on_wire}, held {held}"
            );
        }
    };
    match link.step(step) {
        Ok(answer) => write!(told, "{answer:?}"),
        Err(_) => Err(AllocError),
    }
}

/// Tells the answer to a call of a log. Fails only for want of memory.
pub fn tell_lines(told: &mut String, log: &mut Log, call: &str) -> Result<(), AllocError> {
    let (verb, rest) = call.split_once(' ').unwrap_or((call, ""));
    match verb {
        "reserve" => {
            log.reserve(rest.parse().unwrap_or(0))?;
            write!(told, "room {}", log.room())
        }
        "room" => write!(told, "room {}", log.room()),
        "told" => tell_log(told, log.lines()),
        _ => match line_of(call) {
            Some(line) if log.room() > 0 => {
                log.add(line);
                write!(told, "room {}", log.room())
            }
            _ => told.push_str("not added"),
        },
    }
}

// A line that is written `KIND NUMBER EVENT`.
fn line_of(words: &str) -> Option<LogLine> {
    let (kind, rest) = words.split_once(' ')?;
    let (number, event) = rest.split_once(' ')?;
    Some(LogLine {
        kind: match kind {
            "Sequence" => LogKind::Sequence,
            "Cleared" => LogKind::Cleared,
            _ => return None,
        },
        number: number.parse().ok()?,
        event: event_of(event)?,
    })
}
