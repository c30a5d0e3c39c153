// What a core answers and holds, told in words.

use dma_store::Store;
use rtio_core::{Act, Ask, Core, Entry};
use rtio_log::LogLine;
use rtio_types::{Event, Recording, Reply};
use std::alloc::{AllocError, Global};

/// Tells the answer, and for a reply at which counter it was entered in the history.
pub fn tell_answer(told: &mut String, core: &Core, answer: &Ask) -> Result<(), AllocError> {
    match answer {
        Ask::Reply(reply) => {
            tell_reply(told, reply)?;
            tell_counter(told, core.history())
        }
        Ask::NotYet { until, waiting } => {
            let kept = core.waiting() == Some(*waiting);
            write!(told, "not before {until}, kept: {kept}")
        }
        Ask::OtherPending { waiting, .. } => {
            let kept = core.waiting() == Some(*waiting);
            write!(told, "another waits, kept: {kept}")
        }
    }
}

fn tell_counter(told: &mut String, history: &[Entry]) -> Result<(), AllocError> {
    match history.last() {
        Some(
            Entry {
                act: Act::Asked { at, .. },
                ..
            },
        ) => write!(told, " at {at}"),
        _ => Ok(()),
    }
}

fn tell_reply(told: &mut String, reply: &Reply) -> Result<(), AllocError> {
    match reply {
        Reply::Trace(recording) => tell_recording(told, recording),
        _ => write!(told, "{reply:?}"),
    }
}

/// Tells a recording: its length and its outputs. Fails only for want of memory.
pub fn tell_recording(told: &mut String, recording: &Recording) -> Result<(), AllocError> {
    write!(told, "length {},", recording.length)?;
    push_events(told, &recording.events)
}

/// Pushes events, each behind a blank. Fails only for want of memory.
pub fn push_events(told: &mut String, events: &[Event]) -> Result<(), AllocError> {
    for event in events {
        told.push(' ')?;
        push_event(told, event)?;
    }
    Ok(())
}

fn push_event(told: &mut String, event: &Event) -> Result<(), AllocError> {
    let Event {
        channel,
        address,
        value,
        stamp,
    } = event;
    write!(told, "{channel}.{address}={value}@{stamp}")
}

/// Tells events, or that there is nothing.
pub fn tell_events(told: &mut String, events: &[Event]) -> Result<(), AllocError> {
    match events.split_first() {
        Some((first, others)) => {
            push_event(told, first)?;
            push_events(told, others)
        }
        None => told.push_str("nothing"),
    }
}

/// Tells the names that are kept, each with its handle and the outputs of its recording.
pub fn tell_kept(alloc: Global, told: &mut String, store: &Store) -> Result<(), AllocError> {
    if store.len() == 0 {
        return told.push_str("nothing");
    }
    for position in 0..store.len() {
        push_kept(alloc, told, store, position)?;
    }
    Ok(())
}

fn push_kept(
    alloc: Global,
    told: &mut String,
    store: &Store,
    position: u64,
) -> Result<(), AllocError> {
    let Some(name) = store.name_at(position) else {
        return told.push_str(" no name");
    };
    told.push_str(if position == 0 { "" } else { " " })?;
    told.push_str(str::from_utf8(name.bytes()).unwrap_or("?"))?;
    match (store.handle(name), store.read(alloc, name)) {
        (Ok(handle), Ok(recording)) => {
            write!(told, " {handle}")?;
            push_events(told, &recording.events)
        }
        _ => told.push_str(" not kept"),
    }
}

/// Tells the lines of a log, or that there is nothing.
pub fn tell_log(told: &mut String, log: &[LogLine]) -> Result<(), AllocError> {
    match log.split_first() {
        Some((first, others)) => {
            push_logged(told, first)?;
            for line in others {
                told.push(' ')?;
                push_logged(told, line)?;
            }
            Ok(())
        }
        None => told.push_str("nothing"),
    }
}

fn push_logged(told: &mut String, line: &LogLine) -> Result<(), AllocError> {
    let kind = line.kind;
    let number = line.number;
    write!(told, "{kind:?} {number}: ")?;
    push_event(told, &line.event)
}
