// Copies of plain data.

use crate::settings::config_of;
use crate::telling::push_events;
use crate::texts::numbers_of;
use rtio_core::{Config, Named, StartOf};
use rtio_types::IntList;
use std::alloc::{AllocError, Global};

/// Tells a copy of the settings of a row that has said these lines; the words are `LANES DEPTH COST HORIZON`.
pub fn tell_config(
    alloc: Global,
    told: &mut String,
    said: &str,
    words: &str,
) -> Result<(), AllocError> {
    let config = config_of(alloc, said, words)?;
    let same = config.copy(alloc)?;
    push_config(told, &same)
}

fn push_config(text: &mut String, config: &Config) -> Result<(), AllocError> {
    let (lanes, depth) = (config.lanes, config.depth);
    write!(text, "{lanes} {depth} {} {}", config.cost, config.horizon)?;
    for edge in config.edges.items() {
        write!(text, ", {edge:?}")?;
    }
    push_holds(text, config.holds.as_slice())?;
    for named in config.kept.items() {
        push_named(text, named)?;
    }
    Ok(())
}

fn push_holds(text: &mut String, holds: &[u32]) -> Result<(), AllocError> {
    let mut channel = 0u8;
    for cycles in holds {
        if *cycles != 0 {
            write!(text, ", hold {channel} {cycles}")?;
        }
        channel = channel.wrapping_add(1);
    }
    Ok(())
}

fn push_named(text: &mut String, named: &Named) -> Result<(), AllocError> {
    text.push_str(", kept ")?;
    text.push_str(str::from_utf8(named.name.bytes()).unwrap_or("?"))?;
    write!(text, " {}", named.recording.length)?;
    push_events(text, &named.recording.events)
}

/// Tells a copy of what a session is started with; the words are `RID NUMBER..`.
pub fn tell_start(alloc: Global, told: &mut String, words: &str) -> Result<(), AllocError> {
    let (rid, words) = words.split_once(' ').unwrap_or((words, ""));
    let of = StartOf {
        source: 0,
        function: 0,
        args: IntList::of(numbers_of(alloc, words)?),
        rid: rid.parse().unwrap_or(0),
        pos: 0,
    };
    let same = of.copy(alloc)?;
    write!(told, "run {}, arguments {:?}", same.rid, same.args.items())
}
