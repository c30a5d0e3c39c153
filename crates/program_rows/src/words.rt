// What words ask of artiq_sim.

use crate::case::Case;
use crate::run::words_of;
use rtio_core::Named;
use rtio_types::Edge;
use run_schedule::{Schedule, Step};
use sim_words::{Asked, Options, WordsEnd, read_words};
use std::alloc::{AllocError, Global};

/// Pushes what the words of a line ask, or that they are refused. Fails only for want of memory.
pub fn push_what_words_ask(
    alloc: Global,
    case: &Case,
    line: &str,
    told: &mut String,
) -> Result<(), AllocError> {
    let words = words_of(alloc, line, case)?;
    told.push_str("\n= ")?;
    match read_words(alloc, &words) {
        Ok(mut asked) => push_command(told, &mut asked),
        Err(WordsEnd::Refused) => told.push_str("refused"),
        Err(WordsEnd::Memory) => Err(AllocError),
    }
}

fn push_command(told: &mut String, asked: &mut Asked) -> Result<(), AllocError> {
    match asked {
        Asked::Sim { options, dma } => push_run(told, "sim", *dma, options),
        Asked::Exec { options, dma } => push_run(told, "exec", *dma, options),
        Asked::Dump { options } => push_run(told, "dump", false, options),
        Asked::Sat { options, .. } => push_run(told, "sat", false, options),
        Asked::Generated { number, options } => {
            write!(told, "sim of {number}")?;
            push_run(told, "", false, options)
        }
        Asked::Gen { number } => write!(told, "gen of {number}"),
        Asked::Slack { cost, depth } => write!(told, "slack, cost {cost}, depth {depth}"),
        Asked::Check => told.push_str("check"),
        Asked::Compile => told.push_str("compile"),
        Asked::Vcd => told.push_str("vcd"),
    }
}

// A command that runs something, its options, and whether it asks for the lines of recordings.
fn push_run(
    told: &mut String,
    name: &str,
    dma: bool,
    options: &mut Options,
) -> Result<(), AllocError> {
    told.push_str(name)?;
    push_numbers(told, options)?;
    push_steps(told, &mut options.schedule)?;
    push_edges(told, options.config.edges.items())?;
    push_holds(told, options.config.holds.as_slice())?;
    push_kept(told, options.config.kept.items())?;
    told.push_str(if dma { ", lines" } else { "" })
}

fn push_numbers(told: &mut String, options: &Options) -> Result<(), AllocError> {
    let (lanes, depth) = (options.config.lanes, options.config.depth);
    let (cost, horizon) = (options.config.cost, options.config.horizon);
    let budget = options.budget;
    write!(
        told,
        ", {lanes} lanes of {depth}, cost {cost}, horizon {horizon}, budget {budget}"
    )
}

// The first four steps where the core is stopped: c is one of the processor, t is a tick.
fn push_steps(told: &mut String, schedule: &mut Schedule) -> Result<(), AllocError> {
    told.push_str(", steps ")?;
    for _step in 0..4u8 {
        told.push_str(match schedule.next(true) {
            Step::Cpu => "c",
            Step::Tick => "t",
        })?;
    }
    Ok(())
}

fn push_edges(told: &mut String, edges: &[Edge]) -> Result<(), AllocError> {
    if edges.len() > 8 {
        return write!(told, ", {} edges", edges.len());
    }
    for edge in edges {
        write!(told, ", {edge:?}")?;
    }
    Ok(())
}

fn push_holds(told: &mut String, holds: &[u32]) -> Result<(), AllocError> {
    let mut channel = 0u8;
    for cycles in holds {
        if *cycles != 0 {
            write!(told, ", hold {channel}:{cycles}")?;
        }
        channel = channel.wrapping_add(1);
    }
    Ok(())
}

fn push_kept(told: &mut String, kept: &[Named]) -> Result<(), AllocError> {
    if kept.len() > 8 {
        return write!(told, ", {} recordings", kept.len());
    }
    for named in kept {
        told.push_str(", ")?;
        told.push_str(str::from_utf8(named.name.bytes()).unwrap_or("?"))?;
        write!(told, " {:?}", named.recording)?;
    }
    Ok(())
}
