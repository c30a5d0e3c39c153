// The options of a run, from their texts.

ghost use Rattle.std.specs.Prelude.{◌≡◌, ◌≤◌, IfSome, option_map};
ghost use Rattle.option_values.specs.Readings.{Reads};
ghost use Rattle.option_values.specs.Numbers.{number_in};
ghost use Rattle.limits.specs.Limits.{default_horizon};
ghost use Rattle.sim_words.specs.Given.{value_of};
ghost use Rattle.sim_words.specs.Matches.{HasOptions, given_in};
ghost use Rattle.sim_words.specs.Asked.{budget_of, config_of, cost_of, depth_of, dma_of, edges_given, holds_given, horizon_of, link_given, most_horizon, options_of, read_or, recordings_given, schedule_given};

use crate::asked::Options;
use crate::given::value_of;
use clap::ArgMatches;
use limits::{
    CHANNELS, DEFAULT_DEPTH, DEFAULT_HORIZON, DEFAULT_LANES, LOCKSTEP_HORIZON, MOST_BUDGET,
    MOST_COST, MOST_DEPTH, MOST_LANES,
};
use option_values::{
    ValueEnd, read_edges, read_holds, read_number, read_recordings, read_schedule,
};
use rtio_core::{Config, NamedList, config_ok};
use rtio_types::EdgeList;
use run_schedule::Schedule;
use sat_rounds::LinkWord;
use std::alloc::Global;

/// All options of a run.
pub fn read_options(alloc: Global, given: &ArgMatches<'_>) -> Result<Options, ValueEnd>
    requires { HasOptions given.now }
    ensures { Reads (options_of (given_in given.now)) result }
{
    let schedule = read_schedule_given(given).ok_or(ValueEnd::Refused)?;
    let budget = read_or(value_of(given, "budget"), MOST_BUDGET, 1, MOST_BUDGET).ok_or(
        ValueEnd::Refused,
    )?;
    let config = read_config(alloc, given)?;
    Ok(Options {
        config,
        budget: budget as u32,
        schedule,
    })
}

/// The limit that each request raises (mu): 0 where none is given, 1,000,000 at most.
pub fn read_cost(given: &ArgMatches<'_>) -> Option<u64>
    requires { HasOptions given.now }
    ensures { result ≡ cost_of (given_in given.now) }
{
    read_or(value_of(given, "cost"), 0, 0, MOST_COST)
}

/// How many events a lane takes: 128 where nothing is given, 1 to 1,024.
pub fn read_depth(given: &ArgMatches<'_>) -> Option<u32>
    requires { HasOptions given.now }
    ensures { result ≡ depth_of (given_in given.now) }
{
    let depth = read_or(value_of(given, "depth"), DEFAULT_DEPTH, 1, MOST_DEPTH)?;
    Some(depth as u32)
}

/// Whether the recordings that are kept are asked for.
pub fn read_dma(given: &ArgMatches<'_>) -> Option<bool>
    requires { HasOptions given.now }
    ensures { result ≡ dma_of (given_in given.now) }
{
    match value_of(given, "dma") {
        None => Some(false),
        Some(text) => (text == "lines").then_some(true),
    }
}

/// The word of a link's rounds.
pub fn read_link(given: &ArgMatches<'_>) -> Option<LinkWord>
    requires { HasOptions given.now }
    ensures { result ≡ link_given (given_in given.now) }
{
    match value_of(given, "link") {
        None => LinkWord::read(b"sdtga"),
        Some(text) => LinkWord::read(text.as_bytes()),
    }
}

fn read_schedule_given(given: &ArgMatches<'_>) -> Option<Schedule>
    requires { HasOptions given.now }
    ensures { result ≡ schedule_given (given_in given.now) }
{
    match value_of(given, "schedule") {
        None => Some(Schedule::lockstep()),
        Some(text) => read_schedule(text),
    }
}

// The settings of the core, of which one can be made.
fn read_config(alloc: Global, given: &ArgMatches<'_>) -> Result<Config, ValueEnd>
    requires { HasOptions given.now }
    ensures { Reads (config_of (given_in given.now)) result }
{
    let lanes = read_or(value_of(given, "lanes"), DEFAULT_LANES, 1, MOST_LANES).ok_or(
        ValueEnd::Refused,
    )?;
    let depth = read_depth(given).ok_or(ValueEnd::Refused)?;
    let cost = read_cost(given).ok_or(ValueEnd::Refused)?;
    let horizon = read_horizon(given).ok_or(ValueEnd::Refused)?;
    let edges = read_edges_given(alloc, given)?;
    let holds = read_holds_given(given).ok_or(ValueEnd::Refused)?;
    let kept = read_recordings_given(alloc, given)?;
    let config = Config {
        lanes: lanes as u32,
        depth,
        cost,
        horizon,
        edges,
        holds,
        kept,
    };
    if config_ok(&config) {
        Ok(config)
    } else {
        Err(ValueEnd::Refused)
    }
}

// The number of an option, or the one that stands for it.
fn read_or(text: Option<&str>, default: u64, least: u64, most: u64) -> Option<u64>
    requires { default ≤ most }
    ensures value { result ≡ read_or default (number_in least most) (option_map (λ text. text.now) text.entry) }
    ensures bound { IfSome result (λ number. number ≤ most) }
{
    match text {
        None => Some(default),
        Some(text) => read_number(text, least, most),
    }
}

// In cycles; the farther horizon is for lockstep alone.
fn read_horizon(given: &ArgMatches<'_>) -> Option<u64>
    requires { HasOptions given.now }
    ensures { result ≡ horizon_of (given_in given.now) }
{
    let most = most_horizon(value_of(given, "schedule"));
    read_or(value_of(given, "horizon"), DEFAULT_HORIZON, 1, most)
}

fn most_horizon(schedule: Option<&str>) -> u64
    ensures value { result ≡ most_horizon (option_map (λ text. text.now) schedule.entry) }
    ensures bound { default_horizon ≤ result }
{
    match schedule {
        None | Some("lockstep") => LOCKSTEP_HORIZON,
        Some(_) => DEFAULT_HORIZON,
    }
}

fn read_edges_given(alloc: Global, given: &ArgMatches<'_>) -> Result<EdgeList, ValueEnd>
    requires { HasOptions given.now }
    ensures { Reads (edges_given (given_in given.now)) result }
{
    match value_of(given, "edges") {
        None => Ok(EdgeList::of(Vec::new(alloc))),
        Some(text) => read_edges(alloc, text),
    }
}

fn read_holds_given(given: &ArgMatches<'_>) -> Option<[u32; CHANNELS]>
    requires { HasOptions given.now }
    ensures { result ≡ holds_given (given_in given.now) }
{
    match value_of(given, "hold") {
        None => Some([0; CHANNELS]),
        Some(text) => read_holds(text),
    }
}

fn read_recordings_given(alloc: Global, given: &ArgMatches<'_>) -> Result<NamedList, ValueEnd>
    requires { HasOptions given.now }
    ensures { Reads (recordings_given (given_in given.now)) result }
{
    match value_of(given, "recordings") {
        None => Ok(NamedList::of(Vec::new(alloc))),
        Some(text) => read_recordings(alloc, text),
    }
}
