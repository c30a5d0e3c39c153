// The words of the program.

ghost use Rattle.std.specs.Prelude.{◌≡◌, ◌≤◌, IfOk, None, Some, List, [], map, string_bytes};
ghost use Rattle.option_values.specs.Readings.{Reads};
ghost use Rattle.sim_words.specs.Given.{given_of};
ghost use Rattle.sim_words.specs.Matches.{HasOptions, given_in};
ghost use Rattle.sim_words.specs.Asked.{IsAccepted, asked_of, dump_of, dump_names, exec_of, exec_names, gen_of, gen_names, if_read, sat_of, sat_names, sim_of, sim_names, slack_of, slack_names};

use crate::asked::Asked;
use crate::given::{read_given, value_of};
use crate::options::{read_cost, read_depth, read_dma, read_link, read_options};
use clap::ArgMatches;
use limits::MOST_NUMBER;
use option_values::{ValueEnd, read_number};
use std::alloc::Global;

const SIM_NAMES: [&str; 11] = [
    "gen",
    "cost",
    "lanes",
    "depth",
    "horizon",
    "budget",
    "schedule",
    "edges",
    "hold",
    "recordings",
    "dma",
];

const SAT_NAMES: [&str; 7] = [
    "cost", "lanes", "depth", "budget", "schedule", "edges", "link",
];

const SLACK_NAMES: [&str; 2] = ["cost", "depth"];

const GEN_NAMES: [&str; 1] = ["number"];

const NO_NAMES: [&str; 0] = [];

/// What the words ask, without the program's name before them. The first is the command; the others are its options, in any
/// order and each at most once, as `--name value` or `--name=value`. Words that aren't accepted are refused; the only other
/// error is want of memory.
pub fn read_words(alloc: Global, words: &[String]) -> Result<Asked, ValueEnd>
    ensures ok { IfOk result (λ asked. asked_of (map string_bytes words.now) ≡ Some asked) }
    ensures refused { result ≡ Err ValueEnd.Refused → asked_of (map string_bytes words.now) ≡ None }
    ensures accepted { IfOk result IsAccepted }
{
    let Some((command, words)) = words.split_first() else {
        return Err(ValueEnd::Refused);
    };
    match command.as_str() {
        "sim" => read_sim(alloc, words),
        "exec" => read_exec(alloc, words),
        "gen" => read_gen(alloc, words),
        "dump" => read_dump(alloc, words),
        "check" => read_bare(alloc, words, Asked::Check),
        "compile" => read_bare(alloc, words, Asked::Compile),
        "vcd" => read_bare(alloc, words, Asked::Vcd),
        "sat" => read_sat(alloc, words),
        "slack" => read_slack(alloc, words),
        _ => Err(ValueEnd::Refused),
    }
}

// The words behind `sim`.
fn read_sim(alloc: Global, words: &[String]) -> Result<Asked, ValueEnd>
    ensures { Reads (if_read (given_of sim_names (map string_bytes words.now)) sim_of) result }
{
    match read_given(alloc, &SIM_NAMES, words) {
        Ok(given) => ask_sim(alloc, &given),
        Err(end) => Err(end),
    }
}

// The words behind `exec`.
fn read_exec(alloc: Global, words: &[String]) -> Result<Asked, ValueEnd>
    ensures { Reads (if_read (given_of exec_names (map string_bytes words.now)) exec_of) result }
{
    match read_given(alloc, &SIM_NAMES[1..], words) {
        Ok(given) => ask_exec(alloc, &given),
        Err(end) => Err(end),
    }
}

// The words behind `dump`, whose options are those of `sim` but for the first and the last, `--gen` and `--dma`.
fn read_dump(alloc: Global, words: &[String]) -> Result<Asked, ValueEnd>
    ensures { Reads (if_read (given_of dump_names (map string_bytes words.now)) dump_of) result }
{
    match read_given(alloc, &SIM_NAMES[1..10], words) {
        Ok(given) => ask_dump(alloc, &given),
        Err(end) => Err(end),
    }
}

// The words behind `sat`.
fn read_sat(alloc: Global, words: &[String]) -> Result<Asked, ValueEnd>
    ensures { Reads (if_read (given_of sat_names (map string_bytes words.now)) sat_of) result }
{
    match read_given(alloc, &SAT_NAMES, words) {
        Ok(given) => ask_sat(alloc, &given),
        Err(end) => Err(end),
    }
}

// The words behind `slack`.
fn read_slack(alloc: Global, words: &[String]) -> Result<Asked, ValueEnd>
    ensures { Reads (if_read (given_of slack_names (map string_bytes words.now)) slack_of) result }
{
    match read_given(alloc, &SLACK_NAMES, words) {
        Ok(given) => ask_slack(&given).ok_or(ValueEnd::Refused),
        Err(end) => Err(end),
    }
}

// The words behind `gen`.
fn read_gen(alloc: Global, words: &[String]) -> Result<Asked, ValueEnd>
    ensures { Reads (if_read (given_of gen_names (map string_bytes words.now)) gen_of) result }
{
    match read_given(alloc, &GEN_NAMES, words) {
        Ok(given) => ask_gen(&given).ok_or(ValueEnd::Refused),
        Err(end) => Err(end),
    }
}

// The words behind a command without options.
fn read_bare(alloc: Global, words: &[String], asked: Asked) -> Result<Asked, ValueEnd>
    ensures { Reads (if_read (given_of [] (map string_bytes words.now)) (λ _. Some asked)) result }
{
    match read_given(alloc, &NO_NAMES, words) {
        Ok(_) => Ok(asked),
        Err(end) => Err(end),
    }
}

// A kernel text is run; with `--gen` it is the generated one, and `--dma` isn't given.
fn ask_sim(alloc: Global, given: &ArgMatches<'_>) -> Result<Asked, ValueEnd>
    requires { HasOptions given.now }
    ensures { Reads (sim_of (given_in given.now)) result }
{
    let options = read_options(alloc, given)?;
    match value_of(given, "gen") {
        None => {
            let dma = read_dma(given).ok_or(ValueEnd::Refused)?;
            Ok(Asked::Sim { options, dma })
        }
        Some(text) => {
            if value_of(given, "dma").is_some() {
                return Err(ValueEnd::Refused);
            }
            let number = read_number(text, 0, MOST_NUMBER).ok_or(ValueEnd::Refused)?;
            Ok(Asked::Generated { number, options })
        }
    }
}

// An image is run.
fn ask_exec(alloc: Global, given: &ArgMatches<'_>) -> Result<Asked, ValueEnd>
    requires { HasOptions given.now }
    ensures { Reads (exec_of (given_in given.now)) result }
{
    let options = read_options(alloc, given)?;
    let dma = read_dma(given).ok_or(ValueEnd::Refused)?;
    Ok(Asked::Exec { options, dma })
}

// A kernel text is run, and its core is dumped.
fn ask_dump(alloc: Global, given: &ArgMatches<'_>) -> Result<Asked, ValueEnd>
    requires { HasOptions given.now }
    ensures { Reads (dump_of (given_in given.now)) result }
{
    let options = read_options(alloc, given)?;
    Ok(Asked::Dump { options })
}

// A kernel text is run, and the events that its core put out are sent over a link.
fn ask_sat(alloc: Global, given: &ArgMatches<'_>) -> Result<Asked, ValueEnd>
    requires { HasOptions given.now }
    ensures { Reads (sat_of (given_in given.now)) result }
{
    let options = read_options(alloc, given)?;
    let word = read_link(given).ok_or(ValueEnd::Refused)?;
    Ok(Asked::Sat { options, word })
}

// A kernel text is checked for outputs that may come too late.
fn ask_slack(given: &ArgMatches<'_>) -> Option<Asked>
    requires { HasOptions given.now }
    ensures { result ≡ slack_of (given_in given.now) }
{
    let cost = read_cost(given)?;
    let depth = read_depth(given)?;
    Some(Asked::Slack { cost, depth })
}

// The generated kernel of the number that is given.
fn ask_gen(given: &ArgMatches<'_>) -> Option<Asked>
    requires { HasOptions given.now }
    ensures { result ≡ gen_of (given_in given.now) }
{
    let number = read_number(value_of(given, "number")?, 0, MOST_NUMBER)?;
    Some(Asked::Gen { number })
}
