//! The numbers that the board, options, texts and sessions keep to, and those that stand where an option isn't given, by name.
//! `specs/Limits.antt` has the same for definitions.
//!
//! Lanes, their depth and the board's channels are ARTIQ's defaults; the others are this project's own.
#![tactic(auto)]

/// How many channels the board has, from 0 on.
pub const CHANNELS: usize = 32;

/// The last channel of the board.
pub const LAST_CHANNEL: u64 = CHANNELS as u64 - 1;

/// The first input of the board; the channels behind it are inputs too.
pub const FIRST_INPUT: u64 = 24;

/// How far ahead of a reading `core.reset()` and `core.break_realtime()` put the cursor (mu).
pub const LEAD: u64 = 125_000;

/// The most edges of a script.
pub const MOST_EDGES: usize = 4_096;

/// The stamps of edges in a script are below this (mu), and 0 at least.
pub const STAMPS_END: u64 = 1 << 62;

/// The last of them.
pub const LAST_STAMP: u64 = STAMPS_END - 1;

/// How many lanes a core has where nothing is given.
pub const DEFAULT_LANES: u64 = 8;

/// The most lanes of a core; the least number is 1.
pub const MOST_LANES: u64 = 32;

/// How many events a lane takes where nothing is given.
pub const DEFAULT_DEPTH: u64 = 128;

/// The most events that a lane takes; the least number is 1.
pub const MOST_DEPTH: u64 = 1_024;

/// The greatest cost of a request (mu); it is 0 where nothing is given.
pub const MOST_COST: u64 = 1_000_000;

/// The longest hold of a channel (cycles); it is 0 where nothing is given.
pub const MOST_HOLD: u64 = 1_000_000;

/// The horizon where nothing is given, and the farthest one but in lockstep (cycles).
pub const DEFAULT_HORIZON: u64 = 1 << 27;

/// The farthest horizon in lockstep (cycles).
pub const LOCKSTEP_HORIZON: u64 = 1 << 59;

/// The most units of a run, and how many it has where nothing is given; the least number is 1.
pub const MOST_BUDGET: u64 = 1_000_000;

/// The most decimal digits of a number in words.
pub const MOST_DIGITS: usize = 19;

/// The greatest number of no quantity in words.
pub const MOST_NUMBER: u64 = (1 << 63) - 1;

/// The most recordings that are handed in.
pub const MOST_HANDED_IN: usize = 64;

/// The most nodes of a program.
pub const MOST_NODES: u64 = 16_384;

/// The most bytes of a kernel's text.
pub const MOST_TEXT: u64 = 1_048_576;

/// The most bytes of an image.
pub const MOST_IMAGE: u64 = 8_388_608;

/// The most bytes of a dump.
pub const MOST_DUMP: u64 = 33_554_432;

/// The most bytes of a session.
pub const MOST_SESSION: u64 = 1_048_576;

/// The most units of a kernel step of a session, and how many it has where nothing is given; the least number is 1.
pub const STEP_BUDGET: u64 = 20_000;

/// The most workers of a session; it has 1 where nothing is given.
pub const MOST_WORKERS: u64 = 8;

/// The most pipelines of a session; the least number is 1.
pub const MOST_PIPELINES: usize = 4;

/// The most kernel texts of a session; the least number is 1.
pub const MOST_SOURCES: usize = 64;

/// The most experiments of a session; the least number is 1.
pub const MOST_EXPERIMENTS: usize = 64;

/// The most steps of a stage.
pub const MOST_STEPS: usize = 16;

/// The most arrivals of a session.
pub const MOST_ARRIVALS: usize = 256;

/// The most runs of a session, which are its submissions.
pub const MOST_RUNS: u64 = 64;

/// The most arguments of a kernel step.
pub const MOST_ARGUMENTS: usize = 8;

/// The most numbers of a list that a step sets.
pub const MOST_NUMBERS: usize = 512;

/// The greatest priority of a run; the least is as far below 0.
pub const MOST_PRIORITY: i64 = 1_000;

/// The last clock of an arrival, and the last due date.
pub const LAST_CLOCK: u64 = 1 << 62;

/// The most bytes of the name of a function.
pub const LONGEST_NAME: usize = 64;
