// Calls of a core, and what they answer.

use crate::board::tell_board;
use crate::code::code_of;
use crate::copies::{tell_config, tell_start};
use crate::inputs::tell_inputs;
use crate::lanes::{tell_lanes, tell_pairs};
use crate::parts::Parts;
use crate::requests::request_of;
use crate::running::{main_of, tell_drained, tell_session, tell_steps};
use crate::settings::config_of;
use crate::shelf::tell_bytes;
use crate::telling::{tell_answer, tell_events, tell_kept, tell_log};
use core_image::Verified;
use rtio_core::{Core, StartEnd, Tick, config_ok};
use rtio_types::{Outcome, Request, well_formed};
use std::alloc::{AllocError, Global};
use table_rows::{Bench, push_line};

/// The lines of a row that are no calls, a core, code for it, and parts of one.
#[derive(Drop)]
pub struct Cores {
    said: String,
    core: Option<Core>,
    code: Option<Verified>,
    parts: Parts,
}

impl Bench for Cores {
    fn new(alloc: Global) -> Cores {
        Cores {
            said: String::new(alloc),
            core: None,
            code: None,
            parts: Parts::new(alloc),
        }
    }

    fn take(&mut self, alloc: Global, line: &str, told: &mut String) -> Result<(), AllocError> {
        match line.strip_prefix("$ ") {
            Some(call) => {
                told.push_str("\n= ")?;
                self.tell(alloc, told, call)
            }
            None => push_line(&mut self.said, line),
        }
    }
}

impl Cores {
    // Makes a call, and tells its answer.
    fn tell(&mut self, alloc: Global, told: &mut String, call: &str) -> Result<(), AllocError> {
        let (verb, rest) = call.split_once(' ').unwrap_or((call, ""));
        match verb {
            "board" => tell_board(alloc, told, rest),
            "copy" | "copy_start" | "inputs" | "bytes" => {
                tell_plain(alloc, told, self.said.as_str(), verb, rest)
            }
            "store" | "link" | "lines" => self.parts.tell(alloc, told, verb, rest),
            "steps" => tell_steps(told, rest),
            "core" | "idle" | "code" => {
                let is_made = self.make(alloc, verb, rest)?;
                told.push_str(if is_made { "ok" } else { "refused" })
            }
            "lanes" => tell_lanes(alloc, told),
            "pairs" => tell_pairs(alloc, told),
            _ => self.tell_core(alloc, told, verb, rest),
        }
    }

    // Makes a core, with a session or without one, or code for it, and says whether it is accepted.
    fn make(&mut self, alloc: Global, verb: &str, rest: &str) -> Result<bool, AllocError> {
        if verb == "code" {
            self.code = code_of(alloc, rest)?;
            return Ok(self.code.is_some());
        }
        self.core = core_of(alloc, self.said.as_str(), rest)?;
        match &mut self.core {
            Some(core) => {
                if verb == "core" {
                    begin(alloc, core)?;
                }
                Ok(true)
            }
            None => Ok(false),
        }
    }

    fn tell_core(
        &mut self,
        alloc: Global,
        told: &mut String,
        verb: &str,
        rest: &str,
    ) -> Result<(), AllocError> {
        let Some(core) = &mut self.core else {
            return told.push_str("no core");
        };
        if verb != "session" {
            return tell_of_core(alloc, told, core, verb, rest);
        }
        match &self.code {
            Some(code) => tell_session(alloc, told, core, code, rest),
            None => told.push_str("no code"),
        }
    }
}

// The answer to a call that needs no more than what the row has said.
fn tell_plain(
    alloc: Global,
    told: &mut String,
    said: &str,
    verb: &str,
    rest: &str,
) -> Result<(), AllocError> {
    match verb {
        "copy" => tell_config(alloc, told, said, rest),
        "copy_start" => tell_start(alloc, told, rest),
        "inputs" => tell_inputs(alloc, told, said, rest),
        _ => tell_bytes(alloc, told, said, rest),
    }
}

// A core of these settings; None where they aren't accepted. Fails only for want of memory.
fn core_of(alloc: Global, said: &str, words: &str) -> Result<Option<Core>, AllocError> {
    let config = config_of(alloc, said, words)?;
    if !config_ok(&config) {
        return Ok(None);
    }
    Ok(Some(Core::new(alloc, config)?))
}

// Starts the session of chair 0 and run 0.
fn begin(alloc: Global, core: &mut Core) -> Result<(), AllocError> {
    match core.start(alloc, 0, main_of(alloc, 0)) {
        Ok(_) => Ok(()),
        Err(_) => Err(AllocError),
    }
}

fn tell_of_core(
    alloc: Global,
    told: &mut String,
    core: &mut Core,
    verb: &str,
    rest: &str,
) -> Result<(), AllocError> {
    match verb {
        "run" => run(told, core),
        "leap" => {
            let cycles = core.leap(rest.parse().unwrap_or(u64::MAX));
            write!(told, "by {cycles} to {}", core.counter())
        }
        "start" => start(alloc, told, core, rest.parse().unwrap_or(0)),
        "end" => end(alloc, told, core, rest.parse().unwrap_or(0)),
        "stop" => stop(alloc, told, core, rest.parse().unwrap_or(0)),
        "tick" => write!(told, "{:?}", core.tick()),
        "drain" => tell_drained(told, core),
        "trace" => tell_events(told, core.trace()),
        "log" => tell_log(told, core.log()),
        "peaks" => write!(told, "{:?}", core.peaks()),
        "recordings" => tell_kept(alloc, told, core.store()),
        _ => match request_of(alloc, verb, rest) {
            Some(request) => ask(alloc, told, core, request),
            None => told.push_str("no call"),
        },
    }
}

// Asks in the session that is open.
fn ask(
    alloc: Global,
    told: &mut String,
    core: &mut Core,
    request: Request,
) -> Result<(), AllocError> {
    let Some((who, _)) = core.session() else {
        return told.push_str("no session");
    };
    if !well_formed(&request) {
        return told.push_str("not of the board");
    }
    match core.ask(alloc, who, request) {
        Ok(answer) => tell_answer(told, core, &answer),
        Err(_) => Err(AllocError),
    }
}

// Starts a session of chair 1.
fn start(alloc: Global, told: &mut String, core: &mut Core, rid: u64) -> Result<(), AllocError> {
    match core.start(alloc, 1, main_of(alloc, rid)) {
        Ok(cursor) => write!(told, "{cursor}"),
        Err(StartEnd::Busy { rid }) => write!(told, "busy with {rid}"),
        Err(StartEnd::Memory) => Err(AllocError),
    }
}

// Ends the open session as one that returned.
fn end(alloc: Global, told: &mut String, core: &mut Core, cursor: i64) -> Result<(), AllocError> {
    let Some((who, _)) = core.session() else {
        return told.push_str("no session");
    };
    if core.waiting().is_some() {
        return told.push_str("a request waits");
    }
    core.end(alloc, who, Outcome::Returned, cursor)?;
    told.push_str("ok")
}

// Ends the open session at the horizon.
fn stop(alloc: Global, told: &mut String, core: &mut Core, cursor: i64) -> Result<(), AllocError> {
    let Some((who, _)) = core.session() else {
        return told.push_str("no session");
    };
    core.end(alloc, who, Outcome::Horizon, cursor)?;
    told.push_str("ok")
}

// Lets the counter go on, and tells where it stands and why it goes no further.
fn run(told: &mut String, core: &mut Core) -> Result<(), AllocError> {
    match stop_of(core) {
        Some(tick) => write!(told, "at {}, {tick:?}", core.counter()),
        None => told.push_str("a wrong stop"),
    }
}

// Goes on to the first tick that doesn't; None where the core goes on or stops without saying so, and after a million cycles.
fn stop_of(core: &mut Core) -> Option<Tick> {
    for _turn in 0..1_000_000u64 {
        let stops = core.stopped();
        let tick = core.tick();
        if (tick == Tick::Went) == stops {
            return None;
        }
        if stops {
            return Some(tick);
        }
    }
    None
}
