//! Runs a loop of arithmetic on the core's processor. The program says how the run ends.
#![tactic(auto)]

ghost use Rattle.std.specs.Prelude.{IfSome};
ghost use Rattle.cpu_bench.specs.Ending.{EndsSo};
ghost use Rattle.cpu_bench.specs.Loop.{loop_code};

mod image;
mod running;

use crate::image::loop_code;
use crate::running::{End, run};
use std::alloc::Global;
use std::{env, io};

fn main(rt: HostRuntime) -> io::Result<()> {
    let Some((turns, units)) = numbers(&rt) else {
        return println!(rt; "words: TURNS UNITS");
    };
    match run_loop(rt.alloc(), turns, units) {
        Some(end) => println!(rt;
            "{:?}, {} instructions, {} units left, value {}",
            end.outcome, end.steps, end.units, end.cursor
        ),
        None => println!(rt; "no end, or there is no memory"),
    }
}

fn numbers(rt: &HostRuntime) -> Option<(u32, u32)> {
    let mut words = env::args(rt).ok()?.skip(1);
    Some((words.next()?.parse().ok()?, words.next()?.parse().ok()?))
}

// Runs the loop with so many turns and units to its end; None where there is no memory for that.
fn run_loop(alloc: Global, turns: u32, units: u32) -> Option<End>
    ensures { IfSome result (EndsSo (loop_code turns) units) }
{
    let code = loop_code(alloc, turns)?;
    run(alloc, &code, units).ok()?
}
