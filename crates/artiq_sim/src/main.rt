//! `artiq_sim`: runs the text of a kernel on the simulated core and reports what was put out, checks it and writes its
//! canonical text, compiles it and writes the image of its code, runs such an image, or writes a large kernel's text.
#![tactic(auto)]

use lab_io::{StdSink, StdSource};
use sim_program::{own_words, sim_top, without_memory};
use std::process::ExitCode;

fn main(rt: HostRuntime) -> ExitCode {
    let mut source = StdSource::new(rt.stdin());
    let mut out = StdSink::new(rt.stdout());
    let mut err = StdSink::new(rt.stderr());
    let status = match own_words(&rt) {
        Ok(words) => sim_top(rt.alloc(), &words, &mut source, &mut out, &mut err),
        Err(_) => without_memory(&mut err),
    };
    ExitCode::from(status)
}
