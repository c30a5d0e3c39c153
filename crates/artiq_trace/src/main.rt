//! `artiq_trace`: runs the text of a kernel on the simulated core and tells where in the text each request was asked, how early
//! each output was, and what became of it.
#![tactic(auto)]

use lab_io::{StdSink, StdSource};
use std::process::ExitCode;
use trace_program::{own_words, trace_top, without_memory};

fn main(rt: HostRuntime) -> ExitCode {
    let mut source = StdSource::new(rt.stdin());
    let mut out = StdSink::new(rt.stdout());
    let mut err = StdSink::new(rt.stderr());
    let status = match own_words(&rt) {
        Ok(words) => trace_top(rt.alloc(), &words, &mut source, &mut out, &mut err),
        Err(_) => without_memory(&mut err),
    };
    ExitCode::from(status)
}
