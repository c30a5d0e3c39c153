//! `artiq_lab`: reads a session of a laboratory, has its experiments run on simulated hardware, and writes the report.
#![tactic(auto)]

use lab_io::{StdSink, StdSource};
use lab_kits::OpenGate;
use lab_program::{lab_top, own_words, without_memory};
use std::process::ExitCode;

fn main(rt: HostRuntime) -> ExitCode {
    let mut source = StdSource::new(rt.stdin());
    let mut out = StdSink::new(rt.stdout());
    let mut err = StdSink::new(rt.stderr());
    let status = match own_words(&rt) {
        Ok(words) => lab_top(
            &rt,
            rt.alloc(),
            &words,
            &mut source,
            &mut out,
            &mut err,
            &OpenGate,
        ),
        Err(_) => without_memory(&mut err),
    };
    ExitCode::from(status)
}
