// What the program says of the bytes of its source.

ghost use Rattle.std.specs.Prelude.{IfOk};
ghost use Rattle.lab_program.specs.Answers.{report_of_session};
ghost use Rattle.top_calls.specs.Sayings.{IsAnswerTo};

use crate::laboratory::run_laboratory;
use crate::refusal::{field_refusal, json_refusal};
use exp_json::laws::no_session_has_a_fault;
use exp_json::{SessionFault, read_session};
use stage_work::Gate;
use std::alloc::{AllocError, Global};
use std::sync::Wait;
use std::thread::Threads;
use top_calls::{Answer, Finish};

/// Reads bytes as a session and runs it, or says why they are none.
pub fn answer_to<R: Threads + Wait + Sync, G: Gate + Sync>(
    rt: &R,
    alloc: Global,
    text: &[u8],
    gate: &G,
) -> Result<Answer, AllocError>
    ensures { IfOk result (λ answer. IsAnswerTo report_of_session text.now answer) }
{
    no_session_has_a_fault();
    match read_session(alloc, text) {
        Ok(session) => Ok(Answer::Due {
            bytes: run_laboratory(rt, alloc, &session, gate)?,
            finish: Finish::Whole,
        }),
        Err(SessionFault::Json) => Ok(Answer::Refused(json_refusal(alloc)?)),
        Err(SessionFault::Field { path, kind }) => {
            Ok(Answer::Refused(field_refusal(alloc, &path, kind)?))
        }
        Err(SessionFault::Memory) => Err(AllocError),
    }
}
