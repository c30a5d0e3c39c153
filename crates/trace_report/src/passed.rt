// Where a walk through a history stands.

ghost use Rattle.std.specs.Prelude.{◌≡◌, ◌+◌, ◌<◌, ◌≤◌, ◌^◌};
ghost use Rattle.trace_report.specs.Walk.{passed_by};

use rtio_core::{Act, Entry};
use rtio_types::Request;

/// What a walk through a history has passed.
#[derive(Clone, Copy, Debug, PartialEq, Eq)]
pub struct Passed {
    /// How many answered requests.
    pub asked: usize,
    /// How many outputs among them.
    pub outputs: usize,
}

/// What is passed behind an entry.
pub fn passed_by(passed: Passed, entry: &Entry) -> Passed
    requires asked { passed.asked + 1 < 2 ^ 64 }
    requires outputs { passed.outputs + 1 < 2 ^ 64 }
    ensures value { result ≡ passed_by passed entry.now.act }
    ensures asked { result.asked ≤ passed.asked + 1 }
    ensures outputs { result.outputs ≤ passed.outputs + 1 }
{
    let Passed { asked, outputs } = passed;
    match &entry.act {
        Act::Asked {
            request: Request::Out(_),
            ..
        } => Passed {
            asked: asked + 1,
            outputs: outputs + 1,
        },
        Act::Asked { .. } => Passed {
            asked: asked + 1,
            outputs,
        },
        _ => passed,
    }
}
