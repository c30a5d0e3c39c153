// The outputs that the log names.

ghost use Rattle.std.specs.Prelude.{◌≡◌, [], ◌∷◌, map, IsTrue};
ghost use Rattle.output_merge.specs.Outputs.{LogLists};
ghost use Rattle.rtio_core.specs.Told.{TellsLog};
ghost use Rattle.rtio_log.specs.Kinds.{lines_of};
ghost use Rattle.trace_fates.specs.Passes.{AreNumberedFrom, marked, named};

use crate::{Fate, TracedOutput};
use rtio_log::{LogKind, LogLine, is_kind};

/// Gives the outputs that the log names their fates, but for those that came too late. They stand by number.
pub fn name_lost(outputs: &mut [TracedOutput], log: &[LogLine])
    requires { AreNumberedFrom 0 outputs.old }
    ensures { (lists : LogLists) → TellsLog lists log.now → outputs.new ≡ map (named lists) outputs.old }
{
    mark_kind(outputs, log, LogKind::Busy, Fate::Busy);
    mark_kind(outputs, log, LogKind::Collision, Fate::Collided);
    mark_kind(outputs, log, LogKind::Cleared, Fate::Cleared);
    mark_kind(outputs, log, LogKind::Sequence, Fate::Sequence);
}

// Gives those that the lines of a kind name this fate.
fn mark_kind(outputs: &mut [TracedOutput], log: &[LogLine], kind: LogKind, fate: Fate)
    requires { AreNumberedFrom 0 outputs.old }
    ensures outputs { outputs.new ≡ map (marked fate (lines_of kind log.now)) outputs.old }
    ensures numbers { AreNumberedFrom 0 outputs.new }
{
    for line in log {
        if is_kind(kind, line.kind) {
            mark(outputs, *line, fate);
        }
    }
}

// Gives the one that a line names this fate.
fn mark(outputs: &mut [TracedOutput], line: LogLine, fate: Fate)
    requires { AreNumberedFrom 0 outputs.old }
    ensures outputs { outputs.new ≡ map (marked fate ((line.number, line.event) ∷ [])) outputs.old }
    ensures numbers { AreNumberedFrom 0 outputs.new }
{
    let place = line.number as usize;
    if place < outputs.len() {
        outputs[place] = marked(outputs[place], line, fate);
    }
}

// An output, with this fate if a line names it and it didn't come too late.
fn marked(output: TracedOutput, line: LogLine, fate: Fate) -> TracedOutput
    ensures { result ≡ marked fate ((line.number, line.event) ∷ []) output }
{
    let is_named = output.number == line.number && output.event == line.event;
    if is_named && output.fate != Fate::Late {
        TracedOutput { fate, ..output }
    } else {
        output
    }
}
