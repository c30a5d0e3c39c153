// What holds of every trace.

ghost use Rattle.std.specs.Prelude.{List};
ghost use Rattle.rtio_core.specs.Core.{CoreState};
ghost use Rattle.trace_report.specs.declared.place.TextPlace.{TextPlace};
ghost use Rattle.trace_report.specs.Laws.{HaveAllPlaces, LeavesNoneOut};

/// Where each answered request of a core's history has a place, the trace leaves out no output that was answered. Each one that
/// was lost has a line, no other one has, and the last line counts them all.
pub fn no_output_is_left_out()
    ensures { (core : CoreState) (places : List TextPlace) → HaveAllPlaces places core.history → LeavesNoneOut places core }
{}
