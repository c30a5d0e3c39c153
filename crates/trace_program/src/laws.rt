// What holds of every trace.

ghost use Rattle.trace_program.specs.Laws.{TracesLeaveNoneOut, TracesTellOnce, WholeTracesMissNone};

use kernel_places::sessions_answer;
use trace_fates::{each_fate_is_the_first_reason_that_holds, each_output_is_put_out_or_lost_once};
use trace_report::no_output_is_left_out;

/// In every trace each output that was answered is told with the place of its request. Either it is put out, by the headline, and
/// no `lost` line is its; or it isn't, and has just one.
pub fn no_trace_leaves_out_an_output()
    ensures lines { TracesLeaveNoneOut }
    ensures once { TracesTellOnce }
{
    sessions_answer();
    each_output_is_put_out_or_lost_once();
    no_output_is_left_out();
}

/// Where the status of a trace is 0, the kernel returned, and each output that was answered is put out, by the headline, or a later
/// one overrode it, or it came too late, which the kernel learned.
pub fn a_whole_trace_misses_no_output()
    ensures { WholeTracesMissNone }
{
    each_fate_is_the_first_reason_that_holds();
}
