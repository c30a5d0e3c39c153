// What holds of every session of a kernel, and of every session of accepted code.

ghost use Rattle.std.specs.Prelude.{[]};
ghost use Rattle.kern_syntax.specs.Tree.{ProgramTree};
ghost use Rattle.core_isa.specs.declared.code.Code.{Code};
ghost use Rattle.core_isa.specs.Marks.{HasOrder, Marked};
ghost use Rattle.rtio_core.specs.declared.data.Config.{Config};
ghost use Rattle.code_replies.specs.DoesAs.{DoesAs};
ghost use Rattle.kernel_session.specs.Counted.{OutputsAndResetsCount};
ghost use Rattle.kernel_session.specs.Laws.{PlaysWhatItGets, RunsPlayWhatTheyGet, SessionsPlayRecordings};
ghost use Rattle.kernel_session.specs.Meant.{TakesArguments};

/// The main function of a compiled kernel is `main`, which takes no arguments.
pub fn main_takes_no_arguments()
    ensures { (program : ProgramTree) (code : Code) → DoesAs program code → TakesArguments program code.main [] }
{}

/// Where a function of a compiled kernel asks for a recording and gets it, its next requests are the recording's outputs in
/// their order, each moved by the cursor at which it asked. They stop before the last one only at one that underflows, or where
/// no unit or no reply is left. So it is in a session that is still open, too.
pub fn recordings_are_played_where_they_were_asked_for()
    ensures { (program : ProgramTree) (code : Code) → DoesAs program code → PlaysWhatItGets program }
{}

/// The same of all marked code in order, whatever it was made from. Where a run of it asks for a recording and gets it, it plays
/// the recording at the cursor at which it asked. So does each session of such code, by any script that tells its runs.
pub fn code_plays_recordings_where_it_asked_for_them()
    ensures runs { (code : Code) → HasOrder code → Marked code → RunsPlayWhatTheyGet code }
    ensures sessions { (code : Code) → HasOrder code → Marked code → SessionsPlayRecordings code }
{}

/// Outputs and resets alone count for verdicts, outputs and log. So outputs that were played have those of outputs that the
/// kernel asked for one by one at the same counters.
pub fn outputs_and_resets_count()
    ensures { (config : Config) → OutputsAndResetsCount config }
{}
