// What holds of runs and their replies.

ghost use Rattle.std.specs.Prelude.{◌≡◌, ◌+◌, ℕ};
ghost use Rattle.kern_syntax.specs.Tree.{ProgramTree};
ghost use Rattle.core_isa.specs.Machine.{Machine};
ghost use Rattle.core_isa.specs.Runs.{go_on, steps};
ghost use Rattle.core_isa.specs.declared.code.Code.{Code};
ghost use Rattle.code_law.specs.DoesAs.{DoesAs};
ghost use Rattle.code_replies.specs.Laws.{RepliesExtendRuns, RunsAreMeant};

/// With more replies a run of any code goes on from what it is with fewer: where no reply was lacking it is the same, and else
/// the requests made so far are its first ones.
pub fn runs_go_on_with_more_replies()
    ensures { (code : Code) → RepliesExtendRuns code }
{}

/// Code that does as a program does so under all replies that fit the requests of its own run: such a run of a function gives
/// what the function means under these replies. So who answers the code, and sees its requests alone, need not know the
/// meaning's to rest on it.
pub fn runs_with_fitting_replies_are_meant()
    ensures { (program : ProgramTree) (code : Code) → DoesAs program code → RunsAreMeant program code }
{}

/// Runs of code are put one behind another: so many steps are some of them and then the others, unless the run ends before.
pub fn steps_go_on()
    ensures { (code : Code) (first more : ℕ) (m : Machine)
        → steps code (first + more) m ≡ go_on (steps code first m) (steps code more) }
{}
