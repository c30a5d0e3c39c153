// What a yes of the slack run promises.

ghost use Rattle.std.specs.Prelude.{◌≡◌, ℕ};
ghost use Rattle.kern_syntax.specs.Tree.{ProgramTree};
ghost use Rattle.slack_meaning.specs.declared.verdict.Verdict.TheVariants.{Yes};
ghost use Rattle.slack_meaning.specs.Programs.{slack_verdict};
ghost use Rattle.slack_law.specs.Promise.{NeverUnderflows};

/// Where the slack run of a function that takes no arguments says yes at a cost (in mu) and a depth, no core of that
/// cost whose lanes take that many events at least answers its first session that an output is too late, if that
/// session runs the function from cursor 0 with at most a million units: whatever the core's history, and at whatever
/// moments it answers. This project's own rule.
pub fn a_yes_means_no_underflow()
    ensures { (program : ProgramTree) (function cost depth outs : ℕ) →
        slack_verdict program function cost depth ≡ Yes outs → NeverUnderflows program function cost depth }
{}
