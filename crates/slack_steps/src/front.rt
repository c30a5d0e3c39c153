// The statements that a block begins with.

ghost use Rattle.std.specs.Prelude.{◌≡◌, ◌≤◌, drop, length};
ghost use Rattle.kern_syntax.specs.TreeOf.{lines_of};
ghost use Rattle.kern_names.specs.ScopeOf.{scope_of};
ghost use Rattle.meaning_steps.specs.RunnableStatements.{IsRunnableBlock};
ghost use Rattle.slack_meaning.specs.Expressions.{Callee};
ghost use Rattle.slack_meaning.specs.Statements.{block};

use crate::known_steps::run_known;
use kern_names::Scope;
use kern_syntax::Stmt;
use slack_state::State;

/// The statements behind so many.
pub fn behind(lines: &[Stmt], count: usize) -> &[Stmt]
    requires { count ≤ length lines.now }
    ensures { result.now ≡ drop count lines.now }
{
    &lines[count..]
}

/// Runs the statements in front whose values are known, up to the first one whose aren't. How many ran. They run here, without
/// the calls that a statement needs whose parts may end early.
pub fn run_front(scope: &Scope<'_>, state: &mut State, lines: &[Stmt]) -> usize
    requires { IsRunnableBlock (lines_of lines.now) }
    ensures within { result ≤ length lines.now }
    ensures ran { (callee : Callee) →
        block (scope_of scope.now) callee (lines_of lines.now) state.old
        ≡ block (scope_of scope.now) callee (lines_of (drop result lines.now)) state.new }
{
    for i in 0..lines.len() {
        if !run_known(scope, state, &lines[i].kind) {
            return i;
        }
    }
    lines.len()
}
