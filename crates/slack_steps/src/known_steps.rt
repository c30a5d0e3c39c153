// Statements whose values are known.

ghost use Rattle.std.specs.Prelude.{◌≡◌, IfSome, option_map};
ghost use Rattle.kern_syntax.specs.Tree as T;
ghost use Rattle.kern_syntax.specs.TreeOf.{block_of, branches_of, else_of, expression_of, lines_of, statement_of};
ghost use Rattle.kern_calls.specs.Types.{type_of};
ghost use Rattle.kern_names.specs.ScopeOf.{scope_of};
ghost use Rattle.meaning_steps.specs.Runnable.{IsRunnable};
ghost use Rattle.meaning_steps.specs.RunnableStatements.{IsRunnableBlock, IsRunnableOtherwise, IsRunnableStatement};
ghost use Rattle.slack_meaning.specs.Actions.{State as Run, normal};
ghost use Rattle.slack_meaning.specs.Expressions.{Callee, operate};
ghost use Rattle.slack_meaning.specs.Spans.{exactly};
ghost use Rattle.slack_meaning.specs.Statements.{block, either, otherwise, statement};
ghost use Rattle.timeline_sem.specs.Statements.{operator_of};
ghost use Rattle.slack_steps.specs.Known.{HasRun};

use crate::kinds::kind_of_name;
use crate::known::known_number;
use crate::operating::{plain_result, typed_result};
use kern_names::Scope;
use kern_syntax::{Augment, BinaryOperator, Block, Elif, Expr, Stmt, StmtKind, Target};
use meaning_steps::{is_true, operator_of};
use slack_meaning::Span;
use slack_state::{Held, State, exactly, is_number};

/// Runs a statement whose values are known: an assignment to a name, or an `if` whose condition is known and whose branch, if one
/// is taken, is such an assignment alone. It leaves all else as it is. Whether it ran.
pub fn run_known(scope: &Scope<'_>, state: &mut State, form: &StmtKind) -> bool
    requires { IsRunnableStatement (statement_of form.now) }
    ensures { (callee : Callee) → HasRun result state.old state.new (statement (scope_of scope.now) callee (statement_of form.now)) }
{
    match form {
        StmtKind::If(condition, body, branches, last) => {
            decide_known(scope, state, condition, body, branches, last)
        }
        _ => set_known(scope, state, form),
    }
}

// An assignment to a name.
fn set_known(scope: &Scope<'_>, state: &mut State, form: &StmtKind) -> bool
    requires { IsRunnableStatement (statement_of form.now) }
    ensures { (callee : Callee) → HasRun result state.old state.new (statement (scope_of scope.now) callee (statement_of form.now)) }
{
    match form {
        StmtKind::Assign(Target::Variable(x), e) => assign_known(scope, state, x.bytes(), e),
        StmtKind::Augmented(Target::Variable(x), operator, e) => {
            augment_known(scope, state, x.bytes(), *operator, e)
        }
        _ => false,
    }
}

// An `if`, by its condition.
fn decide_known(
    scope: &Scope<'_>,
    state: &mut State,
    condition: &Expr,
    body: &Block,
    branches: &[Elif],
    last: &Option<Block>,
) -> bool
    requires condition { IsRunnable (expression_of condition.now) }
    requires body { IsRunnableBlock (block_of body.now) }
    requires rest { IsRunnableOtherwise (branches_of branches.now last.now) }
    ensures { (callee : Callee) → HasRun result state.old state.new (statement (scope_of scope.now) callee (T.if_then (expression_of condition.now) (block_of body.now) (branches_of branches.now last.now))) }
{
    match known_number(scope, state, condition) {
        Some(number) => run_taken(scope, state, is_true(number), body, branches, last),
        None => false,
    }
}

// The branch of an `if` that is taken.
fn run_taken(
    scope: &Scope<'_>,
    state: &mut State,
    holds: bool,
    body: &Block,
    branches: &[Elif],
    last: &Option<Block>,
) -> bool
    requires body { IsRunnableBlock (block_of body.now) }
    requires rest { IsRunnableOtherwise (branches_of branches.now last.now) }
    ensures { (callee : Callee) → HasRun result state.old state.new (either holds (block (scope_of scope.now) callee (block_of body.now)) (otherwise (scope_of scope.now) callee (branches_of branches.now last.now))) }
{
    if holds {
        run_only(scope, state, body)
    } else {
        run_rest(scope, state, branches, last)
    }
}

// The further branches of an `if`, where there is no `elif`.
fn run_rest(scope: &Scope<'_>, state: &mut State, branches: &[Elif], last: &Option<Block>) -> bool
    requires { IsRunnableOtherwise (branches_of branches.now last.now) }
    ensures { (callee : Callee) → HasRun result state.old state.new (otherwise (scope_of scope.now) callee (branches_of branches.now last.now)) }
{
    match branches {
        [] => run_last(scope, state, last),
        _ => false,
    }
}

// The `else` of an `if`, if it has one.
fn run_last(scope: &Scope<'_>, state: &mut State, last: &Option<Block>) -> bool
    requires { IsRunnableOtherwise (else_of (option_map block_of last.now)) }
    ensures { (callee : Callee) → HasRun result state.old state.new (otherwise (scope_of scope.now) callee (else_of (option_map block_of last.now))) }
{
    match last {
        Some(body) => run_only(scope, state, body),
        None => true,
    }
}

// A block of one assignment to a name. Where there were two, the second might not be known when the first has run.
fn run_only(scope: &Scope<'_>, state: &mut State, body: &Block) -> bool
    requires { IsRunnableBlock (block_of body.now) }
    ensures { (callee : Callee) → HasRun result state.old state.new (block (scope_of scope.now) callee (block_of body.now)) }
{
    match only_of(lines(body)) {
        Some(only) => set_known(scope, state, &only.kind),
        None => false,
    }
}

/// The statements of a block.
pub fn lines(body: &Block) -> &[Stmt]
    ensures { lines_of result.now ≡ block_of body.now }
{
    &body.statements
}

// The one statement, where there is one alone.
fn only_of(lines: &[Stmt]) -> Option<&Stmt>
    ensures { IfSome result (λ only. lines_of lines.now ≡ T.line_then only.now.line (statement_of only.now.kind) T.done) }
{
    match lines {
        [only] => Some(only),
        _ => None,
    }
}

fn assign_known(scope: &Scope<'_>, state: &mut State, x: &[u8], e: &Expr) -> bool
    requires { IsRunnable (expression_of e.now) }
    ensures { (callee : Callee) → HasRun result state.old state.new (statement (scope_of scope.now) callee (T.assign x.now (expression_of e.now))) }
{
    match known_number(scope, state, e) {
        Some(number) => {
            state.hold(x, Held::Number(exactly(number)));
            true
        }
        None => false,
    }
}

fn augment_known(
    scope: &Scope<'_>,
    state: &mut State,
    x: &[u8],
    operator: Augment,
    e: &Expr,
) -> bool
    requires { IsRunnable (expression_of e.now) }
    ensures { (callee : Callee) → HasRun result state.old state.new (statement (scope_of scope.now) callee (T.augment x.now operator (expression_of e.now))) }
{
    match known_number(scope, state, e) {
        Some(added) => {
            let place = state.place(x);
            let held = state.span_at(place);
            let sum = known_sum(scope, x, operator_of(operator), held, added);
            hold_known(state, place, sum)
        }
        None => false,
    }
}

// Lets a place hold a number, if there is one. Whether there is.
#[inline(always)]
fn hold_known(state: &mut State, place: usize, number: Option<i64>) -> bool
    ensures { HoldsNext result place number state.old state.new }
{
    match number {
        Some(number) => {
            state.hold_at(place, Held::Number(exactly(number)));
            true
        }
        None => false,
    }
}

ghost use Rattle.slack_steps.specs.Known.{HoldsNext};

// What a name holds and a number that is added, wrapped at the width of the name's type, which is looked up only where it
// matters; none of a span.
fn known_sum(
    scope: &Scope<'_>,
    x: &[u8],
    operator: BinaryOperator,
    held: Span,
    added: i64,
) -> Option<i64>
    ensures { IfSome result (λ n. (s : Run) → operate operator (type_of (scope_of scope.now) (T.variable x.now)) held (exactly added) s ≡ normal (exactly n) s) }
{
    if !is_number(held) {
        return None;
    }
    match plain_result(operator, held.least, added) {
        Some(number) => Some(number),
        None => typed_result(operator, kind_of_name(scope, x), held.least, added),
    }
}
