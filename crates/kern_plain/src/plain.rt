// Functions that have no live call and no record block, also in what they call, and so may be called in a record block.

ghost use Rattle.std.specs.Prelude.{◌≡◌, ◌++◌, [], ◌∷◌, None, map};
ghost use Rattle.kern_syntax.specs.Tree.{no_more};
ghost use Rattle.kern_syntax.specs.TreeOf.{expression_of, argument_of, arguments_of, block_of, statement_of, branches_of, handlers_of, function_of};
ghost use Rattle.kern_expression_types.specs.Before.{is_in};
ghost use Rattle.kern_calls.specs.Calls.{builtin_named, method_named};
ghost use Rattle.kern_plain.specs.Plain.{is_plain_call, is_plain_method, is_plain_expression, are_plain_arguments, is_plain_block, is_plain_statement, is_plain_otherwise, are_plain_handlers, is_plain_function};

use kern_calls::{builtin_named, method_named};
use kern_expression_types::is_among;
use kern_syntax::{Argument, Block, Elif, Expr, Function, Handler, StmtKind, Target};

/// Whether a function is plain, given the plain ones before it; its own calls don't count.
pub fn is_plain_function(plain: &[&[u8]], function: &Function) -> bool
    ensures { result ≡ is_plain_function (map (λ n. n.now) plain.now) (function_of function.now) }
{
    is_plain_block(plain, function.name.bytes(), &function.body)
}

// Whether a function of this name is plain, the function that is looked at taken as one.
fn is_plain_name(plain: &[&[u8]], own: &[u8], name: &[u8]) -> bool
    ensures { result ≡ is_in (map (λ n. n.now) plain.now ++ own.now ∷ []) name.now }
{
    is_among(plain, name) || name == own
}

fn is_plain_call(plain: &[&[u8]], own: &[u8], name: &[u8]) -> bool
    ensures { result ≡ is_plain_call (map (λ n. n.now) plain.now ++ own.now ∷ []) name.now (builtin_named name.now) }
{
    match builtin_named(name) {
        Some(builtin) => !builtin.is_live(),
        None => is_plain_name(plain, own, name),
    }
}

fn is_plain_method(object: &[u8], name: &[u8]) -> bool
    ensures { result ≡ is_plain_method (method_named object.now name.now) }
{
    match method_named(object, name) {
        Some(operation) => !operation.is_live(),
        None => true,
    }
}

#[cycle(plain_expressions)]
fn is_plain_expression(plain: &[&[u8]], own: &[u8], e: &Expr) -> bool
    ensures { result ≡ is_plain_expression (map (λ n. n.now) plain.now ++ own.now ∷ []) (expression_of e.now) }
{
    match e {
        Expr::Integer(_) | Expr::True | Expr::False | Expr::Variable(_) => true,
        Expr::Index(_, a) | Expr::Group(a) | Expr::Unary(_, a) | Expr::Not(a) => {
            is_plain_expression(plain, own, a)
        }
        Expr::Binary(_, a, b) | Expr::Compare(_, a, b) => {
            is_plain_expression(plain, own, a) && is_plain_expression(plain, own, b)
        }
        Expr::And(a, b) | Expr::Or(a, b) => {
            is_plain_expression(plain, own, a) && is_plain_expression(plain, own, b)
        }
        Expr::Call(function, arguments) => {
            is_plain_call(plain, own, function.bytes())
                && are_plain_arguments(plain, own, arguments)
        }
        Expr::Method(object, method, arguments) => {
            is_plain_method(object.bytes(), method.bytes())
                && are_plain_arguments(plain, own, arguments)
        }
    }
}

#[cycle(plain_expressions)]
fn are_plain_arguments(plain: &[&[u8]], own: &[u8], arguments: &[Argument]) -> bool
    ensures { result ≡ are_plain_arguments (map (λ n. n.now) plain.now ++ own.now ∷ []) (arguments_of arguments.now) }
{
    for argument in arguments.iter() {
        if !is_plain_argument(plain, own, argument) {
            return false;
        }
    }
    true
}

#[cycle(plain_expressions)]
fn is_plain_argument(plain: &[&[u8]], own: &[u8], argument: &Argument) -> bool
    ensures { result ≡ are_plain_arguments (map (λ n. n.now) plain.now ++ own.now ∷ []) (argument_of argument.now no_more) }
{
    match argument {
        Argument::Value(e) => is_plain_expression(plain, own, e),
        Argument::Text(_) => true,
    }
}

ghost use Rattle.std.specs.List.{list_all};

fn are_plain_elements(plain: &[&[u8]], own: &[u8], elements: &[Expr]) -> bool
    ensures { result ≡ list_all (is_plain_expression (map (λ n. n.now) plain.now ++ own.now ∷ [])) (map expression_of elements.now) }
{
    for element in elements.iter() {
        if !is_plain_expression(plain, own, element) {
            return false;
        }
    }
    true
}

ghost use Rattle.kern_plain.specs.Plain.{is_plain_target};

fn is_plain_target(plain: &[&[u8]], own: &[u8], target: &Target) -> bool
    ensures { result ≡ is_plain_target (map (λ n. n.now) plain.now ++ own.now ∷ []) target.now }
{
    match target {
        Target::Variable(_) => true,
        Target::Element(_, index) => is_plain_expression(plain, own, index),
    }
}

#[cycle(plain_blocks)]
fn is_plain_block(plain: &[&[u8]], own: &[u8], block: &Block) -> bool
    ensures { result ≡ is_plain_block (map (λ n. n.now) plain.now ++ own.now ∷ []) (block_of block.now) }
{
    for statement in block.statements.iter() {
        if !is_plain_statement(plain, own, &statement.kind) {
            return false;
        }
    }
    true
}

#[cycle(plain_blocks)]
fn is_plain_statement(plain: &[&[u8]], own: &[u8], statement: &StmtKind) -> bool
    ensures { result ≡ is_plain_statement (map (λ n. n.now) plain.now ++ own.now ∷ []) (statement_of statement.now) }
{
    match statement {
        StmtKind::Pass | StmtKind::Break | StmtKind::Continue | StmtKind::Return(None) => true,
        StmtKind::Return(Some(e)) | StmtKind::Evaluate(e) | StmtKind::ArrayRepeat(_, e, _) => {
            is_plain_expression(plain, own, e)
        }
        StmtKind::Assign(target, e) | StmtKind::Augmented(target, _, e) => {
            is_plain_target(plain, own, target) && is_plain_expression(plain, own, e)
        }
        StmtKind::ArrayList(_, elements) => are_plain_elements(plain, own, elements),
        StmtKind::If(condition, body, branches, last) => {
            is_plain_expression(plain, own, condition)
                && is_plain_block(plain, own, body)
                && are_plain_branches(plain, own, branches)
                && is_plain_else(plain, own, last)
        }
        StmtKind::While(condition, body) => {
            is_plain_expression(plain, own, condition) && is_plain_block(plain, own, body)
        }
        StmtKind::ForTo(_, to, body) => {
            is_plain_expression(plain, own, to) && is_plain_block(plain, own, body)
        }
        StmtKind::ForFromTo(_, from, to, body) => {
            is_plain_expression(plain, own, from)
                && is_plain_expression(plain, own, to)
                && is_plain_block(plain, own, body)
        }
        StmtKind::Parallel(body) | StmtKind::Sequential(body) => is_plain_block(plain, own, body),
        StmtKind::Record(_, _) => false,
        StmtKind::Try(body, handlers) => {
            is_plain_block(plain, own, body) && are_plain_handlers(plain, own, handlers)
        }
    }
}

#[cycle(plain_blocks)]
fn are_plain_branches(plain: &[&[u8]], own: &[u8], branches: &[Elif]) -> bool
    ensures { result ≡ is_plain_otherwise (map (λ n. n.now) plain.now ++ own.now ∷ []) (branches_of branches.now None) }
{
    for branch in branches.iter() {
        if !is_plain_elif(plain, own, branch) {
            return false;
        }
    }
    true
}

ghost use Rattle.std.specs.Prelude.{option_map};
ghost use Rattle.kern_syntax.specs.Tree.{no_else};
ghost use Rattle.kern_syntax.specs.TreeOf.{elif_of, else_of};

#[cycle(plain_blocks)]
#[tactic(auto, using(crate::proofs::PlainNames::and_true))]
fn is_plain_elif(plain: &[&[u8]], own: &[u8], branch: &Elif) -> bool
    ensures { result ≡ is_plain_otherwise (map (λ n. n.now) plain.now ++ own.now ∷ []) (elif_of branch.now no_else) }
{
    is_plain_expression(plain, own, &branch.condition) && is_plain_block(plain, own, &branch.body)
}

#[cycle(plain_blocks)]
fn is_plain_else(plain: &[&[u8]], own: &[u8], last: &Option<Block>) -> bool
    ensures { result ≡ is_plain_otherwise (map (λ n. n.now) plain.now ++ own.now ∷ []) (else_of (option_map block_of last.now)) }
{
    match last {
        Some(body) => is_plain_block(plain, own, body),
        None => true,
    }
}

#[cycle(plain_blocks)]
fn are_plain_handlers(plain: &[&[u8]], own: &[u8], handlers: &[Handler]) -> bool
    ensures { result ≡ are_plain_handlers (map (λ n. n.now) plain.now ++ own.now ∷ []) (handlers_of handlers.now) }
{
    for handler in handlers.iter() {
        if !is_plain_block(plain, own, &handler.body) {
            return false;
        }
    }
    true
}
