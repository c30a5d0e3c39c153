// The slots that the code of a function uses beside those of its names.

ghost use Rattle.std.specs.Prelude.{◌≡◌};
ghost use Rattle.kern_syntax.specs.TreeOf.{block_of, branches_of, handlers_of, statement_of};
ghost use Rattle.code_forms.specs.Programs.{statement_slots, block_slots, otherwise_slots, handlers_slots};
ghost use Rattle.core_code_names.specs.Slots.{capped};

use kern_syntax::{Block, Elif, Handler, StmtKind, Target};

/// How many slots beside those of the names the code of a block uses, counted in 16 bits and standing still at 65,535.
#[cycle(slots)]
pub fn block_slots(block: &Block) -> u16
    ensures { result ≡ capped (block_slots (block_of block.now)) }
{
    let mut most = 0;
    for statement in block.statements.iter() {
        most = most.max(statement_slots(&statement.kind));
    }
    most.max(1)
}

#[cycle(slots)]
fn statement_slots(statement: &StmtKind) -> u16
    ensures { result ≡ capped (statement_slots (statement_of statement.now)) }
{
    match statement {
        StmtKind::Augmented(Target::Element(_, _), _, _) => 2,
        StmtKind::ArrayList(_, elements) => capped(elements.len()).saturating_add(1),
        StmtKind::If(_, body, branches, last) => block_slots(body)
            .max(branches_slots(branches))
            .max(else_slots(last)),
        StmtKind::ForTo(_, _, body)
        | StmtKind::ForFromTo(_, _, _, body)
        | StmtKind::Parallel(body) => { block_slots(body).saturating_add(2) }
        StmtKind::While(_, body) | StmtKind::Sequential(body) | StmtKind::Record(_, body) =>
            block_slots(body),
        StmtKind::Try(body, handlers) => block_slots(body).max(handlers_slots(handlers)),
        StmtKind::Pass
        | StmtKind::Break
        | StmtKind::Continue
        | StmtKind::Return(_)
        | StmtKind::Evaluate(_)
        | StmtKind::Assign(_, _)
        | StmtKind::Augmented(Target::Variable(_), _, _)
        | StmtKind::ArrayRepeat(_, _, _) => 1,
    }
}

// A number in 16 bits, which stands still at 65,535.
fn capped(count: usize) -> u16
    ensures { result ≡ capped count }
{
    count.min(u16::MAX as usize) as u16
}

ghost use Rattle.std.specs.Prelude.{Option, [], max};
ghost use Rattle.kern_syntax.specs.declared.statement.Block.{Block};

// Of the further branches of an `if`, which may have an `else` behind them.
#[cycle(slots)]
fn branches_slots(branches: &[Elif]) -> u16
    ensures { (last : Option Block)
        → capped (otherwise_slots (branches_of branches.now last))
        ≡ max result (capped (otherwise_slots (branches_of [] last))) }
{
    let mut most = 0;
    for branch in branches.iter() {
        most = most.max(block_slots(&branch.body));
    }
    most
}

// Of the `else` of an `if`.
#[cycle(slots)]
fn else_slots(last: &Option<Block>) -> u16
    ensures { result ≡ capped (otherwise_slots (branches_of [] last.now)) }
{
    match last {
        Some(body) => block_slots(body),
        None => 1,
    }
}

#[cycle(slots)]
fn handlers_slots(handlers: &[Handler]) -> u16
    ensures { result ≡ capped (handlers_slots (handlers_of handlers.now)) }
{
    let mut most = 0;
    for handler in handlers.iter() {
        most = most.max(block_slots(&handler.body));
    }
    most.max(1)
}
