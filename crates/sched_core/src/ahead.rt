// What comes next.

ghost use Rattle.std.specs.Prelude.{◌≡◌, ◌≤◌, ℕ, List, [], length, IfOk, IsTrue};
ghost use Rattle.exp_model.specs.Sessions.{is_session};
ghost use Rattle.dataset_db.specs.Datasets.{Dataset};
ghost use Rattle.sched_state.specs.Boards.{state_of};
ghost use Rattle.sched_state.specs.declared.looking.Look.TheVariants.{Jump};
ghost use Rattle.sched_state.specs.Looks.{LooksAs};
ghost use Rattle.sched_laws.specs.Sound.{IsSound};
ghost use Rattle.sched_core.specs.Jumps.{JumpsTo};

use exp_model::Session;
use sched_state::{Board, Look, look_at};
use std::alloc::{AllocError, Global};

/// The clocks to which the scheduler moves on, where it stands then, and what there is to do then.
#[derive(Drop)]
pub struct Ahead {
    pub board: Board,
    pub clocks: Vec<u64>,
    pub look: Look,
}

/// Looks as far ahead as nothing is left to do before a later date.
pub fn look_ahead(alloc: Global, session: &Session, board: &Board) -> Result<Ahead, AllocError>
    requires session { IsTrue (is_session session.now) }
    requires taken { board.now.taken ≤ length session.now.arrivals }
    requires pipelines { board.now.runs.pipelines ≡ length session.now.pipelines }
    requires sound { IsSound session.now (state_of session.now.arrivals [] board.now) }
    ensures jumps { IfOk result (λ ahead. (datasets : List Dataset) → JumpsTo session.now (state_of session.now.arrivals datasets board.now) ahead.clocks.items (state_of session.now.arrivals datasets ahead.board)) }
    ensures looks { IfOk result (λ ahead. (datasets : List Dataset) → LooksAs session.now (state_of session.now.arrivals datasets ahead.board) ahead.look) }
    ensures ends { IfOk result (λ ahead. (clock : ℕ) → ahead.look ≡ Jump clock → ⊥) }
    ensures taken { IfOk result (λ ahead. ahead.board.taken ≤ length session.now.arrivals) }
    ensures pipelines { IfOk result (λ ahead. ahead.board.runs.pipelines ≡ length session.now.pipelines) }
    ensures sound { IfOk result (λ ahead. IsSound session.now (state_of session.now.arrivals [] ahead.board)) }
{
    let arrivals = session.arrivals.items();
    let pipelines = session.pipelines.items().len() as u32;
    let mut board = board.copy(alloc)?;
    let mut clocks = Vec::new(alloc);
    let mut look = look_at(&board, arrivals, pipelines);
    while let Look::Jump(clock) = look {
        board.advance(alloc, arrivals, clock)?;
        clocks.push(clock)?;
        look = look_at(&board, arrivals, pipelines);
    }
    Ok(Ahead {
        board,
        clocks,
        look,
    })
}
