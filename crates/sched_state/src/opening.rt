// How a scheduler begins.

ghost use Rattle.std.specs.Prelude.{◌≡◌, ◌≤◌, [], length, IfOk, IsTrue};
ghost use Rattle.sched_state.specs.Arrivals.{opening};
ghost use Rattle.exp_model.specs.Sessions.{is_session};
ghost use Rattle.sched_state.specs.Boards.{state_of};

use crate::board::Board;
use exp_model::Session;
use exp_runs::Runs;
use std::alloc::{AllocError, Global};

impl Board {
    /// Nothing has happened, and what comes at 0 is taken.
    pub fn opening(alloc: Global, session: &Session, pipelines: u32) -> Result<Board, AllocError>
        requires session { IsTrue (is_session session.now) }
        requires pipelines { length session.now.pipelines ≡ pipelines }
        ensures state { IfOk result (λ board. state_of session.now.arrivals [] board ≡ opening session.now) }
        ensures taken { IfOk result (λ board. board.taken ≤ length session.now.arrivals) }
        ensures pipelines { IfOk result (λ board. board.runs.pipelines ≡ pipelines) }
    {
        let mut board = Board {
            runs: Runs::new(alloc, pipelines)?,
            stack: Vec::new(alloc),
            flying: Vec::new(alloc),
            clock: 0,
            taken: 0,
        };
        board.advance(alloc, session.arrivals.items(), 0)?;
        Ok(board)
    }
}
