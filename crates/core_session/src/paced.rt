// Sessions that take their steps as a schedule says.

ghost use Rattle.std.specs.Prelude.{◌≡◌, length, None};
ghost use Rattle.rtio_core.specs.Entries.{open_session};
ghost use Rattle.core_session.specs.Paced.{IsGivenUp, IsHeldUp, IsPlayed, IsPlayedOut, IsUnended};

use crate::lender::Lender;
use crate::starting::start_free;
use crate::stepping::{ask_by_steps, tick_on};
use rtio_core::{Core, StartOf};
use rtio_types::{Outcome, Reply, Request};
use run_schedule::Schedule;
use std::alloc::{AllocError, Global};

/// Lends a core of one's own to sessions of chair 0, step by step as the schedule says.
#[derive(Clone, Copy, Debug)]
pub(crate) struct Paced;

impl Lender for Paced {
    type Place = Core;

    type Kept = Schedule;

    ghost may_start = { λ m now. open_session now.0.history ≡ None };

    ghost is_open = { λ m. IsPlayed };

    ghost has_ended = { λ m. IsPlayedOut };

    ghost is_given_up = { λ m. IsGivenUp };

    ghost is_unended = { λ m. IsUnended };

    ghost is_held_up = { λ m. IsHeldUp };

    ghost is_unstarted = { λ m old new. new.0 ≡ old.0 };

    ghost entries = { λ m now. length now.0.history };

    fn start(
        &self,
        alloc: Global,
        core: &mut Core,
        _schedule: &mut Schedule,
        of: StartOf,
    ) -> Result<i64, AllocError> {
        start_free(alloc, core, 0, of)
    }

    fn ask(
        &self,
        alloc: Global,
        core: &mut Core,
        schedule: &mut Schedule,
        request: Request,
        cursor: i64,
    ) -> Result<Option<Reply>, AllocError> {
        let decided = ask_by_steps(alloc, core, schedule, request, cursor)?;
        let _after = core.history();
        Ok(decided)
    }

    fn end(
        &self,
        alloc: Global,
        core: &mut Core,
        schedule: &mut Schedule,
        outcome: Outcome,
        cursor: i64,
    ) -> Result<(), AllocError> {
        tick_on(core, schedule);
        core.end(alloc, 0, outcome, cursor)
    }
}
