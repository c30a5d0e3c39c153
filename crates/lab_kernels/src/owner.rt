// A core of one's own.

ghost use Rattle.std.specs.Prelude.{◌≡◌, length};
ghost use Rattle.lab_kernels.specs.Owning.{IsOwnEnded, IsOwnGivenUp, IsOwnHeld, IsOwnOpen, MayBegin};

use crate::asking::ask_until_decided;
use crate::keeping::keep_set;
use core_session::{Lender, start_free};
use rtio_core::{Core, StartOf};
use rtio_types::{Outcome, Reply, Request};
use sched_state::DataSet;
use std::alloc::{AllocError, Global};

/// Lends a core of one's own to sessions of this chair, at once: the core ticks only where a request has to wait, or to where it is
/// stopped before a request is asked. Keeps the datasets that are set.
#[derive(Clone, Copy, Debug)]
pub(crate) struct Owner {
    pub(crate) who: u32,
}

impl Lender for Owner {
    type Place = Core;

    type Kept = Vec<DataSet>;

    ghost may_start = { λ m. MayBegin };

    ghost is_open = { λ m. IsOwnOpen m.who };

    ghost has_ended = { λ m. IsOwnEnded m.who };

    ghost is_given_up = { λ m. IsOwnGivenUp m.who };

    ghost is_unended = { λ m. IsOwnOpen m.who };

    ghost is_held_up = { λ m. IsOwnHeld m.who };

    ghost is_unstarted = { λ m old new. new.0 ≡ old.0 };

    ghost entries = { λ m now. length now.0.history };

    fn start(
        &self,
        alloc: Global,
        core: &mut Core,
        _sets: &mut Vec<DataSet>,
        of: StartOf,
    ) -> Result<i64, AllocError> {
        start_free(alloc, core, self.who, of)
    }

    fn ask(
        &self,
        alloc: Global,
        core: &mut Core,
        sets: &mut Vec<DataSet>,
        request: Request,
        cursor: i64,
    ) -> Result<Option<Reply>, AllocError> {
        // First of all, so that for want of memory nothing was asked. A request that sets a dataset is always decided.
        keep_set(alloc, sets, &request)?;
        match ask_until_decided(alloc, core, self.who, request)? {
            Some(reply) => {
                let _after = core.history();
                Ok(Some(reply))
            }
            None => {
                core.end(alloc, self.who, Outcome::Horizon, cursor)?;
                Ok(None)
            }
        }
    }

    fn end(
        &self,
        alloc: Global,
        core: &mut Core,
        _sets: &mut Vec<DataSet>,
        outcome: Outcome,
        cursor: i64,
    ) -> Result<(), AllocError> {
        core.end(alloc, self.who, outcome, cursor)
    }
}
