// A core that lies at its desk.

ghost use Rattle.std.specs.Prelude.{length};
ghost use Rattle.desk_kernels.specs.Chairs.{core_entries};
ghost use Rattle.desk_kernels.specs.Sessions.{HasEndedAt, HasGivenUpAt, IsOpenAt, IsSeenOpen, IsUnstarted, MayBegin};

use crate::asking::ask_until_decided;
use crate::ending::end;
use crate::starting::start;
use core_session::Lender;
use desk::{Chair, Desk};
use lab_kernels::keep_set;
use rtio_core::{Core, StartOf};
use rtio_types::{Outcome, Reply, Request};
use sched_state::DataSet;
use std::alloc::{AllocError, Global};
use std::sync::Wait;

/// Lends a core from its desk to sessions of a chair, which holds it only to start, to ask and to end. Keeps the datasets that are
/// set.
#[derive(Drop)]
pub(crate) struct AtDesk<'a, R: Wait> {
    pub(crate) rt: &'a R,
    pub(crate) desk: &'a Desk<Core>,
}

impl<R: Wait> Lender for AtDesk<'_, R> {
    type Place = Chair<Core>;

    type Kept = Vec<DataSet>;

    ghost may_start = { λ m. MayBegin m.desk.now };

    ghost is_open = { λ m. IsOpenAt m.desk.now };

    ghost has_ended = { λ m. HasEndedAt m.desk.now };

    ghost is_given_up = { λ m. HasGivenUpAt m.desk.now };

    ghost is_unended = { λ m. IsOpenAt m.desk.now };

    ghost is_held_up = { λ m o asked request now. IsSeenOpen m.desk.now o asked now.0 };

    ghost is_unstarted = { λ m. IsUnstarted m.desk.now };

    ghost entries = { λ m now. length (core_entries now.0.seen) };

    fn start(
        &self,
        alloc: Global,
        chair: &mut Chair<Core>,
        _sets: &mut Vec<DataSet>,
        of: StartOf,
    ) -> Result<i64, AllocError> {
        start(self.rt, alloc, self.desk, chair, of)
    }

    fn ask(
        &self,
        alloc: Global,
        chair: &mut Chair<Core>,
        sets: &mut Vec<DataSet>,
        request: Request,
        cursor: i64,
    ) -> Result<Option<Reply>, AllocError> {
        // First of all, so that for want of memory nothing was asked. A request that sets a dataset is always decided.
        keep_set(alloc, sets, &request)?;
        ask_until_decided(self.rt, alloc, self.desk, chair, request, cursor)
    }

    fn end(
        &self,
        alloc: Global,
        chair: &mut Chair<Core>,
        _sets: &mut Vec<DataSet>,
        outcome: Outcome,
        cursor: i64,
    ) -> Result<(), AllocError> {
        end(self.rt, alloc, self.desk, chair, outcome, cursor)
    }
}
