// The report of a step.

ghost use Rattle.std.specs.Prelude.{◌≡◌, ◌≤◌, ◌<◌, Some, None, length, slice_set, if◌then◌else◌, IfOk, IfErr, OnOk, OnErr};
ghost use Rattle.exp_runs.specs.declared.run.Run.{Run};
ghost use Rattle.exp_runs.specs.Keys.{run_of};
ghost use Rattle.sched_state.specs.declared.entry.JobName.TheVariants as name;
ghost use Rattle.sched_state.specs.State.{passes};
ghost use Rattle.sched_state.specs.Lawful.{IsFlying};
ghost use Rattle.sched_state.specs.Reports.{step_effect};
ghost use Rattle.sched_state.specs.Boards.{state_of};
ghost use Rattle.sched_core.specs.declared.answer.Why.TheVariants.{Memory};
ghost use Rattle.sched_core.specs.Scheds.{IsKitFor, sched_state};
ghost use Rattle.sched_core.specs.Calls.{HasJob, IsOwnKit, IsWhy, KitFits, RanFits, TookIt, is_through, stepped};

use crate::answer::{Refused, Why};
use crate::payload::Payload;
use crate::sched::Sched;
use crate::sched::reports::{put_in, source_of};
use dataset_db::Datasets;
use exp_runs::{Run, Status};
use sched_state::{Board, JobName, KernelResult, SchedAct, SchedEntry, StepWord};
use std::alloc::{AllocError, Global};

// Where a scheduler stands after a step, and what became of the step.
#[derive(Drop)]
struct StepDone {
    board: Board,
    datasets: Datasets,
    word: StepWord,
}

// A report that is refused.
fn handed_back<P: Drop>(why: Why, kit: P, ran: Option<KernelResult>) -> Refused<P>
    ensures { result ≡ record { why = why; kit = kit; result = ran } }
{
    Refused {
        why,
        kit,
        result: ran,
    }
}

// Whether the run has no step left to do.
fn is_through(board: &Board, rid: u64) -> bool
    ensures { result ≡ passes (λ (run : Run). is_through run.status) board.now.runs.runs rid }
{
    match board.runs.get(rid) {
        Some(run) => matches!(
            run.status,
            Status::RunDone | Status::Done | Status::Failed | Status::Terminated | Status::Deleted
        ),
        None => false,
    }
}

// Puts a kit back into the place of its run, unless the run has no step left to do.
fn give_back<P: Drop>(kits: &mut Vec<Option<P>>, rid: u64, kit: P, through: bool)
    requires { rid < length kits.old.items }
    ensures { kits.new.items ≡ (if through then kits.old.items else slice_set kits.old.items rid (Some kit)) }
{
    if !through {
        put_in(kits, rid, kit);
    }
}

impl<P: Payload> Sched<P> {
    /// Reports that a step of a run was done, hands the run's kit back, and of a kernel step its result: the clock rises by one,
    /// what arrives is taken, and the step has its effect. A refused report changes nothing, and hands back kit and result.
    pub fn step_done(
        &mut self,
        alloc: Global,
        who: u32,
        rid: u64,
        pos: u32,
        kit: P,
        ran: Option<KernelResult>,
    ) -> Result<(), Refused<P>>
        requires took { TookIt (sched_state self.old) who (name.Step rid pos) }
        requires kit { KitFits P.source_of P.stands_for P.has_call self.old rid kit }
        requires ran { RanFits self.old rid pos ran }
        ensures flying { OnOk result (HasJob (sched_state self.old) (name.Step rid pos)) }
        ensures own { OnOk result (IsOwnKit self.old.session (sched_state self.old) rid (P.source_of kit)) }
        ensures ok { OnOk result (self.new ≡ stepped who rid pos ran self.old) }
        ensures why { IfErr result (λ refused. IsWhy self.old.session (sched_state self.old) (name.Step rid pos) (Some (P.source_of kit)) refused.why) }
        ensures back { IfErr result (λ refused. (refused.kit ≡ kit) × (refused.result ≡ ran)) }
        ensures err { OnErr result (self.new ≡ self.old) }
    {
        let run = match self.reported(rid, JobName::Step { rid, pos }) {
            Ok(run) => run,
            Err(why) => return Err(handed_back(why, kit, ran)),
        };
        let source = source_of(&self.session, &run);
        if kit.source() != source {
            return Err(handed_back(Why::Foreign { source }, kit, ran));
        }
        self.write_step(alloc, who, run, pos, kit, ran)
    }

    // Where the scheduler stands after a step.
    fn after_step(
        &self,
        alloc: Global,
        rid: u64,
        pos: u32,
        ran: &Option<KernelResult>,
    ) -> Result<StepDone, AllocError>
        requires { HasJob (sched_state self.now) (name.Step rid pos) }
        ensures state { IfOk result (λ done. state_of self.now.session.arrivals done.datasets done.board ≡ (step_effect self.now.session rid pos ran.now (sched_state self.now)).state) }
        ensures word { IfOk result (λ done. done.word ≡ (step_effect self.now.session rid pos ran.now (sched_state self.now)).word) }
        ensures taken { IfOk result (λ done. done.board.taken ≤ length self.now.session.arrivals) }
        ensures pipelines { IfOk result (λ done. done.board.runs.pipelines ≡ length self.now.session.pipelines) }
    {
        let mut board = self.board.copy(alloc)?;
        let mut datasets = self.datasets.copy(alloc)?;
        let ran = ran.as_ref();
        let word = board.report_step(alloc, &mut datasets, &self.session, rid, pos, ran)?;
        Ok(StepDone {
            board,
            datasets,
            word,
        })
    }

    // Does a step of a run, keeps its kit where it goes on, and writes that down; Err is want of memory, and hands back kit and
    // result.
    fn write_step(
        &mut self,
        alloc: Global,
        who: u32,
        run: Run,
        pos: u32,
        kit: P,
        ran: Option<KernelResult>,
    ) -> Result<(), Refused<P>>
        requires run { run_of (sched_state self.old).runs run.rid ≡ Some run }
        requires flying { IsFlying (sched_state self.old) who (name.Step run.rid pos) }
        requires kit { IsKitFor P.source_of P.stands_for P.has_call self.old.session run kit }
        requires ran { RanFits self.old run.rid pos ran }
        ensures ok { OnOk result (self.new ≡ stepped who run.rid pos ran self.old) }
        ensures back { IfErr result (λ refused. refused ≡ record { why = Memory; kit = kit; result = ran }) }
        ensures err { OnErr result (self.new ≡ self.old) }
    {
        let Ok(done) = self.after_step(alloc, run.rid, pos, &ran) else {
            return Err(handed_back(Why::Memory, kit, ran));
        };
        let Ok(()) = self.entries.reserve(2) else {
            return Err(handed_back(Why::Memory, kit, ran));
        };
        let StepDone {
            board,
            datasets,
            word,
        } = done;
        let through = is_through(&board, run.rid);
        let clock = board.clock;
        self.board = board;
        self.datasets = datasets;
        give_back(&mut self.kits, run.rid, kit, through);
        self.entries.push_reserved(SchedEntry {
            chair: who,
            act: SchedAct::Stepped {
                rid: run.rid,
                pos,
                pipeline: run.pipeline,
                clock,
                result: ran,
                word,
            },
        });
        Ok(())
    }
}
