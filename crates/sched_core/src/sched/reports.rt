// The reports of preparations and analyses.

ghost use Rattle.std.specs.Prelude.{◌≡◌, ◌≤◌, ◌<◌, ◌&&◌, ◌==◌, Some, None, length, slice_set, IfOk, IfErr, OnOk, OnErr};
ghost use Rattle.std.specs.List.{list_any};
ghost use Rattle.exp_runs.specs.Keys.{run_of};
ghost use Rattle.exp_model.specs.declared.session.Experiment.{Experiment};
ghost use Rattle.sched_state.specs.declared.entry.Flight.{Flight};
ghost use Rattle.sched_state.specs.declared.entry.JobName.TheVariants as name;
ghost use Rattle.sched_state.specs.declared.entry.SchedAct.TheVariants as act;
ghost use Rattle.sched_state.specs.State.{rid_of};
ghost use Rattle.sched_state.specs.Lawful.{IsFlying};
ghost use Rattle.sched_state.specs.Reports.{prepared, steps_of};
ghost use Rattle.sched_state.specs.Boards.{state_of};
ghost use Rattle.sched_core.specs.Scheds.{IsKitFor, sched_state, source_of_run};
ghost use Rattle.sched_core.specs.Calls.{HasJob, IsLate, IsOwnKit, IsWhy, KitFits, TookIt, same_job, with_entry};

use crate::answer::{Refused, RefusedRid, Why};
use crate::payload::Payload;
use crate::sched::Sched;
use dataset_db::Datasets;
use exp_model::{HostStep, Session};
use exp_runs::{Run, Status};
use sched_state::{Board, Flight, JobName, SchedAct, SchedEntry};
use std::alloc::{AllocError, Global};

// Where a scheduler stands then.
#[derive(Drop)]
struct Done {
    board: Board,
    datasets: Datasets,
}

// A report that is refused.
fn refused<P: Drop>(why: Why, kit: P) -> Refused<P>
    ensures { result ≡ record { why = why; kit = kit; result = None } }
{
    Refused {
        why,
        kit,
        result: None,
    }
}

fn is_same(a: JobName, b: JobName) -> bool
    ensures { result ≡ same_job a b }
{
    match a {
        JobName::Prepare { rid } => matches!(b, JobName::Prepare { rid: other } if other == rid),
        JobName::Step { rid, pos } => match b {
            JobName::Step {
                rid: other,
                pos: place,
            } => rid == other && pos == place,
            _ => false,
        },
        JobName::Analyze { rid } => matches!(b, JobName::Analyze { rid: other } if other == rid),
    }
}

// Whether the job is in flight.
fn is_flying(flying: &[Flight], job: JobName) -> bool
    ensures { result ≡ list_any (λ (flight : Flight). same_job job flight.job) flying.now }
{
    flying.iter().any(|flight| is_same(job, flight.job))
}

// The analyze steps of the run's experiment.
fn analyze_steps<'a>(session: &'a Session, run: &Run) -> &'a [HostStep]
    ensures { result.now ≡ steps_of (λ (e : Experiment). e.analyze) session.now run.now }
{
    match session.experiments.items().get(run.experiment as usize) {
        Some(experiment) => experiment.analyze.items(),
        None => &[],
    }
}

// The prepare steps of the run's experiment.
fn prepare_steps<'a>(session: &'a Session, run: &Run) -> &'a [HostStep]
    ensures { result.now ≡ steps_of (λ (e : Experiment). e.prepare) session.now run.now }
{
    match session.experiments.items().get(run.experiment as usize) {
        Some(experiment) => experiment.prepare.items(),
        None => &[],
    }
}

/// The number of the source of the run's experiment.
pub(super) fn source_of(session: &Session, run: &Run) -> u32
    ensures { run.now.experiment < length session.now.experiments → source_of_run session.now run.now ≡ Some result }
{
    match session.experiments.items().get(run.experiment as usize) {
        Some(experiment) => experiment.source,
        None => 0,
    }
}

/// Puts a kit into the place of its run.
pub(super) fn put_in<P: Drop>(kits: &mut Vec<Option<P>>, rid: u64, kit: P)
    requires { rid < length kits.old.items }
    ensures { kits.new.items ≡ slice_set kits.old.items rid (Some kit) }
{
    kits[rid as usize] = Some(kit);
}

impl<P: Payload> Sched<P> {
    /// Reports that a run's source was compiled, and hands over what that made: its prepare steps are done. A refused report
    /// changes nothing, and hands the kit back.
    pub fn prepared(&mut self, alloc: Global, who: u32, rid: u64, kit: P) -> Result<(), Refused<P>>
        requires took { TookIt (sched_state self.old) who (name.Prepare rid) }
        requires kit { KitFits P.source_of P.stands_for P.has_call self.old rid kit }
        ensures flying { OnOk result (HasJob (sched_state self.old) (name.Prepare rid)) }
        ensures own { OnOk result (IsOwnKit self.old.session (sched_state self.old) rid (P.source_of kit)) }
        ensures ok { OnOk result (self.new ≡ with_entry who (act.Prepared rid) self.old) }
        ensures why { IfErr result (λ refused. IsWhy self.old.session (sched_state self.old) (name.Prepare rid) (Some (P.source_of kit)) refused.why) }
        ensures back { IfErr result (λ refused. (refused.kit ≡ kit) × (refused.result ≡ None)) }
        ensures err { OnErr result (self.new ≡ self.old) }
    {
        let run = match self.reported(rid, JobName::Prepare { rid }) {
            Ok(run) => run,
            Err(why) => return Err(refused(why, kit)),
        };
        let source = source_of(&self.session, &run);
        if kit.source() != source {
            return Err(refused(Why::Foreign { source }, kit));
        }
        match self.write_prepared(alloc, who, run, kit) {
            Ok(()) => Ok(()),
            Err(kit) => Err(refused(Why::Memory, kit)),
        }
    }

    /// Reports that a run's source was refused: the run failed, or is deleted if it was doomed. A refused report changes
    /// nothing.
    pub fn failed(&mut self, alloc: Global, who: u32, rid: u64) -> Result<(), RefusedRid>
        requires { TookIt (sched_state self.old) who (name.Prepare rid) }
        ensures flying { OnOk result (HasJob (sched_state self.old) (name.Prepare rid)) }
        ensures ok { OnOk result (self.new ≡ with_entry who (act.SourceRefused rid) self.old) }
        ensures why { IfErr result (λ refused. IsWhy self.old.session (sched_state self.old) (name.Prepare rid) None refused.why) }
        ensures err { OnErr result (self.new ≡ self.old) }
    {
        let run = match self.reported(rid, JobName::Prepare { rid }) {
            Ok(run) => run,
            Err(why) => return Err(RefusedRid { why }),
        };
        match self.write_refused(alloc, who, run) {
            Ok(()) => Ok(()),
            Err(_) => Err(RefusedRid { why: Why::Memory }),
        }
    }

    // Where the scheduler stands after a preparation.
    fn after_preparation(&self, alloc: Global, run: &Run) -> Result<Done, AllocError>
        requires { run_of (sched_state self.now).runs run.now.rid ≡ Some run.now }
        ensures state { IfOk result (λ done. state_of self.now.session.arrivals done.datasets done.board ≡ prepared self.now.session run.now.rid (sched_state self.now)) }
        ensures taken { IfOk result (λ done. done.board.taken ≤ length self.now.session.arrivals) }
        ensures pipelines { IfOk result (λ done. done.board.runs.pipelines ≡ length self.now.session.pipelines) }
    {
        let mut board = self.board.copy(alloc)?;
        let mut datasets = self.datasets.copy(alloc)?;
        let steps = prepare_steps(&self.session, run);
        board.finish_stage(alloc, &mut datasets, run, steps, Status::Prepared)?;
        Ok(Done { board, datasets })
    }

    // Does the prepare steps of a run, keeps its kit, and writes that down; Err is want of memory, and hands the kit back.
    fn write_prepared(&mut self, alloc: Global, who: u32, run: Run, kit: P) -> Result<(), P>
        requires run { run_of (sched_state self.old).runs run.rid ≡ Some run }
        requires flying { IsFlying (sched_state self.old) who (name.Prepare run.rid) }
        requires kit { IsKitFor P.source_of P.stands_for P.has_call self.old.session run kit }
        ensures ok { OnOk result (self.new ≡ with_entry who (act.Prepared run.rid) self.old) }
        ensures back { IfErr result (λ back. back ≡ kit) }
        ensures err { OnErr result (self.new ≡ self.old) }
    {
        let Ok(done) = self.after_preparation(alloc, &run) else {
            return Err(kit);
        };
        let Ok(()) = self.entries.reserve(2) else {
            return Err(kit);
        };
        let Done { board, datasets } = done;
        self.board = board;
        self.datasets = datasets;
        put_in(&mut self.kits, run.rid, kit);
        self.entries.push_reserved(SchedEntry {
            chair: who,
            act: SchedAct::Prepared { rid: run.rid },
        });
        Ok(())
    }

    // Writes down that a run's source was refused.
    fn write_refused(&mut self, alloc: Global, who: u32, run: Run) -> Result<(), AllocError>
        requires run { run_of (sched_state self.old).runs run.rid ≡ Some run }
        requires flying { IsFlying (sched_state self.old) who (name.Prepare run.rid) }
        ensures ok { OnOk result (self.new ≡ with_entry who (act.SourceRefused run.rid) self.old) }
        ensures err { OnErr result (self.new ≡ self.old) }
    {
        self.entries.reserve(2)?;
        let mut board = self.board.copy(alloc)?;
        board.refuse(alloc, &run)?;
        self.board = board;
        self.entries.push_reserved(SchedEntry {
            chair: who,
            act: SchedAct::SourceRefused { rid: run.rid },
        });
        Ok(())
    }

    /// Reports that a run is to be analyzed now: its analyze steps are done. A refused report changes nothing.
    pub fn analyzed(&mut self, alloc: Global, who: u32, rid: u64) -> Result<(), RefusedRid>
        requires { TookIt (sched_state self.old) who (name.Analyze rid) }
        ensures flying { OnOk result (HasJob (sched_state self.old) (name.Analyze rid)) }
        ensures ok { OnOk result (self.new ≡ with_entry who (act.Analyzed rid) self.old) }
        ensures why { IfErr result (λ refused. IsWhy self.old.session (sched_state self.old) (name.Analyze rid) None refused.why) }
        ensures err { OnErr result (self.new ≡ self.old) }
    {
        let run = match self.reported(rid, JobName::Analyze { rid }) {
            Ok(run) => run,
            Err(why) => return Err(RefusedRid { why }),
        };
        match self.write_analyzed(alloc, who, run) {
            Ok(()) => Ok(()),
            Err(_) => Err(RefusedRid { why: Why::Memory }),
        }
    }

    /// The run whose job is reported.
    pub(super) fn reported(&self, rid: u64, job: JobName) -> Result<Run, Why>
        requires { rid_of job ≡ rid }
        ensures run { IfOk result (λ run. run_of (sched_state self.now).runs rid ≡ Some run) }
        ensures flying { OnOk result (HasJob (sched_state self.now) job) }
        ensures why { IfErr result (λ why. IsLate (sched_state self.now) job why) }
    {
        let Some(run) = self.board.runs.get(rid) else {
            return Err(Why::NoRun);
        };
        if is_flying(&self.board.flying, job) {
            Ok(*run)
        } else {
            Err(Why::WrongStatus { is: run.status })
        }
    }

    // Does the analyze steps of a run, and writes that down.
    fn write_analyzed(&mut self, alloc: Global, who: u32, run: Run) -> Result<(), AllocError>
        requires run { run_of (sched_state self.old).runs run.rid ≡ Some run }
        requires flying { IsFlying (sched_state self.old) who (name.Analyze run.rid) }
        ensures ok { OnOk result (self.new ≡ with_entry who (act.Analyzed run.rid) self.old) }
        ensures err { OnErr result (self.new ≡ self.old) }
    {
        self.entries.reserve(2)?;
        let mut board = self.board.copy(alloc)?;
        let mut datasets = self.datasets.copy(alloc)?;
        let steps = analyze_steps(&self.session, &run);
        board.finish_stage(alloc, &mut datasets, &run, steps, Status::Done)?;
        self.board = board;
        self.datasets = datasets;
        self.entries.push_reserved(SchedEntry {
            chair: who,
            act: SchedAct::Analyzed { rid: run.rid },
        });
        Ok(())
    }
}
