// The scheduler itself.

ghost use Rattle.std.specs.Prelude.{◌≡◌, ◌≤◌, ◌+◌, ◌++◌, ◌<◌, Some, None, length, replicate, IsTrue, IfOk, OnOk, OnErr, vec_len, vec_capacity};
ghost use Rattle.limits.specs.Limits.{most_runs};
ghost use Rattle.exp_model.specs.declared.session.Session.{Session};
ghost use Rattle.exp_model.specs.Sessions.{is_session};
ghost use Rattle.sched_core.specs.Scheds.{IsSched, new_sched, sched_state};
ghost use Rattle.sched_state.specs.declared.entry.SchedAct.TheVariants as act;
ghost use Rattle.sched_state.specs.State.{rid_of};
ghost use Rattle.sched_state.specs.Picks.{pick};
ghost use Rattle.sched_state.specs.Lawful.{halted_by};
ghost use Rattle.sched_state.specs.Boards.{state_of};
ghost use Rattle.sched_core.specs.Calls.{AnswersNext, HandedOut, HandsOut, jumped, jumps, stopped, with_entry};
ghost use Rattle.sched_core.specs.Jumps.{JumpsTo};

mod reports;
mod steps;

use crate::ahead::{Ahead, look_ahead};
use crate::answer::{Job, Next};
use crate::offer::{pipeline_of, source_of, step_of};
use crate::payload::Payload;
use dataset_db::Datasets;
use exp_model::Session;
use exp_runs::Runs;
use limits::MOST_RUNS;
use sched_state::{Board, JobName, Look, SchedAct, SchedEntry};
use std::alloc::{AllocError, Global};
use std::marker::Model;

/// A scheduler. Contracts see it as its session and its history: all else that it tells is what these make of it. Statuses,
/// priorities, due dates, flushing and pauses are as in the ARTIQ manual; the lab clock and the history are this project's own.
#[derive(Drop)]
pub struct Sched<P: Payload> {
    session: Session,
    board: Board,
    datasets: Datasets,
    entries: Vec<SchedEntry>,
    kits: Vec<Option<P>>,
    halted: Option<u32>,
}

impl<P: Payload> Model for Sched<P> {
    ghost use Rattle.sched_core.specs.Scheds.{SchedValue};

    ghost Value = { SchedValue };

    ghost use Rattle.sched_core.specs.Inside.{sched_value, IsSchedInside};

    ghost view = { sched_value };

    ghost invariant = { IsSchedInside P.source_of P.stands_for P.has_call };
}

impl<P: Payload> Sched<P> {
    /// A scheduler at clock 0 with an empty history; what comes at 0 is taken. The only error is want of memory.
    pub fn new(alloc: Global, session: &Session) -> Result<Sched<P>, AllocError>
        requires { IsTrue (is_session session.now) }
        ensures { IfOk result (λ sched. sched ≡ new_sched session.now) }
    {
        let session = session.copy(alloc)?;
        let pipelines = session.pipelines.items().len() as u32;
        let board = Board::opening(alloc, &session, pipelines)?;
        let kits = no_kits(alloc)?;
        let mut entries = Vec::new(alloc);
        entries.reserve(1)?;
        Ok(Sched {
            session,
            board,
            datasets: Datasets::new(alloc),
            entries,
            kits,
            halted: None,
        })
    }

    /// Takes the job that is due, for this chair. Where none is due and none is in flight the clock moves on to the next
    /// moment at which something may change. Idle means that a job in flight has to be reported first, Finished that nothing
    /// is left, Stopped that a chair halted the scheduler. Err is want of memory, and nothing has changed then.
    pub fn next(&mut self, alloc: Global, who: u32) -> Result<Next<P>, AllocError>
        ensures ok { IfOk result (λ next. AnswersNext P.source_of P.stands_for P.has_call who self.old next self.new) }
        ensures err { OnErr result (self.new ≡ self.old) }
        // Want of memory doesn't hide that a chair halted the scheduler.
        ensures memory { OnErr result (halted_by self.old.history ≡ None) }
    {
        if let Some(by) = self.halted {
            return Ok(Next::Stopped { by });
        }
        let ahead = look_ahead(alloc, &self.session, &self.board)?;
        match ahead.look {
            Look::Due(job) => self.take(alloc, who, ahead, job),
            Look::Wait => Ok(Next::Idle),
            Look::Over => {
                self.pass(alloc, who, ahead)?;
                Ok(Next::Finished)
            }
            Look::Jump(_) => unreachable!(),
            Look::Stuck => unreachable!(),
        }
    }

    // Takes the job that is due after the clock moved on, with what belongs to it.
    fn take(
        &mut self,
        alloc: Global,
        who: u32,
        ahead: Ahead,
        job: JobName,
    ) -> Result<Next<P>, AllocError>
        requires going { halted_by self.old.history ≡ None }
        requires jumps { JumpsTo self.old.session (sched_state self.old) ahead.clocks.items (state_of self.old.session.arrivals (sched_state self.old).datasets ahead.board) }
        requires taken { ahead.board.taken ≤ length self.old.session.arrivals }
        requires pipelines { ahead.board.runs.pipelines ≡ length self.old.session.pipelines }
        requires due { pick self.old.session (state_of self.old.session.arrivals (sched_state self.old).datasets ahead.board) ≡ Some job }
        ensures ok { IfOk result (λ next. AnswersNext P.source_of P.stands_for P.has_call who self.old next self.new) }
        ensures err { OnErr result (self.new ≡ self.old) }
    {
        match job {
            JobName::Prepare { rid } => {
                let source = source_of(&self.session, &ahead.board, rid);
                self.commit(alloc, who, ahead, job)?;
                Ok(Next::Job(Job::Prepare { rid, source }))
            }
            JobName::Step { rid, pos } => {
                let pipeline = pipeline_of(&ahead.board, rid);
                let found = step_of(alloc, &self.session, &ahead.board, rid, pos)?;
                let Some(step) = found else {
                    unreachable!();
                };
                let kit = self.commit(alloc, who, ahead, job)?;
                let Some(kit) = kit else {
                    unreachable!();
                };
                Ok(Next::Job(Job::Step {
                    rid,
                    pos,
                    pipeline,
                    step,
                    kit,
                }))
            }
            JobName::Analyze { rid } => {
                self.commit(alloc, who, ahead, job)?;
                Ok(Next::Job(Job::Analyze { rid }))
            }
        }
    }

    // The clock moves on as it was looked ahead, and nothing else happens.
    fn pass(&mut self, alloc: Global, who: u32, ahead: Ahead) -> Result<(), AllocError>
        requires going { halted_by self.old.history ≡ None }
        requires jumps { JumpsTo self.old.session (sched_state self.old) ahead.clocks.items (state_of self.old.session.arrivals (sched_state self.old).datasets ahead.board) }
        requires taken { ahead.board.taken ≤ length self.old.session.arrivals }
        requires pipelines { ahead.board.runs.pipelines ≡ length self.old.session.pipelines }
        ensures ok { OnOk result (self.new ≡ jumped who ahead.clocks.items self.old) }
        ensures err { OnErr result (self.new ≡ self.old) }
    {
        let Ahead { board, clocks, .. } = ahead;
        self.entries.reserve(clocks.len() + 1)?;
        self.board = board;
        write_jumps(&mut self.entries, who, &clocks);
        Ok(())
    }

    // Takes the job that is due after it. With a step goes what is kept of its run's source.
    fn commit(
        &mut self,
        alloc: Global,
        who: u32,
        ahead: Ahead,
        job: JobName,
    ) -> Result<Option<P>, AllocError>
        requires going { halted_by self.old.history ≡ None }
        requires jumps { JumpsTo self.old.session (sched_state self.old) ahead.clocks.items (state_of self.old.session.arrivals (sched_state self.old).datasets ahead.board) }
        requires taken { ahead.board.taken ≤ length self.old.session.arrivals }
        requires pipelines { ahead.board.runs.pipelines ≡ length self.old.session.pipelines }
        requires due { pick self.old.session (state_of self.old.session.arrivals (sched_state self.old).datasets ahead.board) ≡ Some job }
        ensures ok { OnOk result (self.new ≡ with_entry who (act.Took job) (jumped who ahead.clocks.items self.old)) }
        ensures kit { IfOk result (λ kit. HandsOut P.source_of P.stands_for P.has_call self.old.session (state_of self.old.session.arrivals (sched_state self.old).datasets ahead.board) job kit) }
        ensures err { OnErr result (self.new ≡ self.old) }
    {
        let Ahead {
            mut board,
            clocks,
            ..
        } = ahead;
        self.entries.reserve(clocks.len() + 2)?;
        board.begin(alloc, who, job)?;
        let kit = hand_out(&mut self.kits, job);
        self.board = board;
        write_jumps(&mut self.entries, who, &clocks);
        self.entries.push_reserved(SchedEntry {
            chair: who,
            act: SchedAct::Took(job),
        });
        Ok(kit)
    }

    /// The chair halts the scheduler, where none did: jobs in flight may still be reported, and none is given out any more. It
    /// takes no memory.
    pub fn stop(&mut self, alloc: Global, who: u32)
        ensures { self.new ≡ stopped who self.old }
    {
        match self.halted {
            Some(_) => {}
            None => {
                self.entries.push_reserved(SchedEntry {
                    chair: who,
                    act: SchedAct::Halted,
                });
                self.halted = Some(who);
            }
        }
    }

    /// The lab clock: how many steps were reported, and what was passed over while nothing was to be done.
    pub fn clock(&self) -> u64
        ensures { result ≡ (sched_state self.now).clock }
    {
        self.board.clock
    }

    /// The history. It is lawful: each job was due when it was taken, each report is of a job in flight, by the chair that took it,
    /// with the word and clock that it has to have, and each jump was to the next moment at which something may change.
    pub fn history(&self) -> &[SchedEntry]
        ensures value { result.now ≡ self.now.history }
        ensures sched { IsSched self.now }
    {
        &self.entries
    }

    /// The runs.
    pub fn runs(&self) -> &Runs
        ensures { result.now.runs ≡ (sched_state self.now).runs }
    {
        &self.board.runs
    }

    /// The datasets.
    pub fn datasets(&self) -> &Datasets
        ensures { result.now ≡ (sched_state self.now).datasets }
    {
        &self.datasets
    }
}

// Takes the kit of a step's run out of its place.
fn hand_out<P: Drop>(kits: &mut Vec<Option<P>>, job: JobName) -> Option<P>
    requires { rid_of job < length kits.old.items }
    ensures { HandedOut job kits.old.items result kits.new.items }
{
    match job {
        JobName::Step { rid, .. } => kits[rid as usize].take(),
        _ => None,
    }
}

// Writes down that the clock moved on.
fn write_jumps(entries: &mut Vec<SchedEntry>, who: u32, clocks: &[u64])
    requires { vec_len entries.old + length clocks.now ≤ vec_capacity entries.old }
    ensures items { entries.new.items ≡ entries.old.items ++ jumps who clocks.now }
    ensures count { vec_len entries.new ≡ vec_len entries.old + length clocks.now }
    ensures room { vec_capacity entries.new ≡ vec_capacity entries.old }
{
    for clock in clocks {
        entries.push_reserved(SchedEntry {
            chair: who,
            act: SchedAct::Jumped { clock: *clock },
        });
    }
}

// Room for what the preparation of each run makes, with nothing in it.
fn no_kits<P: Drop>(alloc: Global) -> Result<Vec<Option<P>>, AllocError>
    ensures { IfOk result (λ kits. kits.items ≡ replicate most_runs None) }
{
    let mut kits = Vec::new(alloc);
    for _made in 0..MOST_RUNS {
        kits.push(None)?;
    }
    Ok(kits)
}
