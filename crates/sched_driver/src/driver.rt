// The scheduler with the one chair that works.

ghost use Rattle.std.specs.Prelude.{◌≡◌, Some, None, IfOk, IfErr, OnOk, OnErr, IsTrue};
ghost use Rattle.exp_model.specs.Sessions.{is_session};
ghost use Rattle.sched_state.specs.declared.entry.JobName.TheVariants as name;
ghost use Rattle.sched_state.specs.declared.entry.SchedAct.TheVariants as act;
ghost use Rattle.sched_state.specs.Lawful.{step_at};
ghost use Rattle.sched_core.specs.Calls.{AnswersNext, HasJob, IsOwnKit, IsWhy, RanFits, stepped, stopped, with_entry};
ghost use Rattle.sched_core.specs.Scheds.{IsSched, new_sched, sched_state};
ghost use Rattle.sched_driver.specs.Drivers.{found_kernel, told_of};
ghost use Rattle.sched_driver.specs.Tokens.{TokenCall, TokenText, token_source};

use crate::token::Token;
use exp_model::{HostStep, Session};
use sched_core::{KernelResult, Next, Sched, Why};
use std::alloc::{AllocError, Global};
use std::marker::Model;

/// A scheduler whose jobs chair 0 alone takes and reports; any chair may halt it. Contracts see it as that scheduler.
#[derive(Drop)]
pub struct Driver {
    session: Session,
    sched: Sched<Token>,
}

impl Model for Driver {
    ghost use Rattle.sched_core.specs.Scheds.{SchedValue};
    ghost use Rattle.sched_driver.specs.Drivers.{driver_value, IsDriver};

    ghost Value = { SchedValue };

    ghost view = { driver_value };

    ghost invariant = { IsDriver };
}

impl Driver {
    /// A new scheduler of a session. The only error is want of memory.
    pub fn new(alloc: Global, session: &Session) -> Result<Driver, AllocError>
        requires { IsTrue (is_session session.now) }
        ensures { IfOk result (λ driver. driver ≡ new_sched session.now) }
    {
        let sched = Sched::new(alloc, session)?;
        let session = session.copy(alloc)?;
        Ok(Driver { session, sched })
    }

    /// The scheduler.
    pub fn sched(&self) -> &Sched<Token>
        ensures value { result.now ≡ self.now }
        ensures sched { IsSched self.now }
    {
        let _known = self.sched.history();
        &self.sched
    }

    /// Takes the job that is due. Err is want of memory, and nothing has changed then.
    pub fn next(&mut self, alloc: Global) -> Result<Next<Token>, AllocError>
        ensures ok { IfOk result (λ next. AnswersNext token_source TokenText TokenCall 0 self.old next self.new) }
        ensures err { OnErr result (self.new ≡ self.old) }
    {
        self.sched.next(alloc, 0)
    }

    /// Reports a run's preparation with a kit of this source. A refused report changes nothing.
    pub fn prepared(&mut self, alloc: Global, rid: u64, source: u32) -> Result<(), Why>
        ensures flying { OnOk result (HasJob (sched_state self.old) (name.Prepare rid)) }
        ensures own { OnOk result (IsOwnKit self.old.session (sched_state self.old) rid source) }
        ensures ok { OnOk result (self.new ≡ with_entry 0 (act.Prepared rid) self.old) }
        ensures why { IfErr result (λ why. IsWhy self.old.session (sched_state self.old) (name.Prepare rid) (Some source) why) }
        ensures err { OnErr result (self.new ≡ self.old) }
    {
        let _known = self.sched.history();
        let Err(refused) = self.sched.prepared(alloc, 0, rid, Token { source }) else {
            return Ok(());
        };
        Err(refused.why)
    }

    /// Reports that a run's source was refused. A refused report changes nothing.
    pub fn failed(&mut self, alloc: Global, rid: u64) -> Result<(), Why>
        ensures flying { OnOk result (HasJob (sched_state self.old) (name.Prepare rid)) }
        ensures ok { OnOk result (self.new ≡ with_entry 0 (act.SourceRefused rid) self.old) }
        ensures why { IfErr result (λ why. IsWhy self.old.session (sched_state self.old) (name.Prepare rid) None why) }
        ensures err { OnErr result (self.new ≡ self.old) }
    {
        let _known = self.sched.history();
        let Err(refused) = self.sched.failed(alloc, 0, rid) else {
            return Ok(());
        };
        Err(refused.why)
    }

    /// Reports a step of a run with a kit of this source, and with this result, if it is a kernel's step. A refused report changes
    /// nothing.
    pub fn step_done(
        &mut self,
        alloc: Global,
        rid: u64,
        pos: u32,
        source: u32,
        ran: KernelResult,
    ) -> Result<(), Why>
        ensures flying { OnOk result (HasJob (sched_state self.old) (name.Step rid pos)) }
        ensures own { OnOk result (IsOwnKit self.old.session (sched_state self.old) rid source) }
        ensures ok { OnOk result (self.new ≡ stepped 0 rid pos (told_of self.old rid pos ran) self.old) }
        ensures why { IfErr result (λ why. IsWhy self.old.session (sched_state self.old) (name.Step rid pos) (Some source) why) }
        ensures err { OnErr result (self.new ≡ self.old) }
    {
        let told = self.fitting(rid, pos, ran);
        let _known = self.sched.history();
        let Err(refused) = self
            .sched
            .step_done(alloc, 0, rid, pos, Token { source }, told)
        else {
            return Ok(());
        };
        Err(refused.why)
    }

    // The result, if the step is a kernel's.
    fn fitting(&self, rid: u64, pos: u32, ran: KernelResult) -> Option<KernelResult>
        ensures fits { RanFits self.now rid pos result }
        ensures told { result ≡ told_of self.now rid pos ran }
    {
        if self.is_kernel(rid, pos) {
            Some(ran)
        } else {
            None
        }
    }

    // Whether the step is there, and a kernel's.
    fn is_kernel(&self, rid: u64, pos: u32) -> bool
        ensures { result ≡ found_kernel (step_at self.now.session (sched_state self.now) rid pos) }
    {
        let Some(run) = self.sched.runs().get(rid) else {
            return false;
        };
        let experiments = self.session.experiments.items();
        let Some(experiment) = experiments.get(run.experiment as usize) else {
            return false;
        };
        matches!(
            experiment.run.items().get(pos as usize),
            Some(HostStep::Kernel { .. })
        )
    }

    /// Reports a run's analysis. A refused report changes nothing.
    pub fn analyzed(&mut self, alloc: Global, rid: u64) -> Result<(), Why>
        ensures flying { OnOk result (HasJob (sched_state self.old) (name.Analyze rid)) }
        ensures ok { OnOk result (self.new ≡ with_entry 0 (act.Analyzed rid) self.old) }
        ensures why { IfErr result (λ why. IsWhy self.old.session (sched_state self.old) (name.Analyze rid) None why) }
        ensures err { OnErr result (self.new ≡ self.old) }
    {
        let _known = self.sched.history();
        let Err(refused) = self.sched.analyzed(alloc, 0, rid) else {
            return Ok(());
        };
        Err(refused.why)
    }

    /// A chair halts the scheduler, where none did.
    pub fn stop(&mut self, alloc: Global, who: u32)
        ensures { self.new ≡ stopped who self.old }
    {
        self.sched.stop(alloc, who);
    }
}
