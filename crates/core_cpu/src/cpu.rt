// The processor.

ghost use Rattle.std.specs.List.{All};
ghost use Rattle.std.specs.Prelude.{◌≡◌, ◌<◌, ◌≤◌, ◌++◌, ◌∷◌, [], List, slice_get, true, false, Some, is_some, option_to_list, IfOk, OnErr, IsTrue, Ok};
ghost use Rattle.rtio_types.specs.declared.outcome.Outcome.{Outcome};
ghost use Rattle.rtio_types.specs.declared.request.Request.{Request};
ghost use Rattle.rtio_types.specs.declared.request.Reply.{Reply};
ghost use Rattle.core_cpu.specs.Moments.{end_of, is_asking, is_playing, is_ready, outcome_of, proceed, with_history};
ghost use Rattle.core_cpu.specs.Standing.{Start, HasEntry, Stands, StopsAt, WantsMemory, phase_fits};
ghost use Rattle.core_cpu.specs.Settled.{CanAsk};
ghost use Rattle.core_cpu.specs.Nearness.{nearness};
ghost use Rattle.core_cpu.specs.declared.phase.Phase.TheVariants.{Over, Ready};
ghost use Rattle.core_cpu.specs.declared.stop.Stop.TheVariants.{Ended};
ghost use Rattle.core_isa.specs.Runs.{step, boot as booted};
ghost use Rattle.core_cpu.specs.Roots.{root_place};
ghost use Rattle.core_isa.specs.declared.code.CodeFunction.{CodeFunction};

use crate::answer::answer;
use crate::course::{Way, after, settled};
use crate::phase::Phase;
use crate::playing::play_next;
use crate::run::{may_ask, run_asking, run_silent};
use crate::state::State;
use crate::step::{function_of, line_of};
use crate::stop::Stop;
use core_image::Verified;
use core_isa::Code;
use rtio_types::{Outcome, Reply, Request};
use std::alloc::{AllocError, Global};
use std::marker::Model;
use std::mem;

// The greatest number of slots of a function.
fn widest(code: &Code) -> u16
    ensures { All (λ f. f.slots ≤ result) code.now.functions }
{
    let mut width = 0;
    for function in code.functions.items() {
        width = width.max(function.slots);
    }
    width
}

/// A processor that runs a function of accepted code, from request to request. Contracts see it as the state of the
/// machine that it stands for, with what comes next.
#[derive(Debug, Drop)]
pub struct Cpu<'a> {
    code: &'a Verified,
    state: State,
    phase: Phase,
}

impl<'a> Model for Cpu<'a> {
    ghost use Rattle.core_cpu.specs.Moments.{Moment};
    ghost use Rattle.core_cpu.specs.Settled.{moment_of, IsSettled};

    ghost Value = { Moment };

    ghost view = { λ c. moment_of c.code.now c.state c.phase };

    ghost invariant = { λ c. IsSettled c.code.now c.state c.phase };
}

impl<'a> Cpu<'a> {
    /// A processor before the first instruction of a function of the code, given by its index. The cursor is in mu.
    /// Memory for all frames is taken here; the only error is want of it.
    pub fn boot(
        alloc: Global,
        code: &'a Verified,
        function: u32,
        args: &[i64],
        cursor: i64,
        units: u32,
    ) -> Result<Cpu<'a>, AllocError>
        requires { HasEntry code.now function args.now }
        ensures first { (entry : CodeFunction) → slice_get code.now.functions function ≡ Some entry →
            IfOk result (λ cpu. cpu ≡ record { code = code.now; machine = booted entry args.now cursor units []; phase = Ready }) }
        ensures begins { IfOk result (λ cpu.
            Stands (record { function = function; args = args.now; cursor = cursor; units = units }) [] [] cpu) }
        ensures code { IfOk result (λ cpu. cpu.code ≡ code.now) }
        ensures phase { IfOk result (λ cpu. is_asking cpu.phase ≡ false) }
    {
        let source = code.code();
        let entry = function_of(source, function as usize);
        let state = State::first(alloc, widest(source), entry, args, cursor, units)?;
        Ok(Cpu {
            code,
            state,
            phase: Phase::Ready,
        })
    }

    /// Goes on to the next request or the end, and behind the end tells it again. It takes memory only for an output while a
    /// recording is open and for a list of a dataset; where there is none, it stands before that instruction, which begins
    /// again with the next call.
    #[inline(always)]
    pub fn advance(&mut self, alloc: Global) -> Result<Stop, AllocError>
        requires { is_asking self.old.phase ≡ false }
        ensures code { self.new.code ≡ self.old.code }
        // It stops where the run of the machine asks next, or at its end, with the numbers of that run.
        ensures stops { (start : Start) (asked : List Request) (replies : List Reply) →
            Stands start asked replies self.old →
            IfOk result (λ stop. StopsAt start asked replies self.new stop) }
        ensures phase { IfOk result (λ stop. IsTrue (phase_fits stop self.new.phase)) }
        // Without memory it stands before an instruction that takes some and has a unit left, in the same run.
        ensures memory { OnErr result (WantsMemory self.new) }
        ensures before { (start : Start) (asked : List Request) (replies : List Reply) →
            Stands start asked replies self.old → OnErr result (Stands start asked replies self.new) }
        // Behind the end of its run it tells the same end again and stays as it is.
        ensures over { (outcome : Outcome) → self.old.phase ≡ Over outcome →
            (result ≡ Ok (Ended outcome)) × (self.new ≡ self.old) }
    {
        if self.plays() {
            if let Some(request) = self.play_on() {
                return Ok(Stop::Ask(request));
            }
        }
        while self.goes_on(alloc) {
            if let Some(request) = self.step(alloc)? {
                return Ok(Stop::Ask(request));
            }
        }
        Ok(Stop::Ended(self.outcome()))
    }

    /// Takes the reply to the request that waits. A recording is taken over as it is.
    #[inline(always)]
    pub fn reply(&mut self, reply: Reply)
        requires { IsTrue (is_asking self.old.phase) }
        ensures code { self.new.code ≡ self.old.code }
        ensures takes { (start : Start) (asked : List Request) (replies : List Reply) →
            Stands start asked replies self.old → Stands start asked (replies ++ reply ∷ []) self.new }
        ensures phase { is_asking self.new.phase ≡ false }
        ensures steps { self.new.machine.steps ≡ self.old.machine.steps }
        ensures cursor { self.new.machine.cursor ≡ self.old.machine.cursor }
        ensures units { self.new.machine.units ≡ self.old.machine.units }
    {
        let phase = mem::replace(&mut self.phase, Phase::Ready);
        let Phase::Asking(purpose) = phase else {
            unreachable!();
        };
        self.phase = answer(&mut self.state, purpose, reply);
    }

    /// Whether a recording is played that has an output left to ask for, or its end: `play_on` goes on with it.
    pub fn plays(&self) -> bool
        ensures { result ≡ is_playing self.now.phase }
    {
        matches!(&self.phase, Phase::Playing(_))
    }

    /// Whether an instruction comes next: `step` runs it.
    pub fn ready(&self) -> bool
        ensures { result ≡ is_ready self.now.phase }
    {
        matches!(&self.phase, Phase::Ready)
    }

    // The outcome of a run that is over.
    fn outcome(&self) -> Outcome
        requires ready { is_ready self.now.phase ≡ false }
        requires playing { is_playing self.now.phase ≡ false }
        requires asking { is_asking self.now.phase ≡ false }
        ensures over { self.now.phase ≡ Over result }
        ensures proper { outcome_of (end_of result) ≡ Some result }
    {
        match &self.phase {
            Phase::Over(outcome) => *outcome,
            _ => unreachable!(),
        }
    }

    /// Goes on with a recording that is played: asks for its next output, comes behind it, or ends.
    pub fn play_on(&mut self) -> Option<Request>
        requires { IsTrue (is_playing self.old.phase) }
        ensures code { self.new.code ≡ self.old.code }
        ensures goes { (more : List Reply) (before : List Request) →
            proceed self.old.phase (with_history self.old.machine more before)
            ≡ proceed self.new.phase (with_history self.new.machine more (before ++ option_to_list result)) }
        ensures asks { is_asking self.new.phase ≡ is_some result }
        ensures plays { is_playing self.new.phase ≡ false }
        ensures waits { IsTrue (is_some result) → CanAsk self.new }
    {
        let phase = mem::replace(&mut self.phase, Phase::Ready);
        let Phase::Playing(left) = phase else {
            unreachable!();
        };
        let course = play_next(&mut self.state, left);
        let (phase, asks) = settled(course);
        self.phase = phase;
        asks
    }

    // Runs instructions in a row where one comes next, and tells whether there is one more, which `step` runs.
    fn goes_on(&mut self, alloc: Global) -> bool
        ensures code { self.new.code ≡ self.old.code }
        ensures stands { (start : Start) (asked : List Request) (replies : List Reply) →
            Stands start asked replies self.old → Stands start asked replies self.new }
        ensures asking { is_asking self.old.phase ≡ false → is_asking self.new.phase ≡ false }
        ensures playing { is_playing self.old.phase ≡ false → is_playing self.new.phase ≡ false }
        ensures nearer { nearness self.new ≤ nearness self.old }
        ensures ready { result ≡ is_ready self.new.phase }
        ensures still { is_ready self.old.phase ≡ false → self.new ≡ self.old }
    {
        if self.ready() {
            self.hurry(alloc);
        }
        self.ready()
    }

    // Runs instructions in a row that ask nothing, from one that comes next.
    fn hurry(&mut self, alloc: Global)
        requires { IsTrue (is_ready self.old.phase) }
        ensures code { self.new.code ≡ self.old.code }
        ensures stands { (start : Start) (asked : List Request) (replies : List Reply) →
            Stands start asked replies self.old → Stands start asked replies self.new }
        ensures asking { is_asking self.new.phase ≡ false }
        ensures playing { is_playing self.new.phase ≡ false }
        ensures nearer { nearness self.new ≤ nearness self.old }
    {
        let code = self.code.code();
        let way = self.state.hurry(alloc, code);
        self.phase = after(way);
    }

    /// Runs the instruction at its place, and gives the request that it asks. The only error is want of memory, and then
    /// nothing has happened.
    #[inline(always)]
    pub fn step(&mut self, alloc: Global) -> Result<Option<Request>, AllocError>
        requires { IsTrue (is_ready self.old.phase) }
        ensures code { self.new.code ≡ self.old.code }
        ensures goes { IfOk result (λ asks. (more : List Reply) (before : List Request) →
            step self.old.code (with_history self.old.machine more before)
            ≡ proceed self.new.phase (with_history self.new.machine more (before ++ option_to_list asks))) }
        ensures asks { IfOk result (λ asks. is_asking self.new.phase ≡ is_some asks) }
        ensures plays { IfOk result (λ asks. is_playing self.new.phase ≡ false) }
        ensures waits { IfOk result (λ asks. IsTrue (is_some asks) → CanAsk self.new) }
        ensures nearer { IfOk result (λ asks. nearness self.new < nearness self.old) }
        ensures same { OnErr result (self.new ≡ self.old) }
        ensures memory { OnErr result (WantsMemory self.new) }
    {
        let code = self.code.code();
        let line = line_of(code, self.state.place());
        if may_ask(line.instr) {
            let course = run_asking(alloc, code, &mut self.state, line.instr)?;
            let (phase, asks) = settled(course);
            self.state.within();
            self.phase = phase;
            return Ok(asks);
        }
        self.state.count();
        let way = run_silent(alloc, code, &mut self.state, line.instr);
        self.state.within();
        match way {
            Way::Goes => Ok(None),
            _ => {
                self.phase = after(way);
                Ok(None)
            }
        }
    }

    /// How many instructions have begun. The count stands still at 2^64 - 1.
    pub fn steps(&self) -> u64
        ensures { result ≡ self.now.machine.steps }
    {
        self.state.steps()
    }

    /// The cursor, in mu.
    pub fn cursor(&self) -> i64
        ensures { result ≡ self.now.machine.cursor }
    {
        self.state.cursor()
    }

    /// The units left.
    pub fn units(&self) -> u32
        ensures { result ≡ self.now.machine.units }
    {
        self.state.units()
    }

    /// The place in the code of the instruction at which it stands: where a request waits, or a recording is played, that of
    /// the instruction that asked.
    pub fn place(&self) -> u32
        ensures { result ≡ self.now.machine.top.place }
    {
        self.state.place()
    }

    /// The place in the code of the call under which it runs, in the function that the run began with; none where that
    /// function runs itself.
    pub fn root(&self) -> Option<u32>
        ensures { result ≡ root_place self.now.machine }
    {
        self.state.root()
    }
}
