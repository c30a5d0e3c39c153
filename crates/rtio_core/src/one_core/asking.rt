// Asking a core.

ghost use Rattle.std.specs.Prelude.{◌≡◌, ◌≢◌, ◌≤◌, ◌<◌, IfOk, IfErr, OnErr, IsTrue, IsSome, Some, None, Ok, Err};
ghost use Rattle.rtio_types.specs.declared.event.Event.{Event};
ghost use Rattle.rtio_types.specs.declared.request.Reply.{Reply};
ghost use Rattle.rtio_types.specs.declared.request.Request.TheVariants as kind;
ghost use Rattle.rtio_types.specs.Requests.{is_well_formed};
ghost use Rattle.rtio_types.specs.Time.{cycle_of};
ghost use Rattle.sed_lanes.specs.Verdict.{Undecided};
ghost use Rattle.rtio_core.specs.Answers.{is_plain, plain_reply};
ghost use Rattle.rtio_core.specs.Reply.{reply_to, verdict_at};
ghost use Rattle.rtio_core.specs.Lawful.{IsOpenFor};
ghost use Rattle.rtio_core.specs.Calls.{AnswersAsk, NoOtherWaits};
ghost use Rattle.rtio_core.specs.Errors.{UnderflowHasReason};

use super::Core;
use crate::replies::{is_waiting, plain_reply, raised, reads};
use crate::{Act, Ask, Entry};
use rtio_types::{Event, Reply, Request, Waiting, counter_reaching, cycle_of};
use std::alloc::Global;

impl Core {
    /// Asks for a reply. The open session is that of chair `who`, and the request is well formed. A request that isn't
    /// decided at the counter waits from then on; while one waits, no other is answered. For want of memory the request is
    /// handed back, and the core stands as before.
    pub fn ask(&mut self, alloc: Global, who: u32, request: Request) -> Result<Ask, Request>
        requires open { IsOpenFor who self.old.history }
        requires request { IsTrue (is_well_formed request) }
        ensures answer { IfOk result (λ answer. AnswersAsk self.old who request answer self.new) }
        ensures back { IfErr result (λ back. back ≡ request) }
        ensures err { OnErr result (self.new ≡ self.old) }
        // An output of a later cycle than the limit's doesn't underflow.
        ensures underflow { (e : Event) (reply : Reply) → request ≡ kind.Out e → result ≡ Ok (Ask.Reply reply)
            → UnderflowHasReason self.old.config self.old.history e reply }
        // Want of memory comes only where there would have been a reply.
        ensures memory { OnErr result (NoOtherWaits self.old.waiting request × IsSome (reply_to self.old.config self.old.history request self.old.counter)) }
    {
        if let Some(waiting) = self.pending {
            if !is_waiting(waiting, &request) {
                return Ok(Ask::OtherPending { waiting, request });
            }
        }
        match request {
            Request::Out(event) => self.ask_output(who, event),
            Request::Reset => self.reset(alloc, who),
            Request::Wait { until } => self.ask_wait(who, until),
            Request::Edge { channel, up_to } => self.ask_edge(who, channel, up_to),
            Request::Counter | Request::Data { .. } => self.answer_plain(who, request),
            request => self.ask_store(alloc, who, request),
        }
    }

    // Answers a reading, a wait or a dataset, once it is decided.
    fn answer_plain(&mut self, who: u32, request: Request) -> Result<Ask, Request>
        requires open { IsOpenFor who self.old.history }
        requires request { IsTrue (is_well_formed request) }
        requires waiting { NoOtherWaits self.old.waiting request }
        requires plain { IsTrue (is_plain request) }
        requires decided { reply_to self.old.config self.old.history request self.old.counter ≡ Some (plain_reply request self.old.counter) }
        ensures answer { IfOk result (λ answer. AnswersAsk self.old who request answer self.new) }
        ensures back { IfErr result (λ back. back ≡ request) }
        ensures err { OnErr result (self.new ≡ self.old) }
    {
        if self.entries.reserve(1).is_err() {
            return Err(request);
        }
        let at = self.count;
        let answer = plain_reply(&request, at);
        let reply = plain_reply(&request, at);
        let act = Act::Asked { request, reply, at };
        self.entries.push_reserved(Entry { chair: who, act });
        self.pending = None;
        self.limit = raised(self.limit, at, self.config.cost);
        Ok(Ask::Reply(answer))
    }

    // Waits until the counter reads a moment (mu).
    fn ask_wait(&mut self, who: u32, until: i64) -> Result<Ask, Request>
        requires open { IsOpenFor who self.old.history }
        requires waiting { NoOtherWaits self.old.waiting (kind.Wait until) }
        ensures answer { IfOk result (λ answer. AnswersAsk self.old who (kind.Wait until) answer self.new) }
        ensures back { IfErr result (λ back. back ≡ kind.Wait until) }
        ensures err { OnErr result (self.new ≡ self.old) }
        ensures memory { OnErr result (IsSome (reply_to self.old.config self.old.history (kind.Wait until) self.old.counter)) }
    {
        if until <= reads(self.count) {
            return self.answer_plain(who, Request::Wait { until });
        }
        let waiting = Waiting::Wait { until };
        self.pending = Some(waiting);
        Ok(Ask::NotYet {
            until: counter_reaching(until),
            waiting,
        })
    }

    // Puts an output on the timeline.
    fn ask_output(&mut self, who: u32, event: Event) -> Result<Ask, Request>
        requires open { IsOpenFor who self.old.history }
        requires request { IsTrue (is_well_formed (kind.Out event)) }
        requires waiting { NoOtherWaits self.old.waiting (kind.Out event) }
        ensures answer { IfOk result (λ answer. AnswersAsk self.old who (kind.Out event) answer self.new) }
        ensures back { IfErr result (λ back. back ≡ kind.Out event) }
        ensures err { OnErr result (self.new ≡ self.old) }
        ensures memory { OnErr result (IsSome (reply_to self.old.config self.old.history (kind.Out event) self.old.counter)) }
    {
        if cycle_of(&event) <= self.count {
            return self.miss(who, event);
        }
        if let Some(until) = self.outputs.lanes.wait(self.count, &event) {
            let waiting = Waiting::Out(event);
            self.pending = Some(waiting);
            return Ok(Ask::NotYet { until, waiting });
        }
        self.place(who, event)
    }

    // Answers an output that comes too late.
    fn miss(&mut self, who: u32, event: Event) -> Result<Ask, Request>
        requires open { IsOpenFor who self.old.history }
        requires request { IsTrue (is_well_formed (kind.Out event)) }
        requires waiting { NoOtherWaits self.old.waiting (kind.Out event) }
        requires late { cycle_of event ≤ self.old.counter }
        ensures answer { IfOk result (λ answer. AnswersAsk self.old who (kind.Out event) answer self.new) }
        ensures back { IfErr result (λ back. back ≡ kind.Out event) }
        ensures err { OnErr result (self.new ≡ self.old) }
    {
        if self.entries.reserve(1).is_err() {
            return Err(Request::Out(event));
        }
        let at = self.count;
        self.outputs.miss(at, event);
        let act = Act::Asked {
            request: Request::Out(event),
            reply: Reply::Underflow,
            at,
        };
        self.entries.push_reserved(Entry { chair: who, act });
        self.pending = None;
        self.limit = raised(self.limit, at, self.config.cost);
        Ok(Ask::Reply(Reply::Underflow))
    }

    // Answers an output that a lane takes, or that is out of sequence.
    fn place(&mut self, who: u32, event: Event) -> Result<Ask, Request>
        requires open { IsOpenFor who self.old.history }
        requires request { IsTrue (is_well_formed (kind.Out event)) }
        requires waiting { NoOtherWaits self.old.waiting (kind.Out event) }
        requires later { self.old.counter < cycle_of event }
        requires decided { verdict_at self.old.config self.old.history event self.old.counter ≢ Undecided }
        ensures answer { IfOk result (λ answer. AnswersAsk self.old who (kind.Out event) answer self.new) }
        ensures back { IfErr result (λ back. back ≡ kind.Out event) }
        ensures err { OnErr result (self.new ≡ self.old) }
    {
        if self.entries.reserve(1).is_err() || self.outputs.take_room().is_err() {
            return Err(Request::Out(event));
        }
        let at = self.count;
        self.outputs.place(at, event);
        let act = Act::Asked {
            request: Request::Out(event),
            reply: Reply::Done,
            at,
        };
        self.entries.push_reserved(Entry { chair: who, act });
        self.pending = None;
        self.limit = raised(self.limit, at, self.config.cost);
        Ok(Ask::Reply(Reply::Done))
    }

    // Clears what isn't put out yet, and what wasn't read yet.
    fn reset(&mut self, alloc: Global, who: u32) -> Result<Ask, Request>
        requires open { IsOpenFor who self.old.history }
        requires waiting { NoOtherWaits self.old.waiting kind.Reset }
        ensures answer { IfOk result (λ answer. AnswersAsk self.old who kind.Reset answer self.new) }
        ensures back { IfErr result (λ back. back ≡ kind.Reset) }
        ensures err { OnErr result (self.new ≡ self.old) }
    {
        let at = self.count;
        if self.entries.reserve(1).is_err() || self.outputs.clear(alloc, at).is_err() {
            return Err(Request::Reset);
        }
        self.inputs.reset();
        let act = Act::Asked {
            request: Request::Reset,
            reply: Reply::Time(reads(at)),
            at,
        };
        self.entries.push_reserved(Entry { chair: who, act });
        self.pending = None;
        self.limit = raised(self.limit, at, self.config.cost);
        Ok(Ask::Reply(Reply::Time(reads(at))))
    }
}
