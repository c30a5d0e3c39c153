// Edges of the inputs.

ghost use Rattle.std.specs.Prelude.{◌≡◌, IfOk, IfErr, OnErr, IsTrue, IsSome};
ghost use Rattle.rtio_types.specs.declared.request.Request.TheVariants as kind;
ghost use Rattle.rtio_types.specs.Requests.{is_well_formed};
ghost use Rattle.rtio_core.specs.Reply.{reply_to};
ghost use Rattle.rtio_core.specs.Lawful.{IsOpenFor};
ghost use Rattle.rtio_core.specs.Calls.{AnswersAsk, NoOtherWaits};

use super::Core;
use crate::replies::{raised, same_edge_reply};
use crate::{Act, Ask, Entry};
use rtio_types::{Request, Waiting, counter_reaching};

impl Core {
    /// Takes the first unread edge of an input with a stamp below `up_to` mu.
    pub(super) fn ask_edge(&mut self, who: u32, channel: u8, up_to: i64) -> Result<Ask, Request>
        requires open { IsOpenFor who self.old.history }
        requires request { IsTrue (is_well_formed (kind.Edge channel up_to)) }
        requires waiting { NoOtherWaits self.old.waiting (kind.Edge channel up_to) }
        ensures answer { IfOk result (λ answer. AnswersAsk self.old who (kind.Edge channel up_to) answer self.new) }
        ensures back { IfErr result (λ back. back ≡ kind.Edge channel up_to) }
        ensures err { OnErr result (self.new ≡ self.old) }
        ensures memory { OnErr result (IsSome (reply_to self.old.config self.old.history (kind.Edge channel up_to) self.old.counter)) }
    {
        if self.inputs.is_decided(self.count, channel, up_to) {
            return self.take_edge(who, channel, up_to);
        }
        let waiting = Waiting::Edge { channel, up_to };
        self.pending = Some(waiting);
        Ok(Ask::NotYet {
            until: counter_reaching(up_to),
            waiting,
        })
    }

    // Answers a request for an edge that is decided.
    fn take_edge(&mut self, who: u32, channel: u8, up_to: i64) -> Result<Ask, Request>
        requires open { IsOpenFor who self.old.history }
        requires request { IsTrue (is_well_formed (kind.Edge channel up_to)) }
        requires waiting { NoOtherWaits self.old.waiting (kind.Edge channel up_to) }
        requires decided { IsSome (reply_to self.old.config self.old.history (kind.Edge channel up_to) self.old.counter) }
        ensures answer { IfOk result (λ answer. AnswersAsk self.old who (kind.Edge channel up_to) answer self.new) }
        ensures back { IfErr result (λ back. back ≡ kind.Edge channel up_to) }
        ensures err { OnErr result (self.new ≡ self.old) }
    {
        if self.entries.reserve(1).is_err() {
            return Err(Request::Edge { channel, up_to });
        }
        let at = self.count;
        let Some(reply) = self.inputs.ask_edge(at, channel, up_to) else {
            unreachable!()
        };
        let answer = same_edge_reply(&reply);
        let request = Request::Edge { channel, up_to };
        let act = Act::Asked { request, reply, at };
        self.entries.push_reserved(Entry { chair: who, act });
        self.pending = None;
        self.limit = raised(self.limit, at, self.config.cost);
        Ok(Ask::Reply(answer))
    }
}
