// Requests that take a unit.

use crate::early::Early;
use crate::state::State;
use rtio_types::{Reply, Request};

impl<'a> State<'a> {
    ghost use Rattle.std.specs.Prelude.{IfErr, IfOk, ◌≡◌};
    ghost use Rattle.meaning_state.specs.Does.{Does, EndsAs};
    ghost use Rattle.timeline_sem.specs.Actions.{normal, request};
    ghost use Rattle.timeline_sem.specs.Timeline.{inquire, tell};

    /// Takes a unit and makes a request, and gives its reply unless that raises.
    pub fn request(&mut self, asked: Request) -> Result<&'a Reply, Early>
        ensures reply { IfOk result (λ reply. request asked self.old ≡ normal reply.now self.new) }
        ensures ends { IfErr result (λ end. EndsAs end self.new (request asked self.old)) }
    {
        self.take_unit()?;
        self.ask(asked)
    }

    /// Makes a request that gives no value.
    pub fn tell(&mut self, asked: Request) -> Result<(), Early>
        ensures { Does result self.new (tell asked self.old) }
    {
        self.request(asked)?;
        Ok(())
    }

    /// Makes a request, and gives the number in its reply, -1 for no edge.
    pub fn inquire(&mut self, asked: Request) -> Result<i64, Early>
        ensures { Does result self.new (inquire asked self.old) }
    {
        let reply = self.request(asked)?;
        Ok(number_in(reply))
    }
}

ghost use Rattle.std.specs.Prelude.{◌≡◌};
ghost use Rattle.rtio_types.specs.Replies.{number_in};

// The number in a reply; -1 for no edge.
fn number_in(reply: &Reply) -> i64
    ensures { result ≡ number_in reply.now }
{
    match reply {
        Reply::Time(number) | Reply::Stamp(number) | Reply::Handle(number) => *number,
        Reply::NoEdge => -1,
        _ => 0,
    }
}
