// Recordings in a core.

ghost use Rattle.std.specs.Prelude.{◌≡◌, IfOk, IfErr, IfNone, IfSome, OnErr, IsTrue};
ghost use Rattle.rtio_types.specs.Requests.{is_well_formed};
ghost use Rattle.rtio_types.specs.declared.request.Request.TheVariants as kind;
ghost use Rattle.rtio_types.specs.declared.request.Reply.TheVariants as reply_kind;
ghost use Rattle.dma_store.specs.Kept.{is_playable};
ghost use Rattle.rtio_core.specs.Lawful.{IsOpenFor};
ghost use Rattle.rtio_core.specs.Calls.{AnswersAsk, NoOtherWaits};
ghost use Rattle.rtio_core.specs.Recordings.{IsServed, is_on_recordings};

use super::Core;
use crate::replies::raised;
use crate::{Act, Ask, Entry};
use dma_store::{FetchEnd, HandleEnd, NoTrace, SaveEnd, Store};
use rtio_types::{Name, Recording, Reply, Request};
use std::alloc::Global;

impl Core {
    /// Answers a request on recordings.
    pub(super) fn ask_store(
        &mut self,
        alloc: Global,
        who: u32,
        request: Request,
    ) -> Result<Ask, Request>
        requires open { IsOpenFor who self.old.history }
        requires request { IsTrue (is_well_formed request) }
        requires waiting { NoOtherWaits self.old.waiting request }
        requires kind { IsTrue (is_on_recordings request) }
        ensures answer { IfOk result (λ answer. AnswersAsk self.old who request answer self.new) }
        ensures back { IfErr result (λ back. back ≡ request) }
        ensures err { OnErr result (self.new ≡ self.old) }
    {
        if self.entries.reserve(1).is_err() {
            return Err(request);
        }
        let Some((answer, reply)) = serve(&mut self.store, alloc, &request) else {
            return Err(request);
        };
        let at = self.count;
        let act = Act::Asked { request, reply, at };
        self.entries.push_reserved(Entry { chair: who, act });
        self.pending = None;
        self.limit = raised(self.limit, at, self.config.cost);
        Ok(Ask::Reply(answer))
    }
}

// The reply twice, for the asker and for the history. None for want of memory; then the store stands as before.
fn serve(store: &mut Store, alloc: Global, request: &Request) -> Option<(Reply, Reply)>
    requires request { IsTrue (is_well_formed request.now) }
    requires kind { IsTrue (is_on_recordings request.now) }
    ensures some { IfSome result (λ replies. IsServed store.old request.now replies store.new) }
    ensures none { IfNone result (store.new ≡ store.old) }
{
    match request {
        Request::Save { name, recording } => save(store, alloc, name, recording),
        Request::Fetch { name } => fetch(store, alloc, name),
        Request::FetchHandle { handle } => fetch_handle(store, alloc, *handle),
        Request::Handle { name } => Some(handle(store, name)),
        Request::Erase { name } => Some(erase(store, name)),
        _ => unreachable!(),
    }
}

fn save(
    store: &mut Store,
    alloc: Global,
    name: &Name,
    recording: &Recording,
) -> Option<(Reply, Reply)>
    requires { IsTrue (is_playable recording.now) }
    ensures some { IfSome result (λ replies. IsServed store.old (kind.Save name.now recording.now) replies store.new) }
    ensures none { IfNone result (store.new ≡ store.old) }
{
    match store.save(alloc, name, recording) {
        Ok(()) => Some((Reply::Done, Reply::Done)),
        Err(SaveEnd::Full) => Some((Reply::Full, Reply::Full)),
        Err(SaveEnd::Memory) => None,
    }
}

fn fetch(store: &Store, alloc: Global, name: &Name) -> Option<(Reply, Reply)>
    ensures { IfSome result (λ replies. IsServed store.now (kind.Fetch name.now) replies store.now) }
{
    match store.read(alloc, name) {
        Ok(recording) => traces(alloc, recording),
        Err(FetchEnd::NoTrace) => Some((Reply::NoTrace, Reply::NoTrace)),
        Err(FetchEnd::Memory) => None,
    }
}

fn fetch_handle(store: &Store, alloc: Global, handle: i64) -> Option<(Reply, Reply)>
    ensures { IfSome result (λ replies. IsServed store.now (kind.FetchHandle handle) replies store.now) }
{
    match store.read_handle(alloc, handle) {
        Ok(recording) => traces(alloc, recording),
        Err(HandleEnd::OldHandle { .. }) => Some((Reply::OldHandle, Reply::OldHandle)),
        Err(HandleEnd::Memory) => None,
    }
}

fn traces(alloc: Global, recording: Recording) -> Option<(Reply, Reply)>
    ensures { IfSome result (λ replies. (replies.0 ≡ reply_kind.Trace recording) × (replies.1 ≡ reply_kind.Trace recording)) }
{
    let copy = recording.copy(alloc).ok()?;
    Some((Reply::Trace(recording), Reply::Trace(copy)))
}

fn handle(store: &Store, name: &Name) -> (Reply, Reply)
    ensures { IsServed store.now (kind.Handle name.now) result store.now }
{
    match store.handle(name) {
        Ok(handle) => (Reply::Handle(handle), Reply::Handle(handle)),
        Err(NoTrace) => (Reply::NoTrace, Reply::NoTrace),
    }
}

fn erase(store: &mut Store, name: &Name) -> (Reply, Reply)
    ensures { IsServed store.old (kind.Erase name.now) result store.new }
{
    match store.erase(name) {
        Ok(()) => (Reply::Done, Reply::Done),
        Err(NoTrace) => (Reply::NoTrace, Reply::NoTrace),
    }
}
