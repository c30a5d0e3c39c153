// Handlers and exceptions.

ghost use Rattle.std.specs.Prelude.{◌≡◌, ◌<◌, ◌≤◌, [], ◌∷◌, List, length, drop, slice_get, None, Some};
ghost use Rattle.rtio_types.specs.declared.request.Reply.{Reply};
ghost use Rattle.rtio_types.specs.declared.request.Request.{Request};
ghost use Rattle.core_isa.specs.Machine.{code_of, drop_if, goes, opened_since, raise, with_top};
ghost use Rattle.core_isa.specs.Steps.{handler_at};
ghost use Rattle.core_cpu.specs.Moments.{with_history};
ghost use Rattle.core_cpu.specs.Layout.{point_of, raised_to};

use crate::layout::Handler;
use crate::state::State;
use rtio_types::Exc;

// The number of an exception.
fn number(exception: Exc) -> i64
    ensures { result ≡ code_of exception }
{
    match exception {
        Exc::RTIOUnderflow => 1,
        Exc::RTIOOverflow => 2,
        Exc::DMAError => 3,
        Exc::ZeroDivisionError => 4,
        Exc::IndexError => 5,
        Exc::StackOverflow => 6,
    }
}

impl State {
    /// Adds a handler with a place.
    pub fn add_handler(&mut self, place: u32)
        requires bare { length self.old.machine.top.operands ≡ 0 }
        requires room { length self.old.machine.top.handlers < 255 }
        ensures { self.new ≡ record self.old {
          machine = with_top self.old.machine
              (record self.old.machine.top { handlers = handler_at place self.old.machine ∷ self.old.machine.top.handlers });
        } }
    {
        let recording = self.is_recording();
        self.handlers.push(Handler { place, recording });
        self.here.tries += 1;
    }

    /// Removes the last handler.
    pub fn remove_handler(&mut self)
        requires { 1 ≤ length self.old.machine.top.handlers }
        ensures { self.new ≡ record self.old {
          machine = with_top self.old.machine
              (record self.old.machine.top { handlers = drop 1 self.old.machine.top.handlers });
        } }
    {
        self.handlers.cut(1);
        self.here.tries -= 1;
    }

    /// Raises an exception in the frame that runs. Whether a handler takes it; without one the run is over.
    pub fn raise(&mut self, exception: Exc) -> bool
        ensures raises { (more : List Reply) (before : List Request) →
            raise exception (with_history self.old.machine more before)
            ≡ raised_to result exception (with_history self.new.machine more before) }
        ensures width { self.new.width ≡ self.old.width }
        ensures steps { self.new.machine.steps ≡ self.old.machine.steps }
        ensures units { self.new.machine.units ≡ self.old.machine.units }
        ensures closed { self.old.machine.recording ≡ None → self.new.machine.recording ≡ None }
        ensures cursor { self.old.machine.recording ≡ None → self.new.machine.cursor ≡ self.old.machine.cursor }
    {
        while self.tries() == 0 {
            let here = self.opened_here();
            self.drop_if(here);
            if !self.leave() {
                return false;
            }
        }
        self.take_handler(exception);
        true
    }

    // Goes on at the last handler with the number of an exception.
    fn take_handler(&mut self, exception: Exc)
        requires { 1 ≤ length self.old.machine.top.handlers }
        ensures raises { (more : List Reply) (before : List Request) →
            raise exception (with_history self.old.machine more before) ≡ goes (with_history self.new.machine more before) }
        ensures width { self.new.width ≡ self.old.width }
        ensures steps { self.new.machine.steps ≡ self.old.machine.steps }
        ensures units { self.new.machine.units ≡ self.old.machine.units }
        ensures closed { self.old.machine.recording ≡ None → self.new.machine.recording ≡ None }
        ensures cursor { self.old.machine.recording ≡ None → self.new.machine.cursor ≡ self.old.machine.cursor }
    {
        let handler = self.last_handler();
        let since = self.opened_since(&handler);
        self.drop_if(since);
        self.remove_handler();
        self.clear();
        self.push(number(exception));
        self.go_to(handler.place);
    }

    // How many handlers the frame that runs has.
    fn tries(&self) -> usize
        ensures { result ≡ length self.now.machine.top.handlers }
    {
        self.here.tries
    }

    // The last handler.
    fn last_handler(&self) -> Handler
        requires { 1 ≤ length self.now.machine.top.handlers }
        ensures { slice_get self.now.machine.top.handlers 0 ≡ Some (point_of result) }
    {
        self.handlers.get(0)
    }

    // Whether the function that runs opened the recording that is open, and did so after it added the handler.
    fn opened_since(&self, handler: &Handler) -> bool
        ensures { result ≡ opened_since (point_of handler.now) self.now.machine }
    {
        !handler.recording && self.opened_here()
    }

    // Drops the recording that is open where the test says so.
    fn drop_if(&mut self, test: bool)
        ensures { self.new ≡ record self.old { machine = drop_if test self.old.machine } }
    {
        if test {
            self.drop_recording();
        }
    }
}
