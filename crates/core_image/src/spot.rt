// What a place of some code has to meet.

ghost use Rattle.std.specs.Prelude.{◌≡◌, ◌<◌, ◌≤◌, nat_lt, length, slice_get};
ghost use Rattle.core_image.specs.AcceptedTests.{narrow};
ghost use Rattle.core_isa.specs.Marks.{after};
ghost use Rattle.core_isa.specs.MarkTests.{is_mark};

use crate::effect::{effect_of, is_live_one, takes_unit};
use core_isa::{Code, CodeFunction, CodeLine, Instr, Mark};
use rtio_types::{ChannelKind, has_address, is_input, kind_of};

// A mark that a place is to have; its numbers may be too large for any mark.
#[derive(Clone, Copy, Debug, PartialEq, Eq)]
struct WideMark {
    height: u16,
    tries: u16,
    rec: u16,
}

// The same mark.
fn wide(mark: Mark) -> WideMark
    ensures value { narrow result ≡ mark }
    ensures height { result.height < 256 }
    ensures tries { result.tries < 256 }
{
    WideMark {
        height: mark.height as u16,
        tries: mark.tries as u16,
        rec: mark.rec as u16,
    }
}

// The mark after some operands are taken and some left.
fn mark_after(mark: WideMark, taken: u8, given: u8) -> WideMark
    requires small { mark.height < 256 }
    requires there { taken ≤ mark.height }
    ensures { narrow result ≡ after (narrow mark) taken given }
{
    WideMark {
        height: mark.height - taken as u16 + given as u16,
        ..mark
    }
}

// The mark with so many handlers.
fn with_tries(mark: WideMark, tries: u16) -> WideMark
    ensures { narrow result ≡ record (narrow mark) { tries = tries } }
{
    WideMark { tries, ..mark }
}

// The mark with this number of an open recording.
fn with_recording(mark: WideMark, rec: u16) -> WideMark
    ensures { narrow result ≡ record (narrow mark) { rec = rec } }
{
    WideMark { rec, ..mark }
}

// Whether a mark is the one that is wanted.
fn is_same(wanted: WideMark, found: Mark) -> bool
    ensures { result ≡ is_mark (narrow wanted) (Some found) }
{
    wanted.height == found.height as u16
        && wanted.tries == found.tries as u16
        && wanted.rec == found.rec as u16
}

/// A place of some code, in a function that extends up to an end.
#[derive(Drop)]
pub struct Spot<'a> {
    pub code: &'a Code,
    pub function: CodeFunction,
    pub end: u32,
    pub place: u32,
}

impl Spot<'_> {
    ghost use Rattle.core_image.specs.AcceptedTests.{IsSpot, is_good_place, takes_arguments_at};
    ghost use Rattle.core_isa.specs.MarkTests.{leads, has_array, operands_exist, goes_on, back_takes_unit, may_call, marks_follow, is_right};

    // Whether the instruction goes on at another place of its function, where this mark stands.
    fn leads_to(&self, to: u32, mark: WideMark) -> bool
        requires { IsSpot self.now.code.now self.now.function self.now.end self.now.place }
        ensures { result ≡ leads self.now.code.now self.now.place to (narrow mark) }
    {
        self.function.first <= to
            && to < self.end
            && is_same(mark, self.code.lines.items()[to as usize].mark)
    }

    // Whether it finds so many operands, and goes on at the next place with what it leaves.
    fn goes_on_with(&self, mark: WideMark, taken: u8, given: u8) -> bool
        requires spot { IsSpot self.now.code.now self.now.function self.now.end self.now.place }
        requires small { mark.height < 256 }
        ensures { result ≡ goes_on self.now.code.now self.now.place (narrow mark) taken given }
    {
        taken as u16 <= mark.height && self.leads_to(self.place + 1, mark_after(mark, taken, given))
    }

    // Whether a jump to a place is forward, or takes a unit there.
    fn ends_turns(&self, to: u32) -> bool
        requires { IsSpot self.now.code.now self.now.function self.now.end self.now.place }
        ensures { result ≡ back_takes_unit self.now.code.now self.now.place to }
    {
        self.place < to || takes_unit(self.code.lines.items()[to as usize].instr)
    }

    // Whether the function of an index may be called.
    fn calls(&self, mark: WideMark, index: u16) -> bool
        requires spot { IsSpot self.now.code.now self.now.function self.now.end self.now.place }
        requires small { mark.height < 256 }
        ensures { result ≡ may_call self.now.code.now self.now.function self.now.place (narrow mark) (slice_get self.now.code.now.functions index) }
    {
        match self.code.functions.items().get(index as usize) {
            None => false,
            Some(called) => {
                let only_plain = self.function.plain || mark.rec != 0;
                self.goes_on_with(mark, called.params, u8::from(called.value))
                    && (!only_plain || called.plain)
            }
        }
    }

    // Whether an array's slots exist.
    fn is_array(&self, slot: u16, count: u16) -> bool
        ensures { result ≡ has_array self.now.function slot count }
    {
        1 <= count && slot as u32 + count as u32 <= self.function.slots as u32
    }

    // Whether a name exists.
    fn is_named(&self, name: u16) -> bool
        ensures { result ≡ nat_lt name (length self.now.code.now.names) }
    {
        (name as usize) < self.code.names.items().len()
    }

    // Whether the slots, names and channels that an instruction speaks of exist.
    fn has_operands(&self, instr: Instr) -> bool
        ensures { result ≡ operands_exist self.now.code.now self.now.function instr }
    {
        match instr {
            Instr::Load(slot) | Instr::Store(slot) => slot < self.function.slots,
            Instr::LoadAt(slot, count) | Instr::StoreAt(slot, count) => self.is_array(slot, count),
            Instr::Fill(slot, count) => self.is_array(slot, count),
            Instr::Shl(width) | Instr::Shr(width) => width == 32 || width == 64,
            Instr::Out(channel, address) => has_address(channel, address),
            Instr::OutTo(channel) => matches!(kind_of(channel), Some(ChannelKind::OutRaw)),
            Instr::Edge(channel) => is_input(channel),
            Instr::Record(name) | Instr::Play(name) | Instr::Handle(name) => self.is_named(name),
            Instr::Erase(name) | Instr::DataInt(name) => self.is_named(name),
            Instr::DataList(name, slot, count) => self.is_named(name) && self.is_array(slot, count),
            _ => true,
        }
    }

    // Whether a handler may be added here whose place is this one.
    fn handles_at(&self, mark: WideMark, to: u32) -> bool
        requires spot { IsSpot self.now.code.now self.now.function self.now.end self.now.place }
        requires small { mark.tries < 256 }
        ensures { result ≡ marks_follow self.now.code.now self.now.function self.now.place (narrow mark) (Instr.Try to) }
    {
        mark.height == 0
            && self.leads_to(self.place + 1, with_tries(mark, mark.tries + 1))
            && self.place < to
            && self.leads_to(to, WideMark { height: 1, ..mark })
    }

    // Whether the marks are right where an instruction leads.
    fn follows(&self, line: CodeLine) -> bool
        requires { IsSpot self.now.code.now self.now.function self.now.end self.now.place }
        ensures { result ≡ marks_follow self.now.code.now self.now.function self.now.place line.mark line.instr }
    {
        let mark = wide(line.mark);
        let next = self.place + 1;
        match line.instr {
            Instr::Jump(to) => self.leads_to(to, mark) && self.ends_turns(to),
            Instr::JumpZero(to) => {
                self.goes_on_with(mark, 1, 0)
                    && self.leads_to(to, mark_after(mark, 1, 0))
                    && self.ends_turns(to)
            }
            Instr::Call(index) => self.calls(mark, index),
            Instr::Return => {
                let values = u16::from(self.function.value);
                mark.tries == 0 && mark.rec == 0 && mark.height == values
            }
            Instr::Try(to) => self.handles_at(mark, to),
            Instr::EndTry => {
                let inside = 1 <= mark.tries && mark.rec <= mark.tries;
                inside && self.leads_to(next, with_tries(mark, mark.tries - 1))
            }
            Instr::Raise => 1 <= mark.height,
            Instr::Record(_) => {
                mark.rec == 0 && self.leads_to(next, with_recording(mark, mark.tries + 1))
            }
            Instr::Save => {
                let open = !self.function.plain && mark.rec == mark.tries + 1;
                open && self.leads_to(next, with_recording(mark, 0))
            }
            instr => match effect_of(instr) {
                Some((taken, given)) => self.goes_on_with(mark, taken, given),
                None => false,
            },
        }
    }

    // Whether a line meets the conditions on marks here.
    fn is_right_for(&self, line: CodeLine) -> bool
        requires { IsSpot self.now.code.now self.now.function self.now.end self.now.place }
        ensures { result ≡ is_right self.now.code.now self.now.place self.now.function line }
    {
        let mark = line.mark;
        let first = mark.height == 0 && mark.tries == 0 && mark.rec == 0;
        (self.function.first != self.place || first)
            && self.has_operands(line.instr)
            && (!is_live_one(line.instr) || mark.rec == 0 && !self.function.plain)
            && self.follows(line)
    }

    // Whether the main function takes arguments and begins here.
    fn begins_main(&self) -> bool
        requires { IsSpot self.now.code.now self.now.function self.now.end self.now.place }
        ensures { result ≡ takes_arguments_at self.now.place (slice_get self.now.code.now.functions self.now.code.now.main) }
    {
        let main = self.code.functions.items()[self.code.main as usize];
        main.first == self.place && 1 <= main.params
    }

    /// Whether the place is right, and no main function that takes arguments begins here.
    pub fn is_good(&self) -> bool
        requires { IsSpot self.now.code.now self.now.function self.now.end self.now.place }
        ensures { result ≡ is_good_place self.now.code.now self.now.place }
    {
        let line = self.code.lines.items()[self.place as usize];
        self.is_right_for(line) && !self.begins_main()
    }
}
