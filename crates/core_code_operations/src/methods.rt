// Calls of methods.

ghost use Rattle.std.specs.Prelude.{◌≡◌, ℕ, ◌+◌, ◌<◌, ◌^◌, ◌++◌, [], ◌∷◌, OnOk, length};
ghost use Rattle.kern_syntax.specs.Tree.{Bytes};
ghost use Rattle.core_isa.specs.declared.instr.Instr.TheVariants as I;
ghost use Rattle.code_forms.specs.Lines.{straight};
ghost use Rattle.code_forms.specs.Operations.{count_instrs, gate_instrs, lead, method_has_value, method_instrs, operation_instrs, out_instrs, pulse_instrs};
ghost use Rattle.code_forms.specs.Setting as C;
ghost use Rattle.core_code_lines.specs.Room.{HasRoom};
ghost use Rattle.core_code_names.specs.SettingOf.{setting_of};

use core_code_lines::put_all;
use core_code_names::Setting;
use core_isa::{CodeLine, Instr, Mark};
use kern_calls::Operation;
use limits::LEAD;
use std::alloc::AllocError;

/// Whether a call of a method leaves a value.
pub fn method_has_value(method: Option<Operation>) -> bool
    ensures { result ≡ method_has_value method }
{
    match method {
        Some(operation) => operation.result().is_some(),
        None => false,
    }
}

/// How many instructions a call of a method has behind its numbers, 13 at most.
pub fn method_size(method: Option<Operation>) -> u32
    ensures { (setting : C.Setting) (text : Bytes) → result ≡ length (method_instrs setting 0 0 text method) }
{
    match method {
        Some(operation) => operation_size(operation),
        None => 0,
    }
}

fn operation_size(operation: Operation) -> u32
    ensures { (setting : C.Setting) (text : Bytes) → result ≡ length (operation_instrs setting 0 0 text operation) }
{
    match operation {
        Operation::On(_) | Operation::Off(_) => 2,
        Operation::Pulse(_) => 5,
        Operation::GateRising(_) | Operation::GateFalling(_) | Operation::GateBoth(_) => 6,
        Operation::Count(_) => 13,
        Operation::BreakRealtime => 6,
        Operation::Reset => 4,
        _ => 1,
    }
}

/// Puts a call of a method whose numbers are there, under the mark that counts them. The slot `free` and those behind it
/// are free.
pub fn put_method_instrs(
    lines: &mut Vec<CodeLine>,
    setting: &Setting<'_>,
    free: u16,
    mark: Mark,
    text: &[u8],
    method: Option<Operation>,
) -> Result<(), AllocError>
    requires room { HasRoom mark 13 }
    requires places { length lines.old.items + length (method_instrs (setting_of setting.now) 0 0 text.now method) < 2 ^ 32 }
    ensures { OnOk result (lines.new.items ≡ lines.old.items
        ++ straight mark (method_instrs (setting_of setting.now) free (length lines.old.items) text.now method)) }
{
    match method {
        Some(operation) => put_operation(lines, setting, free, mark, text, operation),
        None => Ok(()),
    }
}

fn put_operation(
    lines: &mut Vec<CodeLine>,
    setting: &Setting<'_>,
    free: u16,
    mark: Mark,
    text: &[u8],
    operation: Operation,
) -> Result<(), AllocError>
    requires room { HasRoom mark 13 }
    requires places { length lines.old.items + length (operation_instrs (setting_of setting.now) 0 0 text.now operation) < 2 ^ 32 }
    ensures { OnOk result (lines.new.items ≡ lines.old.items
        ++ straight mark (operation_instrs (setting_of setting.now) free (length lines.old.items) text.now operation)) }
{
    match operation {
        Operation::On(channel) => put_out(lines, mark, channel, 1),
        Operation::Off(channel) => put_out(lines, mark, channel, 0),
        Operation::Pulse(channel) => put_pulse(lines, mark, channel),
        Operation::Write(channel) => put_all(lines, mark, &[Instr::OutTo(channel)]),
        Operation::GateRising(channel) => put_gate(lines, mark, channel, 1),
        Operation::GateFalling(channel) => put_gate(lines, mark, channel, 2),
        Operation::GateBoth(channel) => put_gate(lines, mark, channel, 3),
        Operation::Timestamp(channel) => put_all(lines, mark, &[Instr::Edge(channel)]),
        Operation::Count(channel) => put_count(lines, free, mark, channel),
        Operation::Counter => put_all(lines, mark, &[Instr::Counter]),
        Operation::BreakRealtime => put_break_realtime(lines, mark),
        Operation::Reset => put_reset(lines, mark),
        Operation::WaitUntil => put_all(lines, mark, &[Instr::Wait]),
        Operation::Playback => put_all(lines, mark, &[Instr::Play(setting.text_index(text))]),
        Operation::PlaybackHandle => put_all(lines, mark, &[Instr::PlayHandle]),
        Operation::GetHandle => put_all(lines, mark, &[Instr::Handle(setting.text_index(text))]),
        Operation::Erase => put_all(lines, mark, &[Instr::Erase(setting.text_index(text))]),
    }
}

// Puts out a number on a channel.
fn put_out(lines: &mut Vec<CodeLine>, mark: Mark, channel: u8, number: u8) -> Result<(), AllocError>
    requires { HasRoom mark 2 }
    ensures { OnOk result (lines.new.items ≡ lines.old.items ++ straight mark (out_instrs channel 0 number)) }
{
    put_all(
        lines,
        mark,
        &[Instr::Const(i64::from(number)), Instr::Out(channel, 0)],
    )
}

// Puts a channel on for so long as is on the operands.
fn put_pulse(lines: &mut Vec<CodeLine>, mark: Mark, channel: u8) -> Result<(), AllocError>
    requires { HasRoom mark 5 }
    ensures { OnOk result (lines.new.items ≡ lines.old.items ++ straight mark (pulse_instrs channel)) }
{
    put_all(
        lines,
        mark,
        &[
            Instr::Const(1),
            Instr::Out(channel, 0),
            Instr::Delay,
            Instr::Const(0),
            Instr::Out(channel, 0),
        ],
    )
}

// Opens an input's gate for so long as is on the operands, and leaves the cursor where it closes.
fn put_gate(
    lines: &mut Vec<CodeLine>,
    mark: Mark,
    channel: u8,
    sensitivity: u8,
) -> Result<(), AllocError>
    requires { HasRoom mark 6 }
    ensures { OnOk result (lines.new.items ≡ lines.old.items ++ straight mark (gate_instrs channel sensitivity)) }
{
    put_all(
        lines,
        mark,
        &[
            Instr::Const(i64::from(sensitivity)),
            Instr::Out(channel, 2),
            Instr::Delay,
            Instr::Const(0),
            Instr::Out(channel, 2),
            Instr::Now,
        ],
    )
}

// Counts the edges below a bound: it is kept in a slot, and the number of edges lies on the operands.
fn put_count(
    lines: &mut Vec<CodeLine>,
    free: u16,
    mark: Mark,
    channel: u8,
) -> Result<(), AllocError>
    requires room { HasRoom mark 13 }
    requires places { length lines.old.items + 13 < 2 ^ 32 }
    ensures { OnOk result (lines.new.items ≡ lines.old.items ++ straight mark (count_instrs channel free (length lines.old.items))) }
{
    let place = lines.len() as u32;
    put_all(
        lines,
        mark,
        &[
            Instr::Store(free),
            Instr::Const(0),
            Instr::Load(free),
            Instr::Edge(channel),
            Instr::Const(0),
            Instr::Lt,
            Instr::JumpZero(place + 8),
            Instr::Jump(place + 13),
            Instr::Const(1),
            Instr::Add,
            Instr::Wrap32,
            Instr::Load(free),
            Instr::Jump(place + 3),
        ],
    )
}

// Sets the cursor ahead of the counter, where it isn't that far yet.
fn put_break_realtime(lines: &mut Vec<CodeLine>, mark: Mark) -> Result<(), AllocError>
    requires { HasRoom mark 6 }
    ensures { OnOk result (lines.new.items ≡ lines.old.items ++ straight mark (I.Now ∷ I.Counter ∷ lead ∷ I.Add ∷ I.Max ∷ I.At ∷ [])) }
{
    put_all(
        lines,
        mark,
        &[
            Instr::Now,
            Instr::Counter,
            Instr::Const(LEAD as i64),
            Instr::Add,
            Instr::Max,
            Instr::At,
        ],
    )
}

// Resets the core, and sets the cursor ahead of its counter.
fn put_reset(lines: &mut Vec<CodeLine>, mark: Mark) -> Result<(), AllocError>
    requires { HasRoom mark 4 }
    ensures { OnOk result (lines.new.items ≡ lines.old.items ++ straight mark (I.Reset ∷ lead ∷ I.Add ∷ I.At ∷ [])) }
{
    put_all(
        lines,
        mark,
        &[
            Instr::Reset,
            Instr::Const(LEAD as i64),
            Instr::Add,
            Instr::At,
        ],
    )
}
