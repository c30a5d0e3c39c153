// The marks of lines of code.

ghost use Rattle.std.specs.Prelude.{◌≡◌, ◌+◌, ◌<◌, ◌≤◌, ℕ, IfSome};
ghost use Rattle.code_forms.specs.Lines.{raised, with_handler, with_recording, mark_after};
ghost use Rattle.code_ranges.specs.Room.{HasRoom};
ghost use Rattle.core_isa.specs.Marks.{effect};

use core_isa::{Instr, Mark};

/// The mark with so many operands more.
pub fn raised(mark: Mark, more: u8) -> Mark
    requires { mark.height + more < 256 }
    ensures { result ≡ raised more mark }
{
    Mark {
        height: mark.height + more,
        ..mark
    }
}

/// The mark with a handler more.
pub fn with_handler(mark: Mark) -> Mark
    requires { mark.tries < 255 }
    ensures { result ≡ with_handler mark }
{
    Mark {
        tries: mark.tries + 1,
        ..mark
    }
}

/// The mark with a recording open that was opened under the handlers that there are.
pub fn with_recording(mark: Mark) -> Mark
    requires { mark.tries < 255 }
    ensures { result ≡ with_recording mark }
{
    Mark {
        rec: mark.tries + 1,
        ..mark
    }
}

// How many operands an instruction takes and leaves, where it changes nothing else of the mark. The image's test has this table
// for itself; here it tells besides that no instruction leaves more than one operand more.
fn effect_of(instr: Instr) -> Option<(u8, u8)>
    ensures effect { result ≡ effect instr }
    ensures small { IfSome result (λ counts. (counts.1 ≤ counts.0 + 1) × (counts.1 ≤ 2)) }
{
    match instr {
        Instr::Turn | Instr::Play(_) | Instr::Erase(_) | Instr::DataList(_, _, _) => Some((0, 0)),
        Instr::Const(_) | Instr::Load(_) | Instr::Now | Instr::Counter => Some((0, 1)),
        Instr::Reset | Instr::Handle(_) => Some((0, 1)),
        Instr::Store(_) | Instr::Pop | Instr::At | Instr::Delay | Instr::Out(_, _) => Some((1, 0)),
        Instr::Wait | Instr::PlayHandle | Instr::DataInt(_) | Instr::Fill(_, _) => Some((1, 0)),
        Instr::LoadAt(_, _) | Instr::Neg | Instr::Inv | Instr::Wrap32 => Some((1, 1)),
        Instr::Edge(_) => Some((1, 1)),
        Instr::Dup => Some((1, 2)),
        Instr::StoreAt(_, _) | Instr::OutTo(_) => Some((2, 0)),
        Instr::Add | Instr::Sub | Instr::Mul | Instr::Div | Instr::Mod => Some((2, 1)),
        Instr::And | Instr::Or | Instr::Xor | Instr::Shl(_) | Instr::Shr(_) => Some((2, 1)),
        Instr::Eq | Instr::Ne | Instr::Lt | Instr::Le | Instr::Max => Some((2, 1)),
        _ => None,
    }
}

/// The mark at the next place of an instruction.
pub fn mark_after(mark: Mark, instr: Instr) -> Mark
    requires { HasRoom mark 1 }
    ensures mark { result ≡ mark_after mark instr }
    ensures room { (n : ℕ) → HasRoom mark (n + 1) → HasRoom result n }
{
    match instr {
        Instr::JumpZero(_) => Mark {
            height: mark.height.saturating_sub(1),
            ..mark
        },
        Instr::Try(_) => with_handler(mark),
        Instr::EndTry => Mark {
            tries: mark.tries.saturating_sub(1),
            ..mark
        },
        Instr::Record(_) => with_recording(mark),
        Instr::Save => Mark { rec: 0, ..mark },
        _ => match effect_of(instr) {
            Some((taken, left)) => Mark {
                height: mark.height.saturating_sub(taken) + left,
                ..mark
            },
            None => mark,
        },
    }
}
