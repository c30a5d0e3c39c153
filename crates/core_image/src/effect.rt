// What instructions do to the operands.

ghost use Rattle.std.specs.Prelude.{◌≡◌};
ghost use Rattle.core_isa.specs.Marks.{effect, is_live, is_turn_or_edge};

use core_isa::Instr;

/// How many operands an instruction takes and leaves, where it goes on at the next place and changes nothing else of
/// the mark.
pub fn effect_of(instr: Instr) -> Option<(u8, u8)>
    ensures { result ≡ effect instr }
{
    match instr {
        Instr::Turn | Instr::Play(_) | Instr::Erase(_) | Instr::DataList(_, _, _) => Some((0, 0)),
        Instr::Const(_) | Instr::Load(_) | Instr::Now | Instr::Counter => Some((0, 1)),
        Instr::Reset | Instr::Handle(_) => Some((0, 1)),
        Instr::Store(_) | Instr::Pop | Instr::At | Instr::Delay | Instr::Out(_, _) => Some((1, 0)),
        Instr::Wait | Instr::PlayHandle | Instr::DataInt(_) | Instr::Fill(_, _) => Some((1, 0)),
        Instr::LoadAt(_, _) | Instr::Neg | Instr::Inv | Instr::Wrap32 => Some((1, 1)),
        Instr::Edge(_) => Some((1, 1)),
        Instr::Dup => Some((1, 2)),
        Instr::StoreAt(_, _) | Instr::OutTo(_) => Some((2, 0)),
        Instr::Add | Instr::Sub | Instr::Mul | Instr::Div | Instr::Mod => Some((2, 1)),
        Instr::And | Instr::Or | Instr::Xor | Instr::Shl(_) | Instr::Shr(_) => Some((2, 1)),
        Instr::Eq | Instr::Ne | Instr::Lt | Instr::Le | Instr::Max => Some((2, 1)),
        _ => None,
    }
}

/// Whether an instruction asks the core for more than an output, or opens a recording.
pub fn is_live_one(instr: Instr) -> bool
    ensures { result ≡ is_live instr }
{
    matches!(
        instr,
        Instr::Counter
            | Instr::Reset
            | Instr::Wait
            | Instr::Edge(_)
            | Instr::Record(_)
            | Instr::Play(_)
            | Instr::PlayHandle
            | Instr::Handle(_)
            | Instr::Erase(_)
            | Instr::DataInt(_)
            | Instr::DataList(_, _, _)
    )
}

/// Whether an instruction takes a unit before anything else.
pub fn takes_unit(instr: Instr) -> bool
    ensures { result ≡ is_turn_or_edge instr }
{
    matches!(instr, Instr::Turn | Instr::Edge(_))
}
