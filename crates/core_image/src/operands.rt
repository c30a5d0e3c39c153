// The operands of instructions: what they are by the instruction's number, and reading them.

ghost use Rattle.std.specs.Prelude.{◌≡◌, ◌≤◌, IfOk};
ghost use Rattle.core_image.specs.Operands.{op_of, operands_of, shape_of, Operands, nothing, one_byte, short, two_shorts, place};
ghost use Rattle.core_image.specs.Reading.{Reads, operands_at};

use crate::reader::{Reader, WrongField};
use core_isa::Instr;

/// What operands an instruction has.
#[derive(Clone, Copy, Debug, PartialEq, Eq)]
pub enum Shape {
    Nothing,
    /// A signed number of eight bytes.
    Integer,
    Byte,
    TwoBytes,
    /// A number of two bytes.
    Short,
    TwoShorts,
    ThreeShorts,
    /// A number of four bytes.
    Place,
}

/// What operands the instruction of this number has.
pub fn shape_at(op: u8) -> Shape
    ensures { result ≡ shape_of op }
{
    match op {
        0 => Shape::Integer,
        13 | 14 | 37 | 41 => Shape::Byte,
        36 => Shape::TwoBytes,
        1 | 2 | 28 | 42 | 44 | 46..=48 => Shape::Short,
        3 | 4 | 50 => Shape::TwoShorts,
        49 => Shape::ThreeShorts,
        25 | 26 | 30 => Shape::Place,
        _ => Shape::Nothing,
    }
}

// The instruction of this number with one byte.
fn with_byte(op: u8, n: u8) -> Instr
    requires { shape_of op ≡ Shape.Byte }
    ensures op { op_of result ≡ op }
    ensures operands { operands_of result ≡ one_byte n }
{
    match op {
        13 => Instr::Shl(n),
        14 => Instr::Shr(n),
        37 => Instr::OutTo(n),
        _ => Instr::Edge(n),
    }
}

// The instruction of this number with a number of two bytes.
fn with_short(op: u8, n: u16) -> Instr
    requires { shape_of op ≡ Shape.Short }
    ensures op { op_of result ≡ op }
    ensures operands { operands_of result ≡ short n }
{
    match op {
        1 => Instr::Load(n),
        2 => Instr::Store(n),
        28 => Instr::Call(n),
        42 => Instr::Record(n),
        44 => Instr::Play(n),
        46 => Instr::Handle(n),
        47 => Instr::Erase(n),
        _ => Instr::DataInt(n),
    }
}

// The instruction of this number with an array.
fn with_array(op: u8, slot: u16, count: u16) -> Instr
    requires { shape_of op ≡ Shape.TwoShorts }
    ensures op { op_of result ≡ op }
    ensures operands { operands_of result ≡ two_shorts slot count }
{
    match op {
        3 => Instr::LoadAt(slot, count),
        4 => Instr::StoreAt(slot, count),
        _ => Instr::Fill(slot, count),
    }
}

// The instruction of this number with a place.
fn with_place(op: u8, p: u32) -> Instr
    requires { shape_of op ≡ Shape.Place }
    ensures op { op_of result ≡ op }
    ensures operands { operands_of result ≡ place p }
{
    match op {
        25 => Instr::Jump(p),
        26 => Instr::JumpZero(p),
        _ => Instr::Try(p),
    }
}

// The instruction of this number, which has no operands.
fn with_nothing(op: u8) -> Instr
    requires least { op ≤ 50 }
    requires shape { shape_of op ≡ Shape.Nothing }
    ensures op { op_of result ≡ op }
    ensures operands { operands_of result ≡ nothing }
{
    match op {
        5 => Instr::Add,
        6 => Instr::Sub,
        7 => Instr::Mul,
        8 => Instr::Div,
        9 => Instr::Mod,
        10 => Instr::And,
        11 => Instr::Or,
        12 => Instr::Xor,
        15 => Instr::Neg,
        16 => Instr::Inv,
        17 => Instr::Wrap32,
        18 => Instr::Eq,
        19 => Instr::Ne,
        20 => Instr::Lt,
        21 => Instr::Le,
        22 => Instr::Max,
        23 => Instr::Pop,
        24 => Instr::Dup,
        27 => Instr::Turn,
        29 => Instr::Return,
        31 => Instr::EndTry,
        32 => Instr::Raise,
        33 => Instr::Now,
        34 => Instr::At,
        35 => Instr::Delay,
        38 => Instr::Counter,
        39 => Instr::Reset,
        40 => Instr::Wait,
        43 => Instr::Save,
        _ => Instr::PlayHandle,
    }
}

impl Reader<'_> {
    /// The operands behind an instruction's number, and so the instruction.
    #[tactic(auto, unfolding(crate::specs::Reading::operands_at))]
    pub fn operands(&mut self, op: u8) -> Result<Instr, WrongField>
        requires { op ≤ 50 }
        ensures op { IfOk result (λ instr. op_of instr ≡ op) }
        ensures operands { Reads operands_of result self.new.rest.now (operands_at (shape_of op) self.old.rest.now) }
    {
        match shape_at(op) {
            Shape::Nothing => Ok(with_nothing(op)),
            Shape::Integer => Ok(Instr::Const(self.double()?.cast_signed())),
            Shape::Byte => Ok(with_byte(op, self.byte(0, u8::MAX)?)),
            Shape::TwoBytes => {
                let channel = self.byte(0, u8::MAX)?;
                let address = self.byte(0, u8::MAX)?;
                Ok(Instr::Out(channel, address))
            }
            Shape::Short => Ok(with_short(op, self.short(0, u16::MAX)?)),
            Shape::TwoShorts => {
                let slot = self.short(0, u16::MAX)?;
                let count = self.short(0, u16::MAX)?;
                Ok(with_array(op, slot, count))
            }
            Shape::ThreeShorts => {
                let name = self.short(0, u16::MAX)?;
                let slot = self.short(0, u16::MAX)?;
                let count = self.short(0, u16::MAX)?;
                Ok(Instr::DataList(name, slot, count))
            }
            Shape::Place => Ok(with_place(op, self.long(0, u32::MAX)?)),
        }
    }
}
