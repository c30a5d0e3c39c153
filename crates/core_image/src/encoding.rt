// Code to bytes.

ghost use Rattle.std.specs.Prelude.{◌≡◌, ◌++◌, map, OnOk, IfOk};
ghost use Rattle.std.specs.List.{flat_map};
ghost use Rattle.core_image.specs.Operands.{op_of, operands_of};
ghost use Rattle.core_image.specs.Parts.{parts_of, parts_of_line};
ghost use Rattle.core_image.specs.Ranges.{IsInRange};
ghost use Rattle.core_image.specs.Spelling.{name_bytes, function_bytes, operand_bytes, line_bytes, image_of};

use crate::reader::MAGIC;
use core_isa::{Code, CodeFunction, CodeLine, Instr};
use rtio_types::Name;
use std::alloc::{AllocError, Global};

// The number of an instruction.
fn number_of(instr: Instr) -> u8
    ensures { result ≡ op_of instr }
{
    match instr {
        Instr::Const(_) => 0,
        Instr::Load(_) => 1,
        Instr::Store(_) => 2,
        Instr::LoadAt(_, _) => 3,
        Instr::StoreAt(_, _) => 4,
        Instr::Add => 5,
        Instr::Sub => 6,
        Instr::Mul => 7,
        Instr::Div => 8,
        Instr::Mod => 9,
        Instr::And => 10,
        Instr::Or => 11,
        Instr::Xor => 12,
        Instr::Shl(_) => 13,
        Instr::Shr(_) => 14,
        Instr::Neg => 15,
        Instr::Inv => 16,
        Instr::Wrap32 => 17,
        Instr::Eq => 18,
        Instr::Ne => 19,
        Instr::Lt => 20,
        Instr::Le => 21,
        Instr::Max => 22,
        Instr::Pop => 23,
        Instr::Dup => 24,
        Instr::Jump(_) => 25,
        Instr::JumpZero(_) => 26,
        Instr::Turn => 27,
        Instr::Call(_) => 28,
        Instr::Return => 29,
        Instr::Try(_) => 30,
        Instr::EndTry => 31,
        Instr::Raise => 32,
        Instr::Now => 33,
        Instr::At => 34,
        Instr::Delay => 35,
        Instr::Out(_, _) => 36,
        Instr::OutTo(_) => 37,
        Instr::Counter => 38,
        Instr::Reset => 39,
        Instr::Wait => 40,
        Instr::Edge(_) => 41,
        Instr::Record(_) => 42,
        Instr::Save => 43,
        Instr::Play(_) => 44,
        Instr::PlayHandle => 45,
        Instr::Handle(_) => 46,
        Instr::Erase(_) => 47,
        Instr::DataInt(_) => 48,
        Instr::DataList(_, _, _) => 49,
        Instr::Fill(_, _) => 50,
    }
}

// Puts the operands of an instruction at the end.
fn put_operands(out: &mut Vec<u8>, instr: Instr) -> Result<(), AllocError>
    ensures { OnOk result (out.new.items ≡ out.old.items ++ operand_bytes (operands_of instr)) }
{
    match instr {
        Instr::Const(v) => out.extend_from_slice(&v.to_le_bytes()),
        Instr::Shl(n) | Instr::Shr(n) | Instr::OutTo(n) | Instr::Edge(n) => {
            out.extend_from_slice(&[n])
        }
        Instr::Out(channel, address) => out.extend_from_slice(&[channel, address]),
        Instr::Load(n)
        | Instr::Store(n)
        | Instr::Call(n)
        | Instr::Record(n)
        | Instr::Play(n)
        | Instr::Handle(n)
        | Instr::Erase(n)
        | Instr::DataInt(n) => out.extend_from_slice(&n.to_le_bytes()),
        Instr::LoadAt(slot, count) | Instr::StoreAt(slot, count) | Instr::Fill(slot, count) => {
            put_two(out, slot, count)
        }
        Instr::DataList(name, slot, count) => {
            out.extend_from_slice(&name.to_le_bytes())?;
            put_two(out, slot, count)
        }
        Instr::Jump(p) | Instr::JumpZero(p) | Instr::Try(p) => {
            out.extend_from_slice(&p.to_le_bytes())
        }
        _ => Ok(()),
    }
}

ghost use Rattle.std.specs.Int.{w16, w32, to_le_bytes};

// Puts two numbers of two bytes at the end.
fn put_two(out: &mut Vec<u8>, m: u16, n: u16) -> Result<(), AllocError>
    ensures { OnOk result (out.new.items ≡ out.old.items ++ (to_le_bytes w16 m ++ to_le_bytes w16 n)) }
{
    out.extend_from_slice(&m.to_le_bytes())?;
    out.extend_from_slice(&n.to_le_bytes())
}

// Puts an instruction with its mark at the end.
fn put_line(out: &mut Vec<u8>, line: &CodeLine) -> Result<(), AllocError>
    ensures { OnOk result (out.new.items ≡ out.old.items ++ line_bytes (parts_of_line line.now)) }
{
    let mark = line.mark;
    out.extend_from_slice(&[number_of(line.instr), mark.height, mark.tries, mark.rec])?;
    put_operands(out, line.instr)
}

// Puts a function at the end.
fn put_function(out: &mut Vec<u8>, function: &CodeFunction) -> Result<(), AllocError>
    ensures { OnOk result (out.new.items ≡ out.old.items ++ function_bytes function.now) }
{
    out.extend_from_slice(&function.first.to_le_bytes())?;
    out.push(function.params)?;
    out.extend_from_slice(&function.slots.to_le_bytes())?;
    out.push(u8::from(function.value) + 2 * u8::from(function.plain))?;
    Ok(())
}

// Puts a name at the end.
fn put_name(out: &mut Vec<u8>, name: &Name) -> Result<(), AllocError>
    ensures { OnOk result (out.new.items ≡ out.old.items ++ name_bytes name.now) }
{
    let bytes = name.bytes();
    out.push(bytes.len() as u8)?;
    out.extend_from_slice(bytes)
}

ghost use Rattle.core_image.specs.Spelling.{head_bytes};

// Puts what stands before all else at the end: how many functions, which one is main, how many names and lines.
fn put_head(
    out: &mut Vec<u8>,
    functions: u16,
    main: u16,
    names: u16,
    lines: u32,
) -> Result<(), AllocError>
    ensures { OnOk result (out.new.items ≡ out.old.items ++ head_bytes functions main names lines) }
{
    out.extend_from_slice(&MAGIC)?;
    put_two(out, functions, main)?;
    put_counts(out, names, lines)
}

// Puts how many names and how many lines there are at the end.
fn put_counts(out: &mut Vec<u8>, names: u16, lines: u32) -> Result<(), AllocError>
    ensures { OnOk result (out.new.items ≡ out.old.items ++ (to_le_bytes w16 names ++ to_le_bytes w32 lines)) }
{
    out.extend_from_slice(&names.to_le_bytes())?;
    out.extend_from_slice(&lines.to_le_bytes())
}

// Puts names at the end.
fn put_names(out: &mut Vec<u8>, names: &[Name]) -> Result<(), AllocError>
    ensures { OnOk result (out.new.items ≡ out.old.items ++ flat_map name_bytes names.now) }
{
    for name in names {
        put_name(out, name)?;
    }
    Ok(())
}

// Puts functions at the end.
fn put_functions(out: &mut Vec<u8>, functions: &[CodeFunction]) -> Result<(), AllocError>
    ensures { OnOk result (out.new.items ≡ out.old.items ++ flat_map function_bytes functions.now) }
{
    for function in functions {
        put_function(out, function)?;
    }
    Ok(())
}

// Puts instructions at the end.
fn put_lines(out: &mut Vec<u8>, lines: &[CodeLine]) -> Result<(), AllocError>
    ensures { OnOk result (out.new.items ≡ out.old.items ++ flat_map line_bytes (map parts_of_line lines.now)) }
{
    for line in lines {
        put_line(out, line)?;
    }
    Ok(())
}

/// The image of some code; the only error is want of memory.
pub fn encode(alloc: Global, code: &Code) -> Result<Vec<u8>, AllocError>
    requires { IsInRange code.now }
    ensures { IfOk result (λ image. image.items ≡ image_of code.now) }
{
    let mut out = Vec::new(alloc);
    let names = code.names.items();
    let functions = code.functions.items();
    let lines = code.lines.items();
    put_head(
        &mut out,
        functions.len() as u16,
        code.main,
        names.len() as u16,
        lines.len() as u32,
    )?;
    put_names(&mut out, names)?;
    put_functions(&mut out, functions)?;
    put_lines(&mut out, lines)?;
    Ok(out)
}
