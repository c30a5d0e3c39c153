// Code: functions, names and marked instructions.

use crate::{CodeFunctionList, CodeLineList, Instr, NameList};

/// What the code claims of the frame before an instruction.
#[derive(Clone, Copy, Debug, PartialEq, Eq)]
pub struct Mark {
    /// How many operands it has.
    pub height: u8,
    /// How many handlers it has.
    pub tries: u8,
    /// 0 where this function has no recording open; else 1 plus the handlers that there were at its Record.
    pub rec: u8,
}

/// An instruction with its mark.
#[derive(Clone, Copy, Debug, PartialEq, Eq)]
pub struct CodeLine {
    /// What is done.
    pub instr: Instr,
    /// What the code claims of the frame before it.
    pub mark: Mark,
}

/// One function of some code. It extends from its first place to the next function's, the last one to the end.
#[derive(Clone, Copy, Debug, PartialEq, Eq)]
pub struct CodeFunction {
    /// The place of its first instruction.
    pub first: u32,
    /// How many arguments it takes, 0 to 8: they fill its first slots.
    pub params: u8,
    /// How many slots it has, the parameters included. The others are 0 at first.
    pub slots: u16,
    /// Whether it leaves a value.
    pub value: bool,
    /// Whether it is plain: it asks the core for outputs only, so it may be called while a recording is open.
    pub plain: bool,
}

/// A program of the core's processor.
#[derive(Debug, Drop)]
pub struct Code {
    /// The index of the function that runs.
    pub main: u16,
    /// The names of recordings and datasets, by their indices.
    pub names: NameList,
    /// The functions by their first places, which rise.
    pub functions: CodeFunctionList,
    /// The instructions by their places.
    pub lines: CodeLineList,
}
