// Why there is no kernel.

use kern_lexer::LexKind;
use kern_types::TypeKind;

/// Why a text is no accepted kernel's.
#[derive(Clone, Copy, Debug, PartialEq, Eq)]
pub enum Refusal {
    /// It has no tokens: its first fault begins at this byte, counted from 0, and is of this kind.
    Tokens { at: u32, kind: LexKind },
    /// Its tokens have no tree: the first wrong one has this number, from 0, and begins at this byte, from 0.
    Tree { token: u32, at: u32 },
    /// Its program isn't typed: the first fault is of a statement, branch or header in this line, from 1, and of this kind.
    Types { line: u32, kind: TypeKind },
    /// Its program has more than 16,384 nodes: so many. The number stands still at 2^64 - 1.
    Nodes { count: u64 },
}

/// Why a text has not become a kernel.
#[derive(Clone, Copy, Debug, PartialEq, Eq)]
pub enum KernelEnd {
    /// It is no accepted kernel's.
    Refused(Refusal),
    /// Memory ran out.
    Memory,
}
