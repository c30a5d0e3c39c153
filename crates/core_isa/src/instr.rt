// The instructions.

/// One instruction of the core's processor, with its operands in their order. Every value is an i64, and a truth value
/// is 0 or 1. The arrows say which values it takes from the frame's operands, the last one on top, and which it leaves
/// there. A slot is a numbered variable of the frame, and an array is a row of slots: its first one and its length.
/// The instructions are this project's own.
#[derive(Clone, Copy, Debug, PartialEq, Eq)]
pub enum Instr {
    /// `→ v`.
    Const(i64),
    /// `→ x`, the value of a slot.
    Load(u16),
    /// `v →`: into a slot.
    Store(u16),
    /// `i → x`, the element of an array at an index; IndexError where it has none.
    LoadAt(u16, u16),
    /// `v i →`: into an element of an array; IndexError where it has none.
    StoreAt(u16, u16),
    /// `a b → a + b`, wrapping at 64 bits.
    Add,
    /// `a b → a - b`, wrapping at 64 bits.
    Sub,
    /// `a b → a * b`, wrapping at 64 bits.
    Mul,
    /// `a b → a // b`, rounded down; ZeroDivisionError.
    Div,
    /// `a b → a % b`, what is left of that quotient; ZeroDivisionError.
    Mod,
    /// `a b → a & b`.
    And,
    /// `a b → a | b`.
    Or,
    /// `a b → a ^ b`.
    Xor,
    /// `a n → a << n` with the amount modulo the width, 32 or 64; wrapping at 64 bits.
    Shl(u8),
    /// `a n → a >> n` with the amount modulo the width, 32 or 64; the sign stays.
    Shr(u8),
    /// `a → -a`, wrapping at 64 bits.
    Neg,
    /// `a → ~a`.
    Inv,
    /// `a → x`, the low 32 bits, signed.
    Wrap32,
    /// `a b → 1` where they are equal, else `0`.
    Eq,
    /// `a b → 1` where they differ, else `0`.
    Ne,
    /// `a b → 1` where a is less, else `0`.
    Lt,
    /// `a b → 1` where a is at most b, else `0`.
    Le,
    /// `a b → x`, the greater one.
    Max,
    /// `a →`.
    Pop,
    /// `a → a a`.
    Dup,
    /// Goes on at a place.
    Jump(u32),
    /// `c →`: goes on at a place where c is 0.
    JumpZero(u32),
    /// Takes a unit.
    Turn,
    /// The arguments `→` the value, if the function has one. Takes a unit; StackOverflow where 64 frames are.
    Call(u16),
    /// The value, if the function has one, `→`: ends the frame. The run has returned where it was the last one.
    Return,
    /// Adds a handler with a place.
    Try(u32),
    /// Removes the last handler.
    EndTry,
    /// `code →`: raises the exception; a code outside 1 to 6 counts as 6.
    Raise,
    /// `→ x`, the cursor in mu.
    Now,
    /// `t →`: the cursor in mu.
    At,
    /// `d →`: moves the cursor on by so many mu, wrapping at 64 bits.
    Delay,
    /// `data →`: an output on a channel and address at the cursor, submitted or recorded. Its data is the low 32 bits.
    Out(u8, u8),
    /// `ad data →`: the same at address `ad` modulo 256.
    OutTo(u8),
    /// `→ x`, what the counter reads in mu.
    Counter,
    /// `→ x`: resets the core, and what the counter reads in mu.
    Reset,
    /// `t →`: waits until the counter reads at least t mu.
    Wait,
    /// `up_to → x`, the stamp of the first unread edge of a channel below up_to, or -1.
    Edge(u8),
    /// Keeps the cursor, sets it to 0 and opens a recording of a name.
    Record(u16),
    /// Closes the open recording, restores the cursor and has the recording kept.
    Save,
    /// Fetches the recording of a name, puts out its events and moves the cursor on by its length.
    Play(u16),
    /// `h →`: the same with the recording of a handle.
    PlayHandle,
    /// `→ h`, a handle of the recording of a name.
    Handle(u16),
    /// Has the recording of a name forgotten.
    Erase(u16),
    /// `v →`: sets the dataset of a name to a number.
    DataInt(u16),
    /// Sets the dataset of a name to the numbers of an array.
    DataList(u16, u16, u16),
    /// `v →`: each element of an array is v.
    Fill(u16, u16),
}
