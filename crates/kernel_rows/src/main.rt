//! Takes kernels and code of the core's processor through tables of worked rows, and writes each row that comes out otherwise.
//!
//! `table_rows` says how a table is read. The lines of a row are here
//!
//!     | LINE               a line of the kernel's text; `|- LINE` has no line feed behind it, and `|x 4b 49` are bytes
//!     * N | LINE           the same, N times
//!     $ tokens             its tokens, a line `> KIND PLACE LENGTH LINE` each, or `= fault PLACE KIND`
//!     $ tree               its canonical text behind `>`, and `= N nodes`; or its first wrong token, `= fault TOKEN`
//!     $ types              `= typed`, or the first fault, `= KIND in line LINE`
//!     $ function NAME      the place of its function of this name, or `= none`
//!     $ arguments N..      whether they are `= fit` for its first function, or `= unfit`
//!     $ run FUNCTION ARGUMENT.. from CURSOR with UNITS
//!                          what this function of it asks under the replies, how it ends, its cursor and its units, by its meaning;
//!                          and what its code does, where that is something else
//!     $ turns N            `= within` where a turn of the text's loops takes at least 1 and at most N instructions, else `= beyond`; the
//!                          text goes on behind the lines `def main():` and `n = 2`, or `n = 52` for 50 turns more
//!     $ decode             what the bytes say as an image: names, functions and instructions behind `>`, and `= main FUNCTION`; or the
//!                          place of the first wrong field, `= fault PLACE`
//!     $ encode             the image of what is decoded
//!     $ verify             whether its code is `= accepted`, or its least bad place, `= bad PLACE`
//!     : INSTRUCTION, ..    instructions of a program, with their operands behind blanks; `function PARAMETERS SLOTS FLAGS` begins a
//!                          function (the first has 8 slots and nothing else, if it isn't begun so; flag 1 means that it has a value,
//!                          flag 2 that it is plain), `mark HEIGHT TRIES RECORDING` sets what holds at the next instruction, where
//!                          that isn't what the one before leaves, and `Call FUNCTION TAKES LEAVES` says what it takes and leaves.
//!                          The names of the program are p, q and d
//!     ? REPLY, ..          replies to what a run will ask: `done`, `underflow`, `time N`, `stamp N`, `no edge`, `overflow`,
//!                          `handle N`, `no trace`, `old handle`, `full`, `trace LENGTH: CHANNEL ADDRESS VALUE STAMP: ..`, and
//!                          alone `all done`, which are 32 of `done`
//!     $ execute            runs the program, or the bytes as an image: what it asks and how it ends, its cursor, its units, and how
//!                          many instructions it took. `$ execute FUNCTION ARGUMENT.. from CURSOR with UNITS` says how it begins,
//!                          else it is `0 from 40 with 10`
//!
//! Places, tokens and functions are counted from 0, lines from 1. Each other line is a remark.
#![tactic(auto)]

mod compiled;
mod forms;
mod kernels;
mod machine;
mod replies;
mod running;
mod telling;
mod texts;

use crate::kernels::Kernels;
use std::io;
use table_rows::walk_tables;

fn main(rt: HostRuntime) -> io::Result<()> {
    walk_tables::<Kernels, HostRuntime>(&rt)
}
