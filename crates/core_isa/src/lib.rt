//! The instructions of the core's processor, the code that it runs, and what running it means.
#![tactic(auto)]

mod code;
mod instr;
mod laws;
mod lists;

pub use code::{Code, CodeFunction, CodeLine, Mark};
pub use instr::Instr;
pub use laws::{
    marked_code_asks_well, marked_code_ends, marked_code_is_never_stuck, one_end,
    requests_take_units, runs_begin_sound, steps_fall, steps_stay_sound, tests_decide_marks,
};
pub use lists::{CodeFunctionList, CodeLineList, NameList};
