//! What the programs share from their words to their status: what a program says of its words and of the bytes of its source,
//! and that it is told, bytes on out or a line on err. With it stands what a top call promises, once for all programs.
//!
//! All of this is the project's own: the ARTIQ manual says nothing of it.
#![tactic(auto)]

mod answer;
mod finish;
mod reading;
mod stop;
mod telling;
mod words;

pub use answer::Answer;
pub use finish::{Finish, status_of};
pub use reading::read_up_to;
pub use stop::Stop;
pub use telling::{tell, without_memory};
pub use words::own_words;
