//! The steps of a kernel's run that run no other part of it: operators, the language's own functions and methods, which
//! handler an exception goes to, the ends of turns, record blocks and functions, and how a call and a function's names
//! begin.
#![tactic(auto)]

mod assigning;
mod builtins;
mod functions;
mod handling;
mod operating;
mod recording;
mod turns;

pub use assigning::{hold_sum, keep, operator_of, repeated, set_sum};
pub use builtins::{array_argument, perform_builtin, perform_method, text_of};
pub use functions::{enter_call, finished, initial_values};
pub use handling::handler_of;
pub use operating::{is_true, number_of, operate};
pub use recording::end_recording;
pub use turns::settled;
