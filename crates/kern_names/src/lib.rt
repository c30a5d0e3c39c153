//! The names of a kernel's functions with their types, and the types of its expressions, as the interpreter and the compiler
//! ask for them. The programs are typed: what is wrong with another one is said by the checker.
#![tactic(auto)]

mod function_numbers;
mod functions;
mod local_names;
mod names;
mod scope;
mod types;

pub use function_numbers::FunctionNumbers;
pub use functions::{Functions, number_functions};
pub use local_names::names_of;
pub use names::{KnownName, Names};
pub use scope::Scope;
pub use types::{type_of, type_of_name};
