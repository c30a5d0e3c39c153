//! What the code of a kernel's functions rests on: the functions of the program, the names of each with their types and
//! slots, and the names of recordings and datasets.
#![tactic(auto)]

mod collecting;
mod setting;
mod slots;
mod slotted;
mod texts;

pub use collecting::texts_of;
pub use setting::Setting;
pub use slots::block_slots;
pub use slotted::SlottedNames;
pub use texts::Texts;
