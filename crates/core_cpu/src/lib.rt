//! The core's processor: it runs accepted code from request to request. It is this project's own.
#![tactic(auto)]

mod answer;
mod course;
mod cpu;
mod first;
mod frames;
mod handlers;
mod hurry;
mod layout;
mod numbers;
mod phase;
mod playback;
mod playing;
mod quick;
mod recordings;
mod run;
mod slots;
mod stack;
mod state;
mod step;
mod stop;
mod values;

pub use cpu::Cpu;
pub use stop::Stop;
