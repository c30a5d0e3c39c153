//! A crew: workers in threads of their own, at desks that are opened for them and closed behind them. That a laboratory has several
//! workers is this project's own.
#![tactic(auto)]

mod closing;
mod crew;
mod dealing;
mod ending;
mod gathering;
mod member;
mod preparing;
mod threads;

pub use crew::run_crew;
pub use ending::ends_of_crew;
/// How a worker ends.
pub use lab_workers::WorkEnd;
