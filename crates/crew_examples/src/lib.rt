//! Workers of a laboratory: that several run at once, what they do while one is kept standing, what one prepares, and where it passes the
//! gate. The crate has tests alone; that a session has one report whoever serves it is shown by `program_rows`.
#![tactic(auto)]

#[cfg(test)]
mod alone;
#[cfg(test)]
mod crews;
#[cfg(test)]
mod kits;
#[cfg(test)]
mod sessions;
#[cfg(test)]
mod standing;
