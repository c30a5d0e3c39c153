//! Reads sessions and calls datasets as tables of worked rows say, and writes each row that comes out otherwise.
//!
//! `table_rows` says how a table is read. The lines of a row are here
//!
//!     | LINE                       a line of the session's text; `|- LINE` has no line feed behind it, `|x 4b 49` are bytes
//!     * N | LINE                   the same, N times
//!     $ read                       what is read, line by line behind `>`; or the line that refuses it, behind `=`
//!     $ copy                       the session is read and copied, and the copy told: `= the same`
//!     $ set FLAGS NAME NUMBER      sets a dataset to a number; FLAGS are letters of `bpa` (broadcast, persist, archive) or `-`
//!     $ list FLAGS NAME NUMBER..   sets it to a list
//!     $ append NAME NUMBER         appends to it: `= ok`, or why not
//!     $ get NAME                   its value, flags and sum, or `= none`
//!     $ names                      the names of the datasets in their order
//!     $ fork                       copies the datasets; the next calls go to the copy
//!     $ other                      the next calls go to the other ones
//!
//! Each other line is a remark.
#![tactic(auto)]

mod datasets;
mod sessions;
mod steps;
mod tables;

use crate::tables::Tables;
use std::io;
use table_rows::walk_tables;

fn main(rt: HostRuntime) -> io::Result<()> {
    walk_tables::<Tables, HostRuntime>(&rt)
}
