//! Takes cores, their parts and schedules through tables of worked rows, and writes each row that comes out otherwise.
//!
//! `table_rows` says how a table is read. Here a line `$ CALL` is a call, answered by one line `= ANSWER`. An EVENT is written
//! `CHANNEL.ADDRESS=VALUE@STAMP`. Lines before the first call say what a core begins with:
//!
//!     edges CHANNEL@STAMP..             rising edges of inputs
//!     many_edges CHANNEL@STAMP N        so many edges, each 1 mu behind the one before
//!     hold CHANNEL CYCLES               how many cycles an output of that channel takes, where it isn't 0
//!     kept EVENT NAME..                 recordings of these names that it begins with, each of 80 mu with that output
//!
//! The calls are
//!
//!     core LANES DEPTH COST HORIZON     whether the settings are accepted: then there is a new core, with a session of chair 0 and run 0
//!     idle LANES DEPTH COST HORIZON     the same, with no session
//!     out EVENT, counter, reset, wait STAMP, edge CHANNEL@STAMP, data NUMBER.. (sets the dataset `p`, to a list where there are
//!     several), save EVENT.. (a recording of 80 mu under the name `p`), fetch, handle, erase (by that name), fetch_handle HANDLE
//!                                       asks for that in the open session: the reply, and at which counter it was entered in the
//!                                       core's history; or before which cycle there is none, and whether the request is kept
//!     tick                              lets the counter go on by a cycle: whether it went
//!     run                               lets it go on tick by tick as far as it may: where it stands, and why no further
//!     leap CYCLES                       lets it go on by up to so many cycles at once; with no number, as far as it may
//!     start RID                         starts a session of chair 1 for that run: its cursor, or which run's session is open
//!     end CURSOR, stop CURSOR           ends the open session with that cursor, as one that returned, or at the horizon
//!     code LINES                        whether code of one function is accepted; the lines are `out STAMP` (of a 1 on channel 0),
//!                                       `wait STAMP` and `return`, between commas
//!     session SCHEDULE                  a session of the code, of ten units: how it ended, and at which counters the entries of the
//!                                       core's history stand; a SCHEDULE is `lockstep`, `mix:N` or a word of `c` and `t`
//!     drain                             lets a core without a session drain: the counter then
//!     trace, log                        what was put out, and what wasn't and why
//!     peaks                             how full each lane has been
//!     recordings                        the recordings that are kept: name, handle, outputs
//!     copy LANES DEPTH COST HORIZON     a copy of the settings
//!     copy_start RID NUMBER..           a copy of what a session of that run with these arguments is started with
//!
//! of functions that need no core
//!
//!     steps HELD SCHEDULE               the next steps of a schedule, one for each place of HELD, which says by `h` where the core is
//!                                       stopped
//!     board cycle STAMP                 the cycle of that moment, and of an event at it
//!     board reading COUNTER             what a counter reads
//!     board reaching STAMP              the counter that reaches a moment
//!     board channel "NAME"              the number of a channel
//!     board kind CHANNEL                its kind, and whether it is an output or an input
//!     board address CHANNEL ADDRESS     whether the board has that address
//!     board name "TEXT"                 the name that a text is, or `none`
//!     board formed REQUEST              whether a core can be asked that; a REQUEST is one of the calls above that ask
//!     board fits REQUEST : REPLY        whether a reply fits; a REPLY is `done`, `underflow`, `time N`, `stamp N`, `handle N`,
//!                                       `trace EVENT..`, `no_trace`, `old_handle` or `full`
//!     board copy REQUEST                whether a copy is `the same`; `board copy_reply REPLY` so for a reply
//!     inputs script                     whether the edges are a script
//!     inputs next                       the cycle of the next edge of new inputs
//!     inputs ask COUNTER CHANNEL STAMP  their reply to a request for an edge, if there is one
//!     inputs decided COUNTER CHANNEL STAMP
//!                                       whether there is one
//!     bytes decode                      what recording the bytes of the lines `|x 4b 49` spell, or the place of their first wrong field
//!     bytes encode                      the bytes of the recording that they spell
//!     bytes pulse                       the bytes of the pulse: an output of 1 at 0 on channel 0, and of 0 at 50, in a block of 80 mu
//!
//! and of parts of a core
//!
//!     store new NAME                    a new store of recordings, into which the pulse is handed in
//!     store save NAME, store handle NAME, store read NAME, store read_handle HANDLE, store erase NAME
//!                                       what the store answers: to save, where the pulse is saved; to read, whether the pulse was read
//!     store fill                        saves it under the names `aaa` to `ppp`: how many were saved
//!     store names                       the names in their order
//!     link new LANES DEPTH              a new link
//!     link send EVENT, link grant, link absorb
//!                                       a step of the link
//!     link sent, link counts            what was sent, and how many credits and events it has
//!     lines reserve N, lines room       takes room for lines of a log, and says how much there is
//!     lines KIND NUMBER EVENT           adds a line
//!     lines told                        the lines
//!     lanes                             two lanes with room for two events each: the next cycle at which one comes out, then behind an
//!                                       output at 2000 mu the lane that it goes to and the next cycle, and so behind one at 1000 mu
//!     pairs                             room for two pairs of a number and an output: how many there are with one, that one, the same
//!                                       when it is taken, and how many there are then
//!
//! Each other line is a remark.
#![tactic(auto)]

mod board;
mod code;
mod copies;
mod cores;
mod inputs;
mod lanes;
mod links;
mod parts;
mod replies;
mod requests;
mod running;
mod settings;
mod shelf;
mod telling;
mod texts;

use crate::cores::Cores;
use std::io;
use table_rows::walk_tables;

fn main(rt: HostRuntime) -> io::Result<()> {
    walk_tables::<Cores, HostRuntime>(&rt)
}
