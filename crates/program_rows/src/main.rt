//! Runs the programs as tables of worked rows say, and writes each row that comes out otherwise.
//!
//! `table_rows` says how a table is read. The lines of a row are here
//!
//!     | LINE               a line of the source's text; `|- LINE` has no line feed behind it, and `|x 4b 49` are bytes
//!     * N | LINE           the same, N times
//!     + 4b 49              bytes of a recording, whose digits stand in words in place of `HEX`
//!     pieces READ WRITE    a read moves at most READ bytes, a write WRITE; without such a line both move 4,096, but a write of the
//!                          tables in `sim` and `trace` 16
//!     ~ source N           the source's call N, from 0, fails in each run below; `~ out N` and `~ err N` for the sinks
//!     hide WORD..          lines of out that begin with one of these words and a blank aren't shown in tables in `sim`
//!     apart K,K K ..       what stands apart in the report of a table in `crew`, as below
//!     more N ITEM          so many items stand behind the words of each RUN below, each with its number, from 1, for `#`
//!     asks WORDS           one answer: what the words ask of artiq_sim, or that they are refused. Of a run that is the command, the
//!                          numbers of its options, its first four steps where the core is stopped (c is one of the processor, t is
//!                          a tick), and its edges, holds and recordings, those above eight by their number
//!     $ RUN                what is run, and behind it lines of out behind `>`, lines of err behind `!`, and `= STATUS`
//!
//! Each other line is a remark. A word `""` has no letter. What a RUN is, and what else stands in its answer, goes by the folder of the table.
//!
//! **sim**: words of artiq_sim; in `$ WORDS | WORDS` the second run reads what the first one wrote, and for `$ (no memory)` it is
//! started where there is no memory for its words. `? WORDS` runs the same, and shows nothing. An answer is only `= STATUS, the
//! same` where out, err and status are those of the run before, whether it was shown or not.
//!
//! **trace**: words of artiq_trace, or `(no memory)`.
//!
//! **faults** and **lab**: `artiq_sim WORDS` or `artiq_lab WORDS`, or `recording`: the bytes of the recording are read, and its length
//! and its events are told as `LENGTH: CHANNEL.ADDRESS=DATA@STAMP ..`, or `fault PLACE` on err. Before such a RUN may stand
//!
//!     each source:         a run for each call of the source that fails as well; `each out:` and `each err:` for the sinks
//!     cut:                 a run for each length below that of the bytes, which are cut there
//!     set 255:             a run for each byte, which is set to this
//!     flip 255:            a run for each byte, of which the bits of this number are turned, here all
//!
//! Bytes are damaged of the recording where it is read or handed in, else of the source's text. Several runs are answered by a line
//! `= FIRST-LAST: ANSWER` for runs one after another that have one answer: their calls, lengths or places, and the status, out and err
//! in one line. Of failing calls the last is the first that isn't made, where the answer is `the same` as without it; and where a sink
//! fails that holds just what its calls before wrote, while the other one holds nothing, the answer is `STATUS, a first part`.
//!
//! **crew**: `1-8`: a session of artiq_lab, whose text stands behind its first bytes `{"workers":N,`, is served by each of these numbers
//! of workers in turn. An answer begins by `= FIRST-LAST: STATUS`, for numbers one after another with one answer; behind it stand the
//! lines of out and err. A report has each line at its place, unless the row says what stands apart: groups of keys, which are the
//! numbers of runs and the names of datasets. Then the lines `step` of those runs and the lines `data` of those datasets are judged by
//! group: the lines of one group stand in the order that the row gives, and those of different groups in any order. They are told
//! before the others, group by group. A line `step` is told without its clock where that is the number of the line, so that the clocks
//! have to be 1, 2, 3 and so on; where it isn't, it is told whole.
#![tactic(auto)]

mod asked;
mod case;
mod crews;
mod damage;
mod faults;
mod left;
mod ranges;
mod recording;
mod reports;
mod rows;
mod run;
mod sims;
mod words;

use crate::rows::walk_rows;
use std::{env, fs, io};

fn main(rt: HostRuntime) -> io::Result<()> {
    for path in env::args(&rt)?.skip(1) {
        let table = fs::read_to_string(&rt, path.as_str())?;
        let report = walk_rows(&rt, rt.alloc(), path.as_str(), table.as_str())?;
        print!(rt; "{report}")?;
    }
    Ok(())
}
