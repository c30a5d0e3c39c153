//! Eight threads put 10,000 numbers each on one desk. The program says whether any was lost.
#![tactic(auto)]

mod rounds;
mod tally;

use crate::rounds::put_rounds;
use crate::tally::Tally;
use desk::Desk;
use std::io;

const CHAIRS: u32 = 8;

const PUTS: u32 = 10_000;

fn main(rt: HostRuntime) -> io::Result<()> {
    let alloc = rt.alloc();
    let Ok((desk, chairs)) = Desk::open(alloc, Tally::new(alloc), CHAIRS) else {
        return println!(rt; "no memory");
    };
    let chairs = put_rounds(&rt, &desk, chairs, PUTS);
    let tally = desk.close(chairs);
    if tally.has_all(CHAIRS, PUTS) {
        println!(rt; "{CHAIRS} chairs put {PUTS} numbers each, and none is lost")
    } else {
        println!(rt; "a number is lost")
    }
}
