// Runs vectors of heads, names and signatures: a line for each, with what is fed and what comes back. Of a head that is the answer
// number, where 0 is a whole head and 10 one that has not come whole; of a name or a signature 1 where it is good.
#![tactic(auto)]

mod calls;
mod drafts;
mod fixed;
mod letters;
mod texts;
mod unknown;

use header::Unread;
use std::io;
use wire::Order;

// The answer number to the head in front of these bytes.
fn answer(bytes: &[u8]) -> u8 {
    match reader::read(bytes) {
        Err(Unread::Short) => 10,
        Err(Unread::Broken(fault)) => fault.number(),
        Ok(_) => 0,
    }
}

fn main(rt: HostRuntime) -> io::Result<()> {
    for (name, order) in [("little", Order::Little), ("big", Order::Big)] {
        println!(rt; "-- {name}-endian")?;
        fixed::run(&rt, order)?;
        calls::run(&rt, order)?;
        unknown::run(&rt, order)?;
    }
    println!(rt; "-- letters, names, signatures")?;
    letters::run(&rt)?;
    texts::names(&rt)?;
    texts::signatures(&rt)?;
    texts::limits(&rt)
}
