// Scenarios on the guard's single calls: a line for each call, with its answer, its receiver, the bytes taken, and whether any byte of memory changed.
#![tactic(auto)]

mod bench;
mod connections;
mod cuts;
mod denied;
mod longest;
mod marshal;
mod message;
mod replies;
mod report;
mod ticks;

use bench::Bench;
use std::io;

fn main(rt: HostRuntime) -> io::Result<()> {
    let mut bench = Bench::new(&rt, rt.alloc())?;
    connections::seventeen_peers(&mut bench)?;
    connections::five_names(&mut bench)?;
    connections::seventeen_gids(&mut bench)?;
    replies::second_reply(&mut bench)?;
    replies::seventeen_pending_calls(&mut bench)?;
    replies::callee_goes(&mut bench)?;
    replies::leading_zeros(&mut bench)?;
    replies::closed_stream(&mut bench)?;
    denied::denied(&mut bench)?;
    ticks::order(&mut bench)?;
    ticks::many_callers(&mut bench)?;
    ticks::older_calls(&mut bench)?;
    ticks::no_room(&mut bench)?;
    ticks::greatest(&mut bench)?;
    ticks::between_pieces(&mut bench)?;
    ticks::batch(&mut bench)?;
    ticks::bad_memory(&mut bench)?;
    ticks::start_again(&mut bench)?;
    longest::longest_message(&mut bench)?;
    cuts::cuts_at_every_byte(&mut bench)
}
