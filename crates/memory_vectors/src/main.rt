// Memory that is not good: each rule of good memory broken once at each place where it can be. The six calls that test memory all answer 51 and change
// nothing; the first lines are memory that stays good.
#![tactic(auto)]

mod bench;
mod change;
mod counts;
mod fields;
mod fixture;
mod lengths;
mod ticks;

use bench::Bench;
use std::io;

fn main(rt: HostRuntime) -> io::Result<()> {
    let mut bench = Bench::new(&rt, rt.alloc());
    bench.case("before the start", &[])?;
    fixture::make(&mut bench);
    bench.case("as the calls left it", &[])?;
    fields::kept(&bench)?;
    fields::lists(&bench)?;
    ticks::show(&bench)?;
    fields::names(&bench)?;
    fields::streams(&bench)?;
    fields::free_slots(&bench)?;
    counts::show(&mut bench)?;
    lengths::show(&bench)
}
