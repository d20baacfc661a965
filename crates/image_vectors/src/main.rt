// Runs the test of policy images: each rule about them kept at its limits, and broken once at each place where it can be.
#![tactic(auto)]

mod cases;
mod images;

use cases::Case;
use image::Outcome;
use std::io;

// The answer number to an image.
fn answer(image: &[u8]) -> u8 {
    match image::check(image) {
        Outcome::Good => 0,
        Outcome::Bad => 50,
    }
}

fn run(rt: &(impl Print + AllocGlobal), cases: &[Case]) -> io::Result<()> {
    for (label, image) in cases {
        let bytes = image.to_bytes(rt.alloc())?;
        println!(rt; "{label}: {}", answer(&bytes))?;
    }
    Ok(())
}

fn main(rt: HostRuntime) -> io::Result<()> {
    run(&rt, &cases::HEADER)?;
    run(&rt, &cases::COUNTS)?;
    run(&rt, &cases::SECTIONS)?;
    run(&rt, &cases::CONNECT)?;
    run(&rt, &cases::OWN)?;
    run(&rt, &cases::TRANSACTION)?;
    run(&rt, &cases::STRINGS)
}
