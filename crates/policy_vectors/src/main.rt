// Decisions over generated images: every context, matcher and direction, strings that overlap, four owned names. Each message is asked about as it is
// and as a call without an interface. A letter is the position of the rule that decides, a capital where it allows, and a point says that no rule matches. An
// independent program wrote `stdout` from the same choices.
#![tactic(auto)]

mod choices;
mod images;
mod questions;
mod texts;

use questions::Questions;
use std::alloc::{AllocError, Global};
use std::io;

// The letters of all answers: none of an image that is not good.
fn letters(alloc: Global, seed: usize) -> Result<String, AllocError> {
    let image = images::image(alloc, seed)?;
    let names = images::names(alloc, seed)?;
    let mut letters = String::with_capacity(alloc, 63)?;
    if let Some(questions) = Questions::new(seed, &image, &names) {
        questions.ask(&mut letters)?;
    }
    Ok(letters)
}

fn main(rt: HostRuntime) -> io::Result<()> {
    for seed in 0..32 {
        let letters = letters(rt.alloc(), seed)?;
        println!(rt; "{letters:-<63}")?;
    }
    Ok(())
}
