// Call C, changed at one place.
use crate::drafts::Draft;
use Change::{ArrayLength, Byte, Cut};
use std::io;
use wire::Order;

#[derive(Clone, Copy)]
enum Change {
    // Another byte at this place.
    Byte(usize, u8),
    ArrayLength(u32),
    // The call up to this length.
    Cut(usize),
}

static CASES: [(&str, Change); 26] = [
    ("call C", Byte(2, 1)),
    ("call C, byte 0 as 4c", Byte(0, b'L')),
    ("call C, padding between fields 1", Byte(31, 1)),
    ("call C, padding after the array 1", Byte(47, 1)),
    ("call C, code 0", Byte(32, 0)),
    ("call C, code 1 twice", Byte(32, 1)),
    ("call C, code 9", Byte(32, 9)),
    ("call C, code 10", Byte(32, 10)),
    ("call C, code 255", Byte(32, 255)),
    ("call C, signature length 2", Byte(33, 2)),
    ("call C, letter o for the member", Byte(34, b'o')),
    ("call C, 1 after the letter", Byte(35, 1)),
    ("call C, 1 after the member", Byte(41, 1)),
    ("call C, array length 25", ArrayLength(25)),
    ("call C, array length 27", ArrayLength(27)),
    ("call C, path a", Byte(24, b'a')),
    ("call C, member 7", Byte(40, b'7')),
    ("call C, interface M for the member", Byte(32, 2)),
    ("call C, sender M for the member", Byte(32, 7)),
    ("call C as a return", Byte(1, 2)),
    ("call C as an error", Byte(1, 3)),
    ("call C as a signal", Byte(1, 4)),
    ("call C as type 5", Byte(1, 5)),
    ("15 bytes of call C", Cut(15)),
    ("16 bytes of call C", Cut(16)),
    ("47 bytes of call C", Cut(47)),
];

pub fn run(rt: &(impl Print + AllocGlobal), order: Order) -> io::Result<()> {
    for (what, change) in CASES.iter() {
        let mut call = Draft::of_call(rt.alloc(), order)?;
        match *change {
            Byte(at, byte) => call.set(at, byte),
            ArrayLength(length) => call.set_array_length(length),
            Cut(len) => call.truncate(len),
        }
        println!(rt; "{what}: {}", crate::answer(call.bytes()))?;
    }
    Ok(())
}
