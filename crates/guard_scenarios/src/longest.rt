// The longest message, of 134,217,728 bytes, and one that is a byte longer.
use crate::bench::{ALLOW, Bench};
use crate::message::Message;
use crate::report;
use std::io;
use wire::Order;

const SLICE: usize = 65536;

/// The head, of 64 bytes, of a call with so long a body.
fn long_call(bench: &mut Bench<impl Print>, label: &str, body_length: u32) -> io::Result<()> {
    let call = Message {
        body_length,
        ..Message::call(1, ":1.2")
    };
    let head = call.head(bench.alloc, Order::Little)?;
    bench.piece(label, 1, head.as_slice())
}

/// Offers so many slices: how many are used up, with answer 10.
fn count_used(bench: &mut Bench<impl Print>, slice: &[u8], count: usize) -> usize {
    let mut used = 0usize;
    for _ in 0..count {
        let t = guard::piece(&ALLOW, &mut bench.memory, 1, slice);
        if t.taken == slice.len() && report::is_waiting(t.judgement) {
            used = used.saturating_add(1);
        }
    }
    used
}

pub fn longest_message(bench: &mut Bench<impl Print>) -> io::Result<()> {
    let zeros = [0; SLICE];
    bench.start("134,217,728 bytes")?;
    bench.connect_peers(2)?;
    long_call(bench, "head of 64 bytes", 134_217_664)?;
    let used = count_used(bench, &zeros, 2047);
    println!(bench.rt; "slices of 65,536 bytes with answer 10: {used}")?;
    bench.piece("all but one byte", 1, &zeros[..SLICE - 65])?;
    bench.piece("the last byte and more", 1, &zeros)?;
    long_call(bench, "head of a message one byte longer", 134_217_665)?;
    bench.disconnect(1)
}
