// Ticks in memory: no pending call has one above the last tick, and a place that is not in use has 0.
ghost use Rattle.std.specs.Prelude.{◌<◌};

use crate::bench::Bench;
use crate::change::Change;
use crate::change::Change::{Byte, Long, Word};
use memory::{CALL_ROOM, CALL_WIDTH, FIRST_TICK, PENDING_AT, SLOT_LENGTH, SLOTS_AT};
use std::alloc::AllocError;
use std::io;
use wire::Order;

/// The tick of peer 1's first call, which stands at 100.
pub const FIRST: u64 = 3;

/// That of its second call, at 116, and the last tick, at 4. Its bytes are 1, 2 and on to 8, so that each can be one more or one less with no carry.
pub const LAST: u64 = 0x0807_0605_0403_0201;

const LAST_TICK: usize = 4;

const FIRST_CALL: usize = 100;

const SECOND_CALL: usize = 116;

/// The memory that the calls leave, with the last tick or a call's another.
pub fn show(bench: &Bench<impl Print>) -> io::Result<()> {
    bench.cases(&[
        ("last tick one more", Long(LAST_TICK, LAST + 1)),
        (
            "last tick 18,446,744,073,709,551,615",
            Long(LAST_TICK, u64::MAX),
        ),
        ("last tick one less", Long(LAST_TICK, LAST - 1)),
        ("last tick 0", Long(LAST_TICK, 0)),
    ])?;
    show_bytes(bench, "last tick", LAST_TICK)?;
    bench.cases(&[
        ("call of tick 0", Long(FIRST_CALL, 0)),
        ("call of the last tick", Long(FIRST_CALL, LAST)),
        ("call one tick newer", Long(FIRST_CALL, LAST + 1)),
        (
            "call of tick 18,446,744,073,709,551,615",
            Long(FIRST_CALL, u64::MAX),
        ),
        (
            "call newer but for its highest byte",
            Long(FIRST_CALL, 0x07ff_ffff_ffff_ffff),
        ),
        (
            "call newer by its highest byte alone",
            Long(FIRST_CALL, 0x0900_0000_0000_0000),
        ),
    ])?;
    show_bytes(bench, "call of the last tick", SECOND_CALL)?;
    show_pairs(bench)
}

// Each of the eight bytes from `at` on is one more, and one less, one at a time.
fn show_bytes(bench: &Bench<impl Print>, what: &str, at: usize) -> io::Result<()> {
    for (how, more) in [("more", 1), ("less", u8::MAX)] {
        let changes: Vec<Change> = bench
            .memory
            .iter()
            .enumerate()
            .skip(at)
            .take(8)
            .map(|(place, &byte)| Byte(place, byte.wrapping_add(more)))
            .collect(bench.alloc)?;
        let label = format!(in bench.alloc; "{what}, each byte one {how}")?;
        bench.tally(label.as_str(), changes.as_slice(), "bytes")?;
    }
    Ok(())
}

// Two changes at once: both ticks, and peer 1's second call made its first again.
fn show_pairs(bench: &Bench<impl Print>) -> io::Result<()> {
    bench.case(
        "both ticks 18,446,744,073,709,551,615",
        &[Long(LAST_TICK, u64::MAX), Long(FIRST_CALL, u64::MAX)],
    )?;
    bench.case(
        "the same call twice, of one tick",
        &[Word(108, 2), Long(SECOND_CALL, FIRST)],
    )
}

// Another tick in each place of a slot that is in use, or in each that is not.
fn add_places(
    bench: &Bench<impl Print>,
    slot: usize,
    in_use: bool,
    tick: u64,
    changes: &mut Vec<Change>,
) -> Result<(), AllocError>
    requires { slot < 16 }
{
    let at = SLOTS_AT + SLOT_LENGTH * slot;
    let count = wire::u32_at(Order::Little, &bench.memory, at + PENDING_AT) as usize;
    for call in 0..CALL_ROOM {
        if (call < count) == in_use {
            changes.push(Long(at + FIRST_TICK + CALL_WIDTH * call, tick))?;
        }
    }
    Ok(())
}

fn show_places(bench: &Bench<impl Print>, label: &str, in_use: bool, tick: u64) -> io::Result<()> {
    let mut changes = Vec::new(bench.alloc);
    for slot in 0..16 {
        add_places(bench, slot, in_use, tick, &mut changes)?;
    }
    bench.tally(label, changes.as_slice(), "places")
}

/// A peer in every slot, whose calls are of tick 5, the last.
pub fn show_used(bench: &Bench<impl Print>) -> io::Result<()> {
    show_places(bench, "each call of tick 4", true, 4)?;
    show_places(bench, "each call of tick 6", true, 6)?;
    show_places(bench, "tick 1 where no call is", false, 1)
}

/// No peer, and a last tick of 5.
pub fn show_free(bench: &Bench<impl Print>) -> io::Result<()> {
    show_places(bench, "tick 1 in free slots", false, 1)
}
