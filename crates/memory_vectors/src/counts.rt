// Counts of pending calls other than the one that is stored, tried in each slot of two memories that are good as they are.
ghost use Rattle.std.specs.Prelude.{◌<◌};

use crate::bench::Bench;
use crate::change::Change;
use crate::{fixture, ticks};
use memory::{CALL_ROOM, PENDING_AT, SLOT_LENGTH, SLOTS_AT};
use std::io;
use wire::Order;

// Peer n calls peer 1, with the serials 1 to n.
fn call(bench: &mut Bench<impl Print>, peer: u8) {
    for serial in 1..=peer {
        bench.piece(u32::from(peer), &fixture::call(serial, b'1'));
    }
}

// A peer in every slot: peer 1 has no pending call, each other as many as its number, so that peer 16 has all that there is room for. The calls are of tick 5, the last.
fn fill(bench: &mut Bench<impl Print>) {
    bench.start();
    bench.set_tick(5);
    bench.connect(&[]);
    for peer in 2..=16 {
        bench.connect(&[]);
        call(bench, peer);
    }
}

// The pending calls of a slot, and other counts of them: those from 0 to one above the room but its own, and the greatest.
fn show_slot(bench: &Bench<impl Print>, label: &str, slot: usize) -> io::Result<()>
    requires { slot < 16 }
{
    let at = SLOTS_AT + SLOT_LENGTH * slot + PENDING_AT;
    let count = wire::u32_at(Order::Little, &bench.memory, at);
    let others: Vec<Change> = (0..=CALL_ROOM as u32 + 1)
        .chain([u32::MAX])
        .filter(|&other| other != count)
        .map(|other| Change::Word(at, other))
        .collect(bench.alloc)?;
    let label = format!(in bench.alloc; "{label} slot {slot} with a count of {count}")?;
    bench.tally(label.as_str(), others.as_slice(), "others")
}

fn show_slots(bench: &Bench<impl Print>, label: &str) -> io::Result<()> {
    for slot in 0..16 {
        show_slot(bench, label, slot)?;
    }
    Ok(())
}

/// Every slot used, then every slot free.
pub fn show(bench: &mut Bench<impl Print>) -> io::Result<()> {
    fill(bench);
    bench.case("a peer in every slot", &[])?;
    show_slots(bench, "used")?;
    ticks::show_used(bench)?;
    bench.start();
    bench.set_tick(5);
    bench.case("no peer", &[])?;
    show_slots(bench, "free")?;
    ticks::show_free(bench)
}
