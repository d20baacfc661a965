// The pending calls of a slot, a table in its caller's slot: when a call waits, and when a reply ends the wait.
#![tactic(auto)]

ghost use Rattle.std.specs.Prelude.{◌≡◌, ◌++◌, ◌+◌, ◌≤◌, ◌<◌, length, take, drop};
ghost use Rattle.memory.specs.Layout.{call_width, call_room};
ghost use Rattle.memory.specs.Encoding.{pending_bytes};
ghost use Rattle.slots.specs.Slots.{peer_at, Seated};
ghost use Rattle.waits.specs.Waits.{Waits, RepliesTo, Began, CallRemoved};

use header::Header;
use memory::{
    CALL_WIDTH, FIRST_CALLEE, PENDING_AT, PENDING_LENGTH, SERIAL_OFFSET, SLOT_LENGTH, SLOTS_AT,
    TICK_OFFSET,
};
use rules::{Judgement, Receiver, refused};

// Writes a pending call at a place.
fn put_call(memory: &mut [u8], at: usize, callee: u32, serial: u32, tick: u64)
    requires { at + call_width ≤ length memory.old }
    ensures { memory.new ≡ take at memory.old
        ++ (pending_bytes (record { callee = callee; serial = serial; tick = tick }) ++ drop (at + call_width) memory.old) }
{
    wire::put_u32(memory, at, callee);
    wire::put_u32(memory, at + SERIAL_OFFSET, serial);
    wire::put_u64(memory, at + TICK_OFFSET, tick);
}

// The peer of slot i, which has n pending calls, awaits a reply of the callee to the serial from the last tick on.
fn begin_call(memory: &mut [u8], i: usize, n: usize, callee: u32, serial: u32)
    requires { (Seated memory.old i) × (n ≡ length (peer_at memory.old i).pending) × (n < call_room) }
    ensures { Began memory.old i callee serial memory.new }
{
    let tick = slots::tick_of(memory);
    let at = SLOTS_AT + SLOT_LENGTH * i + FIRST_CALLEE + CALL_WIDTH * n;
    put_call(memory, at, callee, serial, tick);
    wire::put_u32(
        memory,
        SLOTS_AT + SLOT_LENGTH * i + PENDING_AT,
        (n + 1) as u32,
    );
}

// The peer of slot i, which has n pending calls, no longer awaits the reply to call k.
fn end_call(memory: &mut [u8], i: usize, n: usize, k: usize)
    requires { (Seated memory.old i) × (n ≡ length (peer_at memory.old i).pending) × (n ≤ call_room) × (k < n) }
    ensures { CallRemoved memory.old i k memory.new }
{
    let at = SLOTS_AT + SLOT_LENGTH * i + PENDING_AT;
    let end = at + PENDING_LENGTH;
    tables::remove(
        &mut memory[at..end],
        CALL_WIDTH * k,
        CALL_WIDTH,
        CALL_WIDTH * n,
        (n - 1) as u32,
    );
}

// A call of slot i that expects a reply of the callee to this serial: 25, then 26 (rule 7.8).
pub fn wait(memory: &mut [u8], i: usize, callee: u32, serial: u32) -> Judgement
    requires { Seated memory.old i }
    ensures { Waits memory.old i callee serial result memory.new }
{
    if slots::find_pending(memory, i, callee, serial, 0).is_some() {
        return refused(25);
    }
    let n = slots::count_pending(memory, i);
    if 16 <= n {
        return refused(26);
    }
    begin_call(memory, i, n, callee, serial);
    Judgement {
        answer: 0,
        receiver: Receiver::Peer(callee),
        rule: None,
    }
}

// A return or error of slot i to the peer of slot j, which must await it (rule 7.9).
pub fn reply_to(memory: &mut [u8], i: usize, j: usize, header: Header) -> Judgement
    requires { (Seated memory.old i) × (Seated memory.old j) }
    ensures { RepliesTo memory.old i j header result memory.new }
{
    let callee = slots::number_at(memory, i);
    let Some(k) = slots::find_pending(memory, j, callee, header.reply_serial, 0) else {
        return refused(24);
    };
    let n = slots::count_pending(memory, j);
    let caller = slots::number_at(memory, j);
    end_call(memory, j, n, k);
    Judgement {
        answer: 0,
        receiver: Receiver::Peer(caller),
        rule: None,
    }
}
