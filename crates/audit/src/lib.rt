// Is a lent memory good? Each slot is tested by itself, beside the slots after it.
#![tactic(auto)]

ghost use Rattle.std.specs.Prelude.{◌≡◌, ◌+◌, ◌*◌, ◌≤◌, ◌<◌, length, drop, get_or};
ghost use Rattle.memory.specs.Layout.{memory_length, slot_start, call_room, first_name, name_room, head_room};
ghost use Rattle.policy.specs.Names.{name_width};
ghost use Rattle.memory.specs.Encoding.{state_of};
ghost use Rattle.memory.specs.Good.{good_names, good_pending, good_peer, good};
ghost use Rattle.memory.specs.Places.{number_at};
ghost use Rattle.stream.specs.Tail.{good_tail};
ghost use Rattle.slots.specs.Slots.{peer_at, At};
ghost use Rattle.audit.specs.Tests.{name_test, Above, call_test, plain_cell, table_test, cells_test, head_test, shape_test, slot_test};

use memory::{
    CALL_ROOM, CALL_WIDTH, FIRST_BYTE, FIRST_CALLEE, FIRST_NAME, FIRST_SERIAL, FIRST_TICK,
    GID_ROOM, GID_WIDTH, GIDS_AT, HEAD_AT, HEAD_ROOM, MEMORY_LENGTH, NAME_ROOM, NAME_WIDTH,
    NAMES_AT, PENDING_AT, SLOT_LENGTH, SLOTS_AT, TAKEN_AT,
};
use stream::Stream;
use wire::Order;

// Name j of slot i is ownable, and stands nowhere else from there on.
fn is_name_good(memory: &[u8], i: usize, j: usize) -> bool
    requires { (length memory.now ≡ memory_length) × (i < 16) × (j < name_room) }
    ensures { (result ≡ name_test memory.now i j) × (get_or memory.now (slot_start i + first_name + name_width * j) 0 < 256) }
{
    let name = slots::name_at(memory, i, j);
    if !rules::is_ownable(name) {
        return false;
    }
    if slots::owns_name(memory, i, name, j + 1) {
        return false;
    }
    slots::find_owner(memory, name, i + 1).is_none()
}

// Every name of slot i is ownable, and stands once from there on. By itself, since a search for each name is inside it.
#[inline(never)]
fn are_names_good(memory: &[u8], i: usize) -> bool
    requires { At memory.now i }
    ensures { result ≡ good_names (peer_at memory.now i).names (drop (i + 1) (state_of memory.now).slots) }
{
    let count = slots::count_names(memory, i);
    for j in 0..count {
        if !is_name_good(memory, i, j) {
            return false;
        }
    }
    true
}

// Pending call j of slot i has a connected callee and a serial, is not newer than the tick, and stands once from there on. Callers count their serials up: one
// that is below all those behind it needs no search.
fn is_call_good(memory: &[u8], i: usize, j: usize, tick: u64, least: u32) -> bool
    requires { (length memory.now ≡ memory_length) × (i < 16) × (j < length (peer_at memory.now i).pending)
        × (length (peer_at memory.now i).pending ≤ call_room) × (Above memory.now i (j + 1) least) }
    ensures { result ≡ call_test memory.now i j tick }
{
    let callee = slots::word_at(memory, i, FIRST_CALLEE + CALL_WIDTH * j);
    let serial = slots::word_at(memory, i, FIRST_SERIAL + CALL_WIDTH * j);
    if slots::find(memory, callee, 0).is_none() {
        return false;
    }
    if serial == 0 {
        return false;
    }
    if tick < slots::long_at(memory, i, FIRST_TICK + CALL_WIDTH * j) {
        return false;
    }
    if serial < least {
        return true;
    }
    slots::find_pending(memory, i, callee, serial, j + 1).is_none()
}

// Every pending call of slot i has a connected callee and a serial, is not newer than the tick, and stands once: from the last to the first.
fn are_calls_good(memory: &[u8], i: usize, tick: u64) -> bool
    requires { At memory.now i }
    ensures { result ≡ good_pending (state_of memory.now).slots tick (peer_at memory.now i).pending }
{
    let mut least = u32::MAX;
    for j in (0..slots::count_pending(memory, i)).rev() {
        if !is_call_good(memory, i, j, tick, least) {
            return false;
        }
        let serial = slots::word_at(memory, i, FIRST_SERIAL + CALL_WIDTH * j);
        least = least.min(serial);
    }
    true
}

// w times n, where w times k is small.
fn scaled(w: usize, n: usize, k: usize) -> usize
    requires { (n ≤ k) × (w * k ≤ head_room) }
    ensures { (result ≡ w * n) × (w * n ≤ w * k) }
{
    w * n
}

// The table at a place has at most k things of w bytes, and zeros behind them.
fn is_table(memory: &[u8], at: usize, w: usize, k: usize) -> bool
    requires { (length memory.now ≡ memory_length) × (w * k ≤ head_room) × (at + 4 + w * k ≤ memory_length) }
    ensures { result ≡ table_test memory.now at w k }
{
    let n = wire::u32_at(Order::Little, memory, at) as usize;
    if k < n {
        return false;
    }
    let from = at + 4 + scaled(w, n, k);
    let to = at + 4 + scaled(w, k, k);
    wire::is_zero(memory, from, to)
}

// Behind name j of slot i its cell is zero.
fn is_cell_plain(memory: &[u8], i: usize, j: usize) -> bool
    requires { (length memory.now ≡ memory_length) × (i < 16) × (j < name_room) }
    ensures { result ≡ plain_cell memory.now i j }
{
    let at = SLOTS_AT + SLOT_LENGTH * i + FIRST_NAME + NAME_WIDTH * j;
    let from = at + 1 + usize::from(memory[at]);
    wire::is_zero(memory, from, at + NAME_WIDTH)
}

// The names of slot i are at most 4, with zeros behind each and behind the last.
fn are_cells_plain(memory: &[u8], i: usize) -> bool
    requires { At memory.now i }
    ensures { result ≡ cells_test memory.now i }
{
    let n = slots::word_at(memory, i, NAMES_AT) as usize;
    if NAME_ROOM < n {
        return false;
    }
    for j in 0..n {
        if !is_cell_plain(memory, i, j) {
            return false;
        }
    }
    wire::is_zero(
        memory,
        SLOTS_AT + SLOT_LENGTH * i + FIRST_NAME + NAME_WIDTH * n,
        SLOTS_AT + SLOT_LENGTH * i + TAKEN_AT,
    )
}

// The head of slot i has at most its room, and zeros behind it up to the end of the slot.
fn is_head_plain(memory: &[u8], i: usize) -> bool
    requires { At memory.now i }
    ensures { result ≡ head_test memory.now i }
{
    let n = slots::word_at(memory, i, HEAD_AT) as usize;
    if HEAD_ROOM < n {
        return false;
    }
    let at = SLOTS_AT + SLOT_LENGTH * i;
    wire::is_zero(memory, at + FIRST_BYTE + n, at + SLOT_LENGTH)
}

// Slot i is zero behind what it holds (rule 10.5).
fn is_shaped(memory: &[u8], i: usize) -> bool
    requires { At memory.now i }
    ensures { result ≡ shape_test memory.now i }
{
    let at = SLOTS_AT + SLOT_LENGTH * i;
    is_table(memory, at + GIDS_AT, GID_WIDTH, GID_ROOM)
        & is_table(memory, at + PENDING_AT, CALL_WIDTH, CALL_ROOM)
        & are_cells_plain(memory, i)
        & is_head_plain(memory, i)
}

// The stream of slot i is good.
fn is_stream_good(memory: &[u8], i: usize) -> bool
    requires { At memory.now i }
    ensures { result ≡ good_tail (peer_at memory.now i).stream }
{
    let taken = slots::word_at(memory, i, TAKEN_AT) as usize;
    let stored = (slots::word_at(memory, i, HEAD_AT) as usize).min(HEAD_ROOM);
    let s = Stream { taken, stored };
    let from = SLOTS_AT + SLOT_LENGTH * i + FIRST_BYTE;
    let to = from + HEAD_ROOM;
    s.is_good(&memory[from..to])
}

// The peer of slot i keeps the rules, beside the slots after it.
fn is_peer_good(memory: &[u8], i: usize, number: u32, last: u32, tick: u64) -> bool
    requires { (length memory.now ≡ memory_length) × (i < 16) × (number ≡ number_at memory.now i) × (1 ≤ number) }
    ensures { result ≡ good_peer (state_of memory.now).slots last tick (peer_at memory.now i) (drop (i + 1) (state_of memory.now).slots) }
{
    if last < number {
        return false;
    }
    if slots::find(memory, number, i + 1).is_some() {
        return false;
    }
    are_calls_good(memory, i, tick) & are_names_good(memory, i) & is_stream_good(memory, i)
}

// Slot i is good, beside the slots after it.
fn is_slot_good(memory: &[u8], i: usize, last: u32, tick: u64) -> bool
    requires { At memory.now i }
    ensures { result ≡ slot_test memory.now i last tick }
{
    let number = slots::number_at(memory, i);
    if number == 0 {
        let from = SLOTS_AT + SLOT_LENGTH * i;
        return wire::is_zero(memory, from, from + SLOT_LENGTH);
    }
    if !is_shaped(memory, i) {
        return false;
    }
    is_peer_good(memory, i, number, last, tick)
}

// The memory is good; any other is answered with 51 (rule 10.6).
pub fn is_good(memory: &[u8]) -> bool
    ensures { result ≡ good memory.now }
{
    if memory.len() != MEMORY_LENGTH {
        return false;
    }
    let last = slots::last_of(memory);
    let tick = slots::tick_of(memory);
    for i in 0..16 {
        if !is_slot_good(memory, i, last, tick) {
            return false;
        }
    }
    true
}
