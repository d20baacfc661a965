// Readings of the guard's memory: the words of a slot, and which slot a peer has.
#![tactic(auto)]

ghost use Rattle.std.specs.Prelude.{◌≡◌, ◌+◌, ◌*◌, ◌≤◌, ◌<◌, List, ℕ, length, take, drop, get_or};
ghost use Rattle.wire.specs.Words.{word_at, long_at};
ghost use Rattle.wire.specs.declared.Order.TheVariants.{Little};
ghost use Rattle.rules.specs.State.{is_free, is_peer};
ghost use Rattle.rules.specs.Pending.{is_call};
ghost use Rattle.wire.specs.Bytes.{same};
ghost use Rattle.rules.specs.Calls.{slot_at, is_owner};
ghost use Rattle.policy.specs.Names.{owns, name_width};
ghost use Rattle.memory.specs.Layout.{memory_length, slot_length, slot_start, call_room, first_name, name_room, gid_room};
ghost use Rattle.memory.specs.Encoding.{state_of};
ghost use Rattle.memory.specs.Places.{number_at, FoundSlot};
ghost use Rattle.slots.specs.Slots.{peer_at, name_at, At, FoundIn};

use memory::{
    CALL_ROOM, CALL_WIDTH, FIRST_CALLEE, FIRST_GID, FIRST_NAME, FIRST_SERIAL, GID_ROOM, GID_WIDTH,
    GIDS_AT, NAME_ROOM, NAME_WIDTH, NAMES_AT, PENDING_AT, SLOT_LENGTH, SLOTS_AT, TICK_AT,
};
use std::marker::Model;
use wire::Order;

// A peer's gids: the first `count` of the list.
#[derive(Clone, Copy)]
pub struct Gids {
    list: [u32; GID_ROOM],
    count: usize,
}

// The value has both fields, so that the gids may be copied.
impl Model for Gids {
    ghost Value = { List ℕ × ℕ };

    ghost view = { λ g. (g.list, g.count) };

    ghost invariant = { λ g. g.count ≤ gid_room };

    ghost inverse = { λ v. record { list = v.0; count = v.1 } };
}

impl Gids {
    pub fn as_slice(&self) -> &[u32]
        ensures { result.now ≡ take self.now.1 self.now.0 }
    {
        &self.list[..self.count]
    }
}

// The word at a place of slot i.
pub fn word_at(memory: &[u8], i: usize, place: usize) -> u32
    requires { (length memory.now ≡ memory_length) × (i < 16) × (place + 4 ≤ slot_length) }
    ensures { (result ≡ word_at Little memory.now (slot_start i + place)) × (result < 4294967296) }
{
    wire::u32_at(Order::Little, memory, SLOTS_AT + SLOT_LENGTH * i + place)
}

// The number of eight bytes at a place of slot i.
pub fn long_at(memory: &[u8], i: usize, place: usize) -> u64
    requires { (length memory.now ≡ memory_length) × (i < 16) × (place + 8 ≤ slot_length) }
    ensures { (result ≡ long_at memory.now (slot_start i + place)) × (result < 18446744073709551616) }
{
    wire::u64_at(memory, SLOTS_AT + SLOT_LENGTH * i + place)
}

// The number in slot i, 0 where it is free.
pub fn number_at(memory: &[u8], i: usize) -> u32
    requires { (length memory.now ≡ memory_length) × (i < 16) }
    ensures { (result ≡ number_at memory.now i) × (result < 4294967296) }
{
    wire::u32_at(Order::Little, memory, SLOTS_AT + SLOT_LENGTH * i)
}

// The last number given.
pub fn last_of(memory: &[u8]) -> u32
    requires { length memory.now ≡ memory_length }
    ensures { (result ≡ (state_of memory.now).last) × (result < 4294967296) }
{
    wire::u32_at(Order::Little, memory, 0)
}

// The last tick.
pub fn tick_of(memory: &[u8]) -> u64
    requires { length memory.now ≡ memory_length }
    ensures { (result ≡ (state_of memory.now).tick) × (result < 18446744073709551616) }
{
    wire::u64_at(memory, TICK_AT)
}

// The first slot from `from` on whose peer has this number.
pub fn find(memory: &[u8], number: u32, from: usize) -> Option<usize>
    requires { (length memory.now ≡ memory_length) × (from ≤ 16) }
    ensures { FoundSlot (is_peer number) memory.now from result }
{
    if number == 0 {
        return None;
    }
    (from..16).find(|&i| number_at(memory, i) == number)
}

// The lowest free slot.
pub fn find_free(memory: &[u8]) -> Option<usize>
    requires { length memory.now ≡ memory_length }
    ensures { FoundSlot is_free memory.now 0 result }
{
    (0..16).find(|&i| number_at(memory, i) == 0)
}

// The gids of the peer in slot i.
pub fn gids_at(memory: &[u8], i: usize) -> Gids
    requires { At memory.now i }
    ensures { take result.1 result.0 ≡ (peer_at memory.now i).gids }
{
    let mut list = [0u32; GID_ROOM];
    let count = (word_at(memory, i, GIDS_AT) as usize).min(GID_ROOM);
    for k in 0..count {
        list[k] = word_at(memory, i, FIRST_GID + GID_WIDTH * k);
    }
    Gids { list, count }
}

// How many names slot i has.
pub fn count_names(memory: &[u8], i: usize) -> usize
    requires { At memory.now i }
    ensures { (result ≡ length (peer_at memory.now i).names) × (result ≤ name_room) }
{
    (word_at(memory, i, NAMES_AT) as usize).min(NAME_ROOM)
}

// How many pending calls slot i has.
pub fn count_pending(memory: &[u8], i: usize) -> usize
    requires { At memory.now i }
    ensures { (result ≡ length (peer_at memory.now i).pending) × (result ≤ call_room) }
{
    (word_at(memory, i, PENDING_AT) as usize).min(CALL_ROOM)
}

// Name j of slot i.
pub fn name_at(memory: &[u8], i: usize, j: usize) -> &[u8]
    requires { (length memory.now ≡ memory_length) × (i < 16) × (j < name_room) }
    ensures { (result.now ≡ name_at memory.now i j) × (get_or memory.now (slot_start i + first_name + name_width * j) 0 < 256) }
{
    let at = SLOTS_AT + SLOT_LENGTH * i + FIRST_NAME + NAME_WIDTH * j;
    let from = at + 1;
    let to = from + usize::from(memory[at]);
    &memory[from..to]
}

// The first of the names of slot i from `from` on that is this one. Inside the search of the slots a call for each would be dearer than the names.
#[inline(always)]
pub fn find_name(memory: &[u8], i: usize, name: &[u8], from: usize) -> Option<usize>
    requires { At memory.now i }
    ensures { FoundIn (λ x. same x name.now) (peer_at memory.now i).names from result }
{
    for j in from..count_names(memory, i) {
        if wire::equal(name_at(memory, i, j), name) {
            return Some(j);
        }
    }
    None
}

// The peer of slot i has the name among those from `from` on.
#[inline(always)]
pub fn owns_name(memory: &[u8], i: usize, name: &[u8], from: usize) -> bool
    requires { At memory.now i }
    ensures { result ≡ owns (drop from (peer_at memory.now i).names) name.now }
{
    find_name(memory, i, name, from).is_some()
}

// Slot i is a peer's that owns the name.
fn is_owner(memory: &[u8], i: usize, name: &[u8]) -> bool
    requires { At memory.now i }
    ensures { result ≡ is_owner name.now (slot_at (state_of memory.now) i) }
{
    number_at(memory, i) != 0 && owns_name(memory, i, name, 0)
}

// The first slot from `from` on whose peer owns the name.
pub fn find_owner(memory: &[u8], name: &[u8], from: usize) -> Option<usize>
    requires { (length memory.now ≡ memory_length) × (from ≤ 16) }
    ensures { FoundSlot (is_owner name.now) memory.now from result }
{
    for i in from..16 {
        if is_owner(memory, i, name) {
            return Some(i);
        }
    }
    None
}

// The first pending call from `from` on of slot i that is for this callee and serial.
pub fn find_pending(memory: &[u8], i: usize, callee: u32, serial: u32, from: usize) -> Option<usize>
    requires { (length memory.now ≡ memory_length) × (i < 16) × (from ≤ length (peer_at memory.now i).pending) }
    ensures { FoundIn (is_call callee serial) (peer_at memory.now i).pending from result }
{
    (from..count_pending(memory, i)).find(|&j| {
        (word_at(memory, i, FIRST_CALLEE + CALL_WIDTH * j) == callee)
            & (word_at(memory, i, FIRST_SERIAL + CALL_WIDTH * j) == serial)
    })
}
