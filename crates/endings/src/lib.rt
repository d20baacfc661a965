// Pending calls that end without a reply, on good memory: those to a callee that goes, and those that are old enough at a tick.
#![tactic(auto)]

ghost use Rattle.std.specs.Prelude.{◌≡◌, Bool, length};
ghost use Rattle.tables.specs.Tables.{table_bytes, table_of};
ghost use Rattle.rules.specs.State.{Pending};
ghost use Rattle.rules.specs.Calls.{tick};
ghost use Rattle.memory.specs.Layout.{call_width, call_room, pending_length};
ghost use Rattle.memory.specs.Encoding.{pending_bytes, pending_of, state_of};
ghost use Rattle.memory.specs.Sound.{Held};
ghost use Rattle.memory.specs.Calls.{stored, Did};
ghost use Rattle.endings.specs.Endings.{test_of, EndsBy, PlainSlot, Encoded, EndedCalls, EndedSlot, EndedAll};

use memory::{CALL_WIDTH, PENDING_AT, PENDING_LENGTH, SLOT_LENGTH, SLOTS_AT, TICK_AT, TICK_OFFSET};
use rules::{Ticked, no_tick};
use wire::Order;

// Which calls end: those to this callee, or those that are at this tick at least so many ticks old.
#[derive(Clone, Copy)]
pub enum Ending {
    To(u32),
    Aged(u64, u64),
}

// Ends the calls in a table of pending calls whose callee and tick pass a test, from the last to the first, so that where all end none has to move; how many they were.
fn end_calls<F: Fn(u32, u64) -> bool>(table: &mut [u8], ends: &F) -> u32
    requires may { F.IsAlwaysCallable ends.now }
    requires test { (t : Pending → Bool) × EndsBy (F.post ends.now) t }
    requires plain { (length table.old ≡ pending_length)
        × (table.old ≡ table_bytes call_width call_room pending_bytes (table_of call_width call_room pending_of table.old)) }
    ensures { (t : Pending → Bool) → EndsBy (F.post ends.now) t → EndedCalls t (table_of call_width call_room pending_of table.old) result table.new }
{
    let before = wire::u32_at(Order::Little, table, 0);
    let mut n = before;
    for j in (0..before).rev() {
        let at = CALL_WIDTH * (j as usize);
        let callee = wire::u32_at(Order::Little, table, 4 + at);
        let tick = wire::u64_at(table, 4 + at + TICK_OFFSET);
        if ends(callee, tick) {
            tables::remove(table, at, CALL_WIDTH, CALL_WIDTH * (n as usize), n - 1);
            n -= 1;
        }
    }
    before - n
}

// Ends such calls of the peer of slot i; how many they were.
fn end_at<F: Fn(u32, u64) -> bool>(memory: &mut [u8], i: usize, ends: &F) -> u32
    requires may { F.IsAlwaysCallable ends.now }
    requires test { (t : Pending → Bool) × EndsBy (F.post ends.now) t }
    requires plain { PlainSlot memory.old i }
    ensures { (t : Pending → Bool) → EndsBy (F.post ends.now) t → EndedSlot t memory.old i result memory.new }
{
    if slots::number_at(memory, i) == 0 {
        return 0;
    }
    let at = SLOTS_AT + SLOT_LENGTH * i + PENDING_AT;
    let end = at + PENDING_LENGTH;
    end_calls(&mut memory[at..end], ends)
}

// Ends such calls of every peer; how many they were.
fn end_where<F: Fn(u32, u64) -> bool>(memory: &mut [u8], ends: F) -> u32
    requires may { F.IsAlwaysCallable ends }
    requires test { (t : Pending → Bool) × EndsBy (F.post ends) t }
    requires encoded { Encoded memory.old }
    ensures { (t : Pending → Bool) → EndsBy (F.post ends) t → EndedAll t memory.old result memory.new }
{
    let mut ended = 0;
    for i in 0..16 {
        ended += end_at(memory, i, &ends);
    }
    ended
}

// Ends the calls of one ending, of every peer; how many they were.
pub fn end_all(memory: &mut [u8], which: Ending) -> u32
    requires { Encoded memory.old }
    ensures { EndedAll (test_of which) memory.old result memory.new }
{
    match which {
        Ending::To(number) => end_where(memory, |callee, _| callee == number),
        Ending::Aged(present, limit) => end_where(
            memory,
            |_, tick| limit <= present.saturating_sub(tick),
        ),
    }
}

// Ends the calls that are old enough and sets the tick: 41 (rule 8.12).
pub fn tick(memory: &mut [u8], present: u64, limit: u64) -> Ticked
    requires { Held memory.old }
    ensures { Did (stored (tick (state_of memory.old) present limit)) result memory.new }
{
    if present < slots::tick_of(memory) {
        return no_tick(41);
    }
    let ended = end_all(memory, Ending::Aged(present, limit));
    wire::put_u64(memory, TICK_AT, present);
    Ticked { answer: 0, ended }
}
