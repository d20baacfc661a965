// The calls about peers, on a good image and good memory: connect, disconnect.
#![tactic(auto)]

ghost use Rattle.std.specs.Prelude.{◌≡◌, ◌++◌, ◌+◌, ◌*◌, ◌≤◌, ◌<◌, length, take, drop};
ghost use Rattle.image.specs.Promises.{GoodImage};
ghost use Rattle.stream.specs.Tail.{tails};
ghost use Rattle.rules.specs.Calls.{connect, disconnect};
ghost use Rattle.memory.specs.Layout.{slot_start, first_gid, gid_width, gid_room};
ghost use Rattle.memory.specs.Encoding.{state_of};
ghost use Rattle.memory.specs.Sound.{Held};
ghost use Rattle.memory.specs.Calls.{stored, Did};
ghost use Rattle.slots.specs.Slots.{At};
ghost use Rattle.peers.specs.Writes.{new_bytes};
ghost use Rattle.peers.specs.Steps.{Free, admitted, entered, slots_without};

use endings::Ending;
use memory::{FIRST_GID, GIDS_AT, SLOT_LENGTH, SLOTS_AT, TAKEN_AT, UID_AT};
use policy::Uid;
use rules::{Connected, Gone, connected_by, no_connect, no_gone};

// ---- connect

// Writes a peer's number, uid and gids in slot i, where zeros stand.
fn seat(memory: &mut [u8], i: usize, number: u32, uid: u32, gids: &[u32])
    requires { (At memory.old i) × (length gids.now ≤ gid_room) }
    ensures { memory.new ≡ take (slot_start i) memory.old
        ++ (new_bytes number uid gids.now ++ drop (slot_start i + (first_gid + gid_width * length gids.now)) memory.old) }
{
    let at = SLOTS_AT + SLOT_LENGTH * i;
    wire::put_u32(memory, at, number);
    wire::put_u32(memory, at + UID_AT, uid);
    wire::put_u32(memory, at + GIDS_AT, gids.len() as u32);
    tables::put_words(memory, at + FIRST_GID, gids);
}

// Gives slot i, which is free, to a peer, whose number is then the last.
fn admit(memory: &mut [u8], i: usize, number: u32, uid: u32, gids: &[u32])
    requires { Free memory.old i gids.now }
    ensures { memory.new ≡ admitted memory.old i number uid gids.now }
{
    seat(memory, i, number, uid, gids);
    wire::put_u32(memory, 0, number);
}

// Gives the lowest free slot and the next number: 38, 39.
fn enter(memory: &mut [u8], uid: u32, gids: &[u32]) -> Connected
    requires { (Held memory.old) × (length gids.now ≤ gid_room) }
    ensures { Did (stored (entered memory.old uid gids.now)) result memory.new }
{
    let Some(slot) = slots::find_free(memory) else {
        return no_connect(38);
    };
    let last = slots::last_of(memory);
    if last == 4294967295 {
        return no_connect(39);
    }
    admit(memory, slot, last + 1, uid, gids);
    Connected {
        answer: 0,
        number: last + 1,
        slot,
        rule: None,
    }
}

// Connects a peer: 37, 36, 38, 39 (rule 8.3). All but 37 show who decided (rule 8.10).
pub fn connect(image: &[u8], memory: &mut [u8], uid: u32, gids: &[u32]) -> Connected
    requires { (GoodImage image.now) × (Held memory.old) }
    ensures { Did (stored (connect tails image.now (state_of memory.old) uid gids.now)) result memory.new }
{
    if 16 < gids.len() {
        return no_connect(37);
    }
    let decision = decide::connect(image, Uid(uid), gids);
    let rule = decision.rule;
    if !decision.allow {
        return connected_by(rule, no_connect(36));
    }
    connected_by(rule, enter(memory, uid, gids))
}

// ---- disconnect

// Frees slot i, whose peer has this number, and ends every call to it.
fn leave(memory: &mut [u8], i: usize, number: u32)
    requires { (Held memory.old) × (i < 16) }
    ensures { memory.new ≡ slots_without memory.old i number }
{
    let from = SLOTS_AT + SLOT_LENGTH * i;
    let to = from + SLOT_LENGTH;
    memory[from..to].fill(0);
    endings::end_all(memory, Ending::To(number));
}

// Disconnects a peer: 30 (rule 8.7).
pub fn disconnect(memory: &mut [u8], peer: u32) -> Gone
    requires { Held memory.old }
    ensures { Did (stored (disconnect tails (state_of memory.old) peer)) result memory.new }
{
    let Some(i) = slots::find(memory, peer, 0) else {
        return no_gone(30);
    };
    let bytes = slots::word_at(memory, i, TAKEN_AT);
    leave(memory, i, peer);
    Gone { answer: 0, bytes }
}
