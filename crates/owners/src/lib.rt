// The calls about names, on a good image and good memory: own, release.
#![tactic(auto)]

ghost use Rattle.std.specs.Prelude.{◌≡◌, ◌++◌, ◌+◌, ◌-◌, ◌*◌, ◌≤◌, ◌<◌, length, take, drop};
ghost use Rattle.image.specs.Promises.{GoodImage};
ghost use Rattle.policy.specs.Decisions.{own_decision};
ghost use Rattle.policy.specs.Names.{name_limit};
ghost use Rattle.rules.specs.Calls.{own, release};
ghost use Rattle.memory.specs.Layout.{memory_length};
ghost use Rattle.memory.specs.Encoding.{state_of};
ghost use Rattle.memory.specs.Sound.{Held};
ghost use Rattle.memory.specs.Calls.{stored, Did};
ghost use Rattle.slots.specs.Slots.{peer_at, Seated};
ghost use Rattle.owners.specs.Writes.{name_bytes, Naming};
ghost use Rattle.owners.specs.Steps.{granted, claimed, obtained, given_up};

use memory::{FIRST_NAME, NAME_WIDTH, NAMES_AT, NAMES_LENGTH, SLOT_LENGTH, SLOTS_AT, UID_AT};
use policy::{Decision, Uid};
use rules::{Owned, no_own};

// ---- own

// What policy decides about the name, for the peer of slot i.
fn decide_at(image: &[u8], memory: &[u8], i: usize, name: &[u8]) -> Decision
    requires { (GoodImage image.now) × (length memory.now ≡ memory_length) × (i < 16) }
    ensures { result ≡ own_decision image.now (record { 0 = (peer_at memory.now i).uid }) (peer_at memory.now i).gids
        name.now }
{
    let uid = Uid(slots::word_at(memory, i, UID_AT));
    let gids = slots::gids_at(memory, i);
    decide::own(image, uid, gids.as_slice(), name)
}

// Writes a name behind its length at `at`.
fn put_name(memory: &mut [u8], at: usize, name: &[u8])
    requires { Naming memory.old at name.now }
    ensures { memory.new ≡ take at memory.old
        ++ (name_bytes name.now ++ drop (at + (1 + length name.now)) memory.old) }
{
    memory[at] = name.len() as u8;
    let from = at + 1;
    let to = from + name.len();
    wire::copy(&mut memory[from..to], name);
}

// Gives the name, which is nobody's, to the peer of slot i: 34.
fn grant(memory: &mut [u8], i: usize, name: &[u8]) -> u8
    requires { (Seated memory.old i) × (length name.now ≤ name_limit) }
    ensures { Did (stored (granted memory.old i name.now)) result memory.new }
{
    let n = slots::word_at(memory, i, NAMES_AT);
    if 4 <= n {
        return 34;
    }
    put_name(
        memory,
        SLOTS_AT + SLOT_LENGTH * i + FIRST_NAME + NAME_WIDTH * (n as usize),
        name,
    );
    wire::put_u32(memory, SLOTS_AT + SLOT_LENGTH * i + NAMES_AT, n + 1);
    0
}

// Gives the name, which is not its own, to the peer of slot i: 33, 34.
fn claim(memory: &mut [u8], i: usize, name: &[u8]) -> u8
    requires { (Seated memory.old i) × (length name.now ≤ name_limit) }
    ensures { Did (stored (claimed memory.old i name.now)) result memory.new }
{
    if slots::find_owner(memory, name, 0).is_none() {
        return grant(memory, i, name);
    }
    33
}

// Gives a name that policy allows to the peer of slot i: 0 where it has it, 33, 34.
fn obtain(memory: &mut [u8], i: usize, name: &[u8]) -> u8
    requires { (Seated memory.old i) × (length name.now ≤ name_limit) }
    ensures { Did (stored (obtained memory.old i name.now)) result memory.new }
{
    if slots::owns_name(memory, i, name, 0) {
        return 0;
    }
    claim(memory, i, name)
}

// Gives a peer a name: 30, 31, 32, 0 where it has it, 33, 34 (rule 8.4). All but 30 and 31 show who decided (rule 8.10).
pub fn own(image: &[u8], memory: &mut [u8], peer: u32, name: &[u8]) -> Owned
    requires { (GoodImage image.now) × (Held memory.old) }
    ensures { Did (stored (own image.now (state_of memory.old) peer name.now)) result memory.new }
{
    let Some(i) = slots::find(memory, peer, 0) else {
        return no_own(30);
    };
    if !rules::is_ownable(name) {
        return no_own(31);
    }
    let decision = decide_at(image, memory, i, name);
    let rule = decision.rule;
    let answer = if decision.allow {
        obtain(memory, i, name)
    } else {
        32
    };
    Owned {
        answer,
        rule: Some(rule),
    }
}

// ---- release

// Takes the name from the peer of slot i, if it has it: 35.
fn give_up(memory: &mut [u8], i: usize, name: &[u8]) -> u8
    requires { Seated memory.old i }
    ensures { Did (stored (given_up memory.old i name.now)) result memory.new }
{
    let Some(j) = slots::find_name(memory, i, name, 0) else {
        return 35;
    };
    let n = slots::word_at(memory, i, NAMES_AT);
    let at = SLOTS_AT + SLOT_LENGTH * i + NAMES_AT;
    let end = at + NAMES_LENGTH;
    tables::remove(
        &mut memory[at..end],
        NAME_WIDTH * j,
        NAME_WIDTH,
        NAME_WIDTH * (n as usize),
        n - 1,
    );
    0
}

// Takes a name from a peer: 30, 31, 35 (rule 8.5).
pub fn release(memory: &mut [u8], peer: u32, name: &[u8]) -> u8
    requires { Held memory.old }
    ensures { Did (stored (release (state_of memory.old) peer name.now)) result memory.new }
{
    let Some(i) = slots::find(memory, peer, 0) else {
        return 30;
    };
    let ownable = rules::is_ownable(name);
    if !ownable {
        return 31;
    }
    give_up(memory, i, name)
}
