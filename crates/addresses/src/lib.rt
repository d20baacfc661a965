// Who is meant by a destination: the bus, a peer by its unique name or a name that it owns, or nobody.
#![tactic(auto)]

ghost use Rattle.std.specs.Prelude.{◌≡◌, ◌≤◌, List, ℕ, length, drop};
ghost use Rattle.wire.specs.Bytes.{same};
ghost use Rattle.rules.specs.Addresses.{unique_name, answers_to};
ghost use Rattle.rules.specs.Calls.{slot_at};
ghost use Rattle.memory.specs.Layout.{memory_length};
ghost use Rattle.memory.specs.Encoding.{state_of};
ghost use Rattle.memory.specs.Places.{FoundSlot};
ghost use Rattle.slots.specs.Slots.{At};
ghost use Rattle.addresses.specs.Destinations.{Seeks, Resolved};

use header::Place;
use std::marker::Model;

// A text at the end of 13 bytes, from `from` on.
#[derive(Clone, Copy)]
pub struct Text {
    bytes: [u8; 13],
    from: usize,
}

// The value has both fields, so that the text may be copied.
impl Model for Text {
    ghost Value = { List ℕ × ℕ };

    ghost view = { λ t. (t.bytes, t.from) };

    ghost invariant = { λ t. t.from ≤ 13 };

    ghost inverse = { λ v. record { bytes = v.0; from = v.1 } };
}

impl Text {
    fn as_slice(&self) -> &[u8]
        ensures { result.now ≡ drop self.now.1 self.now.0 }
    {
        &self.bytes[self.from..]
    }
}

// Who is meant by a destination field: it is absent, the bus, the peer of a slot, or nobody (rule 7.3).
#[derive(Clone, Copy)]
pub enum Destination {
    Absent,
    Bus,
    At(usize),
    Unknown,
}

// The unique name of a peer (rule 7.2), written from its last digit on, and then the prefix.
fn unique_name(number: u32) -> Text
    ensures { drop result.1 result.0 ≡ unique_name number }
{
    let mut bytes = [0u8; 13];
    let mut k = 13;
    let mut n = number;
    // in a `for` over the places, the digits left would still end the loop, and where they ended would be kept beside it
    while (3 < k) & (n != 0) {
        k -= 1;
        bytes[k] = (48 + n % 10) as u8;
        n = n / 10;
    }
    let from = k - 3;
    bytes[from] = b':';
    bytes[from + 1] = b'1';
    bytes[from + 2] = b'.';
    Text { bytes, from }
}

// The text is the unique name of the peer of that number. Most texts are no unique names.
fn has_unique_name(text: &[u8], number: u32) -> bool
    ensures { result ≡ same text.now (unique_name number) }
{
    wire::peek(text, 0) == b':' && wire::equal(text, unique_name(number).as_slice())
}

// Slot i is a peer's whose unique name is the text, or who owns it.
fn answers_to(memory: &[u8], i: usize, text: &[u8]) -> bool
    requires { At memory.now i }
    ensures { result ≡ answers_to text.now (slot_at (state_of memory.now) i) }
{
    let number = slots::number_at(memory, i);
    if number == 0 {
        return false;
    }
    has_unique_name(text, number) || slots::owns_name(memory, i, text, 0)
}

// The first slot whose peer answers to the text.
fn find_addressee(memory: &[u8], text: &[u8]) -> Option<usize>
    requires { length memory.now ≡ memory_length }
    ensures { FoundSlot (answers_to text.now) memory.now 0 result }
{
    (0..16).find(|&i| answers_to(memory, i, text))
}

// Who is meant by the field at a place of the head.
pub fn resolve(memory: &[u8], head: &[u8], place: Place) -> Destination
    requires { Seeks memory.now head.now place }
    ensures { Resolved memory.now head.now place result }
{
    let from = place.at;
    if from == 0 {
        return Destination::Absent;
    }
    let to = from + place.len;
    let text = &head[from..to];
    if policy::is_bus(text) {
        return Destination::Bus;
    }
    match find_addressee(memory, text) {
        Some(j) => Destination::At(j),
        None => Destination::Unknown,
    }
}
