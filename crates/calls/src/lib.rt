// Runs a list of calls that stands in bytes, one call after the other on one guard, and writes their answers down.
#![tactic(auto)]

ghost use Rattle.std.specs.Prelude.{◌≡◌, true, ◌<◌, ◌≤◌, length, take, IfSome, IfNone, ◌+◌};
ghost use Rattle.wire.specs.Words.{word_at, long_at};
ghost use Rattle.wire.specs.declared.Order.TheVariants.{Little};
ghost use Rattle.book.specs.Lists.{connects, ticks};
ghost use Rattle.places.specs.Places.{place_length};
ghost use Rattle.calls.specs.Script.{well_sized, gids_of, call_of, entry_size};
ghost use Rattle.calls.specs.Places.{outcome, EndsAs};
ghost use Rattle.calls.specs.Steps.{kind_word, Reported, Stepped, GidsIn, FirstEntry, Counted, Ready, Replayed};

use places::{PLACE_LENGTH, Report};
use wire::Order;

// What an entry calls.
#[derive(Clone, Copy)]
enum Kind {
    Start,
    Connect,
    Own,
    Release,
    Piece,
    Disconnect,
    Tick,
}

impl Kind {
    fn from_word(word: u32) -> Option<Kind>
        ensures known { IfSome result (λ k. kind_word k ≡ word) }
        ensures unknown { IfNone result (6 < word) }
    {
        match word {
            0 => Some(Kind::Start),
            1 => Some(Kind::Connect),
            2 => Some(Kind::Own),
            3 => Some(Kind::Release),
            4 => Some(Kind::Piece),
            5 => Some(Kind::Disconnect),
            6 => Some(Kind::Tick),
            _ => None,
        }
    }

    // An argument may have n bytes.
    fn takes(self, n: u32) -> bool
        ensures { result ≡ well_sized (kind_word self) n }
    {
        match self {
            Kind::Start => n == 0,
            Kind::Connect => (4 <= n) & (n % 4 == 0),
            Kind::Own | Kind::Release | Kind::Piece => 4 <= n,
            Kind::Disconnect => n == 4,
            Kind::Tick => n == 16,
        }
    }
}

// The first words of an entry: what it calls, and how many bytes its argument has.
#[derive(Clone, Copy)]
struct Entry {
    kind: Kind,
    argument: u32,
}

impl Entry {
    // The entry in front of a script, where a whole one stands there.
    fn first(script: &[u8]) -> Option<Entry>
        ensures entry { IfSome result (FirstEntry script.now) }
        ensures broken { IfNone result (entry_size script.now ≡ 0) }
    {
        if script.len() < 8 {
            return None;
        }
        let kind = Kind::from_word(wire::u32_at(Order::Little, script, 0))?;
        let argument = wire::u32_at(Order::Little, script, 4);
        if !kind.takes(argument) {
            return None;
        }
        if script.len() - 8 < argument as usize {
            return None;
        }
        Some(Entry { kind, argument })
    }

    // How many bytes the entry takes.
    fn size(self) -> usize
        ensures { result ≡ 8 + self.argument }
    {
        8 + self.argument as usize
    }
}

// ---- one call

// The first `count` of a list of gids: one more than a peer may have at most.
#[derive(Clone, Copy)]
struct Gids {
    list: [u32; 17],
    count: usize,
}

impl Gids {
    // The gids behind the uid, up to 17: more are as many as 17 to a guard.
    fn behind_uid(argument: &[u8]) -> Gids
        requires { 4 ≤ length argument.now }
        ensures { GidsIn argument.now result }
    {
        let mut list = [0u32; 17];
        let count = ((argument.len() - 4) / 4).min(17);
        for k in 0..count {
            list[k] = wire::u32_at(Order::Little, argument, 4 + 4 * k);
        }
        Gids { list, count }
    }

    fn as_slice(&self) -> &[u32]
        requires { self.now.count ≤ 17 }
        ensures { result.now ≡ take self.now.count self.now.list }
    {
        &self.list[..self.count]
    }
}

fn connect(image: &[u8], memory: &mut [u8], argument: &[u8]) -> Report
    requires { 4 ≤ length argument.now }
    ensures { Reported (connects image.now (word_at Little argument.now 0) (gids_of argument.now)) memory.old result
        memory.new }
{
    let uid = wire::u32_at(Order::Little, argument, 0);
    let gids = Gids::behind_uid(argument);
    Report::from(guard::connect(image, memory, uid, gids.as_slice()))
}

fn tick(memory: &mut [u8], argument: &[u8]) -> Report
    requires { length argument.now ≡ 16 }
    ensures { Reported (ticks (long_at argument.now 0) (long_at argument.now 8)) memory.old result memory.new }
{
    let present = wire::u64_at(argument, 0);
    let limit = wire::u64_at(argument, 8);
    Report::from(guard::tick(memory, present, limit))
}

// The number of the peer that a call is about.
fn peer_in(argument: &[u8]) -> u32
    requires { 4 ≤ length argument.now }
    ensures { result ≡ word_at Little argument.now 0 }
{
    wire::u32_at(Order::Little, argument, 0)
}

fn call(image: &[u8], memory: &mut [u8], kind: Kind, argument: &[u8]) -> Report
    requires { well_sized (kind_word kind) (length argument.now) ≡ true }
    ensures { Reported (call_of image.now (kind_word kind) argument.now) memory.old result memory.new }
{
    match kind {
        Kind::Start => Report::plain(guard::start(memory)),
        Kind::Connect => connect(image, memory, argument),
        Kind::Own => {
            let peer = peer_in(argument);
            Report::from(guard::own(image, memory, peer, &argument[4..]))
        }
        Kind::Release => {
            let peer = peer_in(argument);
            Report::plain(guard::release(memory, peer, &argument[4..]))
        }
        Kind::Piece => {
            let peer = peer_in(argument);
            Report::from(guard::piece(image, memory, peer, &argument[4..]))
        }
        Kind::Disconnect => Report::from(guard::disconnect(memory, peer_in(argument))),
        Kind::Tick => tick(memory, argument),
    }
}

// ---- entries

// How many calls a script has, where its layout holds to its very end.
fn count_calls(script: &[u8]) -> Option<usize>
    ensures { Counted script.now result }
{
    let mut rest = script;
    let mut n = 0;
    while let Some(entry) = Entry::first(rest) {
        rest = &rest[entry.size()..];
        n += 1;
    }
    if rest.is_empty() { Some(n) } else { None }
}

// The first entry's call, and its answer in the first place of the room.
fn step(image: &[u8], script: &[u8], entry: Entry, memory: &mut [u8], room: &mut [u8])
    requires { (FirstEntry script.now entry) × (place_length ≤ length room.old) }
    ensures { Stepped image.now script.now memory.old room.old memory.new room.new }
{
    let end = entry.size();
    let report = call(image, memory, entry.kind, &script[8..end]);
    places::put(room, report);
}

// Every entry of a script whose layout holds, on a guard that has just started.
fn replay(image: &[u8], script: &[u8], memory: &mut [u8], answers: &mut [u8])
    requires { Ready image.now script.now memory.old answers.old }
    ensures { Replayed image.now script.now answers.old memory.new answers.new }
{
    let mut rest = script;
    let mut at = 0;
    while let Some(entry) = Entry::first(rest) {
        step(image, rest, entry, memory, &mut answers[at..]);
        rest = &rest[entry.size()..];
        at += PLACE_LENGTH;
    }
}

// Starts a guard in `memory`, makes the script's calls on it and writes each call's answer to its place. A script that is refused changes nothing.
pub fn run(image: &[u8], script: &[u8], memory: &mut [u8], answers: &mut [u8]) -> u8
    ensures { EndsAs (outcome image.now script.now memory.old answers.old) result memory.new
        answers.new }
{
    let Some(calls) = count_calls(script) else {
        return 67;
    };
    if answers.len() / PLACE_LENGTH < calls {
        return 68;
    }
    if guard::start(memory) != 0 {
        return 51;
    }
    replay(image, script, memory, answers);
    0
}
