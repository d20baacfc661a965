// The inner calls that the benchmark makes, for a C program to link: each is one call of another crate on numbers and byte slices, and asks nothing. The
// guard's own calls are those of `aygeshunt`.
#![tactic(auto)]

ghost use Rattle.std.specs.Prelude.{◌≡◌, ◌+◌, ◌≤◌};
ghost use Rattle.signature.specs.Signature.{valid_signature};
ghost use Rattle.utf8.specs.Utf8.{valid_utf_8};
ghost use Rattle.header.specs.Header.{read_header, reading_answer};
ghost use Rattle.memory.specs.Good.{good};
ghost use Rattle.matching.specs.Promises.{Within};

use header::{Header, Place, Unread};
use image::Outcome;
use names::Form;
use policy::{Decider, Decision, Uid};

// ---- reading

// The form of a number: 0 interface, 1 well-known, 2 unique, 3 either name of a bus, 4 member, else path.
fn form_of(n: u8) -> Form {
    match n {
        0 => Form::Interface,
        1 => Form::WellKnown,
        2 => Form::Unique,
        3 => Form::BusName,
        4 => Form::Member,
        _ => Form::Path,
    }
}

#[unsafe(no_mangle)]
pub extern "C" fn bench_name_valid(form: u8, bytes: &[u8]) -> bool {
    names::is_valid(form_of(form), bytes)
}

#[unsafe(no_mangle)]
pub extern "C" fn bench_signature_valid(bytes: &[u8]) -> bool
    ensures { result ≡ valid_signature bytes.now }
{
    signature::is_valid(bytes)
}

#[unsafe(no_mangle)]
pub extern "C" fn bench_utf8_valid(bytes: &[u8]) -> bool
    ensures { result ≡ valid_utf_8 bytes.now }
{
    utf8::is_valid(bytes)
}

// The answer number of a head: 0 where it is whole and good, 10 where bytes are missing.
#[unsafe(no_mangle)]
pub extern "C" fn bench_header_read(bytes: &[u8]) -> u8
    ensures { result ≡ reading_answer (read_header bytes.now) }
{
    match reader::read(bytes) {
        Err(Unread::Short) => 10,
        Err(Unread::Broken(fault)) => fault.number(),
        Ok(_) => 0,
    }
}

// ---- tests

#[unsafe(no_mangle)]
pub extern "C" fn bench_image_check(image: &[u8]) -> u8 {
    match image::check(image) {
        Outcome::Good => 0,
        Outcome::Bad => 50,
    }
}

#[unsafe(no_mangle)]
pub extern "C" fn bench_memory_good(memory: &[u8]) -> bool
    ensures { result ≡ good memory.now }
{
    audit::is_good(memory)
}

// ---- a decision

// A place inside a head of n bytes, or none.
fn place(at: u32, len: u32, n: usize) -> Place
    ensures { result.at + result.len ≤ n }
{
    let at = at as usize;
    let len = len as usize;
    if at + len <= n {
        Place { at, len }
    } else {
        Place { at: 0, len: 0 }
    }
}

// What rules ask of a message: its kind, and where its path, interface and member stand.
fn message(kind: u8, places: &[u32; 6], head: &[u8]) -> Header
    ensures { Within head.now result }
{
    let none = Place { at: 0, len: 0 };
    Header {
        kind,
        flags: 0,
        serial: 1,
        body: 0,
        head: head.len(),
        reply_serial: 0,
        path: place(places[0], places[1], head.len()),
        interface: place(places[2], places[3], head.len()),
        member: place(places[4], places[5], head.len()),
        error_name: none,
        destination: none,
    }
}

// A decision in one number: 0 where no rule matches, else twice the position of the rule, and 2 where it denies, 3 where it allows.
fn decision_number(decision: Decision) -> u64 {
    let rule = decision.rule;
    let allow = decision.allow;
    match rule {
        Decider::Nobody => 0,
        Decider::Rule(_, position) => {
            let two = 2 * (position as u64);
            if allow { two + 3 } else { two + 2 }
        }
    }
}

// One decision over the transaction rules, in one number; 1 is a bad image. The image's test is part of it.
#[unsafe(no_mangle)]
pub extern "C" fn bench_decide(
    image: &[u8],
    direction: u8,
    kind: u8,
    uid: u32,
    gids: &[u32],
    names: &[u8],
    head: &[u8],
    places: &[u32; 6],
) -> u64 {
    let Outcome::Good = image::check(image) else {
        return 1;
    };
    let header = message(kind, places, head);
    decision_number(decide::transact(image, direction, Uid(uid), gids, names, head, header))
}
