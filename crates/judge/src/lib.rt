// The judgement of a whole message over the guard's memory: its answer, its receiver, who decided, and the pending calls that it begins or ends.
#![tactic(auto)]

ghost use Rattle.std.specs.Prelude.{◌≡◌, ◌+◌, ◌*◌, ◌≤◌, ◌<◌, take};
ghost use Rattle.decide.specs.Promises.{Asked};
ghost use Rattle.policy.specs.Decisions.{transaction_decision};
ghost use Rattle.policy.specs.Matching.{message_of};
ghost use Rattle.policy.specs.Names.{names_in};
ghost use Rattle.rules.specs.Judge.{bit};
ghost use Rattle.memory.specs.Layout.{gid_room};
ghost use Rattle.slots.specs.Slots.{At, Seated};
ghost use Rattle.judge.specs.Judging.{JudgedMessage, Judges};
ghost use Rattle.addresses.specs.Destinations.{Stands};
ghost use Rattle.judge.specs.Steps.{Asks, Says, ToBus, Reaches, ToAll, Delivers, ToPeer, Replies, Directs};

use addresses::Destination;
use header::{CALL, ERROR, Header, RETURN, SIGNAL};
use memory::{FIRST_NAME, NAME_WIDTH, SLOT_LENGTH, SLOTS_AT, UID_AT};
use policy::{Decision, Uid};
use rules::{Judgement, Receiver, judged_by, refused};

// ---- policy

// What policy says of the message about the names, asked of the peer of slot i.
fn ask_peer(
    image: &[u8],
    direction: u8,
    memory: &[u8],
    i: usize,
    names: &[u8],
    head: &[u8],
    header: Header,
) -> Decision
    requires { (Asked image.now head.now header) × (At memory.now i) }
    ensures { Asks image.now direction memory.now i names.now head.now header result }
{
    let uid = Uid(slots::word_at(memory, i, UID_AT));
    let gids = slots::gids_at(memory, i);
    decide::transact(image, direction, uid, gids.as_slice(), names, head, header)
}

// The same, asked of the peer of one slot about the names of another's.
fn may(
    image: &[u8],
    direction: u8,
    memory: &[u8],
    subject: usize,
    other: usize,
    head: &[u8],
    header: Header,
) -> Decision
    requires { (Asked image.now head.now header) × (subject < 16) × (Seated memory.now other) }
    ensures { Says image.now direction memory.now subject other head.now header result }
{
    let names = slots::count_names(memory, other);
    let from = SLOTS_AT + SLOT_LENGTH * other + FIRST_NAME;
    let to = from + NAME_WIDTH * names;
    ask_peer(
        image,
        direction,
        memory,
        subject,
        &memory[from..to],
        head,
        header,
    )
}

// ---- judgements

// To the bus: only send is asked, and shown (rule 7.12), and no call becomes pending (rule 7.5).
fn to_bus(image: &[u8], memory: &[u8], i: usize, head: &[u8], header: Header) -> Judgement
    requires { (Asked image.now head.now header) × (Seated memory.now i) }
    ensures { ToBus image.now memory.now i head.now header result }
{
    let cell = policy::bus_cell();
    let sends = ask_peer(image, policy::SEND, memory, i, &cell, head, header);
    let rule = sends.rule;
    if !sends.allow {
        return judged_by(rule, refused(22));
    }
    Judgement {
        answer: 0,
        receiver: Receiver::Bus,
        rule: Some(rule),
    }
}

// Slot k is a peer's, and policy lets the signal of slot i out and in (rule 7.6).
fn reaches(image: &[u8], memory: &[u8], i: usize, k: usize, head: &[u8], header: Header) -> bool
    requires { (Asked image.now head.now header) × (Seated memory.now i) × (k < 16) }
    ensures { Reaches image.now memory.now i k head.now header result }
{
    if slots::number_at(memory, k) == 0 {
        return false;
    }
    let sends = may(image, policy::SEND, memory, i, k, head, header);
    if !sends.allow {
        return false;
    }
    let receives = may(image, policy::RECEIVE, memory, k, i, head, header);
    receives.allow
}

// The mask with one slot more below its slots.
fn below(mask: u16, reached: bool) -> u16
    requires { mask < 32768 }
    ensures { result ≡ bit reached + 2 * mask }
{
    if reached { 1 + 2 * mask } else { 2 * mask }
}

// A signal to everybody: bit k of the mask is slot k (rule 7.6).
fn to_all(image: &[u8], memory: &[u8], i: usize, head: &[u8], header: Header) -> Judgement
    requires { (Asked image.now head.now header) × (Seated memory.now i) }
    ensures { ToAll image.now memory.now i head.now header result }
{
    let mut mask: u16 = 0;
    for k in (0..16).rev() {
        mask = below(mask, reaches(image, memory, i, k, head, header));
    }
    Judgement {
        answer: 0,
        receiver: Receiver::Slots(mask, u16::count_ones(mask)),
        rule: None,
    }
}

// ---- to one peer

// A call or a signal of slot i that may pass to the peer of slot j: it becomes pending where a reply is expected (rule 7.8).
fn deliver(memory: &mut [u8], i: usize, j: usize, header: Header) -> Judgement
    requires { (Seated memory.old i) × (Seated memory.old j) }
    ensures { Delivers memory.old i j header result memory.new }
{
    let receiver = slots::number_at(memory, j);
    if (header.kind == CALL) & (header.flags % 2 == 0) {
        return waits::wait(memory, i, receiver, header.serial);
    }
    Judgement {
        answer: 0,
        receiver: Receiver::Peer(receiver),
        rule: None,
    }
}

// A call or a signal of slot i to the peer of slot j: send is asked before receive, 22 and 23 (rule 7.7), and whoever was asked last is shown (rule 7.12).
fn to_peer(
    image: &[u8],
    memory: &mut [u8],
    i: usize,
    j: usize,
    head: &[u8],
    header: Header,
) -> Judgement
    requires { (Asked image.now head.now header) × (Seated memory.old i) × (Seated memory.old j) }
    ensures { ToPeer image.now memory.old i j head.now header result memory.new }
{
    let sends = may(image, policy::SEND, memory, i, j, head, header);
    let sender = sends.rule;
    if !sends.allow {
        return judged_by(sender, refused(22));
    }
    let receives = may(image, policy::RECEIVE, memory, j, i, head, header);
    let receiver = receives.rule;
    if !receives.allow {
        return judged_by(receiver, refused(23));
    }
    judged_by(receiver, deliver(memory, i, j, header))
}

// ---- replies

// A return or error by its destination: only one to a peer can be awaited (rule 7.9).
fn reply(memory: &mut [u8], i: usize, to: Destination, header: Header) -> Judgement
    requires { (Seated memory.old i) × (Stands memory.old to) }
    ensures { Replies memory.old i to header result memory.new }
{
    match to {
        Destination::At(j) => waits::reply_to(memory, i, j, header),
        Destination::Absent | Destination::Bus | Destination::Unknown => refused(24),
    }
}

// ---- the whole

// A call or a signal, by its destination.
fn direct(
    image: &[u8],
    memory: &mut [u8],
    i: usize,
    to: Destination,
    head: &[u8],
    header: Header,
) -> Judgement
    requires { (Asked image.now head.now header) × (Seated memory.old i) × (Stands memory.old to) }
    ensures { Directs image.now memory.old i to head.now header result memory.new }
{
    match to {
        Destination::At(j) => to_peer(image, memory, i, j, head, header),
        Destination::Bus => to_bus(image, memory, i, head, header),
        Destination::Unknown => refused(21),
        Destination::Absent => {
            if header.kind == CALL {
                return to_bus(image, memory, i, head, header);
            }
            to_all(image, memory, i, head, header)
        }
    }
}

// The judgement of a whole message of the peer in slot i. Types above 4 are 20 (rule 7.10).
pub fn judge(image: &[u8], memory: &mut [u8], i: usize, head: &[u8], header: Header) -> Judgement
    requires { JudgedMessage image.now memory.old i head.now header }
    ensures { Judges image.now memory.old i head.now header result memory.new }
{
    if SIGNAL < header.kind {
        return refused(20);
    }
    let to = addresses::resolve(memory, head, header.destination);
    if (header.kind == RETURN) | (header.kind == ERROR) {
        return reply(memory, i, to, header);
    }
    direct(image, memory, i, to, head, header)
}
