// What the guard's calls report, each report of a refusal, when an offering goes on, and which names a peer may own.
#![tactic(auto)]

ghost use Rattle.std.specs.Prelude.{◌≡◌, not, ◌&&◌, [], ◌∷◌, ltb};
ghost use Rattle.policy.specs.Decisions.{decider_words};
ghost use Rattle.rules.specs.Addresses.{ownable};
ghost use Rattle.rules.specs.Judge.{refusal, judgement_by};
ghost use Rattle.rules.specs.Places.{shown_words, is_stop};
ghost use Rattle.rules.specs.Calls.{no_connect, connected_by, no_own, no_piece, no_gone, no_tick};

use names::Form;
use policy::Decider;

// Who receives a message: nobody, the bus itself, the peer of a number, or the slots of a mask, with their count.
#[derive(Clone, Copy, PartialEq, Eq)]
pub enum Receiver {
    Nobody,
    Bus,
    Peer(u32),
    Slots(u16, u32),
}

// An answer number, the receiver, and who decided, where a report shows it.
#[derive(Clone, Copy, PartialEq, Eq)]
pub struct Judgement {
    pub answer: u8,
    pub receiver: Receiver,
    pub rule: Option<Decider>,
}

// What connect reports: the peer's number and its slot, 0s where it is refused, and who decided.
#[derive(Clone, Copy, PartialEq, Eq)]
pub struct Connected {
    pub answer: u8,
    pub number: u32,
    pub slot: usize,
    pub rule: Option<Decider>,
}

// What own reports: its answer, and who decided.
#[derive(Clone, Copy, PartialEq, Eq)]
pub struct Owned {
    pub answer: u8,
    pub rule: Option<Decider>,
}

// Who decided, in two numbers.
#[derive(Clone, Copy, PartialEq, Eq)]
pub struct RuleNumbers {
    pub kind: u32,
    pub position: u32,
}

// What a piece comes to: the judgement, and the bytes taken.
#[derive(Clone, Copy, PartialEq, Eq)]
pub struct Taken {
    pub judgement: Judgement,
    pub taken: usize,
}

// What a batch reports: how many places it wrote, and how many bytes were taken in all.
#[derive(Clone, Copy, PartialEq, Eq)]
pub struct Batch {
    pub written: usize,
    pub taken: usize,
}

// What disconnect reports: the bytes taken of the peer's unfinished or broken message.
#[derive(Clone, Copy, PartialEq, Eq)]
pub struct Gone {
    pub answer: u8,
    pub bytes: u32,
}

// What a tick reports: how many pending calls ended.
#[derive(Clone, Copy, PartialEq, Eq)]
pub struct Ticked {
    pub answer: u8,
    pub ended: u32,
}

pub fn refused(answer: u8) -> Judgement
    ensures { result ≡ refusal answer }
{
    Judgement {
        answer,
        receiver: Receiver::Nobody,
        rule: None,
    }
}

// The judgement, which shows who decided.
pub fn judged_by(rule: Decider, judgement: Judgement) -> Judgement
    ensures { result ≡ judgement_by rule judgement }
{
    let receiver = judgement.receiver;
    Judgement {
        answer: judgement.answer,
        receiver,
        rule: Some(rule),
    }
}

pub fn no_connect(answer: u8) -> Connected
    ensures { result ≡ no_connect answer }
{
    Connected {
        answer,
        number: 0,
        slot: 0,
        rule: None,
    }
}

// What connect reports, which shows who decided.
pub fn connected_by(rule: Decider, connected: Connected) -> Connected
    ensures { result ≡ connected_by rule connected }
{
    Connected {
        answer: connected.answer,
        number: connected.number,
        slot: connected.slot,
        rule: Some(rule),
    }
}

pub fn no_own(answer: u8) -> Owned
    ensures { result ≡ no_own answer }
{
    Owned { answer, rule: None }
}

pub fn no_piece(answer: u8) -> Taken
    ensures { result ≡ no_piece answer }
{
    Taken {
        judgement: Judgement {
            answer,
            receiver: Receiver::Nobody,
            rule: None,
        },
        taken: 0,
    }
}

pub fn no_gone(answer: u8) -> Gone
    ensures { result ≡ no_gone answer }
{
    Gone { answer, bytes: 0 }
}

pub fn no_tick(answer: u8) -> Ticked
    ensures { result ≡ no_tick answer }
{
    Ticked { answer, ended: 0 }
}

// 1 and the rule's position, or 2 and 0 where no rule matches.
fn decider_numbers(decider: Decider) -> RuleNumbers
    ensures { result.kind ∷ result.position ∷ [] ≡ decider_words decider }
{
    match decider {
        Decider::Nobody => RuleNumbers {
            kind: 2,
            position: 0,
        },
        Decider::Rule(_, position) => RuleNumbers { kind: 1, position },
    }
}

// Who decided, in two numbers, and zeros where nothing is shown.
pub fn rule_numbers(shown: Option<Decider>) -> RuleNumbers
    ensures { result.kind ∷ result.position ∷ [] ≡ shown_words shown }
{
    match shown {
        None => RuleNumbers {
            kind: 0,
            position: 0,
        },
        Some(decider) => decider_numbers(decider),
    }
}

// An offering goes on behind this answer to a piece of that length (rule 9.5).
pub fn goes_on(answer: u8, taken: usize, length: usize) -> bool
    ensures { result ≡ not (is_stop answer) && ltb taken length }
{
    !matches!(answer, 1..=9 | 30..=51) & (taken < length)
}

// A name that a peer may own: well-known, and not the bus's.
pub fn is_ownable(name: &[u8]) -> bool
    ensures { result ≡ ownable name.now }
{
    names::is_valid(Form::WellKnown, name) & !policy::is_bus(name)
}
