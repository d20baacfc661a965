// Reports in places of a lent room: seven little-endian numbers each.
#![tactic(auto)]

ghost use Rattle.std.specs.Prelude.{◌≡◌, [], ◌∷◌, ◌++◌, ◌%◌, ◌≤◌, length, drop};
ghost use Rattle.rules.specs.Places.{receiver_words, shown_words, plain_words, connected_words, owned_words, taken_words, gone_words, ticked_words};
ghost use Rattle.places.specs.Places.{place_of, place_length, report_words, Shows};

use policy::Decider;
use rules::{Connected, Gone, Owned, Receiver, RuleNumbers, Taken, Ticked, rule_numbers};

pub const PLACE_LENGTH: usize = 28;

// The numbers of a place.
#[derive(Clone, Copy)]
pub struct Report {
    pub answer: u32,
    pub taken: u32,
    pub kind: u32,
    pub number: u32,
    pub count: u32,
    pub rule: RuleNumbers,
}

fn low(n: usize) -> u32
    ensures { result ≡ n % 4294967296 }
{
    (n % 4294967296) as u32
}

// Writes a report to the first place of a room.
pub fn put(room: &mut [u8], report: Report)
    requires { place_length ≤ length room.old }
    ensures { room.new ≡ place_of (report_words report) ++ drop place_length room.old }
{
    let words = [
        report.answer,
        report.taken,
        report.kind,
        report.number,
        report.count,
        report.rule.kind,
        report.rule.position,
    ];
    tables::put_words(room, 0, &words);
}

// ---- what a call reports, as numbers

// The numbers of a call that is not about a message: an answer, two numbers of its own, and who decided.
fn own_report(answer: u8, number: u32, count: u32, shown: Option<Decider>) -> Report
    ensures { report_words result ≡ answer ∷ 0 ∷ 0 ∷ number ∷ count ∷ shown_words shown }
{
    Report {
        answer: answer as u32,
        taken: 0,
        kind: 0,
        number,
        count,
        rule: rule_numbers(shown),
    }
}

impl Report {
    // The numbers of a call that reports its answer alone.
    pub fn plain(answer: u8) -> Report
        ensures { Shows (plain_words answer) result }
    {
        own_report(answer, 0, 0, None)
    }
}

impl From<Connected> for Report {
    ghost from_gives = { λ c r. Shows (connected_words c) r };

    fn from(c: Connected) -> Report {
        own_report(c.answer, c.number, low(c.slot), c.rule)
    }
}

impl From<Owned> for Report {
    ghost from_gives = { λ o r. Shows (owned_words o) r };

    fn from(o: Owned) -> Report {
        own_report(o.answer, 0, 0, o.rule)
    }
}

impl From<Gone> for Report {
    ghost from_gives = { λ g r. Shows (gone_words g) r };

    fn from(g: Gone) -> Report {
        own_report(g.answer, g.bytes, 0, None)
    }
}

impl From<Ticked> for Report {
    ghost from_gives = { λ t r. Shows (ticked_words t) r };

    fn from(t: Ticked) -> Report {
        own_report(t.answer, t.ended, 0, None)
    }
}

// A receiver's kind, the peer's number or the mask, and the count of set slots.
fn receiver_numbers(receiver: Receiver) -> (u32, u32, u32)
    ensures { result.0 ∷ result.1 ∷ result.2 ∷ [] ≡ receiver_words receiver }
{
    match receiver {
        Receiver::Nobody => (0, 0, 0),
        Receiver::Bus => (1, 0, 0),
        Receiver::Peer(number) => (2, number, 0),
        Receiver::Slots(mask, count) => (3, mask as u32, count),
    }
}

impl From<Taken> for Report {
    ghost from_gives = { λ t r. Shows (taken_words t) r };

    fn from(t: Taken) -> Report {
        let judgement = t.judgement;
        let (kind, number, count) = receiver_numbers(judgement.receiver);
        Report {
            answer: judgement.answer as u32,
            taken: low(t.taken),
            kind,
            number,
            count,
            rule: rule_numbers(judgement.rule),
        }
    }
}
