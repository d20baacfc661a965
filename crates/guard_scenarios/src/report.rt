// What the guard's calls report, as parts of a line.
use policy::Decider;
use rules::{Judgement, Receiver};
use std::alloc::{AllocError, Global};
use std::fmt;

/// Who receives a message.
#[derive(Clone, Copy)]
pub struct Received(pub Receiver);

impl fmt::Display for Received {
    fn fmt<W: fmt::Write>(&self, f: &mut fmt::Formatter<W>) -> fmt::Result {
        match self.0 {
            Receiver::Nobody => f.write_str("nobody"),
            Receiver::Bus => f.write_str("bus"),
            Receiver::Peer(number) => write!(f, "peer {number}"),
            Receiver::Slots(mask, count) => write!(f, "mask {mask} count {count}"),
        }
    }
}

/// Who decided, where that is shown.
#[derive(Clone, Copy)]
pub struct Decided(pub Option<Decider>);

impl fmt::Display for Decided {
    fn fmt<W: fmt::Write>(&self, f: &mut fmt::Formatter<W>) -> fmt::Result {
        match self.0 {
            None => Ok(()),
            Some(Decider::Nobody) => f.write_str(", no rule"),
            Some(Decider::Rule(_, position)) => write!(f, ", rule {position}"),
        }
    }
}

/// Whether a call left every byte of memory as it was.
#[derive(Clone, Copy, PartialEq, Eq)]
pub enum Change {
    Same,
    Changed,
}

impl Change {
    pub fn between(before: &[u8], after: &[u8]) -> Change {
        if before == after {
            Change::Same
        } else {
            Change::Changed
        }
    }
}

impl fmt::Display for Change {
    fn fmt<W: fmt::Write>(&self, f: &mut fmt::Formatter<W>) -> fmt::Result {
        f.write_str(match self {
            Change::Same => "same memory",
            Change::Changed => "changed",
        })
    }
}

/// A judgement as text: two that read the same are the same.
pub fn text(alloc: Global, judgement: Judgement) -> Result<String, AllocError> {
    let receiver = Received(judgement.receiver);
    let decided = Decided(judgement.rule);
    format!(in alloc; "{} {receiver}{decided}", judgement.answer)
}

/// All that was offered is taken, and the message goes on behind it.
pub fn is_waiting(judgement: Judgement) -> bool {
    matches!(
        judgement,
        Judgement {
            answer: 10,
            receiver: Receiver::Nobody,
            rule: None
        }
    )
}
