// Parts of what a call reports, as the lines have them: numbers with spaces between them.
use policy::Decider;
use rules::Receiver;
use std::fmt;

// 0 nobody, 1 the bus, 2 a peer, 3 a mask of slots; behind it the peer's number or the mask, and how many slots the mask has.
#[derive(Clone, Copy)]
pub struct ReceiverNumbers(pub Receiver);

impl fmt::Display for ReceiverNumbers {
    fn fmt<W: fmt::Write>(&self, f: &mut fmt::Formatter<W>) -> fmt::Result {
        match self.0 {
            Receiver::Nobody => write!(f, "0 0 0"),
            Receiver::Bus => write!(f, "1 0 0"),
            Receiver::Peer(number) => write!(f, "2 {number} 0"),
            Receiver::Slots(mask, count) => write!(f, "3 {mask} {count}"),
        }
    }
}

// Who decided.
#[derive(Clone, Copy)]
pub struct RuleNumbers(pub Option<Decider>);

impl fmt::Display for RuleNumbers {
    fn fmt<W: fmt::Write>(&self, f: &mut fmt::Formatter<W>) -> fmt::Result {
        let numbers = rules::rule_numbers(self.0);
        write!(f, "{} {}", numbers.kind, numbers.position)
    }
}
