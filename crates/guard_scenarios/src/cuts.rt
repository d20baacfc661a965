// A message offered whole and cut at every byte comes to the same judgement and the same memory.
use crate::bench::{ALLOW, Bench};
use crate::message::Message;
use crate::report;
use memory::MEMORY_LENGTH;
use rules::Taken;
use std::alloc::{AllocError, Global};
use std::io;
use wire::Order;

fn offer(memory: &mut [u8; MEMORY_LENGTH], bytes: &[u8]) -> Taken {
    guard::piece(&ALLOW, memory, 1, bytes)
}

/// A message offered whole: its bytes up to the one that decides, what they were judged, and the memory before and behind them.
#[derive(Drop)]
struct Whole<'a> {
    alloc: Global,
    before: &'a [u8; MEMORY_LENGTH],
    bytes: &'a [u8],
    judged: String,
    after: [u8; MEMORY_LENGTH],
}

impl<'a> Whole<'a> {
    fn offer(
        alloc: Global,
        before: &'a [u8; MEMORY_LENGTH],
        message: &'a [u8],
    ) -> Result<Self, AllocError> {
        let mut after = *before;
        let taken = offer(&mut after, message);
        let judged = report::text(alloc, taken.judgement)?;
        Ok(Whole {
            alloc,
            before,
            bytes: message.get(..taken.taken).unwrap_or(message),
            judged,
            after,
        })
    }

    // The first part is used up, the second brings the judgement and leaves the memory that the whole left.
    fn is_cut_same(&self, first: &[u8], second: &[u8]) -> Result<bool, AllocError> {
        let mut memory = *self.before;
        let a = offer(&mut memory, first);
        let b = offer(&mut memory, second);
        let judged = report::text(self.alloc, b.judgement)?;
        Ok(
            a.taken == first.len()
                && report::is_waiting(a.judgement)
                && b.taken == second.len()
                && judged == self.judged
                && memory == self.after,
        )
    }

    fn count_same_cuts(&self) -> Result<usize, AllocError> {
        let mut count = 0usize;
        for at in 0..self.bytes.len() {
            let (first, second) = self.bytes.split_at(at);
            if self.is_cut_same(first, second)? {
                count = count.saturating_add(1);
            }
        }
        Ok(count)
    }

    // Byte by byte the last one brings the judgement, and leaves that memory.
    fn is_bytewise_same(&self) -> Result<bool, AllocError> {
        let mut memory = *self.before;
        let mut judged = String::new(self.alloc);
        for byte in self.bytes.chunks(1) {
            let taken = offer(&mut memory, byte);
            judged = report::text(self.alloc, taken.judgement)?;
        }
        Ok(judged == self.judged && memory == self.after)
    }
}

impl<'a, R: Print> Bench<'a, R> {
    /// The message cut at each of its bytes, in one byte order.
    fn cut(&self, message: &Message, order: Order, name: &str) -> io::Result<()> {
        let bytes = message.bytes(self.alloc, order)?;
        let whole = Whole::offer(self.alloc, &self.memory, bytes.as_slice())?;
        let length = whole.bytes.len();
        let count = whole.count_same_cuts()?;
        print!(self.rt; "{name}: of {length} cuts the same: {count}")?;
        if whole.is_bytewise_same()? {
            print!(self.rt; ", byte by byte too")?;
        }
        println!(self.rt;)
    }

    /// The message offered whole, with its line, and then cut in both byte orders. Memory stays.
    fn cut_both(&mut self, label: &str, message: &Message) -> io::Result<()> {
        let before = self.memory;
        self.message(label, 1, message)?;
        self.memory = before;
        self.cut(message, Order::Little, "little-endian")?;
        self.cut(message, Order::Big, "big-endian")
    }
}

pub fn cuts_at_every_byte(bench: &mut Bench<impl Print>) -> io::Result<()> {
    bench.start("cuts at every byte")?;
    bench.connect_peers(2)?;
    bench.call("call to :1.1", 2, 5, ":1.1")?;
    for (label, message) in [
        ("call to :1.2", Message::call(5, ":1.2")),
        ("call to :1.3", Message::call(5, ":1.3")),
        ("call with serial 0", Message::call(0, ":1.2")),
        ("call to a malformed name", Message::call(5, "n")),
        ("return", Message::method_return(5, ":1.2")),
        ("return not waited for", Message::method_return(6, ":1.2")),
        ("call to the bus", Message::call_to_bus(5)),
        ("error", Message::error(5, ":1.2")),
        ("signal to :1.2", Message::signal(":1.2")),
        ("signal to all", Message::signal_to_all()),
        ("type 5", Message::unknown()),
    ] {
        bench.cut_both(label, &message)?;
    }
    Ok(())
}
