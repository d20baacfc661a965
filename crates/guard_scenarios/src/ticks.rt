// Ticks: pending calls that end because they are old enough, and what is then as if they had never been.
use crate::bench::Bench;
use crate::message::Message;
use memory::{MEMORY_LENGTH, TICK_AT};
use std::io;
use wire::Order;

impl<'a, R: Print> Bench<'a, R> {
    /// Peer 1 calls peer 2.
    fn call_2(&mut self, serial: u32) -> io::Result<()> {
        self.call("call to :1.2", 1, serial, ":1.2")
    }

    /// Peer 2 returns to the call of serial 5.
    fn return_1(&mut self, label: &str) -> io::Result<()> {
        self.method_return(label, 2, 5, ":1.1")
    }

    fn ticks(&mut self, ticks: &[(u64, u64)]) -> io::Result<()> {
        for &(tick, limit) in ticks {
            self.tick(tick, limit)?;
        }
        Ok(())
    }
}

/// A call ends at the limit and not before; a lower tick does nothing, even with a limit of 0.
pub fn order(bench: &mut Bench<impl Print>) -> io::Result<()> {
    bench.start("ticks")?;
    bench.connect_peers(3)?;
    bench.ticks(&[(0, 0), (10, 5)])?;
    bench.call_2(5)?;
    bench.ticks(&[(9, 0), (10, 1), (14, 5)])?;
    bench.call("call to :1.3", 2, 5, ":1.3")?;
    bench.tick(15, 5)?;
    bench.return_1("late return")?;
    bench.call_2(5)?;
    bench.call_2(5)?;
    bench.return_1("return")?;
    bench.method_return("return", 3, 5, ":1.2")
}

/// Callers in the slots 0, 7 and 15, one of them its own callee. What a caller that leaves had waited for is not counted.
pub fn many_callers(bench: &mut Bench<impl Print>) -> io::Result<()> {
    bench.start("ticks, many callers")?;
    bench.connect_peers(16)?;
    bench.call("call to :1.16", 1, 1, ":1.16")?;
    bench.call("call to :1.1", 8, 1, ":1.1")?;
    bench.call("call to :1.1", 9, 1, ":1.1")?;
    bench.tick(2, 3)?;
    bench.call("call to :1.16", 1, 2, ":1.16")?;
    bench.call("call to :1.16", 16, 1, ":1.16")?;
    bench.call("call to :1.8", 16, 2, ":1.8")?;
    bench.disconnect(9)?;
    bench.ticks(&[(3, 3), (4, 3), (5, 3), (5, 0)])
}

/// Of the calls of one caller the older end and the newer stay, also one whose serial an older one had.
pub fn older_calls(bench: &mut Bench<impl Print>) -> io::Result<()> {
    bench.start("ticks, the older of a caller's calls")?;
    bench.connect_peers(2)?;
    bench.call_2(5)?;
    bench.tick(1, 2)?;
    bench.call_2(6)?;
    bench.call_2(7)?;
    bench.return_1("return")?;
    bench.tick(2, 2)?;
    bench.call_2(5)?;
    bench.tick(3, 2)?;
    bench.return_1("return")?;
    bench.tick(4, 0)
}

/// A caller whose calls are as many as there is room for calls again once they have ended.
pub fn no_room(bench: &mut Bench<impl Print>) -> io::Result<()> {
    bench.start("ticks, a caller with no room")?;
    bench.connect_peers(2)?;
    bench.sixteen_calls()?;
    bench.call_2(17)?;
    bench.tick(1, 2)?;
    bench.call_2(17)?;
    bench.tick(2, 2)?;
    bench.call_2(17)?;
    bench.tick(2, 0)
}

pub fn greatest(bench: &mut Bench<impl Print>) -> io::Result<()> {
    bench.start("ticks, the greatest")?;
    bench.connect_peers(2)?;
    bench.call_2(1)?;
    bench.tick(1, u64::MAX)?;
    bench.call_2(2)?;
    bench.ticks(&[(u64::MAX - 1, u64::MAX), (u64::MAX, u64::MAX)])?;
    bench.call_2(3)?;
    bench.ticks(&[
        (u64::MAX, u64::MAX),
        (u64::MAX, u64::MAX - 1),
        (u64::MAX, 1),
        (u64::MAX - 1, 0),
        (u64::MAX, 0),
    ])
}

/// A call is as old as its last byte. A tick leaves what has come of a message as it is.
pub fn between_pieces(bench: &mut Bench<impl Print>) -> io::Result<()> {
    let call = Message::call(1, ":1.2").bytes(bench.alloc, Order::Little)?;
    let begin = call.get(..20).unwrap_or_default();
    let rest = call.get(20..).unwrap_or_default();
    bench.start("ticks between two pieces")?;
    bench.connect_peers(2)?;
    bench.piece("20 bytes", 1, begin)?;
    bench.tick(4, 0)?;
    bench.piece("the rest", 1, rest)?;
    bench.ticks(&[(7, 4), (8, 4)])?;
    bench.piece("20 bytes", 1, begin)?;
    bench.tick(9, 0)?;
    bench.disconnect(1)
}

/// Two calls in one piece are both of the last tick.
pub fn batch(bench: &mut Bench<impl Print>) -> io::Result<()> {
    let mut two = Message::call(1, ":1.2").bytes(bench.alloc, Order::Little)?;
    let second = Message::call(2, ":1.2").bytes(bench.alloc, Order::Little)?;
    two.extend_from_slice(second.as_slice())?;
    bench.start("a batch after a tick")?;
    bench.connect_peers(2)?;
    bench.tick(6, 0)?;
    bench.batch("two calls to :1.2", 1, two.as_slice())?;
    bench.ticks(&[(7, 2), (8, 2)])
}

/// Where memory is not good no tick is looked at: neither a lower one nor a higher.
pub fn bad_memory(bench: &mut Bench<impl Print>) -> io::Result<()> {
    bench.start("ticks on bad memory")?;
    bench.connect_peers(2)?;
    bench.tick(10, 0)?;
    bench.call_2(5)?;
    bench.memory[MEMORY_LENGTH - 1] = 1;
    bench.ticks(&[(9, 0), (10, 0), (11, 0)])?;
    bench.memory[MEMORY_LENGTH - 1] = 0;
    bench.memory[TICK_AT] = 9;
    bench.ticks(&[(8, 0), (10, 0)])?;
    bench.memory[TICK_AT] = 10;
    bench.tick(10, 0)
}

/// A start sets the tick to 0.
pub fn start_again(bench: &mut Bench<impl Print>) -> io::Result<()> {
    bench.start("a start after ticks")?;
    bench.tick(9, 0)?;
    bench.start("the same again")?;
    bench.connect_peers(2)?;
    bench.tick(0, 0)?;
    bench.call_2(5)?;
    bench.ticks(&[(1, 2), (2, 2)])
}
