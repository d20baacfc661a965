// The guard's calls on one memory, each with the line that it comes to.
use crate::message::Message;
use crate::report::{Change, Decided, Received};
use memory::MEMORY_LENGTH;
use std::alloc::Global;
use std::io;
use wire::Order;

/// An image with one default allow of anything for connect, own, send and receive.
pub const ALLOW: [u8; 136] =
    *b"\x88\0\0\0\x01\0\0\0\x20\0\0\0\x01\0\0\0(\0\0\0\x02\0\0\08\0\0\0\x88\0\0\0\0\x01\0\0\0\0\0\0\0\x01\0\0\0\0\0\0\0\0\0\0\0\0\0\0\0\x01\0\0\0\0\0\0\0\0\0\0\0\0\0\0\0\0\0\0\0\0\0\0\0\0\0\0\0\0\0\0\0\0\0\0\0\0\0\0\0\x01\x01\0\0\0\0\0\0\0\0\0\0\0\0\0\0\0\0\0\0\0\0\0\0\0\0\0\0\0\0\0\0\0\0\0\0\0\0\0";

/// What the guard's calls are made with, and where their lines are printed.
#[derive(Drop)]
pub struct Bench<'a, R> {
    pub rt: &'a R,
    pub alloc: Global,
    image: Vec<u8>,
    pub memory: [u8; MEMORY_LENGTH],
}

impl<'a, R: Print> Bench<'a, R> {
    pub fn new(rt: &'a R, alloc: Global) -> io::Result<Self> {
        let image = Vec::from_slice(alloc, &ALLOW)?;
        Ok(Bench {
            rt,
            alloc,
            image,
            memory: [255; MEMORY_LENGTH],
        })
    }

    pub fn set_image(&mut self, image: &[u8]) -> io::Result<()> {
        self.image.clear();
        Ok(self.image.extend_from_slice(image)?)
    }

    pub fn start(&mut self, title: &str) -> io::Result<()> {
        let answer = guard::start(&mut self.memory);
        println!(self.rt; "-- {title}: {answer}")
    }

    // What a call reports, and whether it left every byte of memory as it was.
    fn called<T, F: FnOnce(&[u8], &mut [u8]) -> T>(&mut self, call: F) -> (T, Change)
        requires { F.IsAlwaysCallable call }
    {
        let before = self.memory;
        let report = call(self.image.as_slice(), &mut self.memory);
        (report, Change::between(&before, &self.memory))
    }

    pub fn connect(&mut self, uid: u32, gids: &[u32]) -> io::Result<()> {
        let (c, change) = self.called(|image, memory| guard::connect(image, memory, uid, gids));
        let decided = Decided(c.rule);
        println!(self.rt;
            "connect: {} number {} slot {}{decided}, {change}",
            c.answer, c.number, c.slot
        )
    }

    /// So many peers connect, with the uids 1, 2, 3 and on.
    pub fn connect_peers(&mut self, count: u32) -> io::Result<()> {
        for uid in 1..=count {
            self.connect(uid, &[])?;
        }
        Ok(())
    }

    pub fn own(&mut self, peer: u32, name: &str) -> io::Result<()> {
        let (o, change) = self.called(|image, memory| guard::own(
            image,
            memory,
            peer,
            name.as_bytes(),
        ));
        let decided = Decided(o.rule);
        println!(self.rt; "own {peer} {name}: {}{decided}, {change}", o.answer)
    }

    pub fn release(&mut self, peer: u32, name: &str) -> io::Result<()> {
        let (answer, change) = self.called(|_, memory| guard::release(
            memory,
            peer,
            name.as_bytes(),
        ));
        println!(self.rt; "release {peer} {name}: {answer}, {change}")
    }

    pub fn disconnect(&mut self, peer: u32) -> io::Result<()> {
        let (g, change) = self.called(|_, memory| guard::disconnect(memory, peer));
        println!(self.rt;
            "disconnect {peer}: {} bytes {}, {change}",
            g.answer, g.bytes
        )
    }

    pub fn tick(&mut self, tick: u64, limit: u64) -> io::Result<()> {
        let (t, change) = self.called(|_, memory| guard::tick(memory, tick, limit));
        println!(self.rt;
            "tick {tick} limit {limit}: {} ended {}, {change}",
            t.answer, t.ended
        )
    }

    pub fn piece(&mut self, label: &str, peer: u32, bytes: &[u8]) -> io::Result<()> {
        let (t, change) = self.called(|image, memory| guard::piece(image, memory, peer, bytes));
        let judgement = t.judgement;
        let received = Received(judgement.receiver);
        let decided = Decided(judgement.rule);
        println!(self.rt;
            "piece {peer} {label}: {} {received}, taken {}{decided}, {change}",
            judgement.answer, t.taken
        )
    }

    /// A piece offered message after message, with room for four places of 28 bytes.
    pub fn batch(&mut self, label: &str, peer: u32, bytes: &[u8]) -> io::Result<()> {
        let mut room = [0; 4 * 28];
        let (b, change) = self.called(|image, memory| guard::batch(
            image, memory, peer, bytes, &mut room,
        ));
        println!(self.rt;
            "batch {peer} {label}: places {}, taken {}, {change}",
            b.written, b.taken
        )
    }

    /// A whole message, in little-endian order.
    pub fn message(&mut self, label: &str, peer: u32, message: &Message) -> io::Result<()> {
        let bytes = message.bytes(self.alloc, Order::Little)?;
        self.piece(label, peer, bytes.as_slice())
    }

    pub fn call(&mut self, label: &str, peer: u32, serial: u32, to: &str) -> io::Result<()> {
        self.message(label, peer, &Message::call(serial, to))
    }

    /// Calls of peer 1 to peer 2 with the serials 1 to 16.
    pub fn sixteen_calls(&mut self) -> io::Result<()> {
        for serial in 1..=16 {
            self.call("call to :1.2", 1, serial, ":1.2")?;
        }
        Ok(())
    }

    pub fn call_to_bus(&mut self, peer: u32, serial: u32) -> io::Result<()> {
        self.message("call to the bus", peer, &Message::call_to_bus(serial))
    }

    pub fn method_return(
        &mut self,
        label: &str,
        peer: u32,
        reply_serial: u32,
        to: &str,
    ) -> io::Result<()> {
        self.message(label, peer, &Message::method_return(reply_serial, to))
    }

    pub fn signal_to_all(&mut self, peer: u32) -> io::Result<()> {
        self.message("signal to all", peer, &Message::signal_to_all())
    }
}
