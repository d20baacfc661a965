// What passed, by peer. It is told from the calls, the messages and the guard's answers alone, so that the waits in the guard's memory can be held against it.
ghost use Rattle.std.specs.Prelude.{◌<◌};

use crate::peer::{OpenCall, Peer};
use header::{CALL, ERROR, Header, RETURN, Unread};
use memory::{MEMORY_LENGTH, PENDING_AT, SLOT_LENGTH, SLOTS_AT};
use rules::{Connected, Receiver, Taken, Ticked};
use std::io;
use std::io::Write;
use wire::Order;

#[derive(Drop)]
pub struct Ledger {
    last_tick: u64,
    // By slot.
    peers: [Peer; 16],
}

impl Ledger {
    pub fn new() -> Ledger {
        Ledger {
            last_tick: 0,
            peers: [Peer::nobody(); 16],
        }
    }

    // The connected peer with this number.
    fn peer(&mut self, number: u32) -> Option<&mut Peer> {
        self.peers
            .iter_mut()
            .find(|peer| peer.number == Some(number))
    }

    // A start: nobody is connected, and the tick is 0.
    pub fn started(&mut self, answer: u8) {
        if answer == 0 {
            self.last_tick = 0;
            for peer in &mut self.peers {
                peer.begin(None);
            }
        }
    }

    // A connect: who is let in begins at zero.
    pub fn connected(&mut self, report: Connected) {
        if report.answer == 0 {
            if let Some(peer) = self.peers.get_mut(report.slot) {
                peer.begin(Some(report.number));
            }
        }
    }

    // A disconnect: the calls that are open to the peer that leaves end.
    pub fn disconnected(&mut self, number: u32, answer: u8) {
        if answer == 0 {
            if let Some(peer) = self.peer(number) {
                peer.begin(None);
            }
            self.end_calls(|call| call.callee == number);
        }
    }

    // A tick: the calls that are old enough end.
    pub fn ticked(&mut self, tick: u64, limit: u64, report: Ticked) {
        if report.answer == 0 {
            self.last_tick = tick;
            self.end_calls(|call| limit <= tick.saturating_sub(call.tick));
        }
    }

    // Such calls of every peer end.
    fn end_calls<F: Fn(&OpenCall) -> bool>(&mut self, ends: F)
        requires { F.IsAlwaysCallable ends }
    {
        for peer in &mut self.peers {
            peer.end_calls(&ends);
        }
    }

    // A part of a peer's stream was offered. What was taken of it belongs to one message, which passed (0), was refused as a whole (20 to 26) or goes on (10).
    // After any other answer it goes no further.
    pub fn offered(&mut self, number: u32, bytes: &[u8], part: Taken) {
        let Some(peer) = self.peer(number) else {
            return;
        };
        peer.take(&bytes[..part.taken.min(bytes.len())]);
        match (part.judgement.answer, part.judgement.receiver) {
            (0, Receiver::Peer(receiver)) => {
                let message = peer.message();
                peer.end_message();
                self.passed(number, receiver, message);
            }
            (0 | 20..=26, _) => peer.end_message(),
            _ => {}
        }
    }

    // A message passed from a peer to another, or to itself. These count: a call without the flag NO_REPLY_EXPECTED, the lowest bit; a return and an error, for the
    // caller, who receives it.
    fn passed(&mut self, sender: u32, receiver: u32, message: Result<Header, Unread>) {
        let Ok(header) = message else {
            return;
        };
        match header.kind {
            CALL if header.flags % 2 == 0 => {
                let call = OpenCall {
                    callee: receiver,
                    serial: header.serial,
                    tick: self.last_tick,
                };
                if let Some(caller) = self.peer(sender) {
                    caller.admit(call);
                }
            }
            RETURN | ERROR => {
                if let Some(caller) = self.peer(receiver) {
                    caller.reply(sender, header.reply_serial);
                }
            }
            _ => {}
        }
    }

    // A line for each connected peer, in slot order: its number, the count of its waiting calls that the guard's memory has, and what passed.
    pub fn show(&self, memory: &[u8; MEMORY_LENGTH], out: &mut impl Write) -> io::Result<()> {
        for slot in 0..16 {
            let peer = &self.peers[slot];
            if let Some(number) = peer.number {
                let waiting = stored(memory, slot);
                writeln!(
                    out,
                    "waits {number} {waiting} {} {} {}",
                    peer.admitted, peer.replied, peer.otherwise
                )?;
            }
        }
        Ok(())
    }
}

// The count of a slot's waiting calls, as it stands in the guard's memory.
fn stored(memory: &[u8; MEMORY_LENGTH], slot: usize) -> u32
    requires { slot < 16 }
{
    wire::u32_at(
        Order::Little,
        memory,
        SLOTS_AT + SLOT_LENGTH * slot + PENDING_AT,
    )
}
