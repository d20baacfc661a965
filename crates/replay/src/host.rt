// The guard with what it is lent: the image and its memory. The calls and their answers are told to a ledger, where one is kept.
use crate::fault::Fault;
use crate::ledger::Ledger;
use memory::MEMORY_LENGTH;
use rules::{Connected, Gone, Owned, Taken, Ticked};
use std::io::Write;

#[derive(Drop)]
pub struct Host<'a> {
    image: &'a [u8],
    // Its length stands in its type, so that the compiler builds the guard for it.
    memory: &'a mut [u8; MEMORY_LENGTH],
    ledger: Option<&'a mut Ledger>,
}

impl<'a> Host<'a> {
    pub fn new(
        image: &'a [u8],
        memory: &'a mut [u8; MEMORY_LENGTH],
        ledger: Option<&'a mut Ledger>,
    ) -> Host<'a> {
        Host {
            image,
            memory,
            ledger,
        }
    }

    pub fn start(&mut self) -> u8 {
        let answer = guard::start(self.memory);
        if let Some(ledger) = &mut self.ledger {
            ledger.started(answer);
        }
        answer
    }

    pub fn connect(&mut self, uid: u32, gids: &[u32]) -> Connected {
        let report = guard::connect(self.image, self.memory, uid, gids);
        if let Some(ledger) = &mut self.ledger {
            ledger.connected(report);
        }
        report
    }

    pub fn own(&mut self, peer: u32, name: &[u8]) -> Owned {
        guard::own(self.image, self.memory, peer, name)
    }

    pub fn release(&mut self, peer: u32, name: &[u8]) -> u8 {
        guard::release(self.memory, peer, name)
    }

    pub fn piece(&mut self, peer: u32, bytes: &[u8]) -> Taken {
        let part = guard::piece(self.image, self.memory, peer, bytes);
        if let Some(ledger) = &mut self.ledger {
            ledger.offered(peer, bytes, part);
        }
        part
    }

    pub fn disconnect(&mut self, peer: u32) -> Gone {
        let report = guard::disconnect(self.memory, peer);
        if let Some(ledger) = &mut self.ledger {
            ledger.disconnected(peer, report.answer);
        }
        report
    }

    pub fn tick(&mut self, tick: u64, limit: u64) -> Ticked {
        let report = guard::tick(self.memory, tick, limit);
        if let Some(ledger) = &mut self.ledger {
            ledger.ticked(tick, limit, report);
        }
        report
    }

    // What the ledger has, where one is kept.
    pub fn show_waits(&self, out: &mut impl Write) -> Result<(), Fault> {
        if let Some(ledger) = &self.ledger {
            ledger.show(self.memory, out)?;
        }
        Ok(())
    }
}
