// The calls of a capture: each is read, asked of the guard and shown.
use crate::call::Call;
use crate::capture::Capture;
use crate::fault::Fault;
use crate::host::Host;
use crate::shown::{ReceiverNumbers, RuleNumbers};
use rules::Judgement;
use std::io::Write;

// Of the gids so many are kept: one more than a peer can have, so that too many stay too many.
const GID_ROOM: usize = 17;

// Of a name so many bytes are kept: one more than a name can have, so that too long stays too long.
const NAME_ROOM: usize = 256;

#[derive(Drop)]
pub struct Session<'a, W: Write> {
    capture: Capture,
    host: Host<'a>,
    out: &'a mut W,
}

// What a whole piece came to.
#[derive(Clone, Copy)]
struct Fed {
    taken: u64,
    judgement: Judgement,
}

impl<'a, W: Write> Session<'a, W> {
    pub fn new(capture: Capture, host: Host<'a>, out: &'a mut W) -> Session<'a, W> {
        Session { capture, host, out }
    }

    // The lines of the calls up to the capture's end, and those behind them. Nothing says that a file ends, so the turns are counted, up to a number that no run uses up.
    pub fn run(&mut self) -> Result<(), Fault> {
        for _ in 0..u64::MAX {
            if self.capture.is_ended()? {
                break;
            }
            self.call()?;
        }
        self.host.show_waits(self.out)
    }

    fn call(&mut self) -> Result<(), Fault> {
        let kind = self.capture.next_u32()?;
        let length = self.capture.next_u32()?;
        match Call::new(kind, length).ok_or(Fault::BadCapture)? {
            Call::Start => self.start(),
            Call::Connect { gids } => self.connect(gids),
            Call::Own { name } => self.own(name),
            Call::Release { name } => self.release(name),
            Call::Piece { bytes } => self.piece(bytes),
            Call::Disconnect => self.disconnect(),
            Call::Tick => self.tick(),
        }
    }

    fn start(&mut self) -> Result<(), Fault> {
        let answer = self.host.start();
        writeln!(self.out, "start {answer}")?;
        Ok(())
    }

    fn connect(&mut self, count: u32) -> Result<(), Fault> {
        let uid = self.capture.next_u32()?;
        let mut room = [0; GID_ROOM];
        let gids = self.capture.words(count, &mut room)?;
        let report = self.host.connect(uid, gids);
        let rule = RuleNumbers(report.rule);
        writeln!(
            self.out,
            "connect {} {} {} {rule}",
            report.answer, report.number, report.slot
        )?;
        Ok(())
    }

    fn own(&mut self, length: u32) -> Result<(), Fault> {
        let peer = self.capture.next_u32()?;
        let mut room = [0; NAME_ROOM];
        let name = self.capture.bytes(length, &mut room)?;
        let report = self.host.own(peer, name);
        writeln!(
            self.out,
            "own {} {}",
            report.answer,
            RuleNumbers(report.rule)
        )?;
        Ok(())
    }

    fn release(&mut self, length: u32) -> Result<(), Fault> {
        let peer = self.capture.next_u32()?;
        let mut room = [0; NAME_ROOM];
        let name = self.capture.bytes(length, &mut room)?;
        let answer = self.host.release(peer, name);
        writeln!(self.out, "release {answer}")?;
        Ok(())
    }

    fn piece(&mut self, length: u32) -> Result<(), Fault> {
        let peer = self.capture.next_u32()?;
        let fed = self.feed(peer, length as usize)?;
        let receiver = ReceiverNumbers(fed.judgement.receiver);
        let rule = RuleNumbers(fed.judgement.rule);
        writeln!(
            self.out,
            "piece {} {} {receiver} {rule}",
            fed.judgement.answer, fed.taken
        )?;
        Ok(())
    }

    // Offers a piece in the parts in which it is read, until one answers other than 10. The answer is that of a single call on the whole piece.
    // What is left of it is read past.
    fn feed(&mut self, peer: u32, length: usize) -> Result<Fed, Fault> {
        let mut left = length;
        let mut taken: u64 = 0;
        loop {
            let bytes = self.capture.part(left)?;
            let count = bytes.len();
            let part = self.host.piece(peer, bytes);
            self.capture.consume(count);
            left -= count;
            taken = taken.wrapping_add(part.taken as u64);
            if part.judgement.answer != 10 || left == 0 {
                self.capture.skip(left)?;
                return Ok(Fed {
                    taken,
                    judgement: part.judgement,
                });
            }
        }
    }

    fn disconnect(&mut self) -> Result<(), Fault> {
        let peer = self.capture.next_u32()?;
        let report = self.host.disconnect(peer);
        writeln!(self.out, "disconnect {} {}", report.answer, report.bytes)?;
        Ok(())
    }

    fn tick(&mut self) -> Result<(), Fault> {
        let tick = self.capture.next_u64()?;
        let limit = self.capture.next_u64()?;
        let report = self.host.tick(tick, limit);
        writeln!(self.out, "tick {} {}", report.answer, report.ended)?;
        Ok(())
    }
}
