// The guard's memory: the calls that make it, and the lines on what is refused once it is changed.
use crate::change::Change;
use memory::MEMORY_LENGTH;
use std::alloc::Global;
use std::io;
use std::ops::Range;

// One default allow of anything for connect, own, send and receive.
const ALLOW: [u8; 136] =
    *b"\x88\0\0\0\x01\0\0\0\x20\0\0\0\x01\0\0\0(\0\0\0\x02\0\0\08\0\0\0\x88\0\0\0\0\x01\0\0\0\0\0\0\0\x01\0\0\0\0\0\0\0\0\0\0\0\0\0\0\0\x01\0\0\0\0\0\0\0\0\0\0\0\0\0\0\0\0\0\0\0\0\0\0\0\0\0\0\0\0\0\0\0\0\0\0\0\0\0\0\0\x01\x01\0\0\0\0\0\0\0\0\0\0\0\0\0\0\0\0\0\0\0\0\0\0\0\0\0\0\0\0\0\0\0\0\0\0\0\0\0";

/// What a call answers where memory is not good.
pub const BAD_MEMORY: u8 = 51;

#[derive(Drop)]
pub struct Bench<'a, R> {
    rt: &'a R,
    pub alloc: Global,
    pub memory: [u8; MEMORY_LENGTH],
}

/// Tick 0 is lower than the last one of most memories here: 51 comes before 41.
pub fn is_tick_refused(memory: &mut [u8]) -> bool {
    let t = guard::tick(memory, 0, 0);
    t.answer == BAD_MEMORY && t.ended == 0
}

/// Each of the six calls that test memory answers 51, and no byte changes.
fn is_refused(memory: &[u8; MEMORY_LENGTH]) -> bool {
    let mut after = *memory;
    let connected = guard::connect(&ALLOW, &mut after, 1, &[]);
    let owned = guard::own(&ALLOW, &mut after, 1, b"x.y");
    let released = guard::release(&mut after, 1, b"a.b");
    let taken = guard::piece(&ALLOW, &mut after, 1, b"l");
    let gone = guard::disconnect(&mut after, 2);
    let judgement = taken.judgement;
    let answers = [
        connected.answer,
        owned.answer,
        released,
        judgement.answer,
        gone.answer,
    ];
    answers.iter().all(|&answer| answer == BAD_MEMORY)
        && is_tick_refused(&mut after)
        && after == *memory
}

impl<'a, R: Print> Bench<'a, R> {
    pub fn new(rt: &'a R, alloc: Global) -> Self {
        Bench {
            rt,
            alloc,
            memory: [255; MEMORY_LENGTH],
        }
    }

    pub fn start(&mut self) {
        guard::start(&mut self.memory);
    }

    pub fn connect(&mut self, gids: &[u32]) {
        guard::connect(&ALLOW, &mut self.memory, 7, gids);
    }

    pub fn own(&mut self, peer: u32, name: &str) {
        guard::own(&ALLOW, &mut self.memory, peer, name.as_bytes());
    }

    pub fn piece(&mut self, peer: u32, bytes: &[u8]) {
        guard::piece(&ALLOW, &mut self.memory, peer, bytes);
    }

    pub fn disconnect(&mut self, peer: u32) {
        guard::disconnect(&mut self.memory, peer);
    }

    /// A tick with the greatest limit, at which no call here is old enough to end.
    pub fn set_tick(&mut self, tick: u64) {
        guard::tick(&mut self.memory, tick, u64::MAX);
    }

    fn is_refused_with(&self, changes: &[Change]) -> bool {
        let mut memory = self.memory;
        for change in changes {
            change.apply(&mut memory);
        }
        is_refused(&memory)
    }

    pub fn line(&self, label: &str, is_refused: bool) -> io::Result<()> {
        if is_refused {
            println!(self.rt; "{label}: {BAD_MEMORY}")
        } else {
            println!(self.rt; "{label}: good")
        }
    }

    /// The memory with these changes, all at once.
    pub fn case(&self, label: &str, changes: &[Change]) -> io::Result<()> {
        self.line(label, self.is_refused_with(changes))
    }

    /// The memory with each of these changes, one at a time.
    pub fn cases(&self, cases: &[(&str, Change)]) -> io::Result<()> {
        for &(label, change) in cases {
            self.case(label, &[change])?;
        }
        Ok(())
    }

    /// How many of these changes, one at a time, are refused.
    pub fn tally(&self, label: &str, changes: &[Change], things: &str) -> io::Result<()> {
        let tried = changes.len();
        let refused = changes
            .iter()
            .filter(|&&change| self.is_refused_with(&[change]))
            .count();
        println!(self.rt; "{label}: {BAD_MEMORY} for {refused} of {tried} {things}")
    }

    /// Each byte of a range is 1, one at a time.
    pub fn sweep(&self, label: &str, places: Range<usize>) -> io::Result<()> {
        let changes: Vec<Change> = places.map(|at| Change::Byte(at, 1)).collect(self.alloc)?;
        self.tally(label, changes.as_slice(), "bytes")
    }
}
