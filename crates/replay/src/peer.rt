// What passed of one peer since it connected: its present message, its open calls and their counts.
ghost use Rattle.std.specs.Prelude.{◌≤◌, ◌<◌};

use header::{Header, Unread};
use memory::{CALL_ROOM, HEAD_ROOM};

// A call that passed and expects a reply, and has neither been replied to nor ended otherwise.
#[derive(Clone, Copy)]
pub struct OpenCall {
    pub callee: u32,
    pub serial: u32,
    // The last tick when it passed.
    pub tick: u64,
}

#[derive(Clone, Copy)]
pub struct Peer {
    // None where nobody is connected.
    pub number: Option<u32>,
    // The calls that passed and expect a reply, and of those the ones that were replied to and the ones that ended otherwise.
    pub admitted: u64,
    pub replied: u64,
    pub otherwise: u64,
    // So many of these are open, the first. Their order says nothing.
    open: [OpenCall; CALL_ROOM],
    open_count: usize,
    // Of the bytes of the present message those that a head can have: a head is read once its message has passed.
    head: [u8; HEAD_ROOM],
    head_length: usize,
    ghost calls_fit: { open_count ≤ 16 },
    ghost head_fits: { head_length ≤ 2048 },
}

impl Peer {
    pub fn nobody() -> Peer {
        let call = OpenCall {
            callee: 0,
            serial: 0,
            tick: 0,
        };
        Peer {
            number: None,
            admitted: 0,
            replied: 0,
            otherwise: 0,
            open: [call; CALL_ROOM],
            open_count: 0,
            head: [0; HEAD_ROOM],
            head_length: 0,
        }
    }

    // Who is let in begins at zero, and of who leaves nothing is left that counts. Calls and bytes behind those that count may stay.
    pub fn begin(&mut self, number: Option<u32>) {
        self.number = number;
        self.admitted = 0;
        self.replied = 0;
        self.otherwise = 0;
        self.open_count = 0;
        self.head_length = 0;
    }

    // These bytes of the present message were taken.
    pub fn take(&mut self, bytes: &[u8]) {
        let room = &mut self.head[self.head_length..];
        let count = room.len().min(bytes.len());
        room[..count].copy_from_slice(&bytes[..count]);
        self.head_length += count;
    }

    pub fn message(&self) -> Result<Header, Unread> {
        reader::read(&self.head[..self.head_length])
    }

    // The next byte begins another message.
    pub fn end_message(&mut self) {
        self.head_length = 0;
    }

    // A call that expects a reply passed. The guard lets no more wait than there is room for.
    pub fn admit(&mut self, call: OpenCall) {
        self.admitted = self.admitted.wrapping_add(1);
        if self.open_count < CALL_ROOM {
            self.open[self.open_count] = call;
            self.open_count += 1;
        }
    }

    // The callee replied to the call with this serial: the last one takes its place.
    pub fn reply(&mut self, callee: u32, serial: u32) {
        self.replied = self.replied.wrapping_add(1);
        let is_it = |call: &OpenCall| call.callee == callee && call.serial == serial;
        if let Some(i) = self.open[..self.open_count].iter().position(is_it) {
            self.open_count -= 1;
            self.open[i] = self.open[self.open_count];
        }
    }

    // Such calls end otherwise than by a reply. The others move up.
    pub fn end_calls<F: Fn(&OpenCall) -> bool>(&mut self, ends: F)
        requires { F.IsAlwaysCallable ends }
    {
        let mut kept = 0;
        for i in 0..self.open_count {
            let call = self.open[i];
            if ends(&call) {
                self.otherwise = self.otherwise.wrapping_add(1);
            } else {
                self.open[kept] = call;
                kept += 1;
            }
        }
        self.open_count = kept;
    }
}
