// Cutting a byte stream into messages: the counters of a peer's unfinished message, whose head is kept in lent memory.
#![tactic(auto)]

ghost use Rattle.std.specs.Prelude.{◌≡◌, ◌≤◌, length};
ghost use Rattle.header.specs.Fixed.{message_limit};
ghost use Rattle.stream.specs.Tail.{good_tail, closed};
ghost use Rattle.stream.specs.Promises.{tail_in, GoodTail, Open, Advanced};
ghost use Rattle.stream.specs.Steps.{WholeTail, Resumed, Room, Stored, Begun, InHead, InBody, AtEnd, all_taken};

use header::{FIXED_LENGTH, Fault, Header, Unread};

// Bytes taken of the unfinished message, and how many of them are its head's.
#[derive(Clone, Copy)]
pub struct Stream {
    pub taken: usize,
    pub stored: usize,
}

// What a piece comes to: its message is unfinished, its head is broken by that fault, or it is whole.
#[derive(Clone, Copy)]
pub enum Event {
    More,
    Broken(Fault),
    Whole(Header),
}

// The stream with the bytes taken of a piece, before a whole message is consumed; how many they are; and what they come to.
#[derive(Clone, Copy)]
pub struct Advance {
    pub stream: Stream,
    pub taken: usize,
    pub event: Event,
}

// Stores bytes of the piece from `used` on behind the first `stored` bytes of the head, up to `limit`: how many.
fn store(head: &mut [u8], stored: usize, limit: usize, piece: &[u8], used: usize) -> usize
    requires { Room head.old stored limit piece.now used }
    ensures { Stored head.old stored limit piece.now used result head.new }
{
    let k = (limit - stored).min(piece.len() - used);
    let to = stored + k;
    let end = used + k;
    wire::copy(&mut head[stored..to], &piece[used..end]);
    k
}

impl Stream {
    // Takes the piece's bytes up to and including the first that breaks the head or ends the message.
    pub fn advance(self, head: &mut [u8], piece: &[u8]) -> Advance
        requires { Open head.old self }
        ensures { Advanced head.old self piece.now result head.new }
    {
        let stored = self.stored;
        if FIXED_LENGTH <= stored {
            return self.after_fixed(head, piece, 0);
        }
        let used = store(head, stored, FIXED_LENGTH, piece, 0);
        let next = Stream {
            taken: self.taken + used,
            stored: stored + used,
        };
        if stored + used < FIXED_LENGTH {
            return Advance {
                stream: next,
                taken: used,
                event: Event::More,
            };
        }
        next.after_fixed(head, piece, used)
    }

    // The fixed part has come: 1 to 6, or where the head and the message end.
    fn after_fixed(self, head: &mut [u8], piece: &[u8], used: usize) -> Advance
        requires { Begun head.old self piece.now used }
        ensures { Resumed head.old self piece.now used result head.new }
    {
        let stored = self.stored;
        match reader::fixed_part(&head[0..stored]) {
            Err(fault) => Advance {
                stream: self,
                taken: used,
                event: Event::Broken(fault),
            },
            Ok(sizes) => self.in_head(head, piece, used, sizes.head, sizes.message),
        }
    }

    // Stores the rest of the head. In the body the head is whole, and was read when it became so.
    fn in_head(
        self,
        head: &mut [u8],
        piece: &[u8],
        used: usize,
        end: usize,
        message: usize,
    ) -> Advance
        requires { InHead head.old self piece.now used end message }
        ensures { Resumed head.old self piece.now used result head.new }
    {
        let taken = self.taken;
        if end < taken {
            return self.in_body(head, piece, used, end, message);
        }
        let stored = self.stored;
        let k = store(head, stored, end, piece, used);
        let next = Stream {
            taken: taken + k,
            stored: stored + k,
        };
        if stored + k < end {
            return Advance {
                stream: next,
                taken: used + k,
                event: Event::More,
            };
        }
        next.after_head(head, piece, used + k, end, message)
    }

    // Counts bytes of the body, and reads the head again only at the message's last byte.
    fn in_body(self, head: &[u8], piece: &[u8], used: usize, end: usize, message: usize) -> Advance
        requires { InBody head.now self piece.now used end message }
        ensures { Resumed head.now self piece.now used result head.now }
    {
        let got = self.taken + (piece.len() - used);
        if got < message {
            return self.take_all(piece, used, end);
        }
        self.after_head(head, piece, used, end, message)
    }

    // The head is whole: 7 to 9, or the body is counted up to the message's end.
    fn after_head(
        self,
        head: &[u8],
        piece: &[u8],
        used: usize,
        end: usize,
        message: usize,
    ) -> Advance
        requires { AtEnd head.now self piece.now used end message }
        ensures { Resumed head.now self piece.now used result head.now }
    {
        match reader::read(&head[0..end]) {
            Err(Unread::Broken(fault)) => Advance {
                stream: self,
                taken: used,
                event: Event::Broken(fault),
            },
            Ok(x) => {
                let got = self.taken + (piece.len() - used);
                if message <= got {
                    return Advance {
                        stream: Stream {
                            taken: message,
                            stored: end,
                        },
                        taken: used + (message - self.taken),
                        event: Event::Whole(x),
                    };
                }
                self.take_all(piece, used, end)
            }
            // Never: all of the head is there.
            Err(Unread::Short) => self.take_all(piece, used, end),
        }
    }

    // All that is left of the piece is of the body, which it does not end.
    fn take_all(self, piece: &[u8], used: usize, end: usize) -> Advance
        requires { (used ≤ length piece.now) × (self.taken ≤ message_limit) }
        ensures { result ≡ all_taken self piece.now used end }
    {
        Advance {
            stream: Stream {
                taken: self.taken + (piece.len() - used),
                stored: end,
            },
            taken: piece.len(),
            event: Event::More,
        }
    }

    // A stream in memory is good: unfinished and not broken, or broken at its last byte. The array of fields is read only where the head is whole.
    pub fn is_good(self, head: &[u8]) -> bool
        requires { self.stored ≤ length head.now }
        ensures { result ≡ good_tail (tail_in head.now self) }
    {
        let stored = self.stored;
        if stored < FIXED_LENGTH {
            return self.taken == stored;
        }
        match reader::fixed_part(&head[0..stored]) {
            Err(_) => (self.taken == FIXED_LENGTH) & (stored == FIXED_LENGTH),
            Ok(sizes) => {
                let end = sizes.head;
                if stored < end {
                    return self.taken == stored;
                }
                if end < stored {
                    return false;
                }
                if self.taken < end {
                    return false;
                }
                self.is_good_whole(head, sizes.message)
            }
        }
    }

    // The head is whole and just it is kept: broken at its last byte, or the body is unfinished.
    fn is_good_whole(self, head: &[u8], message: usize) -> bool
        requires { WholeTail head.now self message }
        ensures { result ≡ good_tail (tail_in head.now self) }
    {
        let stored = self.stored;
        match reader::read(&head[0..stored]) {
            // Never: all of the head is there.
            Err(Unread::Short) => false,
            Err(Unread::Broken(_)) => self.taken == stored,
            Ok(_) => self.taken < message,
        }
    }

    // A good stream is closed: its head is broken. In the body it is not, and the head is not read again.
    pub fn is_closed(self, head: &[u8]) -> bool
        requires { GoodTail head.now self }
        ensures { result ≡ closed (tail_in head.now self) }
    {
        let stored = self.stored;
        if stored < FIXED_LENGTH {
            return false;
        }
        if stored < self.taken {
            return false;
        }
        match reader::read(&head[0..stored]) {
            Err(Unread::Short) => false,
            Err(Unread::Broken(_)) => true,
            Ok(_) => false,
        }
    }
}
