// A piece offered to a peer's stream, on good memory and under a good image.
#![tactic(auto)]

ghost use Rattle.std.specs.Prelude.{◌≡◌, false, ◌+◌, ◌-◌, ◌≤◌, ◌<◌, length, take, replicate};
ghost use Rattle.stream.specs.Stream.{offer};
ghost use Rattle.stream.specs.Tail.{tails, closed};
ghost use Rattle.slots.specs.Slots.{peer_at, Seated};
ghost use Rattle.pieces.specs.Fed.{stream_in, Opens, Fed, FedAt, cleared, head_in, behind_in, Completed};
ghost use Rattle.image.specs.Promises.{GoodImage};
ghost use Rattle.rules.specs.Calls.{offered_to, piece};
ghost use Rattle.memory.specs.Layout.{memory_length, head_room};
ghost use Rattle.memory.specs.Encoding.{state_of};
ghost use Rattle.memory.specs.Sound.{Held};
ghost use Rattle.memory.specs.Calls.{stored, Did};
ghost use Rattle.judge.specs.Judging.{Judges};

use header::Header;
use memory::{
    BYTE_OFFSET, FIRST_BYTE, HEAD_AT, HEAD_OFFSET, HEAD_ROOM, SLOT_LENGTH, SLOTS_AT, STREAM_LENGTH,
    TAKEN_AT,
};
use rules::{Judgement, Taken, no_piece, refused};
use stream::{Advance, Event, Stream};
use wire::Order;

// The piece is offered to the stream whose bytes are lent: the counts, and the head behind them.
fn feed(bytes: &mut [u8], piece: &[u8]) -> Advance
    requires { Opens bytes.old }
    ensures { Fed (offer tails (stream_in bytes.old) piece.now) result bytes.new }
{
    let s = Stream {
        taken: wire::u32_at(Order::Little, bytes, 0) as usize,
        stored: wire::u32_at(Order::Little, bytes, HEAD_OFFSET) as usize,
    };
    let a = s.advance(&mut bytes[BYTE_OFFSET..STREAM_LENGTH], piece);
    let after = a.stream;
    wire::put_u32(bytes, 0, after.taken as u32);
    wire::put_u32(bytes, HEAD_OFFSET, after.stored as u32);
    a
}

// The piece is offered to the stream of slot i.
fn feed_at(memory: &mut [u8], i: usize, piece: &[u8]) -> Advance
    requires { (Seated memory.old i) × (closed (peer_at memory.old i).stream ≡ false) }
    ensures { FedAt memory.old i (offer tails (peer_at memory.old i).stream piece.now) result memory.new }
{
    let from = SLOTS_AT + SLOT_LENGTH * i + TAKEN_AT;
    let to = from + STREAM_LENGTH;
    feed(&mut memory[from..to], piece)
}

// The stream of slot i is closed.
fn is_closed_at(memory: &[u8], i: usize) -> bool
    requires { Seated memory.now i }
    ensures { result ≡ closed (peer_at memory.now i).stream }
{
    let s = Stream {
        taken: slots::word_at(memory, i, TAKEN_AT) as usize,
        stored: slots::word_at(memory, i, HEAD_AT) as usize,
    };
    let from = SLOTS_AT + SLOT_LENGTH * i + FIRST_BYTE;
    let to = from + HEAD_ROOM;
    s.is_closed(&memory[from..to])
}

// The message of slot i is consumed: no byte of it is kept. Its head has n bytes, and what is behind them is zero.
fn settle_at(memory: &mut [u8], i: usize, n: usize)
    requires { (length memory.old ≡ memory_length) × (i < 16) × (n ≤ head_room) × (behind_in memory.old i n ≡ replicate (head_room - n) 0) }
    ensures { memory.new ≡ cleared memory.old i }
{
    let from = SLOTS_AT + SLOT_LENGTH * i + TAKEN_AT;
    let end = from + (BYTE_OFFSET + n);
    memory[from..end].fill(0);
}

// A copy of the first n bytes of the head that slot i keeps.
fn head_of(memory: &[u8], i: usize, n: usize) -> [u8; HEAD_ROOM]
    requires { (length memory.now ≡ memory_length) × (i < 16) × (n ≤ head_room) }
    ensures { take n result ≡ head_in memory.now i n }
{
    let mut head = [0u8; HEAD_ROOM];
    let from = SLOTS_AT + SLOT_LENGTH * i + FIRST_BYTE;
    let to = from + n;
    wire::copy(&mut head[0..n], &memory[from..to]);
    head
}

// A whole message of slot i is consumed, and judged over what is left.
fn judge_at(image: &[u8], memory: &mut [u8], i: usize, header: Header) -> Judgement
    requires { Completed image.now memory.old i header }
    ensures { Judges image.now (cleared memory.old i) i (head_in memory.old i header.head) header result memory.new }
{
    let n = header.head;
    let head = head_of(memory, i, n);
    settle_at(memory, i, n);
    judge::judge(image, memory, i, &head[0..n], header)
}

// The piece is offered to the open stream of slot i, and a whole message is judged.
fn piece_at(image: &[u8], memory: &mut [u8], i: usize, bytes: &[u8]) -> Taken
    requires { (GoodImage image.now) × (Seated memory.old i) × (closed (peer_at memory.old i).stream ≡ false) }
    ensures { Did (stored
        (offered_to tails image.now (state_of memory.old) i (peer_at memory.old i)
        (offer tails (peer_at memory.old i).stream bytes.now))) result memory.new }
{
    let a = feed_at(memory, i, bytes);
    let taken = a.taken;
    let judgement = match a.event {
        Event::More => refused(10),
        Event::Broken(fault) => refused(fault.number()),
        Event::Whole(header) => judge_at(image, memory, i, header),
    };
    Taken { judgement, taken }
}

// How long a whole message is: its head and its body.
fn length_of(header: Header) -> usize
    requires { header.head ≤ head_room }
    ensures { result ≡ header.head + header.body }
{
    header.head + header.body as usize
}

// The piece is offered to the stream of slot i, which is between two messages: one that is whole in the piece is judged where it stands.
fn fresh_at(image: &[u8], memory: &mut [u8], i: usize, bytes: &[u8]) -> Taken
    requires { (GoodImage image.now) × (Seated memory.old i) × ((peer_at memory.old i).stream.taken ≡ 0) }
    ensures { Did (stored
        (offered_to tails image.now (state_of memory.old) i (peer_at memory.old i)
        (offer tails (peer_at memory.old i).stream bytes.now))) result memory.new }
{
    match reader::read(bytes) {
        Err(_) => piece_at(image, memory, i, bytes),
        Ok(header) => {
            let taken = length_of(header);
            if bytes.len() < taken {
                return piece_at(image, memory, i, bytes);
            }
            let n = header.head;
            Taken {
                judgement: judge::judge(image, memory, i, &bytes[0..n], header),
                taken,
            }
        }
    }
}

// A piece of a peer's stream, on good memory and under a good image.
pub fn piece(image: &[u8], memory: &mut [u8], peer: u32, bytes: &[u8]) -> Taken
    requires { (GoodImage image.now) × (Held memory.old) }
    ensures { Did (stored (piece tails image.now (state_of memory.old) peer bytes.now)) result memory.new }
{
    let Some(i) = slots::find(memory, peer, 0) else {
        return no_piece(30);
    };
    if slots::word_at(memory, i, TAKEN_AT) == 0 {
        return fresh_at(image, memory, i, bytes);
    }
    if is_closed_at(memory, i) {
        return no_piece(40);
    }
    piece_at(image, memory, i, bytes)
}
