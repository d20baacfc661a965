// A batch: a piece offered to a peer's stream call after call, each report in its place of a lent room, on good memory and under a good image.
#![tactic(auto)]

ghost use Rattle.std.specs.Prelude.{◌≤◌, length};
ghost use Rattle.image.specs.Promises.{GoodImage};
ghost use Rattle.rules.specs.Series.{series};
ghost use Rattle.memory.specs.Encoding.{state_of};
ghost use Rattle.memory.specs.Sound.{Held};
ghost use Rattle.memory.specs.Calls.{stored};
ghost use Rattle.places.specs.Places.{place_length, places_in, Batched};
ghost use Rattle.batches.specs.Steps.{pieces, Stepped, Refused};

use places::{PLACE_LENGTH, Report};
use rules::{Batch, Taken, no_piece};

// One call of a batch, with its report in the first place of the room.
fn step(image: &[u8], memory: &mut [u8], peer: u32, bytes: &[u8], room: &mut [u8]) -> Taken
    requires { (GoodImage image.now) × (Held memory.old) × (place_length ≤ length room.old) }
    ensures { Stepped image.now peer memory.old bytes.now room.old result memory.new room.new }
{
    let taken = pieces::piece(image, memory, peer, bytes);
    places::put(room, Report::from(taken));
    taken
}

// Offers the piece as long as there are places: image and memory were tested before, once for all calls.
pub fn batch(image: &[u8], memory: &mut [u8], peer: u32, bytes: &[u8], room: &mut [u8]) -> Batch
    requires { (GoodImage image.now) × (Held memory.old) }
    ensures { Batched (stored (series (pieces image.now peer) (places_in room.old) (state_of memory.old) bytes.now))
        room.old result memory.new room.new }
{
    let limit = room.len() / PLACE_LENGTH;
    let mut rest = bytes;
    for written in 0..limit {
        let at = PLACE_LENGTH * written;
        let t = step(image, memory, peer, rest, &mut room[at..]);
        let is_on = rules::goes_on(t.judgement.answer, t.taken, rest.len());
        rest = &rest[t.taken..];
        if !is_on {
            return Batch {
                written: written + 1,
                taken: bytes.len() - rest.len(),
            };
        }
    }
    Batch {
        written: limit,
        taken: bytes.len() - rest.len(),
    }
}

// A refusal of the first call, which ends the batch.
pub fn refused(answer: u8, room: &mut [u8]) -> Batch
    requires { place_length ≤ length room.old }
    ensures { Refused answer room.old result room.new }
{
    places::put(room, Report::from(no_piece(answer)));
    Batch {
        written: 1,
        taken: 0,
    }
}
