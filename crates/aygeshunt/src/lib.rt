// The guard for C: its calls on numbers and byte slices, each with its report in a place of the room behind its arguments. What is returned is the count of
// places that were written: without a whole place no call tests or changes anything (rule 8.11). Beside them stands the converter of stored images.
#![tactic(auto)]

ghost use Rattle.std.specs.Prelude.{◌≡◌};
ghost use Rattle.rules.specs.Places.{plain_words, connected_words, owned_words, taken_words, gone_words, ticked_words};
ghost use Rattle.memory.specs.Layout.{memory_length};
ghost use Rattle.memory.specs.Calls.{start_on, connect_on, own_on, release_on, piece_on, batch_on, disconnect_on, tick_on, on_place};
ghost use Rattle.places.specs.Places.{places_in, Wrote, Batched};
ghost use Rattle.retire.specs.Promises.{Retires};

use memory::MEMORY_LENGTH;
use places::{PLACE_LENGTH, Report};

// The length of memory that a host lends (rule 10.1).
#[unsafe(no_mangle)]
pub extern "C" fn aygeshunt_memory_length() -> usize
    ensures { result ≡ memory_length }
{
    MEMORY_LENGTH
}

// Begins anew (rule 8.2). Each call about one place tests it itself: one function for all of them would take the call as a closure, whose contract would have to be
// written out beside the same contract of the C function, and that is no plainer.
#[unsafe(no_mangle)]
pub extern "C" fn aygeshunt_start(memory: &mut [u8], place: &mut [u8]) -> usize
    ensures { Wrote plain_words
        (on_place (places_in place.old) memory.old (start_on memory.old))
        place.old result memory.new place.new }
{
    if place.len() < PLACE_LENGTH {
        return 0;
    }
    places::put(place, Report::plain(guard::start(memory)));
    1
}

// A new peer: its number and slot (rule 8.3).
#[unsafe(no_mangle)]
pub extern "C" fn aygeshunt_connect(
    image: &[u8],
    memory: &mut [u8],
    uid: u32,
    gids: &[u32],
    place: &mut [u8],
) -> usize
    ensures { Wrote connected_words
        (on_place (places_in place.old) memory.old (connect_on image.now memory.old uid gids.now))
        place.old result memory.new place.new }
{
    if place.len() < PLACE_LENGTH {
        return 0;
    }
    places::put(
        place,
        Report::from(guard::connect(image, memory, uid, gids)),
    );
    1
}

// A peer asks to own a name (rule 8.4).
#[unsafe(no_mangle)]
pub extern "C" fn aygeshunt_own(
    image: &[u8],
    memory: &mut [u8],
    peer: u32,
    name: &[u8],
    place: &mut [u8],
) -> usize
    ensures { Wrote owned_words
        (on_place (places_in place.old) memory.old (own_on image.now memory.old peer name.now))
        place.old result memory.new place.new }
{
    if place.len() < PLACE_LENGTH {
        return 0;
    }
    places::put(place, Report::from(guard::own(image, memory, peer, name)));
    1
}

// A peer gives a name up (rule 8.5).
#[unsafe(no_mangle)]
pub extern "C" fn aygeshunt_release(
    memory: &mut [u8],
    peer: u32,
    name: &[u8],
    place: &mut [u8],
) -> usize
    ensures { Wrote plain_words
        (on_place (places_in place.old) memory.old (release_on memory.old peer name.now))
        place.old result memory.new place.new }
{
    if place.len() < PLACE_LENGTH {
        return 0;
    }
    places::put(place, Report::plain(guard::release(memory, peer, name)));
    1
}

// A piece of a peer's stream: at most one message of it (rules 8.6 and 9.2).
#[unsafe(no_mangle)]
pub extern "C" fn aygeshunt_piece(
    image: &[u8],
    memory: &mut [u8],
    peer: u32,
    bytes: &[u8],
    place: &mut [u8],
) -> usize
    ensures { Wrote taken_words
        (on_place (places_in place.old) memory.old (piece_on image.now memory.old peer bytes.now))
        place.old result memory.new place.new }
{
    if place.len() < PLACE_LENGTH {
        return 0;
    }
    places::put(
        place,
        Report::from(guard::piece(image, memory, peer, bytes)),
    );
    1
}

// A piece of a peer's stream, offered until it or the places are used up (rule 9.6); `taken` is told how many bytes were taken in all.
#[unsafe(no_mangle)]
pub extern "C" fn aygeshunt_batch(
    image: &[u8],
    memory: &mut [u8],
    peer: u32,
    bytes: &[u8],
    places: &mut [u8],
    taken: &mut usize,
) -> usize
    ensures { Batched (batch_on image.now memory.old peer bytes.now (places_in places.old)) places.old
        (record { written = result; taken = taken.new }) memory.new places.new }
{
    let batch = guard::batch(image, memory, peer, bytes, places);
    *taken = batch.taken;
    batch.written
}

// A peer goes (rule 8.7).
#[unsafe(no_mangle)]
pub extern "C" fn aygeshunt_disconnect(memory: &mut [u8], peer: u32, place: &mut [u8]) -> usize
    ensures { Wrote gone_words
        (on_place (places_in place.old) memory.old (disconnect_on memory.old peer))
        place.old result memory.new place.new }
{
    if place.len() < PLACE_LENGTH {
        return 0;
    }
    places::put(place, Report::from(guard::disconnect(memory, peer)));
    1
}

// Sets the tick, and ends the pending calls that are old enough (rule 8.12).
#[unsafe(no_mangle)]
pub extern "C" fn aygeshunt_tick(
    memory: &mut [u8],
    tick: u64,
    limit: u64,
    place: &mut [u8],
) -> usize
    ensures { Wrote ticked_words
        (on_place (places_in place.old) memory.old (tick_on memory.old tick limit))
        place.old result memory.new place.new }
{
    if place.len() < PLACE_LENGTH {
        return 0;
    }
    places::put(place, Report::from(guard::tick(memory, tick, limit)));
    1
}

// Makes an image without prefixes of a stored one, for the names of a list (rule 14.1); `length` is told how long it is, 0 where it is refused.
#[unsafe(no_mangle)]
pub extern "C" fn aygeshunt_retire(
    image: &[u8],
    names: &[u8],
    room: &mut [u8],
    length: &mut usize,
) -> u8
    ensures { Retires image.now names.now room.old (record { answer = result; length = length.new }) room.new }
{
    let retired = retire::retire(image, names, room);
    *length = retired.length;
    retired.answer
}
