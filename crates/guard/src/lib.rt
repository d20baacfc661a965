// The guard: eight calls on lent memory. No call asks anything of its caller: images, memory, names, pieces and rooms may be any bytes.
#![tactic(auto)]

ghost use Rattle.std.specs.Prelude.{◌≡◌};
ghost use Rattle.memory.specs.Calls.{start_on, connect_on, own_on, release_on, piece_on, batch_on, disconnect_on, tick_on, Did};
ghost use Rattle.places.specs.Places.{places_in, Batched};
ghost use Rattle.guard.specs.Tested.{memory_test, tests_before};

use image::Outcome;
use memory::MEMORY_LENGTH;
use places::PLACE_LENGTH;
use rules::{
    Batch, Connected, Gone, Owned, Taken, Ticked, no_connect, no_gone, no_own, no_piece, no_tick,
};

// Memory that a call goes on with; other memory is answered 51 (rules 8.1 and 10.6).
fn test_memory(memory: &[u8]) -> Result<(), u8>
    ensures { result ≡ memory_test memory.now }
{
    if audit::is_good(memory) {
        Ok(())
    } else {
        Err(51)
    }
}

// The image and the memory that a call goes on with: the image is tested first (rules 5.9 and 8.1).
fn test(image: &[u8], memory: &[u8]) -> Result<(), u8>
    ensures { result ≡ tests_before image.now memory.now }
{
    match image::check(image) {
        Outcome::Good => test_memory(memory),
        Outcome::Bad => Err(50),
    }
}

// Begins anew in memory of the right length (rule 8.2).
pub fn start(memory: &mut [u8]) -> u8
    ensures { Did (start_on memory.old) result memory.new }
{
    if memory.len() != MEMORY_LENGTH {
        return 51;
    }
    memory.fill(0);
    0
}

// A new peer, with its uid and gids: its number and slot (rule 8.3), and who decided (rule 8.10).
pub fn connect(image: &[u8], memory: &mut [u8], uid: u32, gids: &[u32]) -> Connected
    ensures { Did (connect_on image.now memory.old uid gids.now) result memory.new }
{
    match test(image, memory) {
        Ok(()) => peers::connect(image, memory, uid, gids),
        Err(answer) => no_connect(answer),
    }
}

// A peer asks to own a well-known name (rule 8.4); who decided is shown (rule 8.10).
pub fn own(image: &[u8], memory: &mut [u8], peer: u32, name: &[u8]) -> Owned
    ensures { Did (own_on image.now memory.old peer name.now) result memory.new }
{
    match test(image, memory) {
        Ok(()) => owners::own(image, memory, peer, name),
        Err(answer) => no_own(answer),
    }
}

// A peer gives a name up (rule 8.5).
pub fn release(memory: &mut [u8], peer: u32, name: &[u8]) -> u8
    ensures { Did (release_on memory.old peer name.now) result memory.new }
{
    match test_memory(memory) {
        Ok(()) => owners::release(memory, peer, name),
        Err(answer) => answer,
    }
}

// A piece of a peer's stream: at most one message of it is taken and judged (rules 8.6 and 9.2).
pub fn piece(image: &[u8], memory: &mut [u8], peer: u32, bytes: &[u8]) -> Taken
    ensures { Did (piece_on image.now memory.old peer bytes.now) result memory.new }
{
    match test(image, memory) {
        Ok(()) => pieces::piece(image, memory, peer, bytes),
        Err(answer) => no_piece(answer),
    }
}

// A piece of a peer's stream, offered message after message until it or the places of a lent room are used up (rule 9.6).
pub fn batch(image: &[u8], memory: &mut [u8], peer: u32, bytes: &[u8], room: &mut [u8]) -> Batch
    ensures { Batched (batch_on image.now memory.old peer bytes.now (places_in room.old)) room.old result
        memory.new room.new }
{
    if room.len() < PLACE_LENGTH {
        return Batch {
            written: 0,
            taken: 0,
        };
    }
    match test(image, memory) {
        Ok(()) => batches::batch(image, memory, peer, bytes, room),
        Err(answer) => batches::refused(answer, room),
    }
}

// A peer goes: its names and its pending calls, made and awaited, end (rule 8.7).
pub fn disconnect(memory: &mut [u8], peer: u32) -> Gone
    ensures { Did (disconnect_on memory.old peer) result memory.new }
{
    match test_memory(memory) {
        Ok(()) => peers::disconnect(memory, peer),
        Err(answer) => no_gone(answer),
    }
}

// Sets the tick, and ends every pending call that is at least `limit` ticks old (rule 8.12).
pub fn tick(memory: &mut [u8], tick: u64, limit: u64) -> Ticked
    ensures { Did (tick_on memory.old tick limit) result memory.new }
{
    match test_memory(memory) {
        Ok(()) => endings::tick(memory, tick, limit),
        Err(answer) => no_tick(answer),
    }
}
