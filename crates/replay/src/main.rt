// Replays a capture: the file that the argument names holds an image and calls, and each call's answer is a line of standard output.
// All numbers are little-endian u32s but those of a tick, which are u64s: the image's length, the image, then for each call its kind, its length and so many
// bytes. Kinds: 0 start, with nothing; 1 connect, with uid and gids; 2 own and 3 release, with peer and name; 4 piece, with peer and bytes; 5 disconnect, with
// peer; 6 tick, with tick and limit.
// A line has the call's word, the answer and what the call reports. The last line is `bad capture` where the file cannot be read or its layout is broken.
// With `--waits` before the file's name, and where the capture is not broken, a line for each peer that is connected at the end stands behind those of the calls:
// its number, the count of its waiting calls in the guard's memory and, from the calls and answers since it connected, how many of its calls that expect a reply
// passed to a peer, how many of those were replied to, and how many ended otherwise: the callee disconnected, or a tick found them old enough.
#![tactic(auto)]

ghost use Rattle.std.specs.Prelude.{◌≤◌};

mod call;
mod capture;
mod fault;
mod host;
mod ledger;
mod peer;
mod session;
mod shown;

use capture::Capture;
use fault::Fault;
use host::Host;
use ledger::Ledger;
use memory::MEMORY_LENGTH;
use session::Session;
use std::fs::File;
use std::io::{BufWriter, Write};
use std::rt::Files;
use std::{env, io};

// How many bytes of the output are gathered.
const GATHERED: usize = 65536;

// Of an image so many bytes are kept: one more than an image can have, so that too long stays too long.
const IMAGE_ROOM: usize = 65537;

// An image of at most so many bytes gets room for these alone, which is sooner cleared.
const SHORT_IMAGE: usize = 4096;

// The answers of the calls, and what the ledger has behind them, where one is kept.
fn answer(
    capture: Capture,
    image: &[u8],
    memory: &mut [u8; MEMORY_LENGTH],
    ledger: Option<&mut Ledger>,
    out: &mut impl Write,
) -> Result<(), Fault> {
    let host = Host::new(image, memory, ledger);
    Session::new(capture, host, out).run()
}

// Apart, so that a run that keeps no ledger clears no room for one.
fn answer_with_waits(
    capture: Capture,
    image: &[u8],
    memory: &mut [u8; MEMORY_LENGTH],
    out: &mut impl Write,
) -> Result<(), Fault> {
    let mut ledger = Ledger::new();
    answer(capture, image, memory, Some(&mut ledger), out)
}

// The answers to a capture from its image on. Of the image `ROOM` bytes are kept. All the room that the calls can need is there before the first.
fn answer_all<const ROOM: usize>(
    mut capture: Capture,
    length: u32,
    shows_waits: bool,
    out: &mut impl Write,
) -> Result<(), Fault>
    requires { ROOM ≤ 65537 }
{
    let mut image = [0; ROOM];
    let mut memory = [0; MEMORY_LENGTH];
    let image = capture.bytes(length, &mut image)?;
    if shows_waits {
        answer_with_waits(capture, image, &mut memory, out)
    } else {
        answer(capture, image, &mut memory, None, out)
    }
}

// The lines of a capture up to its end or its first fault.
fn replay(
    rt: &(impl Files<File = File> + AllocGlobal),
    path: Option<String>,
    shows_waits: bool,
    out: &mut impl Write,
) -> Result<(), Fault> {
    let path = path.ok_or(Fault::BadCapture)?;
    let file = File::open(rt, path).map_err(|_| Fault::BadCapture)?;
    let mut capture = Capture::new(rt.alloc(), file)?;
    let length = capture.next_u32()?;
    if length as usize <= SHORT_IMAGE {
        answer_all::<SHORT_IMAGE>(capture, length, shows_waits, out)
    } else {
        answer_all::<IMAGE_ROOM>(capture, length, shows_waits, out)
    }
}

// The capture that this argument names.
fn show(
    rt: &(impl Files<File = File> + Print + AllocGlobal),
    path: Option<String>,
    shows_waits: bool,
) -> io::Result<()> {
    let mut out = BufWriter::with_capacity(rt.alloc(), GATHERED, io::writer(rt))?;
    match replay(rt, path, shows_waits, &mut out) {
        Ok(()) => {}
        Err(Fault::BadCapture) => writeln!(out, "bad capture")?,
        Err(Fault::Io(error)) => return Err(error),
    }
    out.flush()
}

fn main(rt: HostRuntime) -> io::Result<()> {
    // An argument that is not text names no file that can be opened here.
    let Ok(mut arguments) = env::args(&rt) else {
        return show(&rt, None, false);
    };
    let _program = arguments.next();
    match arguments.next() {
        Some(first) if first.as_str() == "--waits" => show(&rt, arguments.next(), true),
        path => show(&rt, path, false),
    }
}
