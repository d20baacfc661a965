// Each field of a slot with another value, and each byte behind a list. Places are written as numbers, so that a layout that moves is noticed.
use crate::bench::Bench;
use crate::change::Change;
use crate::change::Change::{Byte, Name, Word};
use std::io;

const KEPT: [(&str, Change); 7] = [
    ("last number 5", Word(0, 5)),
    ("another uid", Word(16, u32::MAX)),
    ("another gid", Word(24, 0)),
    ("another serial", Word(96, u32::MAX)),
    ("a call to itself", Word(92, 1)),
    ("another name", Name(352, "x.y")),
    ("one byte more of a body", Word(11636, 66)),
];

const NUMBERS: [(&str, Change); 10] = [
    ("last number 3", Word(0, 3)),
    ("last number 0", Word(0, 0)),
    ("number 0 in slot 0", Word(12, 0)),
    ("number 0 in slot 1", Word(3432, 0)),
    ("number 0 in slot 3", Word(10272, 0)),
    ("number 5 in slot 0", Word(12, 5)),
    ("number 2 in slot 0", Word(12, 2)),
    ("number 4 in slot 0", Word(12, 4)),
    ("number 4 in slot 1", Word(3432, 4)),
    ("number 1 in slot 3", Word(10272, 1)),
];

const GIDS: [(&str, Change); 3] = [
    ("17 gids", Word(20, 17)),
    ("4,294,967,295 gids", Word(20, u32::MAX)),
    ("a gid behind the count", Word(20, 1)),
];

const PENDING: [(&str, Change); 10] = [
    ("17 pending calls", Word(88, 17)),
    ("4,294,967,295 pending calls", Word(88, u32::MAX)),
    ("a pending call behind the count", Word(88, 1)),
    ("a third pending call of zeros", Word(88, 3)),
    ("callee 0", Word(92, 0)),
    ("callee that is gone", Word(92, 3)),
    ("callee not yet connected", Word(108, 5)),
    ("serial 0", Word(96, 0)),
    ("serial 0 of the last", Word(112, 0)),
    ("the same call twice", Word(108, 2)),
];

const NAMES: [(&str, Change); 13] = [
    ("5 names", Word(348, 5)),
    ("4,294,967,295 names", Word(348, u32::MAX)),
    ("a name behind the count", Word(348, 1)),
    ("a third name of no bytes", Word(348, 3)),
    ("name of one element", Name(352, "axb")),
    ("name with a digit in front", Name(608, "1.d")),
    ("unique name", Name(608, ":.d")),
    ("length one less", Byte(352, 2)),
    ("length one more", Byte(352, 4)),
    ("length 0", Byte(352, 0)),
    ("length 255", Byte(608, 255)),
    ("name twice in a slot", Name(608, "a.b")),
    ("name in two slots", Name(3772, "c.d")),
];

const STREAMS: [(&str, Change); 20] = [
    ("no byte taken, 20 kept", Word(1376, 0)),
    ("19 taken, 20 kept", Word(1376, 19)),
    ("21 taken, 20 kept", Word(1376, 21)),
    ("20 taken, 19 kept", Word(1380, 19)),
    ("20 taken, 21 kept", Word(1380, 21)),
    ("2,049 kept", Word(1380, 2049)),
    ("4,294,967,295 kept", Word(1380, u32::MAX)),
    ("broken at 16, 20 taken", Byte(1384, b'L')),
    ("array of 2,033 bytes, 20 taken", Word(1396, 2033)),
    ("broken at 16, 17 taken", Word(4796, 17)),
    ("broken at 16, 15 taken", Word(4796, 15)),
    ("broken at 16, 15 kept", Word(4800, 15)),
    ("whole message kept", Word(11636, 67)),
    ("more than the message", Word(11636, 68)),
    ("63 bytes of a head of 64", Word(11640, 63)),
    ("65 bytes of a head of 64", Word(11640, 65)),
    ("head of 64 with 63 taken", Word(11636, 63)),
    ("head broken by its version, 65 taken", Byte(11647, 2)),
    ("head broken by its padding, 65 taken", Byte(11707, 1)),
    ("head broken by a name, 65 taken", Byte(11668, b'1')),
];

/// Memory that stays good.
pub fn kept(bench: &Bench<impl Print>) -> io::Result<()> {
    bench.cases(&KEPT)
}

pub fn lists(bench: &Bench<impl Print>) -> io::Result<()> {
    bench.cases(&NUMBERS)?;
    bench.cases(&GIDS)?;
    bench.sweep("behind the gids", 32..88)?;
    bench.cases(&PENDING)?;
    bench.sweep("behind the pending calls", 124..348)
}

pub fn names(bench: &Bench<impl Print>) -> io::Result<()> {
    bench.cases(&NAMES)?;
    bench.sweep("behind the first name", 356..608)?;
    bench.sweep("behind the second name", 612..864)?;
    bench.sweep("behind the last name", 864..1376)?;
    bench.case("the bus's name", &[Name(3772, "org.freedesktop.DBus")])
}

pub fn streams(bench: &Bench<impl Print>) -> io::Result<()> {
    bench.cases(&STREAMS)?;
    bench.sweep("behind 20 bytes", 1404..3432)?;
    bench.sweep("behind a broken head", 4820..6852)?;
    bench.sweep("behind a whole head", 11708..13692)
}

pub fn free_slots(bench: &Bench<impl Print>) -> io::Result<()> {
    bench.sweep("free slot 2", 6852..10272)?;
    bench.sweep("free slot 4", 13692..17112)?;
    bench.sweep("free slot 15", 51312..54732)
}
