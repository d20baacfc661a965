// The cases, by the part of the image that they are about.
use crate::images::Image::{self, Byte, Cut, Long, Text, Word, Zeros};

// What a line says, and the image that it is about.
pub type Case = (&'static str, Image);

pub static HEADER: [Case; 11] = [
    ("no bytes", Cut(0)),
    ("31 bytes", Cut(31)),
    ("32 bytes", Zeros([0, 0, 0], 32, None)),
    ("33 bytes", Zeros([0, 0, 0], 33, None)),
    ("65,536 bytes", Zeros([0, 0, 0], 65536, None)),
    ("65,537 bytes", Zeros([0, 0, 0], 65537, None)),
    ("cut inside the strings", Cut(102)),
    ("cut inside the rules", Cut(95)),
    ("total one too small", Word(0, 102)),
    ("total one too large", Word(0, 104)),
    ("total with a high bit", Word(0, 2147483751)),
];

pub static COUNTS: [Case; 12] = [
    (
        "256 connect, 256 own, 512 transaction rules",
        Zeros([256, 256, 512], 26656, None),
    ),
    ("257 connect rules", Zeros([257, 0, 0], 2088, None)),
    ("257 own rules", Zeros([0, 257, 0], 4144, None)),
    ("513 transaction rules", Zeros([0, 0, 513], 20552, None)),
    ("rules end at the total", Zeros([1, 1, 1], 96, None)),
    ("rules end behind the total", Zeros([1, 1, 1], 95, None)),
    (
        "breach in the first connect rule of 256",
        Zeros([256, 256, 512], 26656, Some((33, 2))),
    ),
    (
        "breach in the last connect rule of 256",
        Zeros([256, 256, 512], 26656, Some((2073, 2))),
    ),
    (
        "breach in the first own rule of 256",
        Zeros([256, 256, 512], 26656, Some((2081, 2))),
    ),
    (
        "breach in the last own rule of 256",
        Zeros([256, 256, 512], 26656, Some((6161, 2))),
    ),
    (
        "breach in the first transaction rule of 512",
        Zeros([256, 256, 512], 26656, Some((6177, 2))),
    ),
    (
        "breach in the last transaction rule of 512",
        Zeros([256, 256, 512], 26656, Some((26617, 2))),
    ),
];

pub static SECTIONS: [Case; 15] = [
    ("one rule of each kind", Byte(0, 103)),
    ("connect section at 31", Word(8, 31)),
    ("connect section at 33", Word(8, 33)),
    ("own section overlaps", Word(16, 39)),
    ("gap before the own section", Word(16, 41)),
    ("transaction section overlaps", Word(24, 55)),
    ("gap before the transaction section", Word(24, 57)),
    ("strings overlap", Word(28, 95)),
    ("gap before the strings", Word(28, 97)),
    ("one connect rule less", Word(4, 0)),
    ("one own rule less", Word(12, 0)),
    ("one transaction rule less", Word(20, 0)),
    ("connect count that wraps", Word(4, 536870913)),
    ("own count that wraps", Word(12, 268435457)),
    ("transaction count past the image", Word(20, 4294967295)),
];

pub static CONNECT: [Case; 15] = [
    ("connect context 1", Byte(32, 1)),
    ("connect context 2", Byte(32, 2)),
    ("connect context 3", Byte(32, 3)),
    ("connect context 4", Byte(32, 4)),
    ("connect verdict 0", Byte(33, 0)),
    ("connect verdict 2", Byte(33, 2)),
    ("connect matcher any with an id", Byte(34, 0)),
    ("connect matcher 2", Byte(34, 2)),
    ("connect matcher 3", Byte(34, 3)),
    ("connect zero is 1", Byte(35, 1)),
    ("connect uid 0", Word(36, 0)),
    ("connect uid 4,294,967,295", Word(36, 4294967295)),
    ("connect any with id 0", Zeros([1, 0, 0], 40, Some((32, 3)))),
    (
        "connect any with the lowest byte of an id",
        Zeros([1, 0, 0], 40, Some((36, 1))),
    ),
    (
        "connect any with the highest byte of an id",
        Zeros([1, 0, 0], 40, Some((39, 1))),
    ),
];

pub static OWN: [Case; 21] = [
    ("own context 0 with a subject", Byte(40, 0)),
    ("own context 2", Byte(40, 2)),
    ("own context 3 with a subject", Byte(40, 3)),
    ("own context 4", Byte(40, 4)),
    ("own verdict 2", Byte(41, 2)),
    ("own matcher any with a string", Byte(42, 0)),
    ("own matcher prefix", Byte(42, 2)),
    ("own matcher 3", Byte(42, 3)),
    ("own zero is 1", Byte(43, 1)),
    (
        "own context 3, anything",
        Zeros([0, 1, 0], 48, Some((32, 3))),
    ),
    (
        "own any with an offset",
        Zeros([0, 1, 0], 49, Some((40, 1))),
    ),
    ("own any with a length", Zeros([0, 1, 0], 49, Some((44, 1)))),
    ("own name of length 0", Zeros([0, 1, 0], 48, Some((34, 1)))),
    (
        "own prefix of length 0",
        Zeros([0, 1, 0], 48, Some((34, 2))),
    ),
    ("own name of one element", Text(48, 2, 3)),
    ("own string past the total", Text(48, 2, 6)),
    ("own string behind the total", Text(48, 7, 5)),
    ("own offset that wraps", Text(48, 4294967295, 6)),
    ("own length that wraps", Text(48, 2, 4294967295)),
    ("own offset and length that wrap", Text(48, 4294967291, 12)),
    ("unique name", Byte(98, b':')),
];

pub static TRANSACTION: [Case; 20] = [
    ("transaction context 0 with a subject", Byte(56, 0)),
    ("transaction context 1", Byte(56, 1)),
    ("transaction context 3 with a subject", Byte(56, 3)),
    ("transaction context 4", Byte(56, 4)),
    ("transaction verdict 2", Byte(57, 2)),
    ("transaction direction 0", Byte(58, 0)),
    ("transaction direction 2", Byte(58, 2)),
    ("transaction type 0", Byte(59, 0)),
    ("transaction type 2", Byte(59, 2)),
    ("transaction type 3", Byte(59, 3)),
    ("transaction type 4", Byte(59, 4)),
    ("transaction type 5", Byte(59, 5)),
    ("transaction any name", Text(64, 0, 0)),
    ("transaction any path", Text(72, 0, 0)),
    ("transaction any interface", Text(80, 0, 0)),
    ("transaction any member", Text(88, 0, 0)),
    ("transaction any name with an offset", Text(64, 1, 0)),
    ("transaction any path with an offset", Text(72, 1, 0)),
    ("transaction any interface with an offset", Text(80, 1, 0)),
    ("transaction any member with an offset", Text(88, 1, 0)),
];

pub static STRINGS: [Case; 20] = [
    ("name of one element", Text(64, 2, 3)),
    ("path without a slash", Text(72, 1, 1)),
    ("path that is the root", Text(72, 0, 1)),
    ("interface of one element", Text(80, 2, 3)),
    ("member with a dot", Text(88, 2, 5)),
    ("name past the total", Text(64, 2, 6)),
    ("path past the total", Text(72, 0, 8)),
    ("interface past the total", Text(80, 2, 6)),
    ("member ends at the total", Text(88, 6, 1)),
    ("member past the total", Text(88, 6, 2)),
    ("member behind the total", Text(88, 7, 1)),
    ("path offset that wraps", Text(72, 4294967200, 98)),
    ("member length that wraps", Text(88, 1, 4294967295)),
    ("strings that overlap", Text(88, 2, 3)),
    ("interface with a dash", Byte(99, b'-')),
    ("element that starts with a digit", Byte(102, b'7')),
    ("path of 300 bytes", Long(52, b'/', 300)),
    ("path of 301 bytes behind its area", Long(52, b'/', 301)),
    ("member of 255 bytes", Long(68, b'a', 255)),
    ("member of 256 bytes", Long(68, b'a', 256)),
];
