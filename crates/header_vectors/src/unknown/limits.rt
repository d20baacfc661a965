// Unknown fields beside other faults, and at the limits of depth and length.
use super::Case;
use super::Part::{Arrays, Bytes, Field, Instead, Number, Repeat, Zeros};

pub static FAULTS: [Case; 4] = [
    (
        "10, b 1, and path a",
        &[Instead(24, b'a'), Field(10, "b"), Number(1)],
    ),
    (
        "10, b 2, and path a",
        &[Instead(24, b'a'), Field(10, "b"), Number(2)],
    ),
    (
        "10, b 1, and 11 for the member",
        &[Instead(32, 11), Field(10, "b"), Number(1)],
    ),
    (
        "10, b 2, and 11 for the member",
        &[Instead(32, 11), Field(10, "b"), Number(2)],
    ),
];

pub static LIMITS: [Case; 12] = [
    (
        "10, 64 variants",
        &[Bytes(b"\x0a"), Repeat(b"\x01v\0", 63), Bytes(b"\x01y\0a")],
    ),
    (
        "10, 65 variants",
        &[Bytes(b"\x0a"), Repeat(b"\x01v\0", 64), Bytes(b"\x01y\0a")],
    ),
    (
        "10, 32 arrays and 31 structs open",
        &[
            Bytes(b"\x0a\x5f"),
            Repeat(b"a(", 31),
            Bytes(b"ay"),
            Repeat(b")", 31),
            Zeros(1),
            Arrays(31, 5),
            Number(1),
            Bytes(b"a"),
        ],
    ),
    (
        "10, 32 arrays and 32 structs open",
        &[
            Bytes(b"\x0a\x61"),
            Repeat(b"a(", 32),
            Bytes(b"y"),
            Repeat(b")", 32),
            Zeros(1),
            Arrays(32, 1),
            Bytes(b"a"),
        ],
    ),
    (
        "10, the last array empty",
        &[
            Bytes(b"\x0a\x61"),
            Repeat(b"a(", 32),
            Bytes(b"y"),
            Repeat(b")", 32),
            Zeros(1),
            Arrays(31, 8),
            Zeros(8),
        ],
    ),
    (
        "10, 32 arrays in the signature",
        &[Bytes(b"\x0a\x21"), Repeat(b"a", 32), Bytes(b"y"), Zeros(5)],
    ),
    (
        "10, 33 arrays in the signature",
        &[Bytes(b"\x0a\x22"), Repeat(b"a", 33), Bytes(b"y"), Zeros(8)],
    ),
    (
        "10, signature of 255 bytes",
        &[
            Bytes(b"\x0a\xff("),
            Repeat(b"y", 253),
            Bytes(b")"),
            Zeros(260),
        ],
    ),
    (
        "10, the same, a byte too few",
        &[
            Bytes(b"\x0a\xff("),
            Repeat(b"y", 253),
            Bytes(b")"),
            Zeros(259),
        ],
    ),
    (
        "10, ay of 1988, an array of 2032",
        &[Field(10, "ay"), Number(1988), Zeros(1988)],
    ),
    (
        "10, ay of 1989, an array of 2033",
        &[Field(10, "ay"), Number(1989), Zeros(1989)],
    ),
    (
        "10, 250 times",
        &[
            Repeat(b"\x0a\x01y\0a\0\0\0", 249),
            Field(10, "u"),
            Bytes(b"abcd"),
        ],
    ),
];
