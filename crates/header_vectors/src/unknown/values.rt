// The values of unknown fields: each type kept, and broken.
use super::Case;
use super::Part::{Bytes, Field, Number, Zeros};

pub static NUMBERS: [Case; 11] = [
    ("10, b 0", &[Field(10, "b"), Number(0)]),
    ("10, b 1", &[Field(10, "b"), Number(1)]),
    ("10, b 2", &[Field(10, "b"), Number(2)]),
    (
        "10, b 1 in the other order",
        &[Field(10, "b"), Number(16777216)],
    ),
    ("10, n", &[Field(10, "n"), Bytes(b"ab")]),
    (
        "10, t behind padding",
        &[Field(10, "t"), Zeros(4), Bytes(b"abcdefgh")],
    ),
    (
        "10, t behind padding 1",
        &[Field(10, "t"), Bytes(b"\0\0\0\x01abcdefgh")],
    ),
    ("10, t without padding", &[Field(10, "t"), Zeros(8)]),
    (
        "10, (ynqiuxtdh)",
        &[
            Field(10, "(ynqiuxtdh)"),
            Zeros(2),
            Bytes(b"a\0abab\0\0abcdabcdabcdefghabcdefghabcdefghabcd"),
        ],
    ),
    (
        "10, v of u 7",
        &[Field(10, "v"), Bytes(b"\x01u\0"), Number(7)],
    ),
    ("10, v of yy", &[Field(10, "v"), Bytes(b"\x02yy\0ab")]),
];

pub static TEXTS: [Case; 20] = [
    (
        "10, s hello",
        &[Field(10, "s"), Number(5), Bytes(b"hello\0")],
    ),
    ("10, s empty", &[Field(10, "s"), Number(0), Bytes(b"\0")]),
    (
        "10, s hello, 1 behind it",
        &[Field(10, "s"), Number(5), Bytes(b"hello\x01")],
    ),
    (
        "10, s, zero past the array",
        &[Field(10, "s"), Number(6), Bytes(b"hello\0")],
    ),
    (
        "10, s with a zero inside",
        &[Field(10, "s"), Number(5), Bytes(b"he\0lo\0")],
    ),
    (
        "10, s c2 80",
        &[Field(10, "s"), Number(2), Bytes(b"\xc2\x80\0")],
    ),
    (
        "10, s c0 80",
        &[Field(10, "s"), Number(2), Bytes(b"\xc0\x80\0")],
    ),
    ("10, s c2", &[Field(10, "s"), Number(1), Bytes(b"\xc2\0")]),
    (
        "10, s e0 a0 80",
        &[Field(10, "s"), Number(3), Bytes(b"\xe0\xa0\x80\0")],
    ),
    (
        "10, s e0 9f bf",
        &[Field(10, "s"), Number(3), Bytes(b"\xe0\x9f\xbf\0")],
    ),
    (
        "10, s ed 9f bf",
        &[Field(10, "s"), Number(3), Bytes(b"\xed\x9f\xbf\0")],
    ),
    (
        "10, s ed a0 80",
        &[Field(10, "s"), Number(3), Bytes(b"\xed\xa0\x80\0")],
    ),
    (
        "10, s ef bf be",
        &[Field(10, "s"), Number(3), Bytes(b"\xef\xbf\xbe\0")],
    ),
    (
        "10, s f4 8f bf bf",
        &[Field(10, "s"), Number(4), Bytes(b"\xf4\x8f\xbf\xbf\0")],
    ),
    (
        "10, s f4 90 80 80",
        &[Field(10, "s"), Number(4), Bytes(b"\xf4\x90\x80\x80\0")],
    ),
    ("10, o /a", &[Field(10, "o"), Number(2), Bytes(b"/a\0")]),
    ("10, o a", &[Field(10, "o"), Number(1), Bytes(b"a\0")]),
    ("10, g ay", &[Field(10, "g"), Bytes(b"\x02ay\0")]),
    ("10, g empty", &[Field(10, "g"), Bytes(b"\0\0")]),
    ("10, g a", &[Field(10, "g"), Bytes(b"\x01a\0")]),
];

pub static ARRAYS: [Case; 13] = [
    ("10, at empty", &[Field(10, "at"), Number(0), Zeros(4)]),
    ("10, at empty, no padding", &[Field(10, "at"), Number(0)]),
    ("10, ay of 2", &[Field(10, "ay"), Number(2), Bytes(b"ab")]),
    (
        "10, ay of 3 with 2",
        &[Field(10, "ay"), Number(3), Bytes(b"ab")],
    ),
    ("10, an of 4", &[Field(10, "an"), Number(4), Bytes(b"abcd")]),
    ("10, an of 3", &[Field(10, "an"), Number(3), Bytes(b"abc")]),
    (
        "10, ag y n",
        &[Field(10, "ag"), Number(6), Bytes(b"\x01y\0\x01n\0")],
    ),
    (
        "10, ag y n, length 5",
        &[Field(10, "ag"), Number(5), Bytes(b"\x01y\0\x01n\0")],
    ),
    (
        "10, as a b",
        &[
            Field(10, "as"),
            Number(14),
            Number(1),
            Bytes(b"a\0"),
            Number(1),
            Bytes(b"b\0"),
        ],
    ),
    (
        "10, as a b, padding 1",
        &[
            Field(10, "as"),
            Number(14),
            Number(1),
            Bytes(b"a\0\0\x01"),
            Number(1),
            Bytes(b"b\0"),
        ],
    ),
    (
        "10, a{sv}",
        &[
            Field(10, "a{sv}"),
            Number(10),
            Zeros(4),
            Number(1),
            Bytes(b"k\0\x01y\0a"),
        ],
    ),
    (
        "10, a{sv}, length 9",
        &[
            Field(10, "a{sv}"),
            Number(9),
            Zeros(4),
            Number(1),
            Bytes(b"k\0\x01y\0a"),
        ],
    ),
    (
        "10, a{vs} empty",
        &[Field(10, "a{vs}"), Number(0), Zeros(4)],
    ),
];
