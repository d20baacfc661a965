// Unknown fields by their codes and by the signatures of their variants.
use super::Case;
use super::Part::{Bytes, Field, Number, Zeros};

pub static CODES: [Case; 11] = [
    ("10, u 7", &[Field(10, "u"), Number(7)]),
    ("255, u 7", &[Field(255, "u"), Number(7)]),
    ("9, u 7", &[Field(9, "u"), Number(7)]),
    ("0, u 7", &[Field(0, "u"), Number(7)]),
    (
        "10 twice",
        &[Field(10, "y"), Bytes(b"a"), Field(10, "y"), Bytes(b"b")],
    ),
    (
        "9 twice",
        &[Field(9, "u"), Bytes(b"abcd"), Field(9, "u"), Bytes(b"abcd")],
    ),
    (
        "10, then 9",
        &[Field(10, "y"), Bytes(b"a"), Field(9, "u"), Bytes(b"abcd")],
    ),
    (
        "10, padding 1, then 9",
        &[
            Field(10, "y"),
            Bytes(b"a\0\0\x01"),
            Field(9, "u"),
            Bytes(b"abcd"),
        ],
    ),
    (
        "10, the array ends in padding",
        &[Field(10, "y"), Bytes(b"a\0")],
    ),
    ("10, u cut by the array", &[Field(10, "u"), Zeros(3)]),
    ("10 and nothing more", &[Bytes(b"\x0a")]),
];

pub static SIGNATURES: [Case; 8] = [
    ("10, empty signature", &[Field(10, ""), Zeros(5)]),
    (
        "10, signature uu",
        &[Field(10, "uu"), Zeros(3), Bytes(b"abcdabcd")],
    ),
    ("10, signature z", &[Field(10, "z"), Zeros(4)]),
    ("10, signature a", &[Field(10, "a"), Zeros(4)]),
    ("10, signature ()", &[Field(10, "()"), Zeros(3)]),
    ("10, signature {sv}", &[Field(10, "{sv}"), Zeros(1)]),
    ("10, 1 behind the signature", &[Bytes(b"\x0a\x01u\x01abcd")]),
    ("10, signature past the array", &[Bytes(b"\x0a\xffu\0abcd")]),
];
