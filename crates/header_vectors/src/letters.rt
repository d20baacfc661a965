// Heads with fields of each letter, little-endian and big-endian.
use std::io;

static CASES: [(&str, &[u8]); 6] = [
    (
        "return, reply serial 7",
        b"l\x02\0\x01\0\0\0\0\x01\0\0\0\x08\0\0\0\x05\x01u\0\x07\0\0\0",
    ),
    (
        "return, reply serial 7, big",
        b"B\x02\0\x01\0\0\0\0\0\0\0\x01\0\0\0\x08\x05\x01u\0\0\0\0\x07",
    ),
    (
        "return, reply serial 0",
        b"l\x02\0\x01\0\0\0\0\x01\0\0\0\x08\0\0\0\x05\x01u\0\0\0\0\0",
    ),
    (
        "type 5, signature ai",
        b"l\x05\0\x01\0\0\0\0\x01\0\0\0\x08\0\0\0\x08\x01g\0\x02ai\0",
    ),
    (
        "type 5, signature a",
        b"B\x05\0\x01\0\0\0\0\0\0\0\x01\0\0\0\x07\x08\x01g\0\x01a\0\0",
    ),
    (
        "type 5, empty signature",
        b"B\x05\0\x01\0\0\0\0\0\0\0\x01\0\0\0\x06\x08\x01g\0\0\0\0\0",
    ),
];

pub fn run(rt: &impl Print) -> io::Result<()> {
    for (what, head) in CASES {
        println!(rt; "{what}: {}", crate::answer(head))?;
    }
    Ok(())
}
