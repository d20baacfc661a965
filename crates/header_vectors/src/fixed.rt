// The fixed part of a head: its first 16 bytes, and no more.
use crate::drafts::Draft;
use std::alloc::{AllocError, Global};
use std::io;
use wire::Order;

#[derive(Clone, Copy)]
struct FixedPart {
    kind: u8,
    version: u8,
    body: u32,
    serial: u32,
    array: u32,
}

impl FixedPart {
    fn draft(&self, alloc: Global, order: Order) -> Result<Draft, AllocError> {
        let first = match order {
            Order::Little => b'l',
            Order::Big => b'B',
        };
        let mut draft = Draft::new(alloc, order);
        draft.push(&[first, self.kind, 0, self.version])?;
        for number in [self.body, self.serial, self.array] {
            draft.push_number(number)?;
        }
        Ok(draft)
    }
}

// A call with no fields and no body.
const CALL: FixedPart = FixedPart {
    kind: header::CALL,
    version: 1,
    body: 0,
    serial: 1,
    array: 0,
};

static CASES: [(&str, FixedPart); 14] = [
    ("serial 1, no fields, type 5", FixedPart { kind: 5, ..CALL }),
    ("version 0", FixedPart { version: 0, ..CALL }),
    (
        "version 2, type 0",
        FixedPart {
            version: 2,
            kind: 0,
            ..CALL
        },
    ),
    (
        "type 0, serial 0",
        FixedPart {
            kind: 0,
            serial: 0,
            ..CALL
        },
    ),
    (
        "serial 0, array 2033",
        FixedPart {
            serial: 0,
            array: 2033,
            ..CALL
        },
    ),
    (
        "serial 4294967295, type 255",
        FixedPart {
            serial: 4294967295,
            kind: 255,
            ..CALL
        },
    ),
    (
        "array 2032",
        FixedPart {
            array: 2032,
            ..CALL
        },
    ),
    (
        "array 2033",
        FixedPart {
            array: 2033,
            ..CALL
        },
    ),
    (
        "array 4294967295",
        FixedPart {
            array: 4294967295,
            ..CALL
        },
    ),
    (
        "array 0, body 134217712, type 5",
        FixedPart {
            array: 0,
            body: 134217712,
            kind: 5,
            ..CALL
        },
    ),
    (
        "array 0, body 134217713, type 5",
        FixedPart {
            array: 0,
            body: 134217713,
            kind: 5,
            ..CALL
        },
    ),
    (
        "array 2025, body 134215680",
        FixedPart {
            array: 2025,
            body: 134215680,
            ..CALL
        },
    ),
    (
        "array 2025, body 134215681",
        FixedPart {
            array: 2025,
            body: 134215681,
            ..CALL
        },
    ),
    (
        "body 4294967295",
        FixedPart {
            body: 4294967295,
            ..CALL
        },
    ),
];

pub fn run(rt: &(impl Print + AllocGlobal), order: Order) -> io::Result<()> {
    for (what, part) in CASES.iter() {
        let draft = part.draft(rt.alloc(), order)?;
        println!(rt; "{what}: {}", crate::answer(draft.bytes()))?;
    }
    Ok(())
}
