// Changes of memory: other bytes in one place.

/// A place, and what it holds instead. A name is its length in a byte, and its text.
#[derive(Clone, Copy)]
pub enum Change {
    Byte(usize, u8),
    Word(usize, u32),
    Long(usize, u64),
    Name(usize, &'static str),
}

use Change::{Byte, Long, Name, Word};

impl Change {
    pub fn apply(self, memory: &mut [u8]) {
        match self {
            Byte(at, x) => write(memory, at, &[x]),
            Word(at, x) => write(memory, at, &x.to_le_bytes()),
            Long(at, x) => write(memory, at, &x.to_le_bytes()),
            Name(at, text) => {
                write(memory, at, &[u8::try_from(text.len()).unwrap_or(u8::MAX)]);
                write(memory, at.saturating_add(1), text.as_bytes());
            }
        }
    }
}

// As many of the bytes as there is room for.
fn write(memory: &mut [u8], at: usize, bytes: &[u8]) {
    if let Some(places) = memory.get_mut(at..) {
        for (place, byte) in places.iter_mut().zip(bytes) {
            *place = *byte;
        }
    }
}
