// Heads as they are written.
ghost use Rattle.std.specs.Prelude.{◌<◌};

use header::{ARRAY_WORD, FIXED_LENGTH};
use std::alloc::{AllocError, Global};
use wire::Order;

#[derive(Drop)]
pub struct Draft {
    order: Order,
    bytes: Vec<u8>,
}

impl Draft {
    pub fn new(alloc: Global, order: Order) -> Draft {
        Draft {
            order,
            bytes: Vec::new(alloc),
        }
    }

    // Call C (rule 13.1): path `/` at byte 24, member `M` at byte 40.
    pub fn of_call(alloc: Global, order: Order) -> Result<Draft, AllocError> {
        let call = match order {
            Order::Little => {
                b"l\x01\0\x01\0\0\0\0\x01\0\0\0\x1a\0\0\0\x01\x01o\0\x01\0\0\0/\0\0\0\0\0\0\0\x03\x01s\0\x01\0\0\0M\0\0\0\0\0\0\0"
            }
            Order::Big => {
                b"B\x01\0\x01\0\0\0\0\0\0\0\x01\0\0\0\x1a\x01\x01o\0\0\0\0\x01/\0\0\0\0\0\0\0\x03\x01s\0\0\0\0\x01M\0\0\0\0\0\0\0"
            }
        };
        let bytes = call.to_vec(alloc)?;
        Ok(Draft { order, bytes })
    }

    pub fn bytes(&self) -> &[u8] {
        &self.bytes
    }

    pub fn push(&mut self, bytes: &[u8]) -> Result<(), AllocError> {
        self.bytes.extend_from_slice(bytes)
    }

    pub fn repeat(&mut self, bytes: &[u8], times: usize) -> Result<(), AllocError> {
        for _ in 0..times {
            self.push(bytes)?;
        }
        Ok(())
    }

    // Zeros up to a multiple of this.
    pub fn align(&mut self, to: usize) -> Result<(), AllocError>
        requires { 0 < to }
    {
        let rest = self.bytes.len() % to;
        self.repeat(b"\0", (to - rest) % to)
    }

    // A number at a multiple of 4.
    pub fn push_number(&mut self, number: u32) -> Result<(), AllocError> {
        self.align(4)?;
        self.push(&self.word(number))
    }

    // A field up to its value.
    pub fn push_field(&mut self, code: u8, signature: &str) -> Result<(), AllocError> {
        let len = u8::try_from(signature.len()).unwrap_or(u8::MAX);
        self.align(8)?;
        self.push(&[code, len])?;
        self.push(signature.as_bytes())?;
        self.push(b"\0")
    }

    // The lengths of arrays in one another, each the first thing in the struct that is the other's element; `inside` bytes stand in the innermost.
    pub fn push_arrays(&mut self, levels: u16, inside: u16) -> Result<(), AllocError> {
        for below in (0..levels).rev() {
            self.push_number(8 * u32::from(below) + u32::from(inside))?;
            self.align(8)?;
        }
        Ok(())
    }

    // The byte at `at` is another.
    pub fn set(&mut self, at: usize, byte: u8) {
        if let Some(old) = self.bytes.get_mut(at) {
            *old = byte;
        }
    }

    // The head's array is of this length.
    pub fn set_array_length(&mut self, length: u32) {
        let word = self.word(length);
        for (old, new) in self.bytes.iter_mut().skip(ARRAY_WORD).zip(word) {
            *old = new;
        }
    }

    pub fn truncate(&mut self, len: usize) {
        self.bytes.truncate(len);
    }

    // The array ends here: its length is written, and the padding behind it.
    pub fn end_array(&mut self) -> Result<(), AllocError> {
        let length = self.bytes.len().saturating_sub(FIXED_LENGTH);
        self.set_array_length(u32::try_from(length).unwrap_or(u32::MAX));
        self.align(8)
    }

    fn word(&self, number: u32) -> [u8; 4] {
        match self.order {
            Order::Little => number.to_le_bytes(),
            Order::Big => number.to_be_bytes(),
        }
    }
}
