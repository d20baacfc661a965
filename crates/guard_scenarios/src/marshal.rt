// Values as the bytes of a message.
use crate::message::Field;
use std::alloc::{AllocError, Global};
use wire::Order;

/// Bytes that grow, in one byte order.
#[derive(Drop)]
pub struct Marshal {
    order: Order,
    bytes: Vec<u8>,
}

impl Marshal {
    pub fn new(alloc: Global, order: Order) -> Self {
        let bytes = Vec::new(alloc);
        Marshal { order, bytes }
    }

    pub fn into_bytes(self) -> Vec<u8> {
        self.bytes
    }

    pub fn bytes(&mut self, bytes: &[u8]) -> Result<(), AllocError> {
        self.bytes.extend_from_slice(bytes)
    }

    pub fn number(&mut self, x: u32) -> Result<(), AllocError> {
        match self.order {
            Order::Little => self.bytes(&x.to_le_bytes()),
            Order::Big => self.bytes(&x.to_be_bytes()),
        }
    }

    // The number of these bytes; none is longer than a `u32` can say.
    fn length(&mut self, bytes: &[u8]) -> Result<(), AllocError> {
        self.number(u32::try_from(bytes.len()).unwrap_or(u32::MAX))
    }

    /// Zeros up to a multiple of 8.
    pub fn pad(&mut self) -> Result<(), AllocError> {
        let padding = (8 - self.bytes.len() % 8) % 8;
        self.bytes(&[0; 8][..padding])
    }

    /// An array's length, and its bytes.
    pub fn array(&mut self, bytes: &[u8]) -> Result<(), AllocError> {
        self.length(bytes)?;
        self.bytes(bytes)
    }

    /// A field that holds a text, if it has one.
    pub fn text_field(
        &mut self,
        field: Field,
        signature: u8,
        text: Option<&str>,
    ) -> Result<(), AllocError> {
        let Some(text) = text else { return Ok(()) };
        self.pad()?;
        self.bytes(&[field as u8, 1, signature, 0])?;
        self.array(text.as_bytes())?;
        self.bytes(&[0])
    }

    /// A field that holds a number, if it has one.
    pub fn number_field(&mut self, field: Field, x: Option<u32>) -> Result<(), AllocError> {
        let Some(x) = x else { return Ok(()) };
        self.pad()?;
        self.bytes(&[field as u8, 1, b'u', 0])?;
        self.number(x)
    }
}
