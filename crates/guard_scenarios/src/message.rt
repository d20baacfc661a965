// Messages of each type, in either byte order. Each has a body of 3 zeros.
use crate::marshal::Marshal;
use std::alloc::{AllocError, Global};
use wire::Order;

/// The type of a message, by its number.
#[derive(Clone, Copy)]
pub enum Type {
    MethodCall = 1,
    MethodReturn,
    Error,
    Signal,
    Unknown,
}

/// The code of a header field.
#[derive(Clone, Copy)]
pub enum Field {
    Path = 1,
    Interface,
    Member,
    ErrorName,
    ReplySerial,
    Destination,
}

/// A message: its fixed part, and the header fields that it has.
#[derive(Clone, Copy)]
pub struct Message<'a> {
    pub kind: Type,
    pub flags: u8,
    pub serial: u32,
    pub body_length: u32,
    pub destination: Option<&'a str>,
    pub path: Option<&'a str>,
    pub interface: Option<&'a str>,
    pub member: Option<&'a str>,
    pub error_name: Option<&'a str>,
    pub reply_serial: Option<u32>,
}

const BODY: [u8; 3] = [0; 3];

impl<'a> Message<'a> {
    fn new(kind: Type, serial: u32) -> Self {
        Message {
            kind,
            flags: 0,
            serial,
            body_length: BODY.len() as u32,
            destination: None,
            path: None,
            interface: None,
            member: None,
            error_name: None,
            reply_serial: None,
        }
    }

    pub fn call_to_bus(serial: u32) -> Self {
        Message {
            path: Some("/"),
            member: Some("M"),
            ..Message::new(Type::MethodCall, serial)
        }
    }

    pub fn call(serial: u32, to: &'a str) -> Self {
        Message {
            destination: Some(to),
            ..Message::call_to_bus(serial)
        }
    }

    pub fn method_return(reply_serial: u32, to: &'a str) -> Self {
        Message {
            destination: Some(to),
            reply_serial: Some(reply_serial),
            ..Message::new(Type::MethodReturn, 1)
        }
    }

    pub fn error(reply_serial: u32, to: &'a str) -> Self {
        Message {
            destination: Some(to),
            error_name: Some("e.f"),
            reply_serial: Some(reply_serial),
            ..Message::new(Type::Error, 1)
        }
    }

    pub fn signal_to_all() -> Self {
        Message {
            path: Some("/"),
            interface: Some("i.f"),
            member: Some("M"),
            ..Message::new(Type::Signal, 1)
        }
    }

    pub fn signal(to: &'a str) -> Self {
        Message {
            destination: Some(to),
            ..Message::signal_to_all()
        }
    }

    /// A message of type 5, whose one field is a member.
    pub fn unknown() -> Self {
        Message {
            member: Some("M"),
            ..Message::new(Type::Unknown, 1)
        }
    }

    fn fields(&self, alloc: Global, order: Order) -> Result<Vec<u8>, AllocError> {
        let mut fields = Marshal::new(alloc, order);
        fields.text_field(Field::Destination, b's', self.destination)?;
        fields.text_field(Field::Path, b'o', self.path)?;
        fields.text_field(Field::Interface, b's', self.interface)?;
        fields.text_field(Field::Member, b's', self.member)?;
        fields.text_field(Field::ErrorName, b's', self.error_name)?;
        fields.number_field(Field::ReplySerial, self.reply_serial)?;
        Ok(fields.into_bytes())
    }

    /// The head, up to the body.
    pub fn head(&self, alloc: Global, order: Order) -> Result<Vec<u8>, AllocError> {
        let mut head = Marshal::new(alloc, order);
        head.bytes(&[order_mark(order), self.kind as u8, self.flags, 1])?;
        head.number(self.body_length)?;
        head.number(self.serial)?;
        head.array(self.fields(alloc, order)?.as_slice())?;
        head.pad()?;
        Ok(head.into_bytes())
    }

    /// The head and the body.
    pub fn bytes(&self, alloc: Global, order: Order) -> Result<Vec<u8>, AllocError> {
        let mut bytes = self.head(alloc, order)?;
        bytes.extend_from_slice(&BODY)?;
        Ok(bytes)
    }
}

fn order_mark(order: Order) -> u8 {
    match order {
        Order::Little => b'l',
        Order::Big => b'B',
    }
}
