// The head of a D-Bus message: what a reader of it hands back. The definitions of specs/ say which head is which; the crate `reader` reads them.
#![tactic(auto)]

ghost use Rattle.std.specs.Prelude.{◌≡◌};
ghost use Rattle.header.specs.Faults.{fault_number};
ghost use Rattle.header.specs.declared.Unread.TheVariants.{Broken};

// Where the parts of the fixed part stand; behind it begins the array of fields.
pub const KIND_BYTE: usize = 1;

pub const FLAGS_BYTE: usize = 2;

pub const VERSION_BYTE: usize = 3;

pub const BODY_WORD: usize = 4;

pub const SERIAL_WORD: usize = BODY_WORD + 4;

pub const ARRAY_WORD: usize = SERIAL_WORD + 4;

pub const FIXED_LENGTH: usize = ARRAY_WORD + 4;

// How long an array, and with it a head, and how long a message may be.
pub const ARRAY_LIMIT: usize = 2032;

pub const HEAD_LIMIT: usize = FIXED_LENGTH + ARRAY_LIMIT;

pub const MESSAGE_LIMIT: usize = 134217728;

// The types of message.
pub const CALL: u8 = 1;

pub const RETURN: u8 = 2;

pub const ERROR: u8 = 3;

pub const SIGNAL: u8 = 4;

// The codes of the known fields; each is below CODE_LIMIT, and 0 is no field's.
pub const PATH_CODE: usize = 1;

pub const INTERFACE_CODE: usize = 2;

pub const MEMBER_CODE: usize = 3;

pub const ERROR_NAME_CODE: usize = 4;

pub const REPLY_SERIAL_CODE: usize = 5;

pub const DESTINATION_CODE: usize = 6;

pub const SENDER_CODE: usize = 7;

pub const SIGNATURE_CODE: usize = 8;

pub const CODE_LIMIT: usize = 10;

// A field's value in the head: `len` bytes from `at` on. No value starts at byte 0: there the field is absent.
#[derive(Clone, Copy)]
pub struct Place {
    pub at: usize,
    pub len: usize,
}

// A head that has been read: `head` is its own length, `body` the body's. A reply serial of 0 is absent.
#[derive(Clone, Copy)]
pub struct Header {
    pub kind: u8,
    pub flags: u8,
    pub serial: u32,
    pub body: u32,
    pub head: usize,
    pub reply_serial: u32,
    pub path: Place,
    pub interface: Place,
    pub member: Place,
    pub error_name: Place,
    pub destination: Place,
}

// What breaks a head, in the order in which a reader looks for it.
#[derive(Clone, Copy, PartialEq, Eq)]
pub enum Fault {
    ByteOrder,
    Version,
    MessageType,
    Serial,
    ArrayLength,
    MessageLength,
    Fields,
    Values,
    RequiredFields,
}

impl Fault {
    // The answer number.
    pub fn number(self) -> u8
        ensures { result ≡ fault_number self }
    {
        match self {
            Fault::ByteOrder => 1,
            Fault::Version => 2,
            Fault::MessageType => 3,
            Fault::Serial => 4,
            Fault::ArrayLength => 5,
            Fault::MessageLength => 6,
            Fault::Fields => 7,
            Fault::Values => 8,
            Fault::RequiredFields => 9,
        }
    }
}

// Why bytes begin with no whole head: they are too few to say, or the head is broken.
#[derive(Clone, Copy, PartialEq, Eq)]
pub enum Unread {
    Short,
    Broken(Fault),
}

impl From<Fault> for Unread {
    ghost from_gives = { λ fault unread. unread ≡ Broken fault };

    fn from(fault: Fault) -> Unread {
        Unread::Broken(fault)
    }
}

// The lengths of a head and of its message, as the first 16 bytes say them.
#[derive(Clone, Copy)]
pub struct Sizes {
    pub head: usize,
    pub message: usize,
}

// A good element of the array: its code, where its value starts, how long that is, and where the element stops; of an unknown field only that.
#[derive(Clone, Copy)]
pub enum Element {
    At {
        code: usize,
        at: usize,
        len: usize,
        stop: usize,
    },
    Skip(usize),
}
