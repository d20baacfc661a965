// Policy: what its rules say of who may connect, own a name, send and receive. Crate `decide` searches them.
#![tactic(auto)]

ghost use Rattle.std.specs.Prelude.{◌≡◌};
ghost use Rattle.wire.specs.Bytes.{same};
ghost use Rattle.policy.specs.Names.{cell_of, bus_name};

use image::Section;

// A user and a group are types of their own: a subject test takes the one or the other.
#[derive(Clone, Copy, PartialEq)]
pub struct Uid(pub u32);

#[derive(Clone, Copy, PartialEq)]
pub struct Gid(pub u32);

// Who decides: the rule at a position of a section, from 0, or none, since none matches.
#[derive(Clone, Copy, PartialEq, Eq)]
pub enum Decider {
    Nobody,
    Rule(Section, u32),
}

// What is decided, and by which rule.
#[derive(Clone, Copy, PartialEq, Eq)]
pub struct Decision {
    pub allow: bool,
    pub rule: Decider,
}

// A cell holds a name behind its length byte.
pub const NAME_WIDTH: usize = 1 + names::NAME_LIMIT;

// The directions of transaction rules: which party's policy is asked.
pub const SEND: u8 = 0;

pub const RECEIVE: u8 = 1;

// The bus's own name.
const BUS_NAME: [u8; 20] = *b"org.freedesktop.DBus";

// The name is the bus's.
pub fn is_bus(name: &[u8]) -> bool
    ensures { result ≡ same name.now bus_name }
{
    let bus = BUS_NAME;
    wire::equal(name, &bus)
}

// The one cell of the bus, which owns just its own name.
pub fn bus_cell() -> [u8; NAME_WIDTH]
    ensures { result ≡ cell_of bus_name }
{
    let bus = BUS_NAME;
    let mut cell = [0u8; NAME_WIDTH];
    cell[0] = 20;
    cell[1..21].copy_from_slice(&bus);
    cell
}
