// The guard's memory: where things stand in it (docs/MEMORY.md).
// How wide a thing is, and how many of it a slot has room for.
#![tactic(auto)]

pub const GID_WIDTH: usize = 4;

pub const GID_ROOM: usize = 16;

// Where a pending call has its serial, and its tick.
pub const SERIAL_OFFSET: usize = 4;

pub const TICK_OFFSET: usize = SERIAL_OFFSET + 4;

pub const CALL_WIDTH: usize = TICK_OFFSET + 8;

pub const CALL_ROOM: usize = 16;

pub const NAME_WIDTH: usize = policy::NAME_WIDTH;

pub const NAME_ROOM: usize = 4;

pub const HEAD_ROOM: usize = header::HEAD_LIMIT;

// A table is a count, and room for so many things.
pub const GIDS_LENGTH: usize = 4 + GID_WIDTH * GID_ROOM;

pub const PENDING_LENGTH: usize = 4 + CALL_WIDTH * CALL_ROOM;

pub const NAMES_LENGTH: usize = 4 + NAME_WIDTH * NAME_ROOM;

// Where a stream has its head, and the head's first byte.
pub const HEAD_OFFSET: usize = 4;

pub const BYTE_OFFSET: usize = HEAD_OFFSET + 4;

pub const STREAM_LENGTH: usize = BYTE_OFFSET + HEAD_ROOM;

// What stands behind the stream.
pub const REST_LENGTH: usize = 0;

// Places in a slot, whose first word is the peer's number. A list is a count, and its things from the first on.
pub const UID_AT: usize = 4;

pub const GIDS_AT: usize = UID_AT + 4;

pub const FIRST_GID: usize = GIDS_AT + 4;

pub const PENDING_AT: usize = GIDS_AT + GIDS_LENGTH;

pub const FIRST_CALLEE: usize = PENDING_AT + 4;

pub const FIRST_SERIAL: usize = FIRST_CALLEE + SERIAL_OFFSET;

pub const FIRST_TICK: usize = FIRST_CALLEE + TICK_OFFSET;

pub const NAMES_AT: usize = PENDING_AT + PENDING_LENGTH;

pub const FIRST_NAME: usize = NAMES_AT + 4;

pub const TAKEN_AT: usize = NAMES_AT + NAMES_LENGTH;

pub const HEAD_AT: usize = TAKEN_AT + HEAD_OFFSET;

pub const FIRST_BYTE: usize = HEAD_AT + 4;

pub const REST_AT: usize = TAKEN_AT + STREAM_LENGTH;

pub const SLOT_LENGTH: usize = REST_AT + REST_LENGTH;

// The last tick, behind the last number.
pub const TICK_AT: usize = 4;

// Slot i begins at SLOTS_AT + SLOT_LENGTH * i, behind both.
pub const SLOTS_AT: usize = TICK_AT + 8;

pub const MEMORY_LENGTH: usize = SLOTS_AT + SLOT_LENGTH * 16;
