// What a capture says of a call before the call's own bytes.

// A kind of call, with how many gids, or bytes of a name or a piece, stand behind its first number.
#[derive(Clone, Copy)]
pub enum Call {
    Start,
    Connect { gids: u32 },
    Own { name: u32 },
    Release { name: u32 },
    Piece { bytes: u32 },
    Disconnect,
    Tick,
}

impl Call {
    // The call with this kind's number and so many bytes, if there is one.
    pub fn new(kind: u32, length: u32) -> Option<Call> {
        let behind = length.checked_sub(4);
        match kind {
            0 if length == 0 => Some(Call::Start),
            1 if length % 4 == 0 => Some(Call::Connect { gids: behind? / 4 }),
            2 => Some(Call::Own { name: behind? }),
            3 => Some(Call::Release { name: behind? }),
            4 => Some(Call::Piece { bytes: behind? }),
            5 if length == 4 => Some(Call::Disconnect),
            6 if length == 16 => Some(Call::Tick),
            _ => None,
        }
    }
}
