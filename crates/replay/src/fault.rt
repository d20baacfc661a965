// What ends a replay before the capture's end.
use std::io;

#[derive(Drop)]
pub enum Fault {
    // The file cannot be read, or its layout is broken.
    BadCapture,
    // The lines cannot be written, or there is no memory.
    Io(io::Error),
}

impl From<io::Error> for Fault {
    fn from(error: io::Error) -> Fault {
        Fault::Io(error)
    }
}
