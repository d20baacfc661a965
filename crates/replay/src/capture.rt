// A file of little-endian numbers and bytes, read in parts of at most 64 KiB.
ghost use Rattle.std.specs.Prelude.{◌≤◌, ◌<◌, length, IfOk};

use crate::fault::Fault;
use std::alloc::Global;
use std::fs::File;
use std::io::{BufRead, BufReader, Read};

// How many bytes a part has at most.
const PART: usize = 65536;

// A read that fails, and an end of the file inside what is asked for, are a bad capture.
#[derive(Drop)]
pub struct Capture {
    input: BufReader<File>,
}

impl Capture {
    // Nothing of the file is read yet.
    pub fn new(alloc: Global, file: File) -> Result<Capture, Fault> {
        let input = BufReader::with_capacity(alloc, PART, file)?;
        Ok(Capture { input })
    }

    // What is read of the file and not yet used. Once all of that is used the next part is read, and none is left at the end.
    fn ready(&mut self) -> Result<&[u8], Fault> {
        self.input.fill_buf().map_err(|_| Fault::BadCapture)
    }

    pub fn is_ended(&mut self) -> Result<bool, Fault> {
        Ok(self.ready()?.is_empty())
    }

    // The next bytes, at least one and at most so many as are wanted.
    pub fn part(&mut self, wanted: usize) -> Result<&[u8], Fault>
        ensures most { IfOk result (λ bytes. length bytes.now ≤ wanted) }
        ensures some { IfOk result (λ bytes. 0 < wanted → 0 < length bytes.now) }
    {
        let bytes = self.ready()?;
        if bytes.is_empty() && wanted > 0 {
            return Err(Fault::BadCapture);
        }
        Ok(&bytes[..wanted.min(bytes.len())])
    }

    // So many bytes of the last part are used.
    pub fn consume(&mut self, count: usize) {
        self.input.consume(count);
    }

    fn read_exact(&mut self, into: &mut [u8]) -> Result<(), Fault> {
        self.input.read_exact(into).map_err(|_| Fault::BadCapture)
    }

    // The next `N` bytes. They are mostly read already.
    fn chunk<const N: usize>(&mut self) -> Result<[u8; N], Fault> {
        if let Some(&bytes) = self.input.buffer().first_chunk::<N>() {
            self.consume(N);
            return Ok(bytes);
        }
        let mut bytes = [0; N];
        self.read_exact(&mut bytes)?;
        Ok(bytes)
    }

    pub fn next_u32(&mut self) -> Result<u32, Fault> {
        Ok(u32::from_le_bytes(self.chunk()?))
    }

    pub fn next_u64(&mut self) -> Result<u64, Fault> {
        Ok(u64::from_le_bytes(self.chunk()?))
    }

    pub fn skip(&mut self, length: usize) -> Result<(), Fault> {
        let mut left = length;
        while left > 0 {
            let count = self.part(left)?.len();
            self.consume(count);
            left -= count;
        }
        Ok(())
    }

    // The next `length` bytes, of which those are kept that fit into the room.
    pub fn bytes<'a>(&mut self, length: u32, room: &'a mut [u8]) -> Result<&'a [u8], Fault> {
        let length = length as usize;
        let kept = length.min(room.len());
        self.read_exact(&mut room[..kept])?;
        self.skip(length - kept)?;
        Ok(&room[..kept])
    }

    // The next `count` numbers, of which those are kept that fit into the room.
    pub fn words<'a>(&mut self, count: u32, room: &'a mut [u32]) -> Result<&'a [u32], Fault> {
        let count = count as usize;
        let kept = count.min(room.len());
        for word in &mut room[..kept] {
            *word = self.next_u32()?;
        }
        self.skip(4 * (count - kept))?;
        Ok(&room[..kept])
    }
}
