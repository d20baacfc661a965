// Memory of another length: start refuses it too.
use crate::bench;
use crate::bench::{BAD_MEMORY, Bench};
use std::io;

/// One byte less and one more, and as long as memory was before it had ticks.
const LENGTHS: [(&str, usize); 3] = [
    ("54,731 bytes", 54_731),
    ("54,733 bytes", 54_733),
    ("52,676 bytes", 52_676),
];

pub fn show(bench: &Bench<impl Print>) -> io::Result<()> {
    for (label, length) in LENGTHS {
        let mut memory = vec![in bench.alloc; 0u8; length]?;
        let bytes = memory.as_mut_slice();
        let is_refused = guard::release(bytes, 1, b"a.b") == BAD_MEMORY
            && bench::is_tick_refused(bytes)
            && guard::start(bytes) == BAD_MEMORY;
        bench.line(label, is_refused)?;
    }
    Ok(())
}
