// The scan of a name: the class of every byte behind the first, and which byte follows which. A long text goes in blocks, which may overlap.
ghost use Rattle.std.specs.Prelude.{◌≡◌, ◌+◌, ◌≤◌, ◌<◌, length};
ghost use Rattle.names.specs.Scan.{spaced, spaced_run, Gathers, Walks};

use crate::classes::{ALL, class};

// b may follow p. All tests are made whatever p and b are, so that the compiler takes many pairs at a time.
fn is_spaced(p: u8, b: u8, high: u8) -> bool
    ensures { result ≡ spaced high p b }
{
    !(((p == b'.') | (p == b'/')) & ((b'.' <= b) & (b <= high)))
}

// Each of the n bytes behind the one at `at` may follow the one before it.
fn is_spaced_run(s: &[u8], at: usize, n: usize, high: u8) -> bool
    requires { at + n < length s.now }
    ensures { result ≡ spaced_run high s.now at n }
{
    let mut good = true;
    for i in 0..n {
        good = good & is_spaced(s[at + i], s[at + i + 1], high);
    }
    good
}

// The classes of the n bytes from `at` on, together.
fn gather(s: &[u8], at: usize, n: usize) -> u8
    requires { at + n ≤ length s.now }
    ensures { Gathers s.now at n result }
{
    let mut seen: u8 = 0;
    for i in 0..n {
        seen = seen | class(s[at + i]);
    }
    seen
}

// Two blocks of `width` pairs.
fn walk_two(s: &[u8], width: usize, high: u8) -> u8
    requires { (width < length s.now) × (length s.now ≤ width + width + 1) }
    ensures { Walks high s.now result }
{
    let last = s.len() - 1 - width;
    if !is_spaced_run(s, 0, width, high) {
        return ALL;
    }
    if !is_spaced_run(s, last, width, high) {
        return ALL;
    }
    gather(s, 1, width) | gather(s, last + 1, width)
}

// Blocks of `width` pairs with an exit between them.
fn walk_blocks(s: &[u8], width: usize, high: u8) -> u8
    requires { (0 < width) × (width < length s.now) }
    ensures { Walks high s.now result }
{
    let last = s.len() - 1 - width;
    let mut seen: u8 = 0;
    let mut i = 0;
    while i < last {
        if !is_spaced_run(s, i, width, high) {
            return ALL;
        }
        seen = seen | gather(s, i + 1, width);
        i += width;
    }
    if !is_spaced_run(s, last, width, high) {
        return ALL;
    }
    seen | gather(s, last + 1, width)
}

// The classes of all bytes but the first, together, or all bits where a byte may not follow the one before it.
pub fn walk(s: &[u8], high: u8) -> u8
    requires { 0 < length s.now }
    ensures { Walks high s.now result }
{
    let n = s.len() - 1;
    if n < 16 {
        if n < 8 {
            if n == 0 {
                return 0;
            }
            return walk_blocks(s, 1, high);
        }
        return walk_two(s, 8, high);
    }
    if n <= 32 {
        return walk_two(s, 16, high);
    }
    walk_blocks(s, 16, high)
}
