// Numbers in bytes, in either byte order; alignment; runs of zeros; equal ranges. Every other crate stands on this one.
#![tactic(auto)]

ghost use Rattle.std.specs.Prelude.{◌≡◌, ◌++◌, ◌+◌, ◌-◌, ◌*◌, ◌≤◌, ◌<◌, length, take, drop};
ghost use Rattle.wire.specs.Bytes.{front, all_zero, same};
ghost use Rattle.wire.specs.Words.{word_at, long_at, word_bytes, long_bytes, round_up_8};

// The byte order of a message: its first byte says which.
#[derive(Clone, Copy)]
pub enum Order {
    Little,
    Big,
}

// The byte at i, 0 past the end.
pub fn peek(s: &[u8], i: usize) -> u8
    ensures { result ≡ front (drop i s.now) }
{
    if i < s.len() { s[i] } else { 0 }
}

// The number in the four bytes at `at`, in the given byte order.
pub fn u32_at(order: Order, s: &[u8], at: usize) -> u32
    requires { at + 4 ≤ length s.now }
    ensures { (result ≡ word_at order s.now at) × (result < 4294967296) }
{
    let bytes = [s[at], s[at + 1], s[at + 2], s[at + 3]];
    match order {
        Order::Little => u32::from_le_bytes(bytes),
        Order::Big => u32::from_be_bytes(bytes),
    }
}

// Writes x in little-endian order at `at`; every other byte stays.
pub fn put_u32(s: &mut [u8], at: usize, x: u32)
    requires { at + 4 ≤ length s.old }
    ensures { s.new ≡ take at s.old ++ (word_bytes x ++ drop (at + 4) s.old) }
{
    s[at..at + 4].copy_from_slice(&x.to_le_bytes());
}

// The least multiple of 8 that is not below n.
pub fn round_up_8(n: usize) -> usize
    requires { n < 9223372036854775808 }
    ensures { (result ≡ round_up_8 n) × (n ≤ result) × (result < n + 8) }
{
    (n + 7) / 8 * 8
}

// The number in the eight bytes at `at`, the lowest first: the compiler makes one load of it.
pub fn u64_at(s: &[u8], at: usize) -> u64
    requires { at + 8 ≤ length s.now }
    ensures { (result ≡ long_at s.now at) × (result < 18446744073709551616) }
{
    u64::from(u32_at(Order::Little, s, at))
        + 4294967296 * u64::from(u32_at(Order::Little, s, at + 4))
}

// Writes x in little-endian order at `at`; every other byte stays.
pub fn put_u64(s: &mut [u8], at: usize, x: u64)
    requires { at + 8 ≤ length s.old }
    ensures { s.new ≡ take at s.old ++ (long_bytes x ++ drop (at + 8) s.old) }
{
    put_u32(s, at, (x % 4294967296) as u32);
    put_u32(s, at + 4, (x / 4294967296) as u32);
}

// The n bytes at `at` are zero. Each is looked at, with no exit between them, so that the compiler takes many at a time.
fn zero_run(s: &[u8], at: usize, n: usize) -> bool
    requires { at + n ≤ length s.now }
    ensures { result ≡ all_zero (take n (drop at s.now)) }
{
    let mut clear = true;
    for i in 0..n {
        clear = clear & (s[at + i] == 0);
    }
    clear
}

// Fewer than 8 bytes: the last four may overlap the first four.
fn zero_short(s: &[u8], from: usize, to: usize) -> bool
    requires { (from ≤ to) × (to ≤ length s.now) × (to - from < 8) }
    ensures { result ≡ all_zero (take (to - from) (drop from s.now)) }
{
    if to - from < 4 {
        return zero_run(s, from, to - from);
    }
    let last = to - 4;
    (u32_at(Order::Little, s, from) == 0) & (u32_at(Order::Little, s, last) == 0)
}

// Words of 8 bytes, the last of which may overlap the one before it.
fn zero_words(s: &[u8], from: usize, to: usize) -> bool
    requires { (from ≤ to) × (to ≤ length s.now) }
    ensures { result ≡ all_zero (take (to - from) (drop from s.now)) }
{
    if to - from < 8 {
        return zero_short(s, from, to);
    }
    let last = to - 8;
    let mut i = from;
    while i < last {
        if u64_at(s, i) != 0 {
            return false;
        }
        i += 8;
    }
    u64_at(s, last) == 0
}

// Blocks of w bytes with an exit between them, the last of which may overlap the one before it.
fn zero_blocks(s: &[u8], from: usize, to: usize, w: usize) -> bool
    requires { (from ≤ to) × (to ≤ length s.now) × (0 < w) × (w ≤ to - from) }
    ensures { result ≡ all_zero (take (to - from) (drop from s.now)) }
{
    let last = to - w;
    let mut i = from;
    while i < last {
        if !zero_run(s, i, w) {
            return false;
        }
        i += w;
    }
    zero_run(s, last, w)
}

// Each byte from `from` up to `to` is zero: by blocks as wide as fit, or by words.
pub fn is_zero(s: &[u8], from: usize, to: usize) -> bool
    requires { (from ≤ to) × (to ≤ length s.now) }
    ensures { result ≡ all_zero (take (to - from) (drop from s.now)) }
{
    if to - from < 32 {
        return zero_words(s, from, to);
    }
    if to - from < 256 {
        return zero_blocks(s, from, to, 32);
    }
    if to - from < 512 {
        return zero_blocks(s, from, to, 256);
    }
    zero_blocks(s, from, to, 512)
}

// Fewer than 8 bytes: the last four may overlap the first four.
fn equal_short(a: &[u8], b: &[u8]) -> bool
    requires { (length a.now ≡ length b.now) × (length a.now < 8) }
    ensures { result ≡ same a.now b.now }
{
    let n = a.len();
    if n < 4 {
        return a == b;
    }
    let last = n - 4;
    (u32_at(Order::Little, a, 0) == u32_at(Order::Little, b, 0))
        & (u32_at(Order::Little, a, last) == u32_at(Order::Little, b, last))
}

// Words of 8 bytes. The last one, which may overlap the one before it, comes first: names of one owner differ at their ends, and `a == b`, which begins
// with the first bytes, takes about twice as many instructions to tell such names of 30 bytes apart, and nearly four times as many for 255.
fn equal_words(a: &[u8], b: &[u8]) -> bool
    requires { (length a.now ≡ length b.now) × (8 ≤ length a.now) }
    ensures { result ≡ same a.now b.now }
{
    let last = a.len() - 8;
    if u64_at(a, last) != u64_at(b, last) {
        return false;
    }
    let mut i = 0;
    while i < last {
        if u64_at(a, i) != u64_at(b, i) {
            return false;
        }
        i += 8;
    }
    true
}

// The two texts are equal.
pub fn equal(a: &[u8], b: &[u8]) -> bool
    ensures { result ≡ same a.now b.now }
{
    if a.len() != b.len() {
        return false;
    }
    if a.len() < 8 {
        return equal_short(a, b);
    }
    equal_words(a, b)
}

// Copies src over dst, which is as long. A loop: `copy_from_slice` calls memmove, and of a C library this one is to need memcpy and memset alone.
pub fn copy(dst: &mut [u8], src: &[u8])
    requires { length dst.old ≡ length src.now }
    ensures { dst.new ≡ src.now }
{
    for i in 0..src.len() {
        dst[i] = src[i];
    }
}
