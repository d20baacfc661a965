// Values that hold no other value: numbers, booleans and texts, with the padding in front of them. A place counts from the head's first byte; `Some` is
// where a value stops, and `None` says that there is no good one.
#![tactic(auto)]

ghost use Rattle.std.specs.Prelude.{◌≡◌, ◌<◌};
ghost use Rattle.basics.specs.Values.{number_at, boolean_at, text_in, any_text, text_at, short_text_at, plain_at};
ghost use Rattle.basics.specs.Promises.{good_text, RoundedAt, PaddedAt};

use wire::Order;

// The rules of texts.
#[derive(Clone, Copy)]
pub enum Text {
    Utf8,
    Path,
    Signature,
}

// ---- places

// The least multiple of k, which is 1, 2, 4 or 8, that is not below n.
#[tactic(auto, unfolding(crate::specs::Values::round_up))]
fn round_up(k: usize, n: usize) -> usize
    requires { n < 9223372036854775808 }
    ensures { RoundedAt k n result }
{
    match k {
        1 => n,
        2 => (n + 1) / 2 * 2,
        4 => (n + 3) / 4 * 4,
        _ => (n + 7) / 8 * 8,
    }
}

// Past the padding at `at`, if it is good. Most values stand where they should, and there is none.
#[tactic(auto, using(crate::proofs::Rounding::round_low), unfolding(crate::specs::Values::padded, wire::specs::Bytes::all_zero))]
pub fn pad(head: &[u8], k: usize, at: usize) -> Option<usize>
    ensures { PaddedAt head.now k at result }
{
    if head.len() < at {
        return None;
    }
    let to = round_up(k, at);
    if to == at {
        return Some(to);
    }
    if head.len() < to {
        return None;
    }
    if wire::is_zero(head, at, to) {
        Some(to)
    } else {
        None
    }
}

// ---- numbers

// A number of k bytes.
#[tactic(auto, unfolding(crate::specs::Values::number_at))]
fn number(head: &[u8], k: usize, at: usize) -> Option<usize>
    ensures { result ≡ number_at head.now k at }
{
    let a = pad(head, k, at)?;
    if k <= head.len() - a {
        Some(a + k)
    } else {
        None
    }
}

#[tactic(auto, unfolding(crate::specs::Values::boolean_at))]
fn boolean(order: Order, head: &[u8], at: usize) -> Option<usize>
    ensures { result ≡ boolean_at order head.now at }
{
    let a = pad(head, 4, at)?;
    if head.len() - a < 4 {
        return None;
    }
    if wire::u32_at(order, head, a) <= 1 {
        Some(a + 4)
    } else {
        None
    }
}

// ---- texts

fn is_good(text: Text, s: &[u8]) -> bool
    ensures { result ≡ good_text text s.now }
{
    match text {
        Text::Utf8 => utf8::is_valid(s),
        Text::Path => names::is_valid(names::Form::Path, s),
        Text::Signature => signature::is_valid(s),
    }
}

// Behind any n bytes from `from` on, and the zero behind them.
#[tactic(auto, unfolding(crate::specs::Values::text_in))]
pub fn any_text(head: &[u8], from: usize, n: usize) -> Option<usize>
    ensures { result ≡ text_in any_text head.now from n }
{
    if head.len() <= from {
        return None;
    }
    if head.len() - from <= n {
        return None;
    }
    let end = from + n;
    if head[end] != 0 {
        return None;
    }
    Some(end + 1)
}

// Behind the text of n bytes from `from` on, and the zero behind it.
#[tactic(auto, unfolding(crate::specs::Values::text_in))]
fn text_in(text: Text, head: &[u8], from: usize, n: usize) -> Option<usize>
    ensures { result ≡ text_in (good_text text) head.now from n }
{
    let stop = any_text(head, from, n)?;
    let end = stop - 1;
    if is_good(text, &head[from..end]) {
        Some(stop)
    } else {
        None
    }
}

// A text behind the four bytes of its length.
#[tactic(auto, unfolding(crate::specs::Values::text_at, crate::specs::Values::text_in))]
fn text_at(text: Text, order: Order, head: &[u8], at: usize) -> Option<usize>
    ensures { result ≡ text_at (good_text text) order head.now at }
{
    let a = pad(head, 4, at)?;
    if head.len() - a < 4 {
        return None;
    }
    text_in(text, head, a + 4, wire::u32_at(order, head, a) as usize)
}

// A text behind the byte of its length.
#[tactic(auto, unfolding(crate::specs::Values::short_text_at, crate::specs::Values::text_in))]
fn short_text(text: Text, head: &[u8], at: usize) -> Option<usize>
    ensures { result ≡ short_text_at (good_text text) head.now at }
{
    let n = usize::from(*head.get(at)?);
    text_in(text, head, at + 1, n)
}

// ---- a value of a basic type, by its letter

// Where the value stops.
#[tactic(auto, unfolding(crate::specs::Values::plain_at, types::specs::Letters::align_of))]
pub fn plain(order: Order, head: &[u8], letter: u8, at: usize) -> Option<usize>
    ensures { result ≡ plain_at order head.now letter at }
{
    match letter {
        b'b' => boolean(order, head, at),
        b's' => text_at(Text::Utf8, order, head, at),
        b'o' => text_at(Text::Path, order, head, at),
        b'g' => short_text(Text::Signature, head, at),
        b'y' | b'v' => number(head, 1, at),
        b'n' | b'q' => number(head, 2, at),
        b'x' | b't' | b'd' | b'(' | b'{' => number(head, 8, at),
        _ => number(head, 4, at),
    }
}
