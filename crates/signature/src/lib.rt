// The signature rule of D-Bus: a list of types calls one type, and one type calls a list for parentheses and braces.
#![tactic(auto)]

ghost use Rattle.std.specs.Prelude.{◌≡◌, drop};
ghost use Rattle.signature.specs.Signature.{basic, closed_by, valid_signature};
ghost use Rattle.signature.specs.Reader.{left_of, StepFits, HeadAt, OneAt, RowAt};

// How a type begins; a dict entry, with or without a basic key.
#[derive(Clone, Copy)]
pub enum FirstCode {
    Plain,
    Array,
    Dict(bool),
    Paren,
}

// How many types stand in a row, and where the bytes after them start.
#[derive(Clone, Copy)]
pub struct RowEnd {
    pub types: usize,
    pub end: usize,
}

pub fn is_basic(b: u8) -> bool
    ensures { result ≡ basic b }
{
    (b == b'y')
        | (b == b'b')
        | (b == b'n')
        | (b == b'q')
        | (b == b'i')
        | (b == b'u')
        | (b == b'x')
        | (b == b't')
        | (b == b'd')
        | (b == b's')
        | (b == b'o')
        | (b == b'g')
        | (b == b'h')
}

fn head_at(s: &[u8], at: usize, arrays: usize, parens: usize) -> Option<FirstCode>
    ensures { HeadAt s.now at arrays parens result }
{
    if s.len() <= at {
        return None;
    }
    let b = s[at];
    if is_basic(b) | (b == b'v') {
        return Some(FirstCode::Plain);
    }
    if (b == b'(') & (parens < 32) {
        return Some(FirstCode::Paren);
    }
    if (b == b'a') & (arrays < 32) {
        if wire::peek(s, at + 1) == b'{' {
            let key = is_basic(wire::peek(s, at + 2));
            return Some(FirstCode::Dict(key));
        }
        return Some(FirstCode::Array);
    }
    None
}

// Past the closing byte at `end`, where all is well so far.
fn close(s: &[u8], end: usize, well: bool, by: u8) -> Option<usize>
    ensures is { left_of s.now result ≡ closed_by by well (drop end s.now) }
    ensures fits { StepFits s.now end result }
{
    if s.len() <= end {
        return None;
    }
    if well & (s[end] == by) {
        Some(end + 1)
    } else {
        None
    }
}

// Where the bytes after the one type at `at` start.
#[cycle(list_one)]
fn one(s: &[u8], at: usize, arrays: usize, parens: usize) -> Option<usize>
    ensures { OneAt s.now at arrays parens result }
{
    match head_at(s, at, arrays, parens)? {
        FirstCode::Plain => Some(at + 1),
        FirstCode::Array => one(s, at + 1, arrays + 1, parens),
        FirstCode::Dict(key) => {
            let row = list(s, at + 2, arrays + 1, parens)?;
            close(s, row.end, key & (row.types == 2), b'}')
        }
        FirstCode::Paren => {
            let row = list(s, at + 1, arrays, parens + 1)?;
            close(s, row.end, 1 <= row.types, b')')
        }
    }
}

// The types in a row from `at` on, up to a closing byte or the end. A plain letter is a type at sight; any other is asked of `one`.
// It is put into its callers: as a call of its own it makes a nested signature a seventh dearer.
#[cycle(list_one)]
#[inline(always)]
fn list(s: &[u8], at: usize, arrays: usize, parens: usize) -> Option<RowEnd>
    ensures { RowAt s.now at arrays parens result }
{
    let mut end = at;
    let mut types: usize = 0;
    while end < s.len() {
        let b = s[end];
        if is_basic(b) | (b == b'v') {
            end += 1;
            types += 1;
        } else {
            if (b == b')') | (b == b'}') {
                return Some(RowEnd { types, end });
            }
            end = one(s, end, arrays, parens)?;
            types += 1;
        }
    }
    Some(RowEnd { types, end })
}

pub fn is_valid(s: &[u8]) -> bool
    ensures { result ≡ valid_signature s.now }
{
    if 255 < s.len() {
        return false;
    }
    match list(s, 0, 0, 0) {
        Some(row) => s.len() <= row.end,
        None => false,
    }
}
