// The types of a signature: their letters, and where each of them ends.
#![tactic(auto)]

ghost use Rattle.std.specs.Prelude.{◌≡◌, true, false, ◌+◌, ◌≤◌, ◌<◌, min, length, get_or};
ghost use Rattle.wire.specs.Bytes.{byte};
ghost use Rattle.types.specs.Letters.{opens, closes, letter, align_of, width_of};
ghost use Rattle.types.specs.Promises.{EndAt, EndsFrom, EndsOf, Opens, OpenedAt, ShutAt};
ghost use Rattle.types.specs.Nest.{RowAt, EntryAt, NestAt, NestsFrom, NestsBehind};

// Of a type or a row of types: where it ends, and how many arrays and how many parentheses it opens in one another at most.
#[derive(Clone, Copy)]
struct Nest {
    end: usize,
    arrays: u8,
    parens: u8,
}

// A type that is not complete opens 33 arrays, which is one too many wherever it stands.
const BROKEN: Nest = Nest {
    end: 0,
    arrays: 33,
    parens: 0,
};

// A signature, and its tables: for each byte where the type ends that begins there, and how many arrays and parentheses it opens.
#[derive(Clone, Copy)]
struct Nests<'a> {
    s: &'a [u8],
    ends: &'a [u8; 256],
    arrays: &'a [u8; 256],
    parens: &'a [u8; 256],
}

// ---- letters

pub fn align_of(b: u8) -> usize
    ensures { result ≡ align_of b }
{
    if (b == b'y') | (b == b'g') | (b == b'v') {
        return 1;
    }
    if (b == b'n') | (b == b'q') {
        return 2;
    }
    if (b == b'x') | (b == b't') | (b == b'd') | (b == b'(') | (b == b'{') {
        return 8;
    }
    4
}

// How many bytes a number of the letter has, whose bytes may be any; 0 where its values are no numbers, or not all bytes are good.
pub fn width_of(b: u8) -> usize
    ensures { result ≡ width_of b }
{
    if signature::is_basic(b) {
        if (b == b'b') | (b == b's') | (b == b'o') | (b == b'g') {
            return 0;
        }
        return align_of(b);
    }
    0
}

// A type by itself: a basic letter, or a variant's.
pub fn is_letter(b: u8) -> bool
    ensures { result ≡ letter b }
{
    signature::is_basic(b) | (b == b'v')
}

// ---- one byte's entries

// One more, up to 33, which is too many already.
fn more(n: u8) -> u8
    ensures { result ≡ min (n + 1) 33 }
{
    n.min(32) + 1
}

// The end of the closing bytes in a row at i, by the table from i on; i where none stands.
fn run_at(s: &[u8], ends: &[u8], i: usize) -> usize
    requires { EndsFrom s.now ends.now i }
    ensures { ShutAt s.now i result }
{
    if s.len() <= i {
        return i;
    }
    let b = s[i];
    if (b == b')') | (b == b'}') {
        return ends[i] as usize;
    }
    i
}

impl Nests<'_> {
    // The types in a row from i on, up to a closing byte or the end: each is hopped over.
    fn row_at(&self, i: usize) -> Nest
        requires { (i ≤ length self.now.s.now) × NestsFrom self.now.s.now self.now.ends.now self.now.arrays.now self.now.parens.now i }
        ensures { RowAt self.now.s.now i result.end result.arrays result.parens }
    {
        let mut j = i;
        let mut a: u8 = 0;
        let mut p: u8 = 0;
        while j < self.s.len() {
            let b = self.s[j];
            if (b == b')') | (b == b'}') {
                return Nest {
                    end: j,
                    arrays: a,
                    parens: p,
                };
            }
            a = a.max(self.arrays[j]);
            p = p.max(self.parens[j]);
            j = self.ends[j] as usize;
        }
        Nest {
            end: j,
            arrays: a,
            parens: p,
        }
    }

    // A bracket at i. A dict entry is a type only behind the `a` in front of it, so a brace is none here.
    fn bracket_at(&self, i: usize) -> Nest
        requires { NestsBehind self.now.s.now self.now.ends.now self.now.arrays.now self.now.parens.now i × (opens (get_or self.now.s.now i 0) ≡ true) }
        ensures { NestAt self.now.s.now i result.end result.arrays result.parens }
    {
        let row = self.row_at(i + 1);
        let e = row.end;
        if self.s.len() <= e {
            return Nest { end: e, ..BROKEN };
        }
        if (self.s[i] == b'(') & (self.s[e] == b')') & (i + 1 < e) {
            let parens = more(row.parens);
            return Nest {
                end: e + 1,
                arrays: row.arrays,
                parens,
            };
        }
        Nest {
            end: e + 1,
            ..BROKEN
        }
    }

    // An `a` at i with a dict entry behind it: a basic letter and one type more. The table says where the brace ends.
    fn entry_at(&self, i: usize) -> Nest
        requires { NestsBehind self.now.s.now self.now.ends.now self.now.arrays.now self.now.parens.now i × EntryAt self.now.s.now i }
        ensures { NestAt self.now.s.now i result.end result.arrays result.parens }
    {
        let end = self.ends[i + 1] as usize;
        if !signature::is_basic(wire::peek(self.s, i + 2)) {
            return Nest { end, ..BROKEN };
        }
        let k = i + 3;
        if wire::peek(self.s, self.ends[k] as usize) != b'}' {
            return Nest { end, ..BROKEN };
        }
        Nest {
            end,
            arrays: more(self.arrays[k]),
            parens: self.parens[k],
        }
    }

    // An `a` at i, which ends where the type behind it does.
    fn array_at(&self, i: usize) -> Nest
        requires { NestsBehind self.now.s.now self.now.ends.now self.now.arrays.now self.now.parens.now i × (get_or self.now.s.now i 0 ≡ byte "a") }
        ensures { NestAt self.now.s.now i result.end result.arrays result.parens }
    {
        let k = i + 1;
        if self.s.len() <= k {
            return Nest { end: k, ..BROKEN };
        }
        let b = self.s[k];
        if (b == b')') | (b == b'}') {
            return Nest { end: k, ..BROKEN };
        }
        if b == b'{' {
            return self.entry_at(i);
        }
        Nest {
            end: self.ends[k] as usize,
            arrays: more(self.arrays[k]),
            parens: self.parens[k],
        }
    }

    // What the tables are to hold for the byte at i, by what they hold behind it.
    fn nest_at(&self, i: usize) -> Nest
        requires { NestsBehind self.now.s.now self.now.ends.now self.now.arrays.now self.now.parens.now i }
        ensures { NestAt self.now.s.now i result.end result.arrays result.parens }
    {
        let b = self.s[i];
        let k = i + 1;
        if signature::is_basic(b) | (b == b'v') {
            return Nest {
                end: k,
                arrays: 0,
                parens: 0,
            };
        }
        if b == b'a' {
            return self.array_at(i);
        }
        if (b == b'(') | (b == b'{') {
            return self.bracket_at(i);
        }
        if (b == b')') | (b == b'}') {
            let ends = self.ends;
            let run = run_at(self.s, ends, k);
            return Nest { end: run, ..BROKEN };
        }
        Nest { end: k, ..BROKEN }
    }
}

// ---- the table

// Whether the signature is exactly one complete type; and the ends of its types, which the table holds whatever the answer is. One pass, from the last
// byte to the first. Behind the last one no type begins: the 33 there spares each `a` a test.
pub fn ends_of(s: &[u8], ends: &mut [u8; 256]) -> bool
    requires { (length s.now ≤ 255) × (length ends.old ≡ 256) }
    ensures { EndsOf s.now ends.new result × (length ends.new ≡ 256) }
{
    let mut arrays = [33u8; 256];
    let mut parens = [0u8; 256];
    for i in (0..s.len()).rev() {
        let nests = Nests {
            s,
            ends: &*ends,
            arrays: &arrays,
            parens: &parens,
        };
        let nest = nests.nest_at(i);
        ends[i] = (nest.end % 256) as u8;
        arrays[i] = nest.arrays;
        parens[i] = nest.parens;
    }
    (arrays[0] <= 32) & (parens[0] <= 32) & (s.len() <= ends[0] as usize)
}

// The end of the type at i.
pub fn hop(sig: &[u8], ends: &[u8], i: usize) -> usize
    requires { EndsFrom sig.now ends.now 0 × (i < length sig.now) × (closes (get_or sig.now i 0) ≡ false) }
    ensures { EndAt sig.now i result }
{
    ends[i] as usize
}

// The eight bytes at `at` are opening parentheses. Each is looked at, with no exit between them, so that the compiler takes them at once.
fn is_open_block(s: &[u8], at: usize) -> bool
    requires { at + 8 ≤ length s.now }
    ensures { result ≡ true → Opens s.now at (at + 8) }
{
    let mut good = true;
    for k in 0..8 {
        good = good & (s[at + k] == b'(');
    }
    good
}

// Past the blocks of eight opening parentheses at i.
fn past_blocks(s: &[u8], i: usize) -> usize
    ensures { OpenedAt s.now i result }
{
    let mut j = i;
    while j < s.len() {
        if s.len() - j < 8 {
            return j;
        }
        if !is_open_block(s, j) {
            return j;
        }
        j += 8;
    }
    j
}

// Where the opening parentheses in a row at i end.
// The index is the answer, and it may lie behind the end from the start: a `for` would take a line more, for that case.
pub fn openings(sig: &[u8], i: usize) -> usize
    ensures { OpenedAt sig.now i result }
{
    let mut j = past_blocks(sig, i);
    while j < sig.len() {
        if sig[j] != b'(' {
            return j;
        }
        j += 1;
    }
    j
}

// Where the closing bytes in a row at i end.
pub fn closed(sig: &[u8], ends: &[u8], i: usize) -> usize
    requires { EndsFrom sig.now ends.now 0 }
    ensures { ShutAt sig.now i result }
{
    run_at(sig, ends, i)
}
