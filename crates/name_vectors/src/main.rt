// Runs vectors of names: every value of a byte at the first, second, middle and last place of texts of several lengths. A line has the kind of name,
// the length, where the separator stands, the place, and the runs of the values that make the text a name.
#![tactic(auto)]

ghost use Rattle.std.specs.Prelude.{◌≡◌, ◌<◌, length, vec_len, IfOk};

use names::Form;
use std::alloc::{AllocError, Global};
use std::io::{BufWriter, Write};
use std::{fmt, io};

// The shortest lengths, those about 8, 16 and 32 bytes, since a long name is taken in blocks, and those at the limit: the longest is one byte longer than a name
// may be.
const LENGTHS: [usize; 13] = [1, 2, 3, 8, 9, 16, 17, 31, 32, 33, 34, 255, 256];

// A kind for each form, and one more for bus names that begin with a colon.
#[derive(Clone, Copy)]
enum Kind {
    Interface,
    WellKnown,
    Unique,
    Bus,
    BusColon,
    Member,
    Path,
}

const KINDS: [Kind; 7] = [
    Kind::Interface,
    Kind::WellKnown,
    Kind::Unique,
    Kind::Bus,
    Kind::BusColon,
    Kind::Member,
    Kind::Path,
];

impl fmt::Display for Kind {
    fn fmt<W: fmt::Write>(&self, f: &mut fmt::Formatter<W>) -> fmt::Result {
        f.write_str(match self {
            Kind::Interface => "interface",
            Kind::WellKnown => "well-known",
            Kind::Unique => "unique",
            Kind::Bus => "bus",
            Kind::BusColon => "bus-colon",
            Kind::Member => "member",
            Kind::Path => "path",
        })
    }
}

impl From<Kind> for Form {
    fn from(kind: Kind) -> Form {
        match kind {
            Kind::Interface => Form::Interface,
            Kind::WellKnown => Form::WellKnown,
            Kind::Unique => Form::Unique,
            Kind::Bus | Kind::BusColon => Form::BusName,
            Kind::Member => Form::Member,
            Kind::Path => Form::Path,
        }
    }
}

impl Kind {
    fn first(self) -> u8 {
        match self {
            Kind::Unique | Kind::BusColon => b':',
            Kind::Path => b'/',
            _ => b'a',
        }
    }

    // A member has one element only, so that a letter stands where others have a separator.
    fn separator(self) -> u8 {
        match self {
            Kind::Member => b'a',
            Kind::Path => b'/',
            _ => b'.',
        }
    }

    // Where the separator stands in a text of n bytes: behind the first letter, or before the middle.
    fn separator_place(self, base: Base, n: usize) -> usize {
        match base {
            Base::Early if self.first() == b'a' => 1,
            Base::Early => 2,
            Base::Middle => (n / 2).saturating_sub(1),
        }
    }
}

// Where the separator of a text stands.
#[derive(Clone, Copy)]
enum Base {
    Early,
    Middle,
}

impl fmt::Display for Base {
    fn fmt<W: fmt::Write>(&self, f: &mut fmt::Formatter<W>) -> fmt::Result {
        f.write_str(match self {
            Base::Early => "early",
            Base::Middle => "middle",
        })
    }
}

// A text of n bytes: letters, with a separator that is neither the first byte nor the last.
fn text(alloc: Global, kind: Kind, base: Base, n: usize) -> Result<Vec<u8>, AllocError>
    ensures { IfOk result (λ text. vec_len text ≡ n) }
{
    let separator_place = kind.separator_place(base, n);
    let last = n.saturating_sub(1);
    (0..n)
        .map(|place| match place {
            0 => kind.first(),
            _ if place == separator_place && place != last => kind.separator(),
            _ => b'a',
        })
        .collect(alloc)
}

// The values that make the text a name of the form when they stand at the place.
fn values(alloc: Global, form: Form, text: &[u8], place: usize) -> Result<Vec<u8>, AllocError>
    requires { place < length text.now }
{
    let mut changed = text.to_vec(alloc)?;
    let mut values = Vec::new(alloc);
    for value in 0..=u8::MAX {
        changed[place] = value;
        if names::is_valid(form, changed.as_slice()) {
            values.push(value)?;
        }
    }
    Ok(values)
}

fn show_run(out: &mut impl Write, run: &[u8]) -> io::Result<()> {
    match run {
        [] => Ok(()),
        [only] => write!(out, " {only}"),
        [first, .., last] => write!(out, " {first}-{last}"),
    }
}

// A run is of values that follow one another.
fn show_runs(out: &mut impl Write, values: &[u8]) -> io::Result<()> {
    for run in values.chunk_by(|a, b| a.checked_add(1) == Some(*b)) {
        show_run(out, run)?;
    }
    Ok(())
}

// A line for each place, and one only where two of them are the same in a short text.
fn show_text(
    out: &mut impl Write,
    alloc: Global,
    kind: Kind,
    base: Base,
    n: usize,
) -> io::Result<()> {
    let text = text(alloc, kind, base, n)?;
    for place in 0..n {
        if [0, 1, n / 2, n - 1].contains(&place) {
            let values = values(alloc, Form::from(kind), text.as_slice(), place)?;
            write!(out, "{kind} {n} {base} {place}:")?;
            show_runs(out, values.as_slice())?;
            writeln!(out)?;
        }
    }
    Ok(())
}

fn show_kind(out: &mut impl Write, alloc: Global, kind: Kind) -> io::Result<()> {
    for n in LENGTHS {
        show_text(out, alloc, kind, Base::Early, n)?;
        show_text(out, alloc, kind, Base::Middle, n)?;
    }
    Ok(())
}

fn main(rt: HostRuntime) -> io::Result<()> {
    let alloc = rt.alloc();
    let mut out = BufWriter::new(alloc, io::writer(&rt))?;
    for kind in KINDS {
        show_kind(&mut out, alloc, kind)?;
    }
    out.flush()
}
