// The name rules of D-Bus: every byte is looked up in a table of classes, and a name is good by its bytes' classes and by what follows a separator.
#![tactic(auto)]

mod classes;
mod scan;

ghost use Rattle.std.specs.Prelude.{◌≡◌};
ghost use Rattle.names.specs.Names.{dotted, valid_name};
ghost use Rattle.names.specs.Classes.{barred};
ghost use Rattle.names.specs.Scan.{dotted_form};
ghost use Rattle.names.specs.Namespace.{in_namespace};

use crate::classes::{DIGIT, DOT, NOT_BUS_NAME, NOT_INTERFACE, NOT_PATH, class};
use crate::scan::walk;

// How long a name may be; a path has no limit.
pub const NAME_LIMIT: usize = 255;

#[derive(Clone, Copy)]
pub enum Form {
    Interface,
    WellKnown,
    Unique,
    BusName,
    Member,
    Path,
}

// How the names of a form are made: the byte between two elements, the classes of the bytes that stand nowhere in them, and the last of the bytes
// from `.` on that may not follow a separator.
#[derive(Clone, Copy)]
struct Shape {
    separator: u8,
    barred: u8,
    high: u8,
}

const INTERFACE: Shape = Shape {
    separator: b'.',
    barred: NOT_INTERFACE,
    high: b'9',
};

const WELL_KNOWN: Shape = Shape {
    separator: b'.',
    barred: NOT_BUS_NAME,
    high: b'9',
};

const UNIQUE: Shape = Shape {
    separator: b'.',
    barred: NOT_BUS_NAME,
    high: b'/',
};

const MEMBER: Shape = Shape {
    separator: b'.',
    barred: NOT_INTERFACE | DOT,
    high: b'9',
};

const PATH: Shape = Shape {
    separator: b'/',
    barred: NOT_PATH,
    high: b'/',
};

fn barred_in(dashed: bool) -> u8
    ensures { result ≡ barred (dotted_form dashed) }
{
    if dashed {
        WELL_KNOWN.barred
    } else {
        INTERFACE.barred
    }
}

// An interface name, or where `dashed` a well-known name.
fn is_dotted(s: &[u8], dashed: bool) -> bool
    ensures { result ≡ dotted (dotted_form dashed) s.now }
{
    if s.len() == 0 {
        return false;
    }
    if NAME_LIMIT < s.len() {
        return false;
    }
    if s[s.len() - 1] == INTERFACE.separator {
        return false;
    }
    let barred = barred_in(dashed);
    if class(s[0]) & (barred | DIGIT | DOT) != 0 {
        return false;
    }
    let seen = walk(s, INTERFACE.high);
    (seen & barred == 0) & (seen & DOT != 0)
}

// The colon is no part of an element, so the byte behind it begins the first.
fn is_unique(s: &[u8]) -> bool
    ensures { result ≡ valid_name Form.Unique s.now }
{
    if s.len() < 2 {
        return false;
    }
    if NAME_LIMIT < s.len() {
        return false;
    }
    if s[0] != b':' {
        return false;
    }
    if s[1] == UNIQUE.separator {
        return false;
    }
    if s[s.len() - 1] == UNIQUE.separator {
        return false;
    }
    let seen = walk(s, UNIQUE.high);
    (seen & UNIQUE.barred == 0) & (seen & DOT != 0)
}

fn is_member(s: &[u8]) -> bool
    ensures { result ≡ valid_name Form.Member s.now }
{
    if s.len() == 0 {
        return false;
    }
    if NAME_LIMIT < s.len() {
        return false;
    }
    if class(s[0]) & (MEMBER.barred | DIGIT) != 0 {
        return false;
    }
    walk(s, MEMBER.high) & MEMBER.barred == 0
}

// The first `/` is followed as one between two elements is.
fn is_path(s: &[u8]) -> bool
    ensures { result ≡ valid_name Form.Path s.now }
{
    if s.len() == 0 {
        return false;
    }
    if s[0] != PATH.separator {
        return false;
    }
    if s.len() == 1 {
        return true;
    }
    if s[s.len() - 1] == PATH.separator {
        return false;
    }
    walk(s, PATH.high) & PATH.barred == 0
}

// A unique name begins with a colon, and a well-known one does not.
fn is_bus_name(s: &[u8]) -> bool
    ensures { result ≡ valid_name Form.BusName s.now }
{
    if s.len() == 0 {
        return false;
    }
    if s[0] == b':' {
        return is_unique(s);
    }
    is_dotted(s, true)
}

// The bytes are a name of the form.
pub fn is_valid(form: Form, s: &[u8]) -> bool
    ensures { result ≡ valid_name form s.now }
{
    match form {
        Form::Interface => is_dotted(s, false),
        Form::WellKnown => is_dotted(s, true),
        Form::Unique => is_unique(s),
        Form::BusName => is_bus_name(s),
        Form::Member => is_member(s),
        Form::Path => is_path(s),
    }
}

// The name equals the prefix, or starts with the prefix and a dot.
pub fn in_namespace(prefix: &[u8], name: &[u8]) -> bool
    ensures { result ≡ in_namespace prefix.now name.now }
{
    let n = prefix.len();
    if name.len() < n {
        return false;
    }
    if name.len() == n {
        return wire::equal(prefix, name);
    }
    if name[n] != b'.' {
        return false;
    }
    wire::equal(prefix, &name[0..n])
}
