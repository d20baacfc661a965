// Names and signatures: 1 where they are good.
use names::Form;
use std::io;

// Names of the D-Bus Specification.
static NAMES: [(&str, Form, &str); 13] = [
    ("interface", Form::Interface, "org.freedesktop.DBus"),
    ("interface", Form::Interface, "org._7_zip.Plugin"),
    ("interface", Form::Interface, "org.7_zip.Plugin"),
    ("name", Form::WellKnown, "com.example.backup-agent"),
    ("interface", Form::Interface, "com.example.backup-agent"),
    ("name", Form::BusName, ":1.42"),
    ("well-known name", Form::WellKnown, ":1.42"),
    ("path", Form::Path, "/com/example/MusicPlayer1"),
    ("path", Form::Path, "/"),
    ("path", Form::Path, "//"),
    ("path", Form::Path, "/com/"),
    ("member", Form::Member, "Hello"),
    ("member", Form::Member, "Hello.World"),
];

// Signatures of the D-Bus Specification.
static SIGNATURES: [&str; 10] = [
    "aiai", "(ii)", "(i(ii))", "a(ii)", "aai", "a{us}", "aa", "(ii", "ii)", "()",
];

pub fn names(rt: &impl Print) -> io::Result<()> {
    for (kind, form, text) in NAMES.iter() {
        let good = names::is_valid(*form, text.as_bytes());
        println!(rt; "{kind} {text}: {}", u8::from(good))?;
    }
    Ok(())
}

pub fn signatures(rt: &impl Print) -> io::Result<()> {
    for text in SIGNATURES {
        let good = signature::is_valid(text.as_bytes());
        println!(rt; "signature {text}: {}", u8::from(good))?;
    }
    Ok(())
}

// Texts as long as they may be, and one byte longer.
pub fn limits(rt: &impl Print) -> io::Result<()> {
    let mut name = [b'b'; 256];
    name[1] = b'.';
    let mut arrays = [b'a'; 34];
    arrays[33] = b'y';
    let bytes = [b'y'; 256];
    for (what, good) in [
        (
            "name of 255 bytes",
            names::is_valid(Form::WellKnown, &name[..255]),
        ),
        ("name of 256 bytes", names::is_valid(Form::WellKnown, &name)),
        ("33 arrays", signature::is_valid(&arrays)),
        ("32 arrays", signature::is_valid(&arrays[1..])),
        ("signature of 255 bytes", signature::is_valid(&bytes[..255])),
        ("signature of 256 bytes", signature::is_valid(&bytes)),
    ] {
        println!(rt; "{what}: {}", u8::from(good))?;
    }
    Ok(())
}
