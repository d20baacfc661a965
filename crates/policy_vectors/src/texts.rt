// The strings of every image, which are the texts of every question too.
ghost use Rattle.std.specs.Prelude.{◌+◌, ◌≤◌};

use header::Place;

// The head of every message. The strings of every image stand in it behind one byte more.
pub static HEAD: [u8; 30] = *b"\0org.foo.bar/p/qi.fMorg.foobar";

// One of them: where it starts among the strings, and how long it is.
#[derive(Clone, Copy)]
pub struct Text {
    pub from: u8,
    pub len: u8,
    ghost inside: { from + len ≤ 29 },
}

pub const ORG_FOO: Text = Text { from: 0, len: 7 };

pub const ORG_FOO_BAR: Text = Text { from: 0, len: 11 };

pub const FOO_BAR: Text = Text { from: 4, len: 7 };

pub const P: Text = Text { from: 11, len: 2 };

pub const P_Q: Text = Text { from: 11, len: 4 };

pub const I_F: Text = Text { from: 15, len: 3 };

pub const F: Text = Text { from: 17, len: 1 };

pub const M: Text = Text { from: 18, len: 1 };

pub const ORG_FOOBAR: Text = Text { from: 19, len: 10 };

impl Text {
    // Where it stands in HEAD.
    pub fn place(self) -> Place
        ensures { result.at + result.len ≤ 30 }
    {
        Place {
            at: 1 + usize::from(self.from),
            len: usize::from(self.len),
        }
    }

    pub fn bytes(self) -> &'static [u8] {
        let place = self.place();
        &HEAD[place.at..place.at + place.len]
    }
}
