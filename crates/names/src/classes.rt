// The class of each byte: a bit for each thing that a scan of a name asks of a byte, looked up in one constant table.
ghost use Rattle.std.specs.Prelude.{◌≡◌};
ghost use Rattle.names.specs.Classes.{class_of};

// The byte stands in no interface, in no name of a bus, in no path.
pub const NOT_INTERFACE: u8 = 1;

pub const NOT_BUS_NAME: u8 = 2;

pub const NOT_PATH: u8 = 4;

pub const DIGIT: u8 = 8;

pub const DOT: u8 = 16;

// What a scan gives where a byte may not follow another: all bits.
pub const ALL: u8 = 255;

// `H` is a digit, `@` a letter or `_`, `E` is `-`, `T` is `.`, `c` is `/`, and `G` any other byte.
pub static CLASSES: [u8; 256] =
    *b"GGGGGGGGGGGGGGGGGGGGGGGGGGGGGGGGGGGGGGGGGGGGGETcHHHHHHHHHHGGGGGGG@@@@@@@@@@@@@@@@@@@@@@@@@@GGGG@G@@@@@@@@@@@@@@@@@@@@@@@@@@GGGGGGGGGGGGGGGGGGGGGGGGGGGGGGGGGGGGGGGGGGGGGGGGGGGGGGGGGGGGGGGGGGGGGGGGGGGGGGGGGGGGGGGGGGGGGGGGGGGGGGGGGGGGGGGGGGGGGGGGGGGGGGGGGGGGG";

pub fn class(b: u8) -> u8
    ensures { result ≡ class_of b }
{
    CLASSES[b as usize]
}
