// Stored images without prefixes: each prefix rule becomes an exact rule for each listed name that it covers.
#![tactic(auto)]

ghost use Rattle.std.specs.Prelude.{◌≡◌, true, ◌&&◌, ◌+◌, ◌*◌, ◌≤◌, ◌<◌, length};
ghost use Rattle.names.specs.Namespace.{in_namespace};
ghost use Rattle.image.specs.Image.{name_span, rule_count};
ghost use Rattle.image.specs.Rules.{text_of, rule_from};
ghost use Rattle.image.specs.Good.{is_prefix_rule, no_prefix};
ghost use Rattle.image.specs.Promises.{GoodImage, Cites};
ghost use Rattle.image.specs.declared.Section.TheVariants.{Own};
ghost use Rattle.prefixes.specs.Names.{whole, good_list};
ghost use Rattle.prefixes.specs.Copies.{covers as coversAt};
ghost use Rattle.prefixes.specs.Converted.{exacts};
ghost use Rattle.retire.specs.Counting.{count_below};
ghost use Rattle.retire.specs.Promises.{Gathers};
ghost use Rattle.retire.specs.Promises.{Retires};

use image::{
    MATCHER_BYTE, NAME_SPAN, OWN_COUNT, OWN_OFFSET, OWN_SIZE, Outcome, PREFIX, STRING_OFFSET, word,
};

// What a conversion comes to: its answer, and the length of the new image, 0 where it is refused.
#[derive(Clone, Copy)]
pub struct Retired {
    pub answer: u8,
    pub length: usize,
}

// ---- what the prefixes cover

// The own rule at `at` is about a prefix, which covers the name.
fn covers(image: &[u8], strings: usize, at: usize, name: &[u8]) -> bool
    requires { Cites image.now strings (at + name_span) }
    ensures { result ≡ is_prefix_rule (rule_from image.now at)
        && in_namespace (text_of image.now (rule_from image.now at).name) name.now }
{
    if image[at + MATCHER_BYTE] == PREFIX {
        names::in_namespace(image::text(image, strings, at + NAME_SPAN), name)
    } else {
        false
    }
}

// How many own rules cover the name.
fn covering(image: &[u8], name: &[u8]) -> usize
    requires { GoodImage image.now }
    ensures { (result ≡ count_below (λ i. coversAt image.now i name.now) (rule_count Own image.now)) × (result ≤ 256) }
{
    let strings = word(image, STRING_OFFSET);
    let from = word(image, OWN_OFFSET);
    let count = word(image, OWN_COUNT);
    let mut found = 0;
    for i in 0..count {
        let at = from + OWN_SIZE * i;
        if covers(image, strings, at, name) {
            found += 1;
        }
    }
    found
}

// How many own rules are about no prefix.
fn kept(image: &[u8]) -> usize
    requires { GoodImage image.now }
    ensures { (result ≡ count_below (no_prefix image.now) (rule_count Own image.now)) × (result ≤ 256) }
{
    let from = word(image, OWN_OFFSET);
    let count = word(image, OWN_COUNT);
    let mut found = 0;
    for i in 0..count {
        let at = from + OWN_SIZE * i;
        if image[at + MATCHER_BYTE] != PREFIX {
            found += 1;
        }
    }
    found
}

// The most own rules that an image has, and so the most names that are added: each of them becomes a rule.
const MOST: usize = 256;

// The names that are added: how many they are and how many bytes they have; and how many own rules there will be.
#[derive(Clone, Copy)]
struct Gathered {
    pub names: usize,
    pub bytes: usize,
    pub rules: usize,
}

// Tells where in the list each name stands that is added. It ends early where there would be too many rules.
fn gather(image: &[u8], list: &[u8], starts: &mut [usize]) -> Gathered
    requires { GoodImage image.now × (whole list.now ≡ true) × (length starts.old ≡ 256) }
    ensures { Gathers image.now list.now result starts.new }
{
    let mut names = 0;
    let mut bytes = 0;
    let mut rules = kept(image);
    let mut at = 0;
    while at < list.len() {
        let start = at;
        at = start + 1 + list[start] as usize;
        let more = covering(image, &list[start + 1..at]);
        rules += more;
        if MOST < rules {
            return Gathered {
                names,
                bytes,
                rules,
            };
        }
        if 0 < more {
            starts[names] = start;
            names += 1;
            bytes += at - start - 1;
        }
    }
    Gathered {
        names,
        bytes,
        rules,
    }
}

// ---- the conversion

fn refused(answer: u8) -> Retired
    ensures { result ≡ record { answer = answer; length = 0 } }
{
    Retired { answer, length: 0 }
}

// Converts a good image, with a good list: 53 where the result would be too large, else it is written into the room.
fn convert(image: &[u8], list: &[u8], room: &mut [u8]) -> Retired
    requires { GoodImage image.now × (good_list list.now ≡ true) }
    ensures { Retires image.now list.now room.old result room.new }
{
    let mut starts: [usize; 256] = [0; 256];
    let g = gather(image, list, &mut starts);
    if MOST < g.rules {
        return refused(53);
    }
    let size = image.len() - OWN_SIZE * word(image, OWN_COUNT) + OWN_SIZE * g.rules + g.bytes;
    if 65536 < size {
        return refused(53);
    }
    if room.len() < size {
        return refused(53);
    }
    let names = g.names;
    exacts::write(room, image, size, g.rules, list, &starts[0..names]);
    Retired {
        answer: 0,
        length: size,
    }
}

// Makes an image without prefixes of a stored one.
pub fn retire(image: &[u8], list: &[u8], room: &mut [u8]) -> Retired
    ensures { Retires image.now list.now room.old result room.new }
{
    match image::check(image) {
        Outcome::Good => {
            if lists::is_list(list) {
                convert(image, list, room)
            } else {
                refused(54)
            }
        }
        Outcome::Bad => refused(50),
    }
}
