// Writes the image that a conversion makes: the own rules, each in its place, and the names that they cite.
#![tactic(auto)]

ghost use Rattle.std.specs.Prelude.{◌≡◌, ◌++◌, ◌+◌, ◌*◌, ◌≤◌, ◌<◌, length, drop};
ghost use Rattle.wire.specs.Words.{word_bytes};
ghost use Rattle.tables.specs.Tables.{cells};
ghost use Rattle.image.specs.Image.{sections_at, span_width, rule_count};
ghost use Rattle.image.specs.Promises.{GoodImage};
ghost use Rattle.image.specs.declared.Section.TheVariants.{Own};
ghost use Rattle.prefixes.specs.Copies.{copies_from};
ghost use Rattle.prefixes.specs.Converted.{exact, exacts, becomes, become_all, joined, new_length, converted, header_of};
ghost use Rattle.lists.specs.Promises.{NamesAt, names_at};
ghost use Rattle.exacts.specs.Promises.{put, Puts, copies_at, ExactAt, ExactsAt, RuleAt, OwnsAt};
ghost use Rattle.exacts.specs.Promises.{front_of, FrontAt, back_of, BackAt, Writes};

use image::{
    CONNECT_COUNT, LEN_OFFSET, MATCHER_BYTE, NAME_SPAN, OWN_COUNT, OWN_OFFSET, OWN_SIZE, PREFIX,
    SECTIONS_AT, STRING_OFFSET, TRANSACTION_COUNT, TRANSACTION_OFFSET, TRANSACTION_SIZE, word,
};

// Where a string of a rule stands: its offset and its length.
fn put_span(room: &mut [u8], at: usize, offset: usize, len: usize)
    requires { (at + span_width ≤ length room.old) × (offset < 4294967296) × (len < 4294967296) }
    ensures { room.new ≡ put at (word_bytes offset ++ word_bytes len) room.old }
{
    wire::put_u32(room, at, offset as u32);
    wire::put_u32(room, at + LEN_OFFSET, len as u32);
}

// The own rule with these bytes, made exact: it is about the name whose copy has this offset and length.
fn put_exact(room: &mut [u8], at: usize, rule: &[u8], offset: usize, len: usize)
    requires { ExactAt room.old at rule.now offset len }
    ensures { room.new ≡ put at (exact rule.now offset len) room.old }
{
    wire::copy(&mut room[at..at + NAME_SPAN], &rule[0..NAME_SPAN]);
    room[at + MATCHER_BYTE] = 1;
    put_span(room, at + NAME_SPAN, offset, len);
}

// An exact rule for each name that the prefix covers; `offset` is where the copies begin. Tells where the rules end.
fn put_exacts(
    room: &mut [u8],
    at: usize,
    rule: &[u8],
    prefix: &[u8],
    offset: usize,
    list: &[u8],
    starts: &[usize],
) -> usize
    requires { ExactsAt room.old at rule.now prefix.now offset list.now starts.now }
    ensures { Puts (exacts rule.now prefix.now (copies_from offset (names_at list.now starts.now))) at room.old result
        room.new }
{
    let mut at = at;
    let mut offset = offset;
    for &start in starts {
        let name = lists::name_at(list, start);
        let copy = offset;
        offset += name.len();
        if names::in_namespace(prefix, name) {
            put_exact(room, at, rule, copy, name.len());
            at += OWN_SIZE;
        }
    }
    at
}

// What becomes of own rule i. Tells where it ends.
fn put_rule(
    room: &mut [u8],
    at: usize,
    image: &[u8],
    i: usize,
    list: &[u8],
    starts: &[usize],
) -> usize
    requires { RuleAt room.old at image.now i list.now starts.now }
    ensures { Puts (becomes image.now (copies_at image.now list.now starts.now) i) at room.old result
        room.new }
{
    let place = word(image, OWN_OFFSET) + OWN_SIZE * i;
    let rule = &image[place..place + OWN_SIZE];
    if rule[MATCHER_BYTE] == PREFIX {
        let strings = word(image, STRING_OFFSET);
        let prefix = image::text(image, strings, place + NAME_SPAN);
        put_exacts(room, at, rule, prefix, image.len() - strings, list, starts)
    } else {
        wire::copy(&mut room[at..at + OWN_SIZE], rule);
        at + OWN_SIZE
    }
}

// What becomes of all own rules, from `at` on. Tells where they end.
fn put_owns(room: &mut [u8], at: usize, image: &[u8], list: &[u8], starts: &[usize]) -> usize
    requires { OwnsAt room.old at image.now list.now starts.now }
    ensures { Puts (become_all image.now (copies_at image.now list.now starts.now) (rule_count Own image.now)) at
        room.old result room.new }
{
    let count = word(image, OWN_COUNT);
    let mut at = at;
    for i in 0..count {
        at = put_rule(room, at, image, i, list, starts);
    }
    at
}

// The names that are added, one right behind the other.
fn put_names(room: &mut [u8], at: usize, list: &[u8], starts: &[usize])
    requires { (at + length (joined (names_at list.now starts.now)) ≤ length room.old) × NamesAt list.now starts.now }
    ensures { room.new ≡ put at (joined (names_at list.now starts.now)) room.old }
{
    let mut at = at;
    for &start in starts {
        let name = lists::name_at(list, start);
        wire::copy(&mut room[at..at + name.len()], name);
        at += name.len();
    }
}

// The header of the new image, which has so many bytes and own rules.
fn put_header(room: &mut [u8], image: &[u8], size: usize, owns: usize)
    requires { GoodImage image.now × (size ≤ 65536) × (owns ≤ 256) × (sections_at ≤ length room.old) }
    ensures { room.new ≡ put 0 (cells word_bytes (header_of image.now size owns)) room.old }
{
    let transactions = word(image, OWN_OFFSET) + OWN_SIZE * owns;
    let strings = transactions + TRANSACTION_SIZE * word(image, TRANSACTION_COUNT);
    let words: [u32; 8] = [
        size as u32,
        word(image, CONNECT_COUNT) as u32,
        SECTIONS_AT as u32,
        owns as u32,
        word(image, OWN_OFFSET) as u32,
        word(image, TRANSACTION_COUNT) as u32,
        transactions as u32,
        strings as u32,
    ];
    tables::put_words(room, 0, &words);
}

// All that stands before the own rules.
fn put_front(room: &mut [u8], image: &[u8], size: usize, owns: usize)
    requires { FrontAt room.old image.now size owns }
    ensures { room.new ≡ put 0 (front_of image.now size owns) room.old }
{
    put_header(room, image, size, owns);
    let to = word(image, OWN_OFFSET);
    wire::copy(&mut room[SECTIONS_AT..to], &image[SECTIONS_AT..to]);
}

// All that stands behind them, from `at` on.
fn put_back(room: &mut [u8], at: usize, image: &[u8], list: &[u8], starts: &[usize])
    requires { BackAt room.old at image.now list.now starts.now }
    ensures { room.new ≡ put at (back_of image.now list.now starts.now) room.old }
{
    let from = word(image, TRANSACTION_OFFSET);
    let to = at + image.len() - from;
    wire::copy(&mut room[at..to], &image[from..]);
    put_names(room, to, list, starts);
}

// Writes the new image.
pub fn write(room: &mut [u8], image: &[u8], size: usize, owns: usize, list: &[u8], starts: &[usize])
    requires { Writes image.now list.now starts.now size owns room.old }
    ensures { room.new ≡ converted image.now list.now
        ++ drop (new_length image.now list.now) room.old }
{
    put_front(room, image, size, owns);
    let at = put_owns(room, word(image, OWN_OFFSET), image, list, starts);
    put_back(room, at, image, list, starts);
}
