// The policy image: whether a lent image is good, and the places of its rules and strings.
#![tactic(auto)]

ghost use Rattle.std.specs.Prelude.{◌≡◌, ◌+◌, ◌*◌, ◌≤◌, ◌<◌, length};
ghost use Rattle.wire.specs.Words.{word_at};
ghost use Rattle.wire.specs.declared.Order.TheVariants.{Little};
ghost use Rattle.image.specs.Image.{sections_at, rule_count, rule_offset, rule_count_at, subject_word, span_width, name_span, rule_size};
ghost use Rattle.image.specs.Rules.{span_at, text_of, rule_from};
ghost use Rattle.image.specs.Good.{good_counts, good_sections, good_header, good_string, good_or_any, good_owned, good_strings, good_subject, good_matcher};
ghost use Rattle.image.specs.Good.{good_rule, good_section, outcome_of, without_prefixes};
ghost use Rattle.image.specs.Promises.{GoodImageHeader, GoodImage, Strings, RuleAt, Cites};
ghost use Rattle.image.specs.declared.Section.TheVariants.{Connect, Own, Transaction};

use names::Form;

// What the test of an image says: a bad one is answered 50 (rule 5.9).
#[derive(Clone, Copy)]
pub enum Outcome {
    Good,
    Bad,
}

// The sections of rules, in the order of the image.
#[derive(Clone, Copy, PartialEq, Eq)]
pub enum Section {
    Connect,
    Own,
    Transaction,
}

// Where the header has the count and the offset of each section, and the offset of the strings; behind it stands the first section.
pub const CONNECT_COUNT: usize = 4;

pub const CONNECT_OFFSET: usize = CONNECT_COUNT + 4;

pub const OWN_COUNT: usize = CONNECT_OFFSET + 4;

pub const OWN_OFFSET: usize = OWN_COUNT + 4;

pub const TRANSACTION_COUNT: usize = OWN_OFFSET + 4;

pub const TRANSACTION_OFFSET: usize = TRANSACTION_COUNT + 4;

pub const STRING_OFFSET: usize = TRANSACTION_OFFSET + 4;

pub const SECTIONS_AT: usize = STRING_OFFSET + 4;

// Where the parts of a rule stand, behind its context: bytes, the word of the id or subject, and strings, each an offset and a length.
pub const VERDICT_BYTE: usize = 1;

pub const MATCHER_BYTE: usize = 2;

pub const DIRECTION_BYTE: usize = 2;

const RESERVED_BYTE: usize = 3;

pub const TYPE_BYTE: usize = 3;

pub const SUBJECT_WORD: usize = 4;

pub const LEN_OFFSET: usize = 4;

const SPAN_WIDTH: usize = LEN_OFFSET + 4;

pub const NAME_SPAN: usize = SUBJECT_WORD + 4;

pub const PATH_SPAN: usize = NAME_SPAN + SPAN_WIDTH;

pub const INTERFACE_SPAN: usize = PATH_SPAN + SPAN_WIDTH;

pub const MEMBER_SPAN: usize = INTERFACE_SPAN + SPAN_WIDTH;

// How many bytes a rule of each section has.
pub const CONNECT_SIZE: usize = SUBJECT_WORD + 4;

pub const OWN_SIZE: usize = NAME_SPAN + SPAN_WIDTH;

pub const TRANSACTION_SIZE: usize = MEMBER_SPAN + SPAN_WIDTH;

impl Section {
    // How many bytes a rule of the section has.
    pub fn size(self) -> usize
        ensures { result ≡ rule_size self }
    {
        match self {
            Section::Connect => CONNECT_SIZE,
            Section::Own => OWN_SIZE,
            Section::Transaction => TRANSACTION_SIZE,
        }
    }

    // Where the header has the section's count; behind it stands the section's offset.
    fn count_at(self) -> usize
        ensures { (result ≡ rule_count_at self) × (result ≤ 20) }
    {
        match self {
            Section::Connect => CONNECT_COUNT,
            Section::Own => OWN_COUNT,
            Section::Transaction => TRANSACTION_COUNT,
        }
    }

    // How many rules the section has.
    pub fn count(self, image: &[u8]) -> usize
        requires { sections_at ≤ length image.now }
        ensures { result ≡ rule_count self image.now }
    {
        word(image, self.count_at())
    }

    // Where its first rule begins.
    pub fn offset(self, image: &[u8]) -> usize
        requires { sections_at ≤ length image.now }
        ensures { (result ≡ rule_offset self image.now) × (result < 4294967296) }
    {
        word(image, self.count_at() + 4)
    }
}

// The little-endian number in the four bytes at `at`.
pub fn word(image: &[u8], at: usize) -> usize
    requires { at + 4 ≤ length image.now }
    ensures { (result ≡ word_at Little image.now at) × (result < 4294967296) }
{
    wire::u32_at(wire::Order::Little, image, at) as usize
}

// ---- the header

fn counts_fit(image: &[u8]) -> bool
    requires { sections_at ≤ length image.now }
    ensures { result ≡ good_counts image.now }
{
    (word(image, 0) == image.len())
        & (word(image, CONNECT_COUNT) <= 256)
        & (word(image, OWN_COUNT) <= 256)
        & (word(image, TRANSACTION_COUNT) <= 512)
}

fn sections_follow(image: &[u8]) -> bool
    requires { sections_at ≤ length image.now }
    ensures { result ≡ good_sections image.now }
{
    let connects = word(image, CONNECT_OFFSET);
    let owns = word(image, OWN_OFFSET);
    let transactions = word(image, TRANSACTION_OFFSET);
    let strings = word(image, STRING_OFFSET);
    (connects == SECTIONS_AT)
        & (owns == connects + CONNECT_SIZE * word(image, CONNECT_COUNT))
        & (transactions == owns + OWN_SIZE * word(image, OWN_COUNT))
        & (strings == transactions + TRANSACTION_SIZE * word(image, TRANSACTION_COUNT))
        & (strings <= image.len())
}

fn has_header(image: &[u8]) -> bool
    ensures { result ≡ good_header image.now }
{
    if image.len() < SECTIONS_AT {
        return false;
    }
    if 65536 < image.len() {
        return false;
    }
    counts_fit(image) & sections_follow(image)
}

// ---- strings

// The string whose offset and length stand at `at` lies inside the string area, which starts at `strings`, and is a name of the form.
fn is_string(form: Form, image: &[u8], strings: usize, at: usize) -> bool
    requires { (at + span_width ≤ length image.now) × Strings image.now strings }
    ensures { result ≡ good_string form image.now (span_at image.now at) }
{
    let from = strings + word(image, at);
    let to = from + word(image, at + LEN_OFFSET);
    if image.len() < to {
        return false;
    }
    names::is_valid(form, &image[from..to])
}

fn is_string_or_any(form: Form, image: &[u8], strings: usize, at: usize) -> bool
    requires { (at + span_width ≤ length image.now) × Strings image.now strings }
    ensures { result ≡ good_or_any form image.now (span_at image.now at) }
{
    if word(image, at + LEN_OFFSET) == 0 {
        return word(image, at) == 0;
    }
    is_string(form, image, strings, at)
}

// The own rule at `at` is about any name, or cites a name.
fn is_owned(image: &[u8], strings: usize, at: usize) -> bool
    requires { (at + rule_size Own ≤ length image.now) × Strings image.now strings }
    ensures { result ≡ good_owned image.now (rule_from image.now at) }
{
    let name = at + NAME_SPAN;
    if image[at + MATCHER_BYTE] == 0 {
        return (word(image, name) == 0) & (word(image, name + LEN_OFFSET) == 0);
    }
    is_string(Form::WellKnown, image, strings, name)
}

// ---- rules

// The context and the subject of the rule at `at`.
fn is_subject(image: &[u8], at: usize) -> bool
    requires { at + name_span ≤ length image.now }
    ensures { result ≡ good_subject (rule_from image.now at) }
{
    let context = image[at];
    (context <= 3) & ((context == 1) | (context == 2) | (word(image, at + SUBJECT_WORD) == 0))
}

// The verdict, the matcher and the zero of the connect or own rule at `at`.
fn is_matcher(image: &[u8], at: usize) -> bool
    requires { at + subject_word ≤ length image.now }
    ensures { result ≡ good_matcher (rule_from image.now at) }
{
    (image[at + VERDICT_BYTE] <= 1)
        & (image[at + MATCHER_BYTE] <= 2)
        & (image[at + RESERVED_BYTE] == 0)
}

fn is_connect(image: &[u8], from: usize, i: usize) -> bool
    requires { RuleAt image.now Connect from i }
    ensures { result ≡ good_rule Connect image.now i }
{
    let at = from + CONNECT_SIZE * i;
    let context = image[at];
    ((context == 0) | (context == 3))
        & is_matcher(image, at)
        & ((1 <= image[at + MATCHER_BYTE]) | (word(image, at + SUBJECT_WORD) == 0))
}

fn is_own(image: &[u8], strings: usize, from: usize, i: usize) -> bool
    requires { RuleAt image.now Own from i × Strings image.now strings }
    ensures { result ≡ good_rule Own image.now i }
{
    let at = from + OWN_SIZE * i;
    is_subject(image, at) & is_matcher(image, at) & is_owned(image, strings, at)
}

// The four strings of the transaction rule at `at`: each means any, or is a name of its form.
fn has_strings(image: &[u8], strings: usize, at: usize) -> bool
    requires { (at + rule_size Transaction ≤ length image.now) × Strings image.now strings }
    ensures { result ≡ good_strings image.now (rule_from image.now at) }
{
    is_string_or_any(Form::WellKnown, image, strings, at + NAME_SPAN)
        & is_string_or_any(Form::Path, image, strings, at + PATH_SPAN)
        & is_string_or_any(Form::Interface, image, strings, at + INTERFACE_SPAN)
        & is_string_or_any(Form::Member, image, strings, at + MEMBER_SPAN)
}

fn is_transaction(image: &[u8], strings: usize, from: usize, i: usize) -> bool
    requires { RuleAt image.now Transaction from i × Strings image.now strings }
    ensures { result ≡ good_rule Transaction image.now i }
{
    let at = from + TRANSACTION_SIZE * i;
    let of = image[at + TYPE_BYTE];
    if is_subject(image, at)
        & (image[at + VERDICT_BYTE] <= 1)
        & (image[at + DIRECTION_BYTE] <= 1)
        & ((of == 0) | (of == 1) | (of == 4))
    {
        has_strings(image, strings, at)
    } else {
        false
    }
}

// Rule i of the section, whose rules stand from `from` on.
fn is_rule(section: Section, image: &[u8], strings: usize, from: usize, i: usize) -> bool
    requires { RuleAt image.now section from i × Strings image.now strings }
    ensures { result ≡ good_rule section image.now i }
{
    match section {
        Section::Connect => is_connect(image, from, i),
        Section::Own => is_own(image, strings, from, i),
        Section::Transaction => is_transaction(image, strings, from, i),
    }
}

// The string whose offset and length stand at `at`.
pub fn text(image: &[u8], strings: usize, at: usize) -> &[u8]
    requires { Cites image.now strings at }
    ensures { result.now ≡ text_of image.now (span_at image.now at) }
{
    let from = strings + word(image, at);
    let to = from + word(image, at + LEN_OFFSET);
    &image[from..to]
}

// ---- the image

// Every rule of the section, from the last to the first; the first bad one that is met ends it.
fn are_rules(section: Section, image: &[u8]) -> bool
    requires { GoodImageHeader image.now }
    ensures { result ≡ good_section section image.now }
{
    let strings = word(image, STRING_OFFSET);
    let from = section.offset(image);
    (0..section.count(image))
        .rev()
        .all(|i| is_rule(section, image, strings, from, i))
}

// The whole image is tested, whatever its caller goes on to read.
pub fn check(image: &[u8]) -> Outcome
    ensures { result ≡ outcome_of image.now }
{
    if !has_header(image) {
        return Outcome::Bad;
    }
    if are_rules(Section::Connect, image)
        & are_rules(Section::Own, image)
        & are_rules(Section::Transaction, image)
    {
        Outcome::Good
    } else {
        Outcome::Bad
    }
}

// An own rule's matcher for the names under a prefix.
pub const PREFIX: u8 = 2;

// No own rule is about a prefix (rule 5.5).
pub fn is_without_prefixes(image: &[u8]) -> bool
    requires { GoodImage image.now }
    ensures { result ≡ without_prefixes image.now }
{
    let from = word(image, OWN_OFFSET) + MATCHER_BYTE;
    let mut i = word(image, OWN_COUNT);
    if i == 0 {
        return true;
    }
    loop {
        i -= 1;
        if image[from + OWN_SIZE * i] == PREFIX {
            return false;
        }
        if i == 0 {
            return true;
        }
    }
}
