// Whether a rule is about a peer, a name or a message.
#![tactic(auto)]

ghost use Rattle.std.specs.Prelude.{◌≡◌, ◌+◌, ◌*◌, ◌≤◌, ◌<◌, length, drop, get_or};
ghost use Rattle.wire.specs.Bytes.{same};
ghost use Rattle.image.specs.Image.{name_span, rule_size};
ghost use Rattle.image.specs.Rules.{span_at, text_of, rule_from};
ghost use Rattle.image.specs.declared.Section.TheVariants.{Connect};
ghost use Rattle.policy.specs.Names.{name_width, name_of, names_in};
ghost use Rattle.policy.specs.Subjects.{in_groups, subject_fits};
ghost use Rattle.policy.specs.Matching.{connect_fits, owned_fits, own_fits, part_fits, field_of, message_of, interface_fits, parts_fit, name_fits, transaction_fits, transaction_matches};
ghost use Rattle.matching.specs.Promises.{Cited, OwnAt, PartAsked, InterfaceAsked, RuleAsked};

use header::{Header, Place};
use image::{
    DIRECTION_BYTE, INTERFACE_SPAN, LEN_OFFSET, MATCHER_BYTE, MEMBER_SPAN, NAME_SPAN, PATH_SPAN,
    STRING_OFFSET, SUBJECT_WORD, TYPE_BYTE, VERDICT_BYTE, word,
};
use policy::{Gid, NAME_WIDTH, Uid};

// ---- subjects

// The group is one of the gids.
fn in_groups(gids: &[u32], group: Gid) -> bool
    ensures { result ≡ in_groups gids.now group }
{
    // by position: up to a peer's 16 gids that is 2 instructions a gid, a walk by items 5, and `contains` asks for eight at once even where the first is it
    for i in 0..gids.len() {
        if gids[i] == group.0 {
            return true;
        }
    }
    false
}

// The subject of a rule of the context fits the peer.
fn subject_fits(context: u8, subject: u32, uid: Uid, gids: &[u32]) -> bool
    ensures { result ≡ subject_fits context subject uid gids.now }
{
    if context == 1 {
        return in_groups(gids, Gid(subject));
    }
    if context == 2 {
        return uid == Uid(subject);
    }
    true
}

// ---- names

// The name of the cell in front is the given one.
fn cell_holds(cells: &[u8], name: &[u8]) -> bool
    requires { name_width ≤ length cells.now }
    ensures holds { result ≡ same (name_of cells.now) name.now }
    ensures byte { get_or cells.now 0 0 < 256 }
{
    let to = 1 + usize::from(cells[0]);
    wire::equal(&cells[1..to], name)
}

// ---- rules

// The string whose offset and length stand at `at`.
pub fn text(image: &[u8], at: usize) -> &[u8]
    requires { Cited image.now at }
    ensures { result.now ≡ text_of image.now (span_at image.now at) }
{
    image::text(image, word(image, STRING_OFFSET), at)
}

pub fn connect_fits(image: &[u8], at: usize, uid: Uid, gids: &[u32]) -> bool
    requires { at + rule_size Connect ≤ length image.now }
    ensures { result ≡ connect_fits (rule_from image.now at) uid gids.now }
{
    let matcher = image[at + MATCHER_BYTE];
    if matcher == 0 {
        return true;
    }
    let id = wire::u32_at(wire::Order::Little, image, at + SUBJECT_WORD);
    if matcher == 1 {
        return uid == Uid(id);
    }
    in_groups(gids, Gid(id))
}

// The name is the rule's, or in the rule's namespace.
fn owned_fits(image: &[u8], at: usize, name: &[u8]) -> bool
    requires { OwnAt image.now at }
    ensures { result ≡ owned_fits image.now (rule_from image.now at) name.now }
{
    let matcher = image[at + MATCHER_BYTE];
    if matcher == 0 {
        return true;
    }
    let own = text(image, at + NAME_SPAN);
    if matcher == 1 {
        return wire::equal(own, name);
    }
    names::in_namespace(own, name)
}

pub fn own_fits(image: &[u8], at: usize, uid: Uid, gids: &[u32], name: &[u8]) -> bool
    requires { OwnAt image.now at }
    ensures { result ≡ own_fits image.now (rule_from image.now at) uid gids.now name.now }
{
    let subject = wire::u32_at(wire::Order::Little, image, at + SUBJECT_WORD);
    if !subject_fits(image[at], subject, uid, gids) {
        return false;
    }
    owned_fits(image, at, name)
}

// The rule's string at `at` is any, or is the message's field. Lengths first: most differ.
fn part_fits(image: &[u8], at: usize, head: &[u8], place: Place) -> bool
    requires { PartAsked image.now at head.now place }
    ensures { result ≡ part_fits image.now (span_at image.now at) (field_of head.now place) }
{
    let len = word(image, at + LEN_OFFSET);
    if len == 0 {
        return true;
    }
    if (place.at == 0) | (len != place.len) {
        return false;
    }
    let from = place.at;
    let to = from + place.len;
    wire::equal(text(image, at), &head[from..to])
}

// The interface of the rule at `at`. A message without one is met by the rules that name none, and by those that deny.
fn interface_fits(image: &[u8], at: usize, head: &[u8], place: Place) -> bool
    requires { InterfaceAsked image.now at head.now place }
    ensures { result ≡ interface_fits image.now (rule_from image.now at) (field_of head.now place) }
{
    if place.at == 0 {
        return (word(image, at + INTERFACE_SPAN + LEN_OFFSET) == 0)
            | (image[at + VERDICT_BYTE] != 1);
    }
    part_fits(image, at + INTERFACE_SPAN, head, place)
}

fn parts_fit(image: &[u8], at: usize, head: &[u8], header: &Header) -> bool
    requires { RuleAsked image.now at head.now header.now }
    ensures { result ≡ parts_fit image.now (rule_from image.now at) (message_of head.now header.now) }
{
    if !part_fits(image, at + PATH_SPAN, head, header.path) {
        return false;
    }
    if !interface_fits(image, at, head, header.interface) {
        return false;
    }
    part_fits(image, at + MEMBER_SPAN, head, header.member)
}

// Everything of the rule but its direction and its name.
fn rule_fits(image: &[u8], at: usize, uid: Uid, gids: &[u32], head: &[u8], header: &Header) -> bool
    requires { RuleAsked image.now at head.now header.now }
    ensures { result ≡ transaction_fits image.now (rule_from image.now at) uid gids.now (message_of head.now header.now) }
{
    let of = image[at + TYPE_BYTE];
    if (of != 0) & (of != header.kind) {
        return false;
    }
    let subject = wire::u32_at(wire::Order::Little, image, at + SUBJECT_WORD);
    if !subject_fits(image[at], subject, uid, gids) {
        return false;
    }
    parts_fit(image, at, head, header)
}

// The name of the rule at `at` is any, or one of the names in the cells: each is compared, whichever was addressed (rule 6.6).
fn name_fits(image: &[u8], at: usize, names: &[u8]) -> bool
    requires { Cited image.now (at + name_span) }
    ensures { result ≡ name_fits image.now (rule_from image.now at) (names_in names.now) }
{
    let name = text(image, at + NAME_SPAN);
    if name.len() == 0 {
        return true;
    }
    for cell in names.chunks_exact(NAME_WIDTH) {
        if cell_holds(cell, name) {
            return true;
        }
    }
    false
}

pub fn transaction_matches(
    image: &[u8],
    at: usize,
    direction: u8,
    uid: Uid,
    gids: &[u32],
    names: &[u8],
    head: &[u8],
    header: &Header,
) -> bool
    requires { RuleAsked image.now at head.now header.now }
    ensures { result ≡ transaction_matches image.now (rule_from image.now at) direction uid gids.now (names_in names.now)
        (message_of head.now header.now) }
{
    image[at + DIRECTION_BYTE] == direction
        && rule_fits(image, at, uid, gids, head, header)
        && name_fits(image, at, names)
}
