// Reads the head of a D-Bus message: its fixed part, the array of header fields, their values, and the fields that a type requires.
#![tactic(auto)]

mod fields;
mod values;

ghost use Rattle.std.specs.Prelude.{◌≡◌, ◌+◌, ◌-◌, ◌≤◌, ◌<◌, length, get_or};
ghost use Rattle.header.specs.Fixed.{fixed_length, head_limit, order_of, sizes_of, fixed_part};
ghost use Rattle.header.specs.Codes.{code_limit, letter_of};
ghost use Rattle.header.specs.Fields.{text_in, value_at, framed, known_at, unknown_at, element_at, fields_in};
ghost use Rattle.header.specs.Header.{header_of, judged_head, read_head, read_header};
ghost use Rattle.header.specs.Promises.{SizedHead};
ghost use Rattle.reader.specs.Promises.{Inside, Known, Reads};

use header::{
    ARRAY_LIMIT, ARRAY_WORD, BODY_WORD, CODE_LIMIT, DESTINATION_CODE, ERROR_NAME_CODE, Element,
    FIXED_LENGTH, FLAGS_BYTE, Fault, Header, INTERFACE_CODE, KIND_BYTE, MEMBER_CODE, MESSAGE_LIMIT,
    PATH_CODE, Place, REPLY_SERIAL_CODE, SERIAL_WORD, Sizes, Unread, VERSION_BYTE,
};
use wire::Order;

// The letter of each code's type: none for 0.
const LETTERS: [u8; CODE_LIMIT] = [0, b'o', b's', b's', b's', b'u', b's', b's', b'g', b'u'];

#[tactic(auto, unfolding(header::specs::Fixed::order_of))]
fn order_of(bytes: &[u8]) -> Order
    requires { fixed_length ≤ length bytes.now }
    ensures { result ≡ order_of bytes.now }
{
    if bytes[0] == b'B' {
        Order::Big
    } else {
        Order::Little
    }
}

// 4 to 6, and the lengths.
#[tactic(auto, unfolding(header::specs::Fixed::sizes_of, header::specs::Fixed::message_length, header::specs::Fixed::head_length))]
fn sizes(bytes: &[u8]) -> Result<Sizes, Fault>
    requires { fixed_length ≤ length bytes.now }
    ensures { result ≡ sizes_of bytes.now }
{
    let order = order_of(bytes);
    if wire::u32_at(order, bytes, SERIAL_WORD) == 0 {
        return Err(Fault::Serial);
    }
    let array = wire::u32_at(order, bytes, ARRAY_WORD) as usize;
    if ARRAY_LIMIT < array {
        return Err(Fault::ArrayLength);
    }
    let head = FIXED_LENGTH + wire::round_up_8(array);
    let message = head + wire::u32_at(order, bytes, BODY_WORD) as usize;
    if MESSAGE_LIMIT < message {
        return Err(Fault::MessageLength);
    }
    Ok(Sizes { head, message })
}

// The fixed part of a head: 1 to 6 in their order, or the lengths.
#[tactic(auto, unfolding(header::specs::Fixed::fixed_part))]
pub fn fixed_part(bytes: &[u8]) -> Result<Sizes, Fault>
    requires { fixed_length ≤ length bytes.now }
    ensures { result ≡ fixed_part bytes.now }
{
    let first = bytes[0];
    let kind = bytes[KIND_BYTE];
    let version = bytes[VERSION_BYTE];
    if !((first == b'l') | (first == b'B')) {
        return Err(Fault::ByteOrder);
    }
    if !(version == 1) {
        return Err(Fault::Version);
    }
    if kind == 0 {
        return Err(Fault::MessageType);
    }
    sizes(bytes)
}

// The letter of a code's type, 0 for code 0.
#[tactic(auto, using(crate::proofs::Elements::a_letter))]
fn letter_of(code: usize) -> u8
    requires { code < code_limit }
    ensures { result ≡ letter_of code }
{
    LETTERS[code]
}

// A text of `len` bytes from `at` on and the zero behind it, if they lie in the array.
#[tactic(auto, using(crate::proofs::Elements::texts))]
fn text_in(head: &[u8], end: usize, code: usize, at: usize, len: usize) -> Option<Element>
    requires { (end ≤ length head.now) × (at < 4294967296) × (len < 4294967296) }
    ensures { result ≡ text_in head.now end code at len }
{
    let stop = at + len;
    if end <= stop {
        return None;
    }
    if head[stop] != 0 {
        return None;
    }
    Some(Element::At {
        code,
        at,
        len,
        stop: stop + 1,
    })
}

// The value at `at`, by its letter.
fn value_at(
    order: Order,
    head: &[u8],
    end: usize,
    code: usize,
    letter: u8,
    at: usize,
) -> Option<Element>
    requires { (end ≤ length head.now) × (at ≤ end) × (length head.now ≤ head_limit) }
    ensures { result ≡ value_at order head.now end code letter at }
{
    if letter == b'g' {
        if end <= at {
            return None;
        }
        return text_in(head, end, code, at + 1, usize::from(head[at]));
    }
    if end < at + 4 {
        return None;
    }
    if letter == b'u' {
        return Some(Element::At {
            code,
            at,
            len: 4,
            stop: at + 4,
        });
    }
    let len = wire::u32_at(order, head, at) as usize;
    text_in(head, end, code, at + 4, len)
}

// The four bytes in front of a value are its code, 1, the code's letter and zero.
#[tactic(auto, unfolding(header::specs::Fields::framed))]
fn is_framed(head: &[u8], at: usize) -> bool
    requires { (get_or head.now at 0 < code_limit) × (at + 4 ≤ length head.now) }
    ensures { result ≡ framed head.now at }
{
    let letter = letter_of(usize::from(head[at]));
    !(letter == 0) & (head[at + 1] == 1) & (head[at + 2] == letter) & (head[at + 3] == 0)
}

// The field of the table whose code stands at `at`.
fn known_at(order: Order, head: &[u8], end: usize, at: usize) -> Option<Element>
    requires { Known head.now end at }
    ensures { result ≡ known_at order head.now end at }
{
    if end < at + 4 {
        return None;
    }
    if !is_framed(head, at) {
        return None;
    }
    let code = usize::from(head[at]);
    value_at(order, head, end, code, letter_of(code), at + 4)
}

// The unknown field whose code stands at `at`: the signature behind it says how its value is passed over.
#[tactic(auto, unfolding(header::specs::Fields::unknown_at))]
fn unknown_at(order: Order, head: &[u8], end: usize, at: usize) -> Option<Element>
    requires { at < end }
    ensures { result ≡ unknown_at order head.now end at }
{
    let stop = variant::skip(order, head, at + 1, end)?;
    Some(Element::Skip(stop))
}

// The element behind the padding that starts at `from`.
fn element_at(order: Order, head: &[u8], end: usize, from: usize) -> Option<Element>
    requires { Inside head.now end from }
    ensures { result ≡ element_at order head.now end from }
{
    let at = wire::round_up_8(from);
    if end <= at {
        return None;
    }
    if !wire::is_zero(head, from, at) {
        return None;
    }
    let code = usize::from(head[at]);
    if code < CODE_LIMIT {
        return known_at(order, head, end, at);
    }
    unknown_at(order, head, end, at)
}

// Where the value of each code stands, if the array is good: all elements, in one pass.
fn walk_all(head: &[u8], end: usize) -> Option<[Place; CODE_LIMIT]>
    requires { Inside head.now end fixed_length }
    ensures { result ≡ fields_in (order_of head.now) head.now end }
{
    let none = Place { at: 0, len: 0 };
    let mut places = [none; CODE_LIMIT];
    let mut from = FIXED_LENGTH;
    while from != end {
        match fields::field_at(head, end, from)? {
            Element::Skip(stop) => {
                from = stop;
            }
            Element::At {
                code,
                at,
                len,
                stop,
            } => {
                let seen = places[code];
                if seen.at != 0 {
                    return None;
                }
                places[code] = Place { at, len };
                from = stop;
            }
        }
    }
    Some(places)
}

fn header_of(order: Order, head: &[u8], places: [Place; CODE_LIMIT]) -> Header
    requires { Reads head.now order places }
    ensures { result ≡ header_of head.now places }
{
    let serial = wire::u32_at(order, head, SERIAL_WORD);
    let body = wire::u32_at(order, head, BODY_WORD);
    let reply = places[REPLY_SERIAL_CODE];
    let at = reply.at;
    let end = at + reply.len;
    let reply_serial = values::number_in(order, &head[at..end]);
    let path = places[PATH_CODE];
    let interface = places[INTERFACE_CODE];
    let member = places[MEMBER_CODE];
    let error_name = places[ERROR_NAME_CODE];
    let destination = places[DESTINATION_CODE];
    Header {
        kind: head[KIND_BYTE],
        flags: head[FLAGS_BYTE],
        serial,
        body,
        head: head.len(),
        reply_serial,
        path,
        interface,
        member,
        error_name,
        destination,
    }
}

// 8, then 9.
fn judge(order: Order, head: &[u8], places: [Place; CODE_LIMIT]) -> Result<Header, Unread>
    requires { Reads head.now order places }
    ensures { result ≡ judged_head head.now places }
{
    if !values::are_good(order, head, places) {
        return Err(Unread::Broken(Fault::Values));
    }
    if !values::has_required(head[KIND_BYTE], places) {
        return Err(Unread::Broken(Fault::RequiredFields));
    }
    Ok(header_of(order, head, places))
}

// The whole head, and nothing behind it: 7, then 8, then 9.
fn read_head(head: &[u8]) -> Result<Header, Unread>
    requires { SizedHead head.now }
    ensures { result ≡ read_head head.now }
{
    let order = order_of(head);
    let end = FIXED_LENGTH + wire::u32_at(order, head, ARRAY_WORD) as usize;
    if !wire::is_zero(head, end, head.len()) {
        return Err(Unread::Broken(Fault::Fields));
    }
    match walk_all(head, end) {
        Some(places) => judge(order, head, places),
        None => Err(Unread::Broken(Fault::Fields)),
    }
}

// The head in front of any bytes.
pub fn read(bytes: &[u8]) -> Result<Header, Unread>
    ensures { result ≡ read_header bytes.now }
{
    if bytes.len() < FIXED_LENGTH {
        return Err(Unread::Short);
    }
    let head = fixed_part(bytes)?.head;
    if bytes.len() < head {
        return Err(Unread::Short);
    }
    read_head(&bytes[0..head])
}
