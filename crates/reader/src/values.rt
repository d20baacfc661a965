// The values of the fields, and the fields that a type of message requires.
ghost use Rattle.std.specs.Prelude.{◌≡◌, ◌+◌, ◌≤◌, ◌<◌, length};
ghost use Rattle.header.specs.Codes.{code_limit};
ghost use Rattle.header.specs.Fields.{present, place_of};
ghost use Rattle.header.specs.Values.{number_in, good_value, good_field, good_values};
ghost use Rattle.header.specs.Required.{has_required};
ghost use Rattle.header.specs.Promises.{ValuesFit};

use header::{
    CALL, CODE_LIMIT, DESTINATION_CODE, ERROR, ERROR_NAME_CODE, INTERFACE_CODE, MEMBER_CODE,
    PATH_CODE, Place, REPLY_SERIAL_CODE, RETURN, SENDER_CODE, SIGNAL, SIGNATURE_CODE,
};
use names::Form;
use wire::Order;

// The number in the four bytes of a value, 0 where it has fewer.
pub fn number_in(order: Order, value: &[u8]) -> u32
    ensures { result ≡ number_in order value.now }
{
    if value.len() < 4 {
        return 0;
    }
    wire::u32_at(order, value, 0)
}

// The value obeys the rule of its code.
fn is_good_value(order: Order, code: usize, value: &[u8]) -> bool
    ensures { result ≡ good_value order code value.now }
{
    match code {
        PATH_CODE => names::is_valid(Form::Path, value),
        INTERFACE_CODE => names::is_valid(Form::Interface, value),
        MEMBER_CODE => names::is_valid(Form::Member, value),
        ERROR_NAME_CODE => names::is_valid(Form::Interface, value),
        REPLY_SERIAL_CODE => !(number_in(order, value) == 0),
        DESTINATION_CODE => names::is_valid(Form::BusName, value),
        SENDER_CODE => names::is_valid(Form::BusName, value),
        SIGNATURE_CODE => signature::is_valid(value),
        _ => true,
    }
}

// The field of a code is absent, or its value obeys the code's rule.
fn is_good(order: Order, head: &[u8], place: Place, code: usize) -> bool
    requires { place.at + place.len ≤ length head.now }
    ensures { result ≡ good_field order head.now place code }
{
    let at = place.at;
    if at == 0 {
        return true;
    }
    let end = at + place.len;
    is_good_value(order, code, &head[at..end])
}

// Each field that is present obeys its rule.
pub fn are_good(order: Order, head: &[u8], places: [Place; CODE_LIMIT]) -> bool
    requires { ValuesFit head.now places }
    ensures { result ≡ good_values order head.now places }
{
    let mut code = CODE_LIMIT;
    while 0 < code {
        code -= 1;
        let place = places[code];
        if !is_good(order, head, place, code) {
            return false;
        }
    }
    true
}

fn has(places: [Place; CODE_LIMIT], code: usize) -> bool
    requires { code < code_limit }
    ensures { result ≡ present (place_of places code) }
{
    let place = places[code];
    !(place.at == 0)
}

// Each field that the type requires is present.
pub fn has_required(kind: u8, places: [Place; CODE_LIMIT]) -> bool
    ensures { result ≡ has_required kind places }
{
    match kind {
        CALL => has(places, PATH_CODE) & has(places, MEMBER_CODE),
        RETURN => has(places, REPLY_SERIAL_CODE),
        ERROR => has(places, ERROR_NAME_CODE) & has(places, REPLY_SERIAL_CODE),
        SIGNAL => has(places, PATH_CODE) & has(places, INTERFACE_CODE) & has(places, MEMBER_CODE),
        _ => true,
    }
}
