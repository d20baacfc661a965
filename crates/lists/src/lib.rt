// The list of names that a conversion is lent: each behind its length byte.
#![tactic(auto)]

ghost use Rattle.std.specs.Prelude.{◌≡◌, true, [], IfSome, IfNone};
ghost use Rattle.wire.specs.Bytes.{same};
ghost use Rattle.wire.specs.Lists.{any, distinct};
ghost use Rattle.prefixes.specs.Names.{listed, whole, good_names, good_list};
ghost use Rattle.lists.specs.Promises.{name_at, NameAt, First};

use names::Form;

// The name whose length byte stands at `at`.
pub fn name_at(list: &[u8], at: usize) -> &[u8]
    requires { NameAt list.now at }
    ensures { result.now ≡ name_at list.now at }
{
    let to = at + 1 + list[at] as usize;
    &list[at + 1..to]
}

// The first name, and the list behind it; none where the list is empty or that name is cut.
#[tactic(auto, using(crate::proofs::Lists::cut_first))]
pub fn split_name(list: &[u8]) -> Option<(&[u8], &[u8])>
    ensures first { IfSome result (λ p. First list.now p.0.now p.1.now) }
    ensures none { IfNone result (whole list.now ≡ true → list.now ≡ []) }
{
    let (&size, behind) = list.split_first()?;
    behind.split_at_checked(size as usize)
}

// Each name is whole and well-known.
#[tactic(auto, using(crate::proofs::Lists::naming))]
fn are_names(list: &[u8]) -> bool
    ensures { result ≡ good_names list.now }
{
    let mut left = list;
    while let Some((name, rest)) = split_name(left) {
        if !names::is_valid(Form::WellKnown, name) {
            return false;
        }
        left = rest;
    }
    left.is_empty()
}

// The name is one of the list.
#[tactic(auto, using(crate::proofs::Lists::seeking))]
fn is_listed(list: &[u8], name: &[u8]) -> bool
    requires { whole list.now ≡ true }
    ensures { result ≡ any (same name.now) (listed list.now) }
{
    let mut left = list;
    while let Some((other, rest)) = split_name(left) {
        if wire::equal(name, other) {
            return true;
        }
        left = rest;
    }
    false
}

// No name is there twice.
#[tactic(auto, using(crate::proofs::Lists::parting))]
fn are_distinct(list: &[u8]) -> bool
    requires { whole list.now ≡ true }
    ensures { result ≡ distinct (λ x. true) same (listed list.now) }
{
    let mut left = list;
    while let Some((name, rest)) = split_name(left) {
        if is_listed(rest, name) {
            return false;
        }
        left = rest;
    }
    true
}

#[tactic(auto, using(crate::proofs::Lists::testing))]
pub fn is_list(list: &[u8]) -> bool
    ensures { result ≡ good_list list.now }
{
    are_names(list) && are_distinct(list)
}
