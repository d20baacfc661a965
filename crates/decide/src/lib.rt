// Who may connect, own a name, send and receive, and by which rule: they are searched from the highest precedence down.
#![tactic(auto)]

ghost use Rattle.std.specs.Prelude.{◌≡◌, ◌<◌, Bool, ℕ, IfSome};
ghost use Rattle.image.specs.Image.{rule_count};
ghost use Rattle.image.specs.Promises.{GoodImage};
ghost use Rattle.policy.specs.Names.{names_in};
ghost use Rattle.policy.specs.Matching.{message_of};
ghost use Rattle.policy.specs.Decisions.{context_in, decides_in, decision_in, connect_decision, own_decision, transaction_decision};
ghost use Rattle.decide.specs.Promises.{Asked, Testable, Tells, LastOf};

use header::Header;
use image::{Section, VERDICT_BYTE};
use policy::{Decider, Decision, Uid};

// ---- the search, over the rules of any section, whose matching `fits` tests by their places

// The position of the last rule of the context that matches.
fn last_of<F: Fn(usize) -> bool>(
    image: &[u8],
    section: Section,
    context: u8,
    fits: &F,
) -> Option<usize>
    requires { GoodImage image.now × Testable (F.pre fits.now) section image.now }
    ensures inside { IfSome result (λ i. i < rule_count section image.now) }
    ensures last { (matches : ℕ → Bool) → Tells (F.post fits.now) section image.now matches
        → LastOf (context_in section image.now) matches context (rule_count section image.now) result }
{
    let from = section.offset(image);
    let size = section.size();
    // down by the size of a rule: a `for` over the positions, with a product for each place, takes 7 to 11 % more instructions
    let mut at = from + size * section.count(image);
    while from < at {
        at -= size;
        if image[at] == context && fits(at) {
            return Some((at - from) / size);
        }
    }
    None
}

// The contexts of rules, the highest first: a range in reverse takes up to 2 % more instructions.
const CONTEXTS: [u8; 4] = [3, 2, 1, 0];

// The last rule of the highest context decides.
fn search<F: Fn(usize) -> bool>(image: &[u8], section: Section, fits: F) -> Decision
    requires { GoodImage image.now × Testable (F.pre fits) section image.now }
    ensures { (matches : ℕ → Bool) → Tells (F.post fits) section image.now matches
        → result ≡ decision_in section image.now (decides_in section image.now matches) }
{
    for context in CONTEXTS {
        if let Some(i) = last_of(image, section, context, &fits) {
            let at = section.offset(image) + section.size() * i;
            return Decision {
                allow: image[at + VERDICT_BYTE] == 1,
                rule: Decider::Rule(section, i as u32),
            };
        }
    }
    Decision {
        allow: false,
        rule: Decider::Nobody,
    }
}

// ---- what is asked

// May a peer of these ids connect?
pub fn connect(image: &[u8], uid: Uid, gids: &[u32]) -> Decision
    requires { GoodImage image.now }
    ensures { result ≡ connect_decision image.now uid gids.now }
{
    search(
        image,
        Section::Connect,
        |at| matching::connect_fits(image, at, uid, gids),
    )
}

// May a peer of these ids own the name?
pub fn own(image: &[u8], uid: Uid, gids: &[u32], name: &[u8]) -> Decision
    requires { GoodImage image.now }
    ensures { result ≡ own_decision image.now uid gids.now name.now }
{
    search(
        image,
        Section::Own,
        |at| matching::own_fits(image, at, uid, gids, name),
    )
}

// May the message pass? For send, uid and gids are the sender's and the names the receiver's; for receive the other way round.
pub fn transact(
    image: &[u8],
    direction: u8,
    uid: Uid,
    gids: &[u32],
    names: &[u8],
    head: &[u8],
    header: Header,
) -> Decision
    requires { Asked image.now head.now header }
    ensures { result ≡ transaction_decision image.now direction uid gids.now (names_in names.now)
        (message_of head.now header) }
{
    search(image, Section::Transaction, |at| {
        matching::transaction_matches(image, at, direction, uid, gids, names, head, &header)
    })
}
