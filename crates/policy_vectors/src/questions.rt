// The questions that are asked of an image, and the letters of their answers.
ghost use Rattle.std.specs.Prelude.{◌<◌};
ghost use Rattle.image.specs.Promises.{GoodImage};
ghost use Rattle.policy_vectors.specs.Short.{Short};

use crate::choices::Choices;
use crate::texts::{F, FOO_BAR, HEAD, I_F, M, ORG_FOO, ORG_FOO_BAR, ORG_FOOBAR, P, P_Q, Text};
use header::{CALL, Header, Place, SIGNAL};
use image::Outcome;
use policy::{Decider, Decision, RECEIVE, SEND, Uid};
use std::alloc::AllocError;

// How a message is asked about.
#[derive(Clone, Copy)]
enum Form {
    // A call or a signal, its fields by choice.
    Whole,
    // The same as a call without an interface.
    Bare,
}

// A tested image, and the names that the other peer of a message owns.
#[derive(Clone, Copy)]
pub struct Questions<'a> {
    seed: usize,
    image: &'a [u8],
    names: &'a [u8],
    ghost good: { GoodImage image.now },
}

impl<'a> Questions<'a> {
    // None of an image that is not good.
    #[tactic(auto, using(image::proofs::Holds::outcome_holds))]
    pub fn new(seed: usize, image: &'a [u8], names: &'a [u8]) -> Option<Questions<'a>> {
        match image::check(image) {
            Outcome::Good => Some(Questions { seed, image, names }),
            Outcome::Bad => None,
        }
    }

    pub fn ask(self, letters: &mut String) -> Result<(), AllocError> {
        self.ask_connect(letters)?;
        for name in [ORG_FOO, ORG_FOO_BAR, FOO_BAR, ORG_FOOBAR] {
            self.ask_own(name, letters)?;
        }
        self.ask_both(Form::Whole, letters)?;
        self.ask_both(Form::Bare, letters)
    }

    fn ask_connect(self, letters: &mut String) -> Result<(), AllocError> {
        for uid in 5..8 {
            letters.push(letter(decide::connect(self.image, Uid(uid), &[6, 8])))?;
        }
        Ok(())
    }

    fn ask_own(self, name: Text, letters: &mut String) -> Result<(), AllocError> {
        for uid in 5..8 {
            let decision = decide::own(self.image, Uid(uid), &[6, 8], name.bytes());
            letters.push(letter(decision))?;
        }
        Ok(())
    }

    fn ask_both(self, form: Form, letters: &mut String) -> Result<(), AllocError> {
        self.ask_transact(SEND, form, letters)?;
        self.ask_transact(RECEIVE, form, letters)
    }

    fn ask_transact(
        self,
        direction: u8,
        form: Form,
        letters: &mut String,
    ) -> Result<(), AllocError> {
        for question in 0..12 {
            let choices = Choices::new(self.seed, 2000 + 16 * question);
            let uid = Uid(choices.pick(4, [5, 6, 7]));
            let gids = [choices.pick(5, [5, 6, 7]), 8];
            let header = message(choices, form);
            let decision = decide::transact(
                self.image, direction, uid, &gids, self.names, &HEAD, header,
            );
            letters.push(letter(decision))?;
        }
        Ok(())
    }
}

fn message(choices: Choices, form: Form) -> Header
    ensures { Short result }
{
    let none = Place { at: 0, len: 0 };
    let (kind, interface) = match form {
        Form::Whole => (
            choices.pick(3, [CALL, SIGNAL]),
            choices.pick(1, [None, Some(I_F), Some(ORG_FOO)]),
        ),
        Form::Bare => (CALL, None),
    };
    Header {
        kind,
        flags: 0,
        serial: 1,
        body: 0,
        head: HEAD.len(),
        reply_serial: 0,
        path: choices.pick(0, [P, P_Q]).place(),
        interface: interface.map_or(none, |text| text.place()),
        member: choices.pick(2, [M, F]).place(),
        error_name: none,
        destination: none,
    }
}

// The letter of a decision: a capital one where it allows.
fn letter(decision: Decision) -> char {
    let first = if decision.allow { b'A' } else { b'a' };
    match decision.rule {
        Decider::Nobody => '.',
        Decider::Rule(_, position) => char::from(first + (position % 26) as u8),
    }
}
