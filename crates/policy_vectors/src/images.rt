// The images and the owned names of a seed.
use crate::choices::Choices;
use crate::texts::{F, FOO_BAR, HEAD, I_F, M, ORG_FOO, ORG_FOO_BAR, P, P_Q, Text};
use image::Section;
use policy::NAME_WIDTH;
use std::alloc::{AllocError, Global};

// How many bytes an image has.
const IMAGE_LENGTH: u32 = 637;

#[derive(Drop)]
struct ImageWriter {
    seed: usize,
    bytes: Vec<u8>,
}

impl ImageWriter {
    // The choices for what is written next.
    fn choices(&self) -> Choices {
        Choices::new(self.seed, self.bytes.len())
    }

    fn push_word(&mut self, word: u32) -> Result<(), AllocError> {
        self.bytes.extend_from_slice(&word.to_le_bytes())
    }

    // The offset and the length of a text, or zeros for any.
    fn push_text(&mut self, text: Option<Text>) -> Result<(), AllocError> {
        let (from, len) = text.map_or((0, 0), |text| (text.from, text.len));
        self.push_word(u32::from(from))?;
        self.push_word(u32::from(len))
    }

    // The total, and the count and the offset of each section and of the strings.
    fn push_header(&mut self) -> Result<(), AllocError> {
        for word in [IMAGE_LENGTH, 4, 32, 4, 64, 12, 128, 608] {
            self.push_word(word)?;
        }
        Ok(())
    }

    fn push_rules(&mut self, section: Section, count: usize) -> Result<(), AllocError> {
        for _ in 0..count {
            match section {
                Section::Connect => self.push_connect()?,
                Section::Own => self.push_own()?,
                Section::Transaction => self.push_transaction()?,
            }
        }
        Ok(())
    }

    fn push_connect(&mut self) -> Result<(), AllocError> {
        let choices = self.choices();
        let context = choices.pick(0, [0, 3]);
        let verdict = choices.pick(1, [0, 1]);
        let matcher = choices.pick(2, [0, 1, 2]);
        let id = if matcher == 0 {
            0
        } else {
            choices.pick(4, [5, 6, 7, 8])
        };
        self.bytes
            .extend_from_slice(&[context, verdict, matcher, 0])?;
        self.push_word(id)
    }

    // The context, the verdict, two bytes more and the subject of a rule.
    fn push_front(&mut self, choices: Choices, third: u8, fourth: u8) -> Result<(), AllocError> {
        let context = choices.pick(0, [0, 1, 2, 3]);
        let verdict = choices.pick(1, [0, 1]);
        let subject = match context {
            1 | 2 => choices.pick(4, [5, 6, 7]),
            _ => 0,
        };
        self.bytes
            .extend_from_slice(&[context, verdict, third, fourth])?;
        self.push_word(subject)
    }

    fn push_own(&mut self) -> Result<(), AllocError> {
        let choices = self.choices();
        let matcher = choices.pick(2, [0, 1, 2]);
        self.push_front(choices, matcher, 0)?;
        self.push_text(match matcher {
            0 => None,
            _ => Some(choices.pick(8, [ORG_FOO, FOO_BAR])),
        })
    }

    fn push_transaction(&mut self) -> Result<(), AllocError> {
        let choices = self.choices();
        let direction = choices.pick(2, [0, 1]);
        let kind = choices.pick(3, [0, 1, 4]);
        self.push_front(choices, direction, kind)?;
        self.push_text(choices.pick(8, [None, Some(ORG_FOO_BAR), Some(FOO_BAR)]))?;
        self.push_text(choices.pick(16, [None, Some(P), Some(P_Q), None, None]))?;
        self.push_text(choices.pick(24, [None, Some(I_F), Some(ORG_FOO), None, None]))?;
        self.push_text(choices.pick(32, [None, Some(M), Some(F), None, None]))
    }
}

pub fn image(alloc: Global, seed: usize) -> Result<Vec<u8>, AllocError> {
    let bytes = Vec::with_capacity(alloc, IMAGE_LENGTH as usize)?;
    let mut image = ImageWriter { seed, bytes };
    image.push_header()?;
    image.push_rules(Section::Connect, 4)?;
    image.push_rules(Section::Own, 4)?;
    image.push_rules(Section::Transaction, 12)?;
    image.bytes.extend_from_slice(&HEAD[1..])?;
    Ok(image.bytes)
}

// Four cells, each empty or with a name behind its length.
pub fn names(alloc: Global, seed: usize) -> Result<Vec<u8>, AllocError> {
    let choices = Choices::new(seed, 3000);
    let mut names = Vec::with_capacity(alloc, 4 * NAME_WIDTH)?;
    for cell in 0..4 {
        let name = choices.pick(
            cell,
            [None, Some(ORG_FOO), Some(ORG_FOO_BAR), Some(FOO_BAR)],
        );
        if let Some(name) = name {
            names.push(name.len)?;
            names.extend_from_slice(name.bytes())?;
        }
        names.resize(NAME_WIDTH * (cell + 1), 0)?;
    }
    Ok(names)
}
