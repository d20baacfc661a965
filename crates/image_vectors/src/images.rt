// The images of the cases, and how their bytes are written.
use std::alloc::{AllocError, Global};

// A rule of each kind with every string, over the strings `/aorg.a`: connect at 32, own at 40, transaction at 56, strings at 96.
const ONE_OF_EACH: [u8; 103] =
    *b"\x67\0\0\0\x01\0\0\0\x20\0\0\0\x01\0\0\0\x28\0\0\0\x01\0\0\0\x38\0\0\0\x60\0\0\0\0\x01\x01\0\x07\0\0\0\x01\x01\x01\0\x05\0\0\0\x02\0\0\0\x05\0\0\0\x02\x01\x01\x01\x09\0\0\0\x02\0\0\0\x05\0\0\0\0\0\0\0\x02\0\0\0\x02\0\0\0\x05\0\0\0\x01\0\0\0\x04\0\0\0/aorg.a";

// How many rules each section has, in the order of the image.
type Counts = [u16; 3];

#[derive(Clone, Copy)]
pub enum Image {
    // ONE_OF_EACH with another byte at this place, or with another word.
    Byte(usize, u8),
    Word(usize, u32),
    // ONE_OF_EACH with another string: at this place stand its offset and its length.
    Text(usize, u32, u32),
    // So many bytes of ONE_OF_EACH, with that as their total.
    Cut(u32),
    // So many rules and bytes. Each rule is of zeros, a default deny of anything, but for the byte at this place.
    Zeros(Counts, u32, Option<(usize, u8)>),
    // A transaction rule with one string: where its length stands, its first byte, behind which all are `a`, and its length.
    Long(usize, u8, u32),
}

impl Image {
    pub fn to_bytes(&self, alloc: Global) -> Result<Vec<u8>, AllocError> {
        let image = match *self {
            Image::Byte(at, value) => Draft::of_each(alloc)?.with(at, &[value]),
            Image::Word(at, value) => Draft::of_each(alloc)?.with_word(at, value),
            Image::Text(at, offset, len) => Draft::of_each(alloc)?
                .with_word(at, offset)
                .with_word(at.saturating_add(4), len),
            Image::Cut(n) => Draft::of_each(alloc)?.with_word(0, n).cut(n),
            Image::Zeros(counts, total, None) => Draft::of_zeros(alloc, counts, total)?,
            Image::Zeros(counts, total, Some((at, value))) => {
                Draft::of_zeros(alloc, counts, total)?.with(at, &[value])
            }
            Image::Long(at, first, len) => Draft::of_long_text(alloc, first)?.with_word(at, len),
        };
        Ok(image.bytes)
    }
}

// An image as it is written.
#[derive(Drop)]
struct Draft {
    bytes: Vec<u8>,
}

impl Draft {
    fn of_each(alloc: Global) -> Result<Draft, AllocError> {
        let bytes = ONE_OF_EACH.to_vec(alloc)?;
        Ok(Draft { bytes })
    }

    // A header of the counts and the total.
    fn of_header(alloc: Global, counts: Counts, total: u32) -> Result<Draft, AllocError> {
        let [connects, owns, transactions] = counts.map(u32::from);
        let own_at = 32 + 8 * connects;
        let transaction_at = own_at + 16 * owns;
        let strings_at = transaction_at + 40 * transactions;
        let mut bytes = Vec::new(alloc);
        for word in [
            total,
            connects,
            32,
            owns,
            own_at,
            transactions,
            transaction_at,
            strings_at,
        ] {
            bytes.extend_from_slice(&word.to_le_bytes())?;
        }
        Ok(Draft { bytes })
    }

    fn of_zeros(alloc: Global, counts: Counts, total: u32) -> Result<Draft, AllocError> {
        let mut draft = Draft::of_header(alloc, counts, total)?;
        draft.bytes.resize(total as usize, 0)?;
        Ok(draft)
    }

    // A transaction rule, and 300 bytes of strings behind it.
    fn of_long_text(alloc: Global, first: u8) -> Result<Draft, AllocError> {
        let mut draft = Draft::of_header(alloc, [0, 0, 1], 372)?;
        draft.bytes.resize(72, 0)?;
        draft.bytes.push(first)?;
        draft.bytes.resize(372, b'a')?;
        Ok(draft)
    }

    // The same with these bytes at `at`, as far as the image goes.
    fn with(mut self, at: usize, bytes: &[u8]) -> Draft {
        for (old, new) in self.bytes.iter_mut().skip(at).zip(bytes) {
            *old = *new;
        }
        self
    }

    fn with_word(self, at: usize, word: u32) -> Draft {
        self.with(at, &word.to_le_bytes())
    }

    fn cut(mut self, n: u32) -> Draft {
        self.bytes.truncate(n as usize);
        self
    }
}
