// What is chosen: a seed and a place determine it.
ghost use Rattle.std.specs.Prelude.{◌<◌};

// The choices of a seed from a place on.
#[derive(Clone, Copy)]
pub struct Choices {
    seed: usize,
    place: usize,
    ghost near: { place < 4096 },
}

impl Choices {
    // Places of which one is 4,096 behind the other choose alike.
    pub fn new(seed: usize, place: usize) -> Choices {
        Choices {
            seed,
            place: place % 4096,
        }
    }

    fn number(self, offset: usize) -> usize {
        let place = self.place + offset % 4096;
        let spread = (self.seed % 256 * 4096 + place % 4096) * 2654435761 / 65536 % 65536;
        spread * 40503 / 64 % 65536
    }

    // One of these, by the number so far behind the place.
    pub fn pick<T: Copy, const N: usize>(self, offset: usize, from: [T; N]) -> T
        requires { 0 < N }
    {
        from[self.number(offset) % N]
    }
}
