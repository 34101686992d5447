//! Guesses at the indices of intervals. Where a guess is stale, a look-up takes longer and finds the same interval.

ghost use Rattle.std.specs.Prelude.{◌+◌, ◌<◌, ◌^◌};

use nc_num::Span;

/// The bytes of RAM that share one guess.
const PART: u32 = 1024;

/// The number of guesses.
const PARTS: u32 = 128;

/// The index of an interval for each part of RAM, as it was when the part was last changed.
#[derive(Drop)]
pub struct Guesses {
    numbers: [usize; 128],
}

impl Guesses {
    /// Makes guesses that name the first interval for every part.
    pub fn new() -> Guesses {
        Guesses { numbers: [0; 128] }
    }

    /// Returns the guess for a place.
    pub fn at(&self, place: u32) -> usize {
        self.numbers[(place / PART % PARTS) as usize]
    }

    /// Notes that the interval of index `number` covers the span, which is not empty.
    pub fn note(&mut self, span: Span, number: usize)
        requires some { 0 < span.len }
        requires ends { span.at + span.len < 2 ^ 32 }
    {
        let first = span.at / PART;
        let last = (span.at + (span.len - 1)) / PART;
        for part in first..first + (last - first).min(PARTS - 1) + 1 {
            self.numbers[(part % PARTS) as usize] = number;
        }
    }
}
