// The told range: "the reader's oldest and newest held numbers, or none".
ghost use Rattle.std.specs.Prelude.{◌≡◌, ◌+◌, ◌*◌, ◌<◌, ◌≤◌, Some};
ghost use Rattle.filter.specs.Filter.{place_by_age};
ghost use Rattle.fetch_word.specs.Bits.{word_of};
ghost use Rattle.fetch_told.specs.Told.{inside_b, range_size};
ghost use Rattle.fetch_told.specs.Clamp.{clamped};

use fetch_word::word::below;

// "one bit for each of the 65,536 sequence numbers, 64 to a word"
pub const MAP_WORDS: usize = 1024;

// Sequence numbers in a row, from the first forward to the last: over 65,535 where the last comes before the first, so that any two
// numbers are a span. What is told is one, or none.
#[derive(Clone, Copy)]
pub struct Span {
    pub first: u16,
    pub last: u16,
}

// How many of a word's 64 numbers, the first of which is `first`, lie below `end`.
fn below_in(end: u32, first: u32) -> u32
    ensures { result ≡ clamped end first }
{
    end.saturating_sub(first).min(64)
}

impl Span {
    // How far a number lies after the first: 0 for the first itself.
    fn steps_to(self, number: u16) -> u16
        ensures { result ≡ place_by_age self.first number }
    {
        number.wrapping_sub(self.first)
    }

    // How many numbers it has: 1 to 65,536.
    pub fn size(self) -> u32
        ensures { result ≡ range_size self.first self.last }
    {
        self.steps_to(self.last) as u32 + 1
    }

    // Does a number lie inside?
    pub fn contains(self, number: u16) -> bool
        ensures { result ≡ inside_b (Some self) number }
    {
        self.steps_to(number) <= self.steps_to(self.last)
    }

    // The bits of the word whose first number is `start` that stand for its numbers.
    fn bits(self, start: u32) -> u64
        requires { start + 64 ≤ 65536 }
        ensures { result ≡ word_of (λ b. inside_b (Some self) (start + b)) }
    {
        let before = below(below_in(self.first as u32, start));
        let through = below(below_in(self.last as u32 + 1, start));
        if self.first <= self.last {
            return through & !before;
        }
        through | !before
    }
}

// The bits of word w that lie inside the told range.
pub fn inside_bits(told: Option<Span>, w: usize) -> u64
    requires { w < 1024 }
    ensures { result ≡ word_of (λ b. inside_b told (64 * w + b)) }
{
    told.map_or(0, |held| held.bits(64 * (w as u32)))
}

// Does a number lie inside the told range?
pub fn inside(told: Option<Span>, number: u16) -> bool
    ensures { result ≡ inside_b told number }
{
    told.is_some_and(|held| held.contains(number))
}
