// A word's bits: bit 0 is the lowest.
ghost use Rattle.std.specs.Prelude.{◌≡◌, ◌≤◌, ◌<◌, ltb};
ghost use Rattle.std.specs.Int.Count.{ones_in};
ghost use Rattle.fetch_word.specs.Bits.{word_of, with_bit};

// The lowest k bits.
pub fn below(k: u32) -> u64
    requires { k ≤ 64 }
    ensures { result ≡ word_of (λ b. ltb b k) }
{
    if k == 64 {
        return !0;
    }
    (1u64 << k) - 1
}

// x with bit b set, whether it was or not.
pub fn with_bit(x: u64, b: u32) -> u64
    requires { b < 64 }
    ensures { result ≡ with_bit x b }
{
    x | (1u64 << b)
}

// "The number received is the count of ones": those of one word.
pub fn ones(x: u64) -> u32
    ensures { result ≡ ones_in 64 x }
{
    x.count_ones()
}
