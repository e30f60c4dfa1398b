// How many numbers are received.
ghost use Rattle.std.specs.Prelude.{◌≡◌};
ghost use Rattle.fetch_map.specs.Map.{ones_of, received_of};

use crate::refusal::Refusal;
use fetch_told::told::MAP_WORDS;
use fetch_word::word::ones;

fn all_ones(words: &[u64; MAP_WORDS]) -> u32
    ensures { result ≡ ones_of words.now }
{
    let mut sum = 0;
    for x in words {
        sum += ones(*x);
    }
    sum
}

// "The number received is the count of ones". Refuses: 3.
pub fn received(map: &[u64]) -> Result<u32, Refusal>
    ensures { result ≡ received_of map.now }
{
    let Some(words) = map.as_array() else {
        return Err(Refusal::WrongWords);
    };
    Ok(all_ones(words))
}
