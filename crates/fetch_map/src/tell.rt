// Telling: "Before each fetch the tool is told the reader's oldest and newest held numbers, or none, and clears every bit outside."
ghost use Rattle.std.specs.Prelude.{◌≡◌};
ghost use Rattle.fetch_map.specs.Map.{mapping, inside_from, tell_of};

use crate::refusal::Refusal;
use fetch_told::told::{MAP_WORDS, Span, inside_bits};

fn clear_outside(words: &mut [u64; MAP_WORDS], told: Option<Span>)
    ensures { words.new ≡ inside_from told 0 words.old }
{
    for w in 0..MAP_WORDS {
        words[w] &= inside_bits(told, w);
    }
}

// From now on this is the told range. Refuses: 3.
pub fn tell(map: &mut [u64], told: Option<Span>) -> Result<(), Refusal>
    ensures { mapping result map.new ≡ tell_of map.old told }
{
    let Some(words) = map.as_mut_array() else {
        return Err(Refusal::WrongWords);
    };
    clear_outside(words, told);
    Ok(())
}
