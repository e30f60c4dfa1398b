// Taking in: "A bit is set exactly when its record was taken in inside the told range .. any other changes nothing."
ghost use Rattle.std.specs.Prelude.{◌≡◌};
ghost use Rattle.fetch_map.specs.Map.{mapping, take_of};

use crate::refusal::Refusal;
use fetch_told::told::{MAP_WORDS, Span, inside};
use fetch_word::word::with_bit;

// The number of a record that was taken in. Refuses: 3.
pub fn take_in(map: &mut [u64], told: Option<Span>, number: u16) -> Result<(), Refusal>
    ensures { mapping result map.new ≡ take_of map.old told number }
{
    let Some(words) = map.as_mut_array::<MAP_WORDS>() else {
        return Err(Refusal::WrongWords);
    };
    if inside(told, number) {
        let w = (number / 64) as usize;
        words[w] = with_bit(words[w], (number % 64) as u32);
    }
    Ok(())
}
