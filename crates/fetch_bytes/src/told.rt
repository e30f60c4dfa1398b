// The told range as three numbers: 0 for none, or 1 with the oldest and the newest.
ghost use Rattle.std.specs.Prelude.{◌≡◌};
ghost use Rattle.fetch_bytes.specs.Told.{told_at, range_of, told_numbers};

use fetch_told::told::Span;

// Any first number but 0 is a range.
pub(crate) fn told_at(numbers: [u16; 3]) -> Option<Span>
    ensures { result ≡ told_at numbers }
{
    let [held, first, last] = numbers;
    if held == 0 {
        return None;
    }
    Some(Span { first, last })
}

// What is told: any value but 0 says that records are held.
pub(crate) fn range_of(any: u8, oldest: u16, newest: u16) -> Option<Span>
    ensures { result ≡ range_of any oldest newest }
{
    if any == 0 {
        return None;
    }
    Some(Span {
        first: oldest,
        last: newest,
    })
}

pub(crate) fn told_numbers(told: Option<Span>) -> [u16; 3]
    ensures { result ≡ told_numbers told }
{
    match told {
        None => [0, 0, 0],
        Some(held) => [1, held.first, held.last],
    }
}
