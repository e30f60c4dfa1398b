// A date and time as it is written: `2025-05-08 06:13:20`, always 19 bytes; `?` for a second that has no date. And a number.
ghost use Rattle.std.specs.Prelude.{◌≡◌, [], ◌∷◌, ◌++◌, ◌+◌, ◌/◌, ◌%◌, ◌≤◌, length};
ghost use Rattle.text.specs.Laid.{filled, laid};
ghost use Rattle.calendar_text.specs.Written.{date_text, dated_text, number_text};

use calendar_dates::dates::Date;
use text::put::{put_number, put_word};

// The last digit of a number.
fn digit(n: u16) -> u8
    ensures { result ≡ 48 + n % 10 }
{
    b'0' + (n % 10) as u8
}

// With a byte after it.
fn date_text(date: Date, after: u8) -> [u8; 20]
    ensures { result ≡ date_text date ++ (after ∷ []) }
{
    let century = date.year / 100;
    let year = date.year;
    let month = date.month as u16;
    let day = date.day as u16;
    let hour = date.hour as u16;
    let minute = date.minute as u16;
    let second = date.second as u16;
    [
        digit(century / 10),
        digit(century),
        digit(year / 10),
        digit(year),
        b'-',
        digit(month / 10),
        digit(month),
        b'-',
        digit(day / 10),
        digit(day),
        b' ',
        digit(hour / 10),
        digit(hour),
        b':',
        digit(minute / 10),
        digit(minute),
        b':',
        digit(second / 10),
        digit(second),
        after,
    ]
}

// These two lay a text with a byte after it over `out` from `at` on, and answer where it ends.
#[tactic(auto, unfolding(crate::specs::Written::dated_text))]
pub fn put_dated(out: &mut [u8], at: usize, dated: Option<Date>, after: u8) -> usize
    requires { at + 20 ≤ length out.old }
    ensures { filled result out.new ≡ laid out.old at (dated_text dated after) }
{
    match dated {
        Some(date) => put_word(out, at, &date_text(date, after)),
        None => put_word(out, at, &[b'?', after]),
    }
}

pub fn put_number_and(out: &mut [u8], at: usize, n: u64, after: u8) -> usize
    requires { at + 21 ≤ length out.old }
    ensures { filled result out.new ≡ laid out.old at (number_text n after) }
{
    let end = put_number(out, at, n);
    put_word(out, end, &[after])
}
