// A tag's line on the sheet: what both antennas noted of it, the same stamps carried, and whether it was one beast.
ghost use Rattle.std.specs.Prelude.{◌≡◌, ◌++◌, ◌≤◌, ◌<◌, length};
ghost use Rattle.text.specs.Line.{text_of, fitted, two_digits};
ghost use Rattle.day_sheet.specs.Sheet.{time_of_day, seconds_in, noted_of, signed_of, outcome_of, carried_of, shown_text, apart_text, pair_text, verdict_text, ruling_text, tag_line, title_line};

use carry::stamp::{CarryError, carrying_number};
use ramp::beast::{Beasts, RampError, verdict_number};
use text::line::{Line, empty, with_byte, with_number, with_word};

// What an antenna that saw a tag has of it: the stamp that it noted, and what carrying made of it.
#[derive(Clone, Copy)]
pub struct Sight {
    pub stamp: u32,
    pub carried: Result<i64, CarryError>,
}

// What stands in a column of times.
#[derive(Clone, Copy)]
pub enum Shown {
    Nothing,
    At(u64),
    // before 2000, as no reader's time is
    Before,
    Refused(u8),
}

fn with_two(line: Line, n: u64) -> Line
    ensures { text_of result ≡ fitted (text_of line ++ two_digits n) }
{
    let tens = with_byte(line, b'0' + (n / 10 % 10) as u8);
    with_byte(tens, b'0' + (n % 10) as u8)
}

// hh:mm:ss
fn with_time(line: Line, base: u64) -> Line
    ensures { text_of result ≡ fitted (text_of line ++ time_of_day base) }
{
    let hours = with_byte(with_two(line, base / 3600 % 24), b':');
    let minutes = with_byte(with_two(hours, base / 60 % 60), b':');
    with_two(minutes, base % 60)
}

// A stamp has 32 bits, so two of them are apart by a number of at most ten digits.
fn noted(s: Option<Sight>) -> Shown
    ensures { (result ≡ noted_of s) × (seconds_in result < 4294967296) }
{
    match s {
        None => Shown::Nothing,
        Some(sight) => Shown::At(sight.stamp as u64),
    }
}

fn signed(z: i64) -> Shown
    ensures { result ≡ signed_of z }
{
    if z < 0 {
        return Shown::Before;
    }
    Shown::At(z as u64)
}

fn outcome(c: Result<i64, CarryError>) -> Shown
    ensures { result ≡ outcome_of c }
{
    let Ok(z) = c else {
        return Shown::Refused(carrying_number(c));
    };
    signed(z)
}

fn carried(s: Option<Sight>) -> Shown
    ensures { result ≡ carried_of s }
{
    match s {
        None => Shown::Nothing,
        Some(sight) => outcome(sight.carried),
    }
}

fn with_shown(line: Line, x: Shown) -> Line
    ensures { text_of result ≡ fitted (text_of line ++ shown_text x) }
{
    match x {
        Shown::Nothing => with_byte(line, b'-'),
        Shown::At(base) => with_time(line, base),
        Shown::Before => with_word(line, b"before"),
        Shown::Refused(number) => {
            let refused = with_word(line, b"refused ");
            with_number(refused, number as u64)
        }
    }
}

// The seconds apart, or `-` where one of the two is no time.
fn with_apart(line: Line, x: Shown, y: Shown) -> Line
    ensures { text_of result ≡ fitted (text_of line ++ apart_text x y) }
{
    let Shown::At(a) = x else {
        return with_byte(line, b'-');
    };
    let Shown::At(b) = y else {
        return with_byte(line, b'-');
    };
    with_number(line, a.abs_diff(b))
}

fn with_pair(line: Line, x: Shown, y: Shown) -> Line
    ensures { text_of result ≡ fitted (text_of line ++ pair_text x y) }
{
    let left = with_shown(with_byte(line, b' '), x);
    let right = with_shown(with_byte(left, b' '), y);
    with_apart(with_byte(right, b' '), x, y)
}

// `one`, `two`, or a refusal's number, after its side where it has one: at most `right 255`.
fn with_verdict(line: Line, v: Result<Beasts, RampError>) -> Line
    ensures { (text_of result ≡ fitted (text_of line ++ verdict_text v)) × (length (verdict_text v) ≤ 9) }
{
    let number = verdict_number(v) as u64;
    match v {
        Ok(Beasts::One) => with_word(line, b"one"),
        Ok(Beasts::Two) => with_word(line, b"two"),
        Err(RampError::WindowTooWide) => with_number(line, number),
        Err(RampError::LeftRefused(_)) => with_number(with_word(line, b"left "), number),
        Err(RampError::RightRefused(_)) => with_number(with_word(line, b"right "), number),
    }
}

// Where an antenna missed the tag there is no pair of stamps to compare, and no verdict.
fn with_ruling(line: Line, ruling: Option<Result<Beasts, RampError>>) -> Line
    ensures { (text_of result ≡ fitted (text_of line ++ ruling_text ruling)) × (length (ruling_text ruling) ≤ 9) }
{
    match ruling {
        None => with_byte(line, b'-'),
        Some(v) => with_verdict(line, v),
    }
}

// One tag's line. No part of it is dropped: it has at most 88 bytes.
pub fn tag_line(
    tag: u16,
    left: Option<Sight>,
    right: Option<Sight>,
    ruling: Option<Result<Beasts, RampError>>,
) -> Line
    ensures { text_of result ≡ tag_line tag left right ruling }
{
    let number = with_number(empty(), tag as u64);
    let both = with_pair(number, noted(left), noted(right));
    let bar = with_word(both, b" |");
    let all = with_pair(bar, carried(left), carried(right));
    let beasts = with_ruling(with_word(all, b" | "), ruling);
    with_byte(beasts, b'\n')
}

pub fn title_line() -> Line
    ensures { text_of result ≡ title_line }
{
    with_word(
        empty(),
        b"tag left right apart | carried left right apart | beasts\n",
    )
}
