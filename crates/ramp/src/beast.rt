// One beast or two (change request E5): both antennas' stamps of one tag are carried, each is taken from its own clock, and the
// two ages compared.
ghost use Rattle.std.specs.Prelude.{◌≡◌, ◌≤◌, nat_abs, ◌-ℤ◌};
ghost use Rattle.ramp.specs.Bounds.{Sized, carried_bound};
ghost use Rattle.ramp.specs.Beast.{age_of, judge_of, verdict_of, one_beast_of, verdict_number, verdict_side};

use carry::stamp::{CarryError, carry, carrying_number};

// "a window of 0 to 60 seconds"
pub const WIDEST_WINDOW: u32 = 60;

// The two sides, by the numbers that C reads; 0 is neither.
pub const LEFT: u8 = 1;

pub const RIGHT: u8 = 2;

// What one antenna has of a tag: its clock's Base_Time now, the stamp that it noted, and its log's next number then. Its table
// stands beside it: the theorem One beast speaks of judging over a `Seen` and a table.
#[derive(Clone, Copy)]
pub struct Seen {
    pub base: u32,
    pub stamp: u32,
    pub next: u16,
}

#[derive(Clone, Copy)]
pub enum Beasts {
    One,
    Two,
}

// Why it is not told. A side's refusal is carrying's, by its number, as the theorem One beast says it.
#[derive(Clone, Copy)]
pub enum RampError {
    WindowTooWide,
    LeftRefused(u8),
    RightRefused(u8),
}

// Signed: a stamp may be carried to below 0, and to after its clock.
fn age(base: u32, carried: i64) -> i64
    requires { nat_abs carried ≤ carried_bound }
    ensures { result ≡ age_of base carried }
{
    base as i64 - carried
}

// The seconds between two ages, either way round.
fn apart(left: i64, right: i64) -> u64
    ensures { result ≡ nat_abs (left -ℤ right) }
{
    left.abs_diff(right)
}

// "one" exactly when the two ages differ by at most the window, else "two".
fn judge(window: u32, left: i64, right: i64) -> Beasts
    ensures { result ≡ judge_of window left right }
{
    if apart(left, right) <= window as u64 {
        Beasts::One
    } else {
        Beasts::Two
    }
}

// What came of carrying on both sides: the left one's refusal first.
fn judged(
    window: u32,
    left_base: u32,
    left: Result<i64, CarryError>,
    right_base: u32,
    right: Result<i64, CarryError>,
) -> Result<Beasts, RampError>
    requires { Sized left × Sized right }
    ensures { result ≡ verdict_of window left_base left right_base right }
{
    let Ok(l) = left else {
        return Err(RampError::LeftRefused(carrying_number(left)));
    };
    let Ok(r) = right else {
        return Err(RampError::RightRefused(carrying_number(right)));
    };
    Ok(judge(window, age(left_base, l), age(right_base, r)))
}

// One beast or two (change request E5). Refuses: 18; then all of the left carrying, 1, 12, 13; then all of the right one.
pub fn one_beast(
    left: Seen,
    left_table: &[u8],
    right: Seen,
    right_table: &[u8],
    window: u32,
) -> Result<Beasts, RampError>
    ensures { result ≡ one_beast_of left left_table.now right right_table.now window }
{
    if WIDEST_WINDOW < window {
        return Err(RampError::WindowTooWide);
    }
    let first = carry(left.stamp, left.next, left_table);
    let second = carry(right.stamp, right.next, right_table);
    judged(window, left.base, first, right.base, second)
}

// The paper's number of a verdict.
pub fn verdict_number(v: Result<Beasts, RampError>) -> u8
    ensures { result ≡ verdict_number v }
{
    match v {
        Ok(_) => 0,
        Err(RampError::WindowTooWide) => 18,
        Err(RampError::LeftRefused(number)) => number,
        Err(RampError::RightRefused(number)) => number,
    }
}

// The side that was refused, by the number that C reads.
pub fn verdict_side(v: Result<Beasts, RampError>) -> u8
    ensures { result ≡ verdict_side v }
{
    match v {
        Ok(_) => 0,
        Err(RampError::WindowTooWide) => 0,
        Err(RampError::LeftRefused(_)) => LEFT,
        Err(RampError::RightRefused(_)) => RIGHT,
    }
}
