// The ramp's calls. Which side was refused is said in a number of the caller's; so is where a record's part of a table lies, since
// no slice can be handed back to C.
ghost use Rattle.std.specs.Prelude.{◌≡◌, true, [], ◌∷◌, ◌<◌, length};
ghost use Rattle.state_bytes.specs.Results.{refusal};
ghost use Rattle.table.specs.Table.{count, sound_b};
ghost use Rattle.table_look.specs.Part.{place_at, part_at};
ghost use Rattle.ramp_newest.specs.Newest.{later_update_of};
ghost use Rattle.ramp_bytes.specs.Calls.{verdict_result, part_numbers, ruled, one_beast_at, placed, newest_update_at};

use ramp::beast::{Beasts, RampError, Seen, one_beast, verdict_number, verdict_side};
use ramp_newest::newest::{Later, LaterError, later_number, later_side, later_update};
use table_look::look::{part_at, place_at};

// Below 0, minus the number.
fn refused(number: u8) -> i32
    ensures { result ≡ refusal number }
{
    0 - number as i32
}

fn result(v: Result<Beasts, RampError>) -> i32
    ensures { result ≡ verdict_result v }
{
    match v {
        Ok(Beasts::One) => 1,
        Ok(Beasts::Two) => 2,
        Err(_) => refused(verdict_number(v)),
    }
}

// One beast, 1, or two, 2. Refuses: 18; of the left side 1, 12, 13; of the right side 1, 12, 13. The parameters are those of C.
pub fn one_beast_at(
    left: &[u8],
    left_base: u32,
    left_stamp: u32,
    left_next: u16,
    right: &[u8],
    right_base: u32,
    right_stamp: u32,
    right_next: u16,
    window: u32,
    side: &mut u32,
) -> i32
    ensures { ruled result side.new ≡ one_beast_at left.now left_base left_stamp left_next right.now right_base right_stamp right_next window }
{
    let first = Seen {
        base: left_base,
        stamp: left_stamp,
        next: left_next,
    };
    let second = Seen {
        base: right_base,
        stamp: right_stamp,
        next: right_next,
    };
    let verdict = one_beast(first, left, second, right, window);
    *side = verdict_side(verdict) as u32;
    result(verdict)
}

// A record's side, the place of its first byte, and how many there are.
fn numbers_of(side: u8, t: &[u8], age: usize) -> [u32; 3]
    requires { (sound_b t.now ≡ true) × (age < count t.now) }
    ensures { result ≡ side ∷ place_at t.now age ∷ length (part_at t.now age) ∷ [] }
{
    let place = place_at(t, age);
    let part = part_at(t, age);
    [side as u32, place as u32, part.len() as u32]
}

fn part_numbers(left: &[u8], right: &[u8], later: Result<Later, LaterError>) -> [u32; 3]
    requires { later ≡ later_update_of left.now right.now }
    ensures { result ≡ part_numbers left.now right.now later }
{
    let side = later_side(later);
    match later {
        Ok(Later::Left(age)) => numbers_of(side, left, age),
        Ok(Later::Right(age)) => numbers_of(side, right, age),
        Err(_) => [side as u32, 0, 0],
    }
}

// The later of two logs' newest Time_Updates. Refuses: 1 of the left table, 1 of the right one, 19.
pub fn newest_update_at(left: &[u8], right: &[u8], part: &mut [u32; 3]) -> i32
    ensures { placed result part.new ≡ newest_update_at left.now right.now }
{
    let later = later_update(left, right);
    *part = part_numbers(left, right, later);
    refused(later_number(later))
}
