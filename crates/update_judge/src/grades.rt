// The grades by which a proposal is held against the clock (document 01, "Time updates"): the paper's numbers, which it
// compares. None requires anything.
ghost use Rattle.std.specs.Prelude.{◌≡◌};
ghost use Rattle.update_judge.specs.Grades.{clock_grade, stops_at_two, grade_of};

use crate::proposal::Proposal;
use clock::state::{UNKNOWN_DST, UNKNOWN_ZONE};

// By Table 3.7's bits: in time fault 0, qualified local 3, UTC aligned only 2, else 1.
#[tactic(auto, unfolding(crate::specs::Grades::clock_grade))]
pub fn clock_grade(status: u16) -> u8
    ensures { result ≡ clock_grade status }
{
    if status % 2 == 1 {
        0
    } else if status / 4 % 2 == 1 {
        3
    } else if status / 2 % 2 == 1 {
        2
    } else {
        1
    }
}

// Radio time, 3, has no local time in it (Section 3.3.1.5.3); sources 0, 4 and 7 can't vouch for it either.
fn stops_at_two(source: u8) -> bool
    ensures { result ≡ stops_at_two source }
{
    matches!(source, 0 | 3 | 4 | 7)
}

// By Table 3.17's flags: the qualified-local flag counts only beside the UTC flag, and only where zone and
// DST are known and the source can vouch for them. Other flags are ignored.
#[tactic(auto, unfolding(crate::specs::Grades::grade_of, crate::specs::Grades::local_b))]
pub fn grade_of(p: Proposal) -> u8
    ensures { result ≡ grade_of p }
{
    let utc = p.flags % 2;
    let local = p.flags / 2 % 2;
    let place = local == 1 && p.zone != UNKNOWN_ZONE && p.dst != UNKNOWN_DST;
    if utc != 1 {
        1
    } else if place && !stops_at_two(p.source) {
        3
    } else {
        2
    }
}
