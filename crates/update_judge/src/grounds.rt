// The grounds on which a time update is rejected (document 01, "Time updates"): "every ground is tested and
// all flags that apply go into Procedure Rejected". None requires anything.
ghost use Rattle.std.specs.Prelude.{◌≡◌, ◌+◌, ◌≤◌};
ghost use Rattle.update_judge.specs.Grounds.{flag_if, seconds_apart, epoch_b, range_b, lower_b, unrealistic_b, grounds_of};

use crate::grades::{clock_grade, grade_of};
use crate::proposal::Proposal;
use clock::state::Time;
use octets::choice::both;
use rules::fields::{base_ok, dst_ok, source_ok, zone_ok};

// The rejection flags, in the positions of Table 3.22.
pub const UNREALISTIC: u16 = 0x0001;

pub const OUT_OF_RANGE: u16 = 0x0004;

pub const LOWER_QUALITY: u16 = 0x0020;

pub const WRONG_EPOCH: u16 = 0x0040;

// How far a proposal may lie from the time of a UTC-aligned clock.
pub const REALISTIC_SECONDS: u32 = 86_400;

// The flags told so far, and this one where its ground applies.
#[tactic(auto, unfolding(crate::specs::Grounds::flag_if))]
fn also(flags: u16, applies: bool, flag: u16) -> u16
    requires { flags + flag ≤ 65535 }
    ensures { (result ≡ flags + flag_if applies flag) × (result ≤ flags + flag) }
{
    if applies { flags + flag } else { flags }
}

// The larger minus the smaller: a clock may be set back.
#[tactic(auto, unfolding(crate::specs::Grounds::seconds_apart))]
pub fn seconds_apart(a: u32, b: u32) -> u32
    ensures { result ≡ seconds_apart a b }
{
    a.abs_diff(b)
}

#[tactic(auto, unfolding(crate::specs::Grounds::epoch_b))]
fn wrong_epoch(p: Proposal) -> bool
    ensures { result ≡ epoch_b p }
{
    p.flags / 64 % 2 != 1
}

// The number is compared as it stands, whatever its epoch.
#[tactic(auto, unfolding(crate::specs::Grounds::range_b))]
fn out_of_range(p: Proposal) -> bool
    ensures { result ≡ range_b p }
{
    let place = both(zone_ok(p.zone), dst_ok(p.dst));
    let inside = both(base_ok(p.base), both(place, source_ok(p.source)));
    !inside
}

#[tactic(auto, unfolding(crate::specs::Grounds::lower_b))]
fn lower_quality(time: Time, p: Proposal) -> bool
    ensures { result ≡ lower_b time p }
{
    grade_of(p) < clock_grade(time.status)
}

#[tactic(auto, unfolding(crate::specs::Grounds::unrealistic_b))]
fn unrealistic(time: Time, p: Proposal) -> bool
    ensures { result ≡ unrealistic_b time p }
{
    let aligned = time.status / 2 % 2 == 1;
    let apart = seconds_apart(time.base, p.base);
    both(aligned, REALISTIC_SECONDS < apart)
}

// All flags that apply, whichever came before; 0 where there is no ground. Quality and realism are asked of
// a Propose only.
pub fn grounds(time: Time, p: Proposal, forced: bool) -> u16
    ensures { result ≡ grounds_of time p forced }
{
    let proposed = !forced;
    let far = also(0, both(proposed, unrealistic(time, p)), UNREALISTIC);
    let lower = also(far, both(proposed, lower_quality(time, p)), LOWER_QUALITY);
    let range = also(lower, out_of_range(p), OUT_OF_RANGE);
    also(range, wrong_epoch(p), WRONG_EPOCH)
}
