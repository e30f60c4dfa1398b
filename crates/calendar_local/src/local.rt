// A record's local time (change request E4).
ghost use Rattle.std.specs.Prelude.{◌≡◌, ◌+◌, ◌*◌};
ghost use Rattle.calendar_local.specs.Local.{in_zone, local_time, local_of, local_date};

use calendar_dates::dates::{Date, date_of_seconds};
use record::kinds::Record;

const QUARTER_HOUR: u64 = 900;

// The zone is kept as its byte: 0 to 127 as they stand, the others are 256 more than the zone.
#[tactic(auto, unfolding(crate::specs::Local::in_zone))]
fn in_zone(base: u32, zone: u8, dst: u8) -> Option<u64>
    ensures { result ≡ in_zone (base + 900 * dst) zone }
{
    let seconds = base as u64 + QUARTER_HOUR * dst as u64;
    if zone < 128 {
        return Some(seconds + QUARTER_HOUR * zone as u64);
    }
    seconds.checked_sub(QUARTER_HOUR * (256 - zone as u64))
}

#[tactic(auto, unfolding(crate::specs::Local::local_time))]
fn local_time(base: u32, zone: u8, dst: u8) -> Option<u64>
    ensures { result ≡ local_time base zone dst }
{
    if zone == 128 || dst == 255 {
        return None;
    }
    in_zone(base, zone, dst)
}

// Seconds since 2000-01-01 by local time; none where it is not known, or was before 2000.
#[tactic(auto, unfolding(crate::specs::Local::local_of))]
pub fn local_of(r: Record) -> Option<u64>
    ensures { result ≡ local_of r }
{
    match r {
        Record::TimeUpdate(u) => local_time(u.base, u.zone, u.dst),
        Record::TimeFault(_) => None,
    }
}

#[tactic(auto, unfolding(crate::specs::Local::local_date))]
pub fn local_date(local: Option<u64>) -> Option<Date>
    ensures { result ≡ local_date local }
{
    date_of_seconds(local?)
}
