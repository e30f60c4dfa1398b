// Seconds since 2000-01-01 and dates of the years 2000 to 2099, each from the other.
ghost use Rattle.std.specs.Prelude.{◌≡◌, true, ◌+◌, ◌≤◌, ◌<◌};
ghost use Rattle.calendar_months.specs.Months.{days_before};
ghost use Rattle.calendar_dates.specs.Dates.{month_b, time_of_day_b, exists_b, month_number, date_of_seconds, seconds_of_date, NothingLost};

use calendar_months::months::days_before;
use rules::fields::LAST_BASE_TIME;

const DAY: u64 = 86400;

#[derive(Clone, Copy)]
pub struct Date {
    pub year: u16,
    pub month: u8,
    pub day: u8,
    pub hour: u8,
    pub minute: u8,
    pub second: u8,
}

// The month in which a day lies. 48 months have 1,461 days; were they all of one length, the day after the next would lie in this
// month or in the one after it.
fn month_of(day: u32) -> usize
    requires { day < 36525 }
    ensures { (result < 1200) × (days_before result ≤ day) × (day < days_before (result + 1)) }
{
    let near = 48 * (day as usize + 2) / 1461;
    if day < days_before(near) {
        near - 1
    } else {
        near
    }
}

// None after 2099.
pub fn date_of_seconds(seconds: u64) -> Option<Date>
    ensures { result ≡ date_of_seconds seconds }
{
    if seconds > LAST_BASE_TIME as u64 {
        return None;
    }
    let day = (seconds / DAY) as u32;
    let month = month_of(day);
    let rest = seconds % DAY;
    Some(Date {
        year: 2000 + (month / 12) as u16,
        month: (month % 12) as u8 + 1,
        day: (day - days_before(month)) as u8 + 1,
        hour: (rest / 3600) as u8,
        minute: (rest % 3600 / 60) as u8,
        second: (rest % 60) as u8,
    })
}

#[tactic(auto, unfolding(crate::specs::Dates::month_b))]
fn month_exists(date: Date) -> bool
    ensures { result ≡ month_b date }
{
    (2000..=2099).contains(&date.year) && (1..=12).contains(&date.month)
}

#[tactic(auto, unfolding(crate::specs::Dates::time_of_day_b))]
fn time_exists(date: Date) -> bool
    ensures { result ≡ time_of_day_b date }
{
    date.hour <= 23 && date.minute <= 59 && date.second <= 59
}

// How many months after January 2000.
fn month_number(date: Date) -> usize
    requires { month_b date ≡ true }
    ensures { (result ≡ month_number date) × (result < 1200) }
{
    12 * (date.year - 2000) as usize + (date.month - 1) as usize
}

#[tactic(auto, unfolding(crate::specs::Dates::exists_b, crate::specs::Dates::day_b))]
fn exists(date: Date) -> bool
    ensures { result ≡ exists_b date }
{
    if !month_exists(date) {
        return false;
    }
    let month = month_number(date);
    let days = days_before(month + 1) - days_before(month);
    (1..=days).contains(&(date.day as u32)) && time_exists(date)
}

// None of a date that does not exist in the years 2000 to 2099.
pub fn seconds_of_date(date: Date) -> Option<u64>
    ensures { result ≡ seconds_of_date date }
{
    if !exists(date) {
        return None;
    }
    let month = month_number(date);
    let days = days_before(month) as u64 + (date.day - 1) as u64;
    Some(DAY * days + (3600 * date.hour as u64 + (60 * date.minute as u64 + date.second as u64)))
}

// Theorem Nothing lost.
pub fn nothing_lost()
    ensures { NothingLost }
{}
