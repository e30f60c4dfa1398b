// Days before each month from January 2000 to the end of 2099.
ghost use Rattle.std.specs.Prelude.{◌≡◌, ◌≤◌};
ghost use Rattle.calendar_months.specs.Months.{days_before, month_starts, TableRule};

use crate::days::DAYS_BEFORE;

// The table where it lies, in the program itself: nothing is copied to look into it.
fn starts() -> &'static [u32; 1201]
    ensures { result.now ≡ month_starts }
{
    &DAYS_BEFORE
}

// The whole table by value.
pub fn month_starts() -> [u32; 1201]
    ensures { result ≡ month_starts }
{
    *starts()
}

// The entry of a month: January 2000 is month 0, and month 1,200 the end of 2099.
pub fn days_before(month: usize) -> u32
    requires { month ≤ 1200 }
    ensures { result ≡ days_before month }
{
    starts()[month]
}

// Theorem Table rule.
pub fn table_rule()
    ensures { TableRule month_starts }
{}
