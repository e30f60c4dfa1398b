// When a clock obeys the rules of document 01, "Clock state". The running report's next record "is held,
// matches and has bytes unsent (tested only by calls that take the table)": not here.
ghost use Rattle.std.specs.Prelude.{◌≡◌};
ghost use Rattle.clock.specs.Obeys.{opcode_b, report_b, running_b, time_b, clock_b};

use crate::state::{Clock, Report, Time};
use codes::racp::{COMBINED_OPCODE, REPORT_OPCODE};
use octets::choice::both;
use rules::fields::{base_ok, dst_ok, source_ok, status_ok, zone_ok};

// The last value of a notification's counter.
pub const LAST_COUNTER: u8 = 63;

fn opcode_ok(opcode: u8) -> bool
    ensures { result ≡ opcode_b opcode }
{
    match opcode {
        REPORT_OPCODE | COMBINED_OPCODE => true,
        _ => false,
    }
}

// The opcode and the counter; any filter does.
fn report_ok(report: Report) -> bool
    ensures { result ≡ report_b report }
{
    both(opcode_ok(report.opcode), report.counter <= LAST_COUNTER)
}

fn running_ok(running: Option<Report>) -> bool
    ensures { result ≡ running_b running }
{
    match running {
        None => true,
        Some(report) => report_ok(report),
    }
}

fn time_ok(time: Time) -> bool
    ensures { result ≡ time_b time }
{
    let place = both(zone_ok(time.zone), dst_ok(time.dst));
    let quality = both(source_ok(time.source), status_ok(time.status));
    let kept = both(quality, base_ok(time.aligned));
    both(base_ok(time.base), both(place, kept))
}

// Does the clock obey every rule that needs no table? Any switches do. Refuses nothing.
pub fn clock_ok(c: Clock) -> bool
    ensures { result ≡ clock_b c }
{
    let time = c.time;
    let running = c.running;
    both(time_ok(time), running_ok(running))
}
