// The rows of document 01, "Refusal numbers, tested in this order", that the calls with a table share: 1, 2, 3 of
// each of them, then 4, 5, 6 of a write to a control point. Row 8 stands with its one call.
ghost use Rattle.std.specs.Prelude.{◌≡◌};
ghost use Rattle.rows.specs.Rows.{idle_b, first_failed, table_rows, write_rows};

use crate::whole::running_ok;
use clock::answers::Refusal;
use clock::obeys::clock_ok;
use clock::state::{Clock, Report};
use table_sound::sound::sound;

// "Output shorter than 20 bytes."
pub const LEAST_OUTPUT: usize = 20;

// "Control point write of 0 bytes or over 20."
pub const MOST_WRITE: usize = 20;

// Is no report running?
pub fn idle(running: Option<Report>) -> bool
    ensures { result ≡ idle_b running }
{
    running.is_none()
}

// Rows 1, 2 whole, 3: the table, the clock with it, room in the output.
pub fn table_rows(c: Clock, t: &[u8], room: bool) -> Result<(), Refusal>
    ensures { result ≡ first_failed (table_rows c t.now room) }
{
    if !sound(t) {
        return Err(Refusal::TableNotSound);
    }
    if !clock_ok(c) {
        return Err(Refusal::ClockBroken);
    }
    let running = c.running;
    if !running_ok(t, running) {
        return Err(Refusal::ClockBroken);
    }
    if !room {
        return Err(Refusal::OutputShort);
    }
    Ok(())
}

// Rows 4, 5, 6: the write's length, its switches, no report in its way.
pub fn write_rows(len: usize, on: bool, free: bool) -> Result<(), Refusal>
    ensures { result ≡ first_failed (write_rows len on free) }
{
    if len < 1 {
        return Err(Refusal::WriteLength);
    }
    if MOST_WRITE < len {
        return Err(Refusal::WriteLength);
    }
    if !on {
        return Err(Refusal::SwitchedOff);
    }
    if !free {
        return Err(Refusal::ReportRunning);
    }
    Ok(())
}
