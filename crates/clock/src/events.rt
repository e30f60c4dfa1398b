// The clock events that take no table (document 01, "Clock events"). None requires anything. "A refusal
// leaves state .. untouched": the clock stays as it was.
ghost use Rattle.std.specs.Prelude.{◌≡◌};
ghost use Rattle.clock.specs.Events.{event, seconds_of, switches_of, disconnect_of};

use crate::answers::Refusal;
use crate::obeys::clock_ok;
use crate::state::{Clock, Switches, all_off};
use rules::fields::LAST_BASE_TIME;

// Seconds n: Base_Time rises by n, in a fault and in a report too.
// Refuses: 2, 7.
pub fn seconds(c: &mut Clock, n: u32) -> Result<(), Refusal>
    ensures { event result c.new ≡ seconds_of c.old n }
{
    if !clock_ok(*c) {
        return Err(Refusal::ClockBroken);
    }
    if LAST_BASE_TIME - c.time.base < n {
        return Err(Refusal::PastTheEnd);
    }
    c.time.base += n;
    Ok(())
}

// The three switches on or off; nothing else changes, a running report goes on.
// Refuses: 2.
pub fn switches(c: &mut Clock, dtcp: bool, racp: bool, log: bool) -> Result<(), Refusal>
    ensures { event result c.new ≡ switches_of c.old dtcp racp log }
{
    if !clock_ok(*c) {
        return Err(Refusal::ClockBroken);
    }
    c.switches = Switches { dtcp, racp, log };
    Ok(())
}

// Disconnect: all switches off, a running report ends without response, clock and log stay. It takes no
// table, so a report that is out of step with its table ends here.
// Refuses: 2.
pub fn disconnect(c: &mut Clock) -> Result<(), Refusal>
    ensures { event result c.new ≡ disconnect_of c.old }
{
    if !clock_ok(*c) {
        return Err(Refusal::ClockBroken);
    }
    c.switches = all_off();
    c.running = None;
    Ok(())
}
