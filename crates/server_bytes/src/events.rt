// The clock events that take no table. A state that is no image is a clock that breaks a rule: 2.
ghost use Rattle.std.specs.Prelude.{◌≡◌};
ghost use Rattle.server_bytes.specs.Results.{ran};
ghost use Rattle.server_bytes.specs.Events.{seconds_at, switches_at, disconnect_at};

use crate::results::settle_event;
use clock::events::{disconnect, seconds, switches};
use state_bytes::state::clock_of;

// Base_Time rises by n. Refuses: 2, 7.
pub fn seconds_at(state: &mut [u8], n: u32) -> i32
    ensures { ran result state.new ≡ seconds_at state.old n }
{
    let mut clock = clock_of(state);
    let answer = seconds(&mut clock, n);
    settle_event(state, &clock, answer)
}

// The three switches; any value but 0 is on. Refuses: 2.
pub fn switches_at(state: &mut [u8], dtcp: u8, racp: u8, log: u8) -> i32
    ensures { ran result state.new ≡ switches_at state.old dtcp racp log }
{
    let mut clock = clock_of(state);
    let answer = switches(&mut clock, dtcp > 0, racp > 0, log > 0);
    settle_event(state, &clock, answer)
}

// All switches off, a running report ends. Refuses: 2.
pub fn disconnect_at(state: &mut [u8]) -> i32
    ensures { ran result state.new ≡ disconnect_at state.old }
{
    let mut clock = clock_of(state);
    let answer = disconnect(&mut clock);
    settle_event(state, &clock, answer)
}
