// The clock events that take no table. A state that is no image is a clock that breaks a rule: 2.
ghost use Rattle.std.specs.Prelude.{◌≡◌};
ghost use Rattle.server_bytes.specs.Results.{ran};
ghost use Rattle.server_bytes.specs.Events.{seconds_at, switches_at, disconnect_at};

use firmware::events;

// Base_Time rises by n. Refuses: 2, 7.
#[unsafe(no_mangle)]
pub extern "C" fn dts_seconds(state: &mut [u8], n: u32) -> i32
    ensures { ran result state.new ≡ seconds_at state.old n }
{
    events::dts_seconds(state, n)
}

// The three switches; any value but 0 is on. Refuses: 2.
#[unsafe(no_mangle)]
pub extern "C" fn dts_switches(state: &mut [u8], dtcp: u8, racp: u8, log: u8) -> i32
    ensures { ran result state.new ≡ switches_at state.old dtcp racp log }
{
    events::dts_switches(state, dtcp, racp, log)
}

// All switches off, a running report ends. Refuses: 2.
#[unsafe(no_mangle)]
pub extern "C" fn dts_disconnect(state: &mut [u8]) -> i32
    ensures { ran result state.new ≡ disconnect_at state.old }
{
    events::dts_disconnect(state)
}
