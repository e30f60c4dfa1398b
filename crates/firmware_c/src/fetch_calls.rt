// The tablet's calls on the map of numbers received: what is still to be fetched.
ghost use Rattle.std.specs.Prelude.{◌≡◌};
ghost use Rattle.fetch_bytes.specs.Calls.{told as Calls·told, tell_at, proposed, propose_at, mapped, take_at, received_at};

use firmware::fetch_calls;

// What the reader holds is told, and every bit outside cleared. Refuses: 3.
#[unsafe(no_mangle)]
pub extern "C" fn dts_fetch_tell(
    map: &mut [u64],
    told: &mut [u16; 3],
    any: u8,
    oldest: u16,
    newest: u16,
) -> i32
    ensures { Calls·told result map.new told.new ≡ tell_at map.old told.old any oldest newest }
{
    fetch_calls::dts_fetch_tell(map, told, any, oldest, newest)
}

// The request for the first run that is missing: 7 bytes, or 0 where nothing is. Refuses: 3.
#[unsafe(no_mangle)]
pub extern "C" fn dts_fetch_propose(map: &[u64], told: &[u16; 3], request: &mut [u8; 7]) -> i32
    ensures { proposed result request.new ≡ propose_at map.now told.now request.old }
{
    fetch_calls::dts_fetch_propose(map, told, request)
}

// A record's number is taken in. Refuses: 3.
#[unsafe(no_mangle)]
pub extern "C" fn dts_fetch_take(map: &mut [u64], told: &[u16; 3], number: u16) -> i32
    ensures { mapped result map.new ≡ take_at map.old told.now number }
{
    fetch_calls::dts_fetch_take(map, told, number)
}

// How many numbers are received. Refuses: 3.
#[unsafe(no_mangle)]
pub extern "C" fn dts_fetch_received(map: &[u64]) -> i32
    ensures { result ≡ received_at map.now }
{
    fetch_calls::dts_fetch_received(map)
}
