// What a client reads of the three characteristics.
ghost use Rattle.std.specs.Prelude.{◌≡◌};
ghost use Rattle.server_bytes.specs.ValuesRead.{shown, device_time_at, feature_at, parameters_at};

use crate::results::result_of;
use characteristics::value::{device_time, feature, parameters};
use state_bytes::state::clock_of;

// Device Time. Refuses: 1, 2 whole, 3. State and table are only read.
pub fn device_time_at(state: &[u8], table: &[u8], out: &mut [u8]) -> i32
    ensures { shown result out.new ≡ device_time_at state.now table.now out.old }
{
    result_of(device_time(clock_of(state), table, out))
}

// Device Time Feature. Refuses: 3.
pub fn feature_at(out: &mut [u8]) -> i32
    ensures { shown result out.new ≡ feature_at out.old }
{
    result_of(feature(out))
}

// Device Time Parameters. Refuses: 3.
pub fn parameters_at(out: &mut [u8]) -> i32
    ensures { shown result out.new ≡ parameters_at out.old }
{
    result_of(parameters(out))
}
