// What a client reads of the three characteristics.
ghost use Rattle.std.specs.Prelude.{◌≡◌};
ghost use Rattle.server_bytes.specs.ValuesRead.{shown, device_time_at, feature_at, parameters_at};

use firmware::values_read;

// Device Time. Refuses: 1, 2 whole, 3. State and table are only read.
#[unsafe(no_mangle)]
pub extern "C" fn dts_device_time(state: &[u8], table: &[u8], out: &mut [u8]) -> i32
    ensures { shown result out.new ≡ device_time_at state.now table.now out.old }
{
    values_read::dts_device_time(state, table, out)
}

// Device Time Feature. Refuses: 3.
#[unsafe(no_mangle)]
pub extern "C" fn dts_feature(out: &mut [u8]) -> i32
    ensures { shown result out.new ≡ feature_at out.old }
{
    values_read::dts_feature(out)
}

// Device Time Parameters. Refuses: 3.
#[unsafe(no_mangle)]
pub extern "C" fn dts_parameters(out: &mut [u8]) -> i32
    ensures { shown result out.new ≡ parameters_at out.old }
{
    values_read::dts_parameters(out)
}
