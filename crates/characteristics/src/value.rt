// The values of the three characteristics (document 002, Tables 3.2, 3.4 and 3.6) for our feature bits, byte for
// byte, and the calls that give them.
ghost use Rattle.std.specs.Prelude.{◌≡◌};
ghost use Rattle.rows.specs.Reply.{outcome, reply_by};
ghost use Rattle.characteristics.specs.Value.{device_time_bytes, device_time_of, told, value_by, told_of, feature_of, parameters_of};

use clock::answers::Refusal;
use clock::state::Clock;
use octets::numbers::{bytes2, bytes4};
use octets::parts::put;
use rows::rows::{LEAST_OUTPUT, table_rows};
use table_look::look::next_number;

// Table 3.2: E2E_CRC, 0xFFFF where the feature is not supported; DT_Features, of which bit 1 (time change
// logging) and bit 10 (epoch 2000) are set.
const FEATURE: [u8; 4] = [0xFF, 0xFF, 0x02, 0x04];

// Table 3.4: RTC_Resolution, 0xFFFF for a clock of whole seconds (Section 3.2.1.2); the non-logged limit, 0.
const PARAMETERS: [u8; 4] = [0xFF, 0xFF, 0x00, 0x00];

// Table 3.6: Base_Time, Time_Zone, DST_Offset, DT_Status, Next_Sequence_Number.
fn device_time_bytes(c: Clock, next: u16) -> [u8; 10]
    ensures { result ≡ device_time_bytes c next }
{
    let base = bytes4(c.time.base);
    let status = bytes2(c.time.status);
    let number = bytes2(next);
    [
        base[0],
        base[1],
        base[2],
        base[3],
        c.time.zone,
        c.time.dst,
        status[0],
        status[1],
        number[0],
        number[1],
    ]
}

// Device Time. Refuses: 1, 2 whole, 3. Done, it is answered with 10 bytes; clock and table are only read.
pub fn device_time(c: Clock, t: &[u8], out: &mut [u8]) -> Result<usize, Refusal>
    ensures { outcome (reply_by result c) t.now out.new ≡ device_time_of c t.now out.old }
{
    table_rows(c, t, LEAST_OUTPUT <= out.len())?;
    let value = device_time_bytes(c, next_number(t));
    put(out, 0, &value);
    Ok(10)
}

// Row 3, then the four bytes.
fn tell(value: [u8; 4], out: &mut [u8]) -> Result<usize, Refusal>
    ensures { told (value_by result) out.new ≡ told_of value out.old }
{
    if out.len() < LEAST_OUTPUT {
        return Err(Refusal::OutputShort);
    }
    put(out, 0, &value);
    Ok(4)
}

// Device Time Feature. Refuses: 3. Done, it is answered with 4 bytes.
pub fn feature(out: &mut [u8]) -> Result<usize, Refusal>
    ensures { told (value_by result) out.new ≡ feature_of out.old }
{
    tell(FEATURE, out)
}

// Device Time Parameters. Refuses: 3. Done, it is answered with 4 bytes.
pub fn parameters(out: &mut [u8]) -> Result<usize, Refusal>
    ensures { told (value_by result) out.new ≡ parameters_of out.old }
{
    tell(PARAMETERS, out)
}
