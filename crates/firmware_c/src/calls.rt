// The calls that take the log table. A state that is no image is a clock that breaks a rule: 2, after 1.
ghost use Rattle.std.specs.Prelude.{◌≡◌};
ghost use Rattle.server_bytes.specs.Calls.{called, fault_at, dtcp_at, racp_at, notify_at};

use firmware::calls;

// A time fault. Refuses: 1, 2 whole, 3. Answers the length of a running report's last response, or 0.
#[unsafe(no_mangle)]
pub extern "C" fn dts_fault(state: &mut [u8], table: &mut [u8], out: &mut [u8]) -> i32
    ensures { called result state.new table.new out.new ≡ fault_at state.old table.old out.old }
{
    calls::dts_fault(state, table, out)
}

// A write to the Device Time Control Point. Refuses: 1, 2 whole, 3, 4, 5, 6. Answers the response's length.
#[unsafe(no_mangle)]
pub extern "C" fn dts_dtcp_write(
    state: &mut [u8],
    table: &mut [u8],
    write: &[u8],
    out: &mut [u8],
) -> i32
    ensures { called result state.new table.new out.new ≡ dtcp_at state.old table.old write.now out.old }
{
    calls::dts_dtcp_write(state, table, write, out)
}

// A write to the Record Access Control Point. Refuses: 1, 2 whole, 3, 4, 5, 6. Answers the response's length;
// the table is only read.
#[unsafe(no_mangle)]
pub extern "C" fn dts_racp_write(
    state: &mut [u8],
    table: &[u8],
    write: &[u8],
    out: &mut [u8],
) -> i32
    ensures { called result state.new table.now out.new ≡ racp_at state.old table.now write.now out.old }
{
    calls::dts_racp_write(state, table, write, out)
}

// The next notification of the running report, of up to p bytes. Refuses: 1, 2 whole, 3, 8. Answers its
// length, and 256 more where these bytes close the report.
#[unsafe(no_mangle)]
pub extern "C" fn dts_notify(state: &mut [u8], table: &[u8], p: u32, out: &mut [u8]) -> i32
    ensures { called result state.new table.now out.new ≡ notify_at state.old table.now p out.old }
{
    calls::dts_notify(state, table, p, out)
}
