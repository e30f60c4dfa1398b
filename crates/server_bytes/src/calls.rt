// The calls that take the log table. A state that is no image is a clock that breaks a rule: 2, after 1.
ghost use Rattle.std.specs.Prelude.{◌≡◌};
ghost use Rattle.server_bytes.specs.Calls.{called, fault_at, dtcp_at, racp_at, notify_at};

use crate::results::{length_of, settle};
use racp_access::access::record_access;
use racp_notify::notify::notify;
use state_bytes::state::clock_of;
use update::fault::fault;
use update::time_update::time_update;

// A time fault. Refuses: 1, 2 whole, 3. Answers the length of a running report's last response, or 0.
pub fn fault_at(state: &mut [u8], table: &mut [u8], out: &mut [u8]) -> i32
    ensures { called result state.new table.new out.new ≡ fault_at state.old table.old out.old }
{
    let mut clock = clock_of(state);
    let answer = fault(&mut clock, table, out);
    settle(state, clock, answer)
}

// A write to the Device Time Control Point. Refuses: 1, 2 whole, 3, 4, 5, 6. Answers the response's length.
pub fn dtcp_at(state: &mut [u8], table: &mut [u8], write: &[u8], out: &mut [u8]) -> i32
    ensures { called result state.new table.new out.new ≡ dtcp_at state.old table.old write.now out.old }
{
    let mut clock = clock_of(state);
    let answer = time_update(&mut clock, table, write, out);
    settle(state, clock, answer)
}

// A write to the Record Access Control Point. Refuses: 1, 2 whole, 3, 4, 5, 6. Answers the response's length;
// the table is only read.
pub fn racp_at(state: &mut [u8], table: &[u8], write: &[u8], out: &mut [u8]) -> i32
    ensures { called result state.new table.now out.new ≡ racp_at state.old table.now write.now out.old }
{
    let mut clock = clock_of(state);
    let answer = record_access(&mut clock, table, write, out);
    settle(state, clock, answer)
}

// The next notification of the running report, of up to p bytes. Refuses: 1, 2 whole, 3, 8. Answers its
// length, and 256 more where these bytes close the report.
pub fn notify_at(state: &mut [u8], table: &[u8], p: u32, out: &mut [u8]) -> i32
    ensures { called result state.new table.now out.new ≡ notify_at state.old table.now p out.old }
{
    let mut clock = clock_of(state);
    let said = notify(&mut clock, table, p, out);
    settle(state, clock, length_of(said))
}
