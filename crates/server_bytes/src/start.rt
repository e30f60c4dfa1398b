// Starting a reader.
ghost use Rattle.std.specs.Prelude.{◌≡◌};
ghost use Rattle.server_bytes.specs.Start.{started_bytes, short_of, start_at};

use crate::results::settle_event;
use state_bytes::state::STATE_BYTES;
use table::header::size_ok;

// The state's buffer has another length than 32: row 1 by the table's size, then row 2.
fn short(size: usize) -> i32
    ensures { result ≡ short_of size }
{
    if size_ok(size) { -2 } else { -1 }
}

// A new reader: its clock's image in the state, its empty log in the table. Refuses: 1 by the table's size,
// then 2 for a state of another length; then nothing is written. What stood in the state is not looked at.
pub fn start_at(state: &mut [u8], table: &mut [u8]) -> i32
    ensures { started_bytes result state.new table.new ≡ start_at state.old table.old }
{
    if state.len() != STATE_BYTES {
        return short(table.len());
    }
    let (clock, answer) = update::start::start(table);
    settle_event(state, &clock, answer)
}
