// Starting a reader.
ghost use Rattle.std.specs.Prelude.{◌≡◌};
ghost use Rattle.server_bytes.specs.Start.{started_bytes, start_at};

use firmware::start;

// A new reader: its clock's image in the state, its empty log in the table. Refuses: 1 by the table's size,
// then 2 for a state of another length; then nothing is written. What stood in the state is not looked at.
#[unsafe(no_mangle)]
pub extern "C" fn dts_start(state: &mut [u8], table: &mut [u8]) -> i32
    ensures { started_bytes result state.new table.new ≡ start_at state.old table.old }
{
    start::dts_start(state, table)
}
