// The tablet's calls: joining, reading, keeping, carrying, salvage.
ghost use Rattle.std.specs.Prelude.{◌≡◌};
ghost use Rattle.salvage_bytes.specs.Calls.{salvaged_bytes, salvage_at};
ghost use Rattle.tablet_bytes.specs.Calls.{joined, join_at, reading, read_at, kept_bytes, keep_at, carrying, carry_at};

use firmware::tablet_calls;

// One notification joined. Refuses: 10, another length than 48 bytes too; then every byte lent becomes 0.
// Answers 0 where more is to come, else the length of the whole record that stands there.
#[unsafe(no_mangle)]
pub extern "C" fn dts_join(joining: &mut [u8], notification: &[u8]) -> i32
    ensures { joined result joining.new ≡ join_at joining.old notification.now }
{
    tablet_calls::dts_join(joining, notification)
}

// The record that bytes are. Refuses: 11.
#[unsafe(no_mangle)]
pub extern "C" fn dts_read(bytes: &[u8], fields: &mut [u32; 11]) -> i32
    ensures { reading result fields.new ≡ read_at bytes.now fields.old }
{
    tablet_calls::dts_read(bytes, fields)
}

// A record's bytes kept in the tablet's own copy of a log. Refuses: 1, 11, 23.
#[unsafe(no_mangle)]
pub extern "C" fn dts_keep(table: &mut [u8], bytes: &[u8]) -> i32
    ensures { kept_bytes result table.new ≡ keep_at table.old bytes.now }
{
    tablet_calls::dts_keep(table, bytes)
}

// A stamp carried over the records logged after it. Refuses: 1, 12, 13.
#[unsafe(no_mangle)]
pub extern "C" fn dts_carry(stamp: u32, q: u16, table: &[u8], carried: &mut i64) -> i32
    ensures { carrying result carried.new ≡ carry_at stamp q table.now carried.old }
{
    tablet_calls::dts_carry(stamp, q, table, carried)
}

// A log got back from a damaged table. Refuses: 20, 21, 3. Answers the report's length.
#[unsafe(no_mangle)]
pub extern "C" fn dts_salvage(input: &[u8], table: &mut [u8], report: &mut [u8]) -> i32
    ensures { salvaged_bytes result table.new report.new ≡ salvage_at input.now table.old report.old }
{
    tablet_calls::dts_salvage(input, table, report)
}
