// Reading the record that was joined, by the rule for all records (document 01, "Log table, a lent buffer").
ghost use Rattle.std.specs.Prelude.{◌≡◌, ◌≤◌, length, take};
ghost use Rattle.record_read.specs.Reading.{read_of};
ghost use Rattle.joining.specs.Reading.{read_joined_of};

use crate::joining::Joining;
use record::kinds::{MOST_BYTES, Record};
use record_read::reading::read;

// The record that the first `len` bytes are.
fn read_first(bytes: &[u8], len: usize) -> Option<Record>
    requires { len ≤ length bytes.now }
    ensures { result ≡ read_of (take len bytes.now) }
{
    read(&bytes[0..len])
}

// Reads the joined bytes where they stand. Refuses: 11; a length over 45 too, since what stands there then is
// 45 bytes and no record has so many.
pub fn read_joined(j: Joining) -> Option<Record>
    ensures { result ≡ read_joined_of j }
{
    if j.len > MOST_BYTES {
        return None;
    }
    read_first(&j.bytes, j.len as usize)
}
