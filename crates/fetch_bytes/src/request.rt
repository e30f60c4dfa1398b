// The request that a tablet sends for a proposed run: Report Stored Records, within the range from its first number to its last.
ghost use Rattle.std.specs.Prelude.{◌≡◌};
ghost use Rattle.fetch_bytes.specs.Request.{request_bytes};

use codes::racp::{REPORT_OPCODE, SEQUENCE_TYPE, WITHIN_RANGE};
use octets::numbers::bytes2;

pub fn request_bytes(first: u16, last: u16) -> [u8; 7]
    ensures { result ≡ request_bytes first last }
{
    let a = bytes2(first);
    let b = bytes2(last);
    [
        REPORT_OPCODE,
        WITHIN_RANGE,
        SEQUENCE_TYPE,
        a[0],
        a[1],
        b[0],
        b[1],
    ]
}
