// The responses of the Record Access Control Point (document 002, Tables 3.23 to 3.26): the opcode, the
// operator Null, the operand. None requires anything.
ghost use Rattle.std.specs.Prelude.{◌≡◌};
ghost use Rattle.codes.specs.Response.{code_of, code_bytes, count_bytes};

use crate::racp::{CODE_RESPONSE, NULL};
use octets::numbers::bytes2;

// The response codes of Table 3.26 that a write, or the end of a report, is answered with.
#[derive(Clone, Copy)]
pub enum Code {
    Success = 0x01,
    OpcodeNotSupported = 0x02,
    InvalidOperator = 0x03,
    OperatorNotSupported = 0x04,
    InvalidOperand = 0x05,
    NoRecordsFound = 0x06,
    AbortUnsuccessful = 0x07,
    ProcedureNotCompleted = 0x08,
    OperandNotSupported = 0x09,
}

// Its number. Refuses nothing.
#[tactic(auto, unfolding(crate::specs::Response::code_of))]
pub fn code_of(code: Code) -> u8
    ensures { result ≡ code_of code }
{
    code as u8
}

// The opcode that was asked, and the code.
#[tactic(auto, unfolding(crate::specs::Response::code_bytes))]
pub fn code_bytes(opcode: u8, code: Code) -> [u8; 4]
    ensures { result ≡ code_bytes opcode code }
{
    [CODE_RESPONSE, NULL, opcode, code_of(code)]
}

// A count of records: the response of Number, and the closing of a Combined Report.
#[tactic(auto, unfolding(crate::specs::Response::count_bytes))]
pub fn count_bytes(response: u8, n: u16) -> [u8; 4]
    ensures { result ≡ count_bytes response n }
{
    let count = bytes2(n);
    [response, NULL, count[0], count[1]]
}
